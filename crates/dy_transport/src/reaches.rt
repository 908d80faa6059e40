ghost use Rattle.std.specs.{
  Prelude.{◌≡◌, ◌↔◌, true, false, None, IsTrue, IfOk, IfErr, IfSome, IsErrOf, IsOkUnless, OnErr},
  Prelude.{IfNone, OnOk},
  Result.{result_err},
  List.{All},
  Sync.Mutex.{mutex_guard_value},
};
ghost use Rattle.dy_preference.specs.Preferences.{homes_of, may_hold};
ghost use Rattle.dy_core.specs.Worlds.{layout_of};
ghost use Rattle.dy_book.specs.Books.{issue_steps, with_untold};
ghost use Rattle.dy_node.specs.{
  Answers.{AnsweredBy, IsDown, MayAsk},
  Nodes.{AreForHomes, AreForOthers, hints_of, version_begun},
  Refusals.{BeginRefused},
  Stored.{versions_at},
  declared.asks.Answer.TheVariants.{NoAnswer},
};
ghost use Rattle.dy_transport.specs.{
  Asking.{IsAnswerTo, IsBegun, IsSeenAt},
  Refusals.{IsOfBegin, IsOfNode, IsOfOffer},
};

use crate::locks::lock_soon;
use dy_book::Book;
use dy_core::Place;
use dy_dots::{Context, Fault, NodeId};
use dy_node::{Answer, Ask, Begun, Node, RowFor, answer, answer_plainly};
use dy_shares::{Naming, Receipt, Seen, Since};
use dy_siblings::{Key, Value};
use std::alloc::Global;
use std::sync::{Mutex, MutexGuard, Wait};

/// What a transport reaches on the caller's own thread: the nodes, in the order of their numbers,
/// and the book. Each call locks the node, then the book, and never two nodes.
#[derive(Drop)]
pub struct Reach<'a, J: Naming> {
    pub(crate) alloc: Global,
    nodes: &'a [Mutex<Node<J>>],
    pub(crate) book: &'a Mutex<Book<J>>,
}

// A clause knows only the type of a locked value. So each call below compares the number of the
// node that it finds with the one asked. They are equal wherever the nodes lie in their order.
// Where they are not, a try answers that the node is down, and an ask is not answered.

// A copy of the value of a put.
fn copied(alloc: Global, value: &Option<Value>) -> Result<Option<Value>, Fault>
    ensures value { IfOk result (λ copy. copy ≡ value.now) }
    ensures memory { IsOkUnless result Fault.OutOfMemory }
{
    match value {
        Some(value) => Ok(Some(value.try_clone(alloc)?)),
        None => Ok(None),
    }
}

// Begins a put at this node, which is the holder, for the home.
fn begin_by<J: Naming>(
    held: &mut Node<J>,
    book: &mut Book<J>,
    place: Place,
    key: &Key,
    context: &Context,
    value: Option<Value>,
) -> Result<Begun<J>, Fault>
    requires number { held.old.part.node ≡ place.holder }
    requires may_hold { IsTrue
        (may_hold (homes_of J.ring J.n key.now) place.holder place.home) }
    ensures begun { IfOk result (λ b. IsBegun (layout_of J.ring J.n) place.holder place.home
        key.now context.now value b) }
    ensures log { OnOk result (book.new ≡ with_untold book.old
        (issue_steps place.holder place.home
        (version_begun book.old held.old key.now context.now value))) }
    ensures row { IfOk result (λ b.
        b.row.versions ≡ versions_at held.new.rooms place.home key.now) }
    ensures err { OnErr result ((held.new ≡ held.old) × (book.new ≡ book.old)) }
    ensures cause { BeginRefused book.old held.old key.now context.now (result_err result) }
    ensures refused { IfErr result IsOfBegin }
{
    // Bring the clauses that the book's log is legal, and that the node keeps what it says.
    held.agree(book);
    book.log_is_legal();
    held.begin(book, place.home, key, context, value)
}

// The hints of this node, which has this number.
fn offer_by<J: Naming>(
    held: &mut Node<J>,
    book: &mut Book<J>,
    node: NodeId,
) -> Result<Vec<RowFor>, Fault>
    requires { held.old.part.node ≡ node }
    ensures hints { IfOk result (λ hints. hints.items ≡ hints_of held.old) }
    ensures for_homes { IfOk result (λ hints. AreForHomes J.ring J.n hints.items) }
    ensures for_others { IfOk result (λ hints. AreForOthers node hints.items) }
    ensures down { IsErrOf result Fault.Down ↔ (held.old.is_up ≡ false) }
    ensures refused { IfErr result IsOfOffer }
    ensures same { (held.new ≡ held.old) × (book.new ≡ book.old) }
{
    held.offer(book)
}

// The first and the later answer of this node.
fn answer_by<J: Naming>(
    held: &mut Node<J>,
    book: &mut Book<J>,
    ask: &Ask<'_, J>,
) -> (Answer<J>, Option<Answer<J>>)
    requires { MayAsk J.ring J.n held.old.part.node ask.now }
    ensures first { IsAnswerTo held.old.part.node ask.now result.0 }
    ensures second { IfSome result.1 (λ second. IsAnswerTo held.old.part.node ask.now second) }
    ensures awaited { IfSome result.1 (λ _. result.0 ≡ NoAnswer) }
    ensures down { IsDown result.0 ↔ (held.old.is_up ≡ false) }
    ensures nothing { held.old.is_up ≡ false →
        (result.1 ≡ None) × (held.new ≡ held.old) × (book.new ≡ book.old) }
    ensures up { held.old.is_up ≡ true → AnsweredBy held.old.mode ask.now
        held.old book.old held.new book.new result.0 result.1 }
{
    answer(held, book, ask)
}

// The answer of this node, where it is up and in the plain mode.
fn answer_plainly_by<J: Naming>(
    held: &mut Node<J>,
    book: &mut Book<J>,
    ask: &Ask<'_, J>,
) -> Option<Answer<J>>
    requires { MayAsk J.ring J.n held.old.part.node ask.now }
    ensures answer { IfSome result (λ answer. IsAnswerTo held.old.part.node ask.now answer) }
    ensures none { IfNone result ((held.new ≡ held.old) × (book.new ≡ book.old)) }
{
    answer_plainly(held, book, ask)
}

impl<'a, J: Naming> Reach<'a, J> {
    /// These nodes and this book. Takes no memory.
    pub fn new(
        alloc: Global,
        nodes: &'a [Mutex<Node<J>>],
        book: &'a Mutex<Book<J>>,
    ) -> Reach<'a, J> {
        Reach { alloc, nodes, book }
    }

    // The node of this number, locked. None if another one lies at the place of its number.
    fn lock_node<R: Wait>(&self, rt: &R, node: NodeId) -> Option<MutexGuard<'_, Node<J>>>
        ensures { IfSome result (λ held. (mutex_guard_value held).part.node ≡ node) }
    {
        let place = self.nodes.get(usize::from(node.number()))?;
        let held = lock_soon(rt, place);
        if held.number() != node {
            return None;
        }
        Some(held)
    }

    // Begins a put at the holder for the home, under the node's lock and the book's.
    #[inline(always)]
    pub(crate) fn begin_at<R: Wait>(
        &self,
        rt: &R,
        place: Place,
        key: &Key,
        context: &Context,
        value: &Option<Value>,
    ) -> Result<Begun<J>, Fault>
        requires { IsTrue (may_hold (homes_of J.ring J.n key.now) place.holder place.home) }
        ensures begun { IfOk result (λ b. IsBegun (layout_of J.ring J.n) place.holder place.home
            key.now context.now value.now b) }
        ensures refused { IfErr result IsOfBegin }
    {
        let copy = copied(self.alloc, value)?;
        let Some(mut held) = self.lock_node(rt, place.holder) else {
            return Err(Fault::Down);
        };
        let mut open = lock_soon(rt, self.book);
        begin_by(&mut held, &mut open, place, key, context, copy)
    }

    // Fetches at the holder for the home, under the node's lock and the book's.
    #[inline(always)]
    pub(crate) fn look_at<R: Wait>(
        &self,
        rt: &R,
        place: Place,
        key: &Key,
        since: &Since<J>,
    ) -> Result<Seen<J>, Fault>
        ensures seen { IfOk result
            (λ s. IsSeenAt place.holder place.home key.now since.now s) }
        ensures refused { IfErr result IsOfNode }
    {
        let Some(mut held) = self.lock_node(rt, place.holder) else {
            return Err(Fault::Down);
        };
        let mut open = lock_soon(rt, self.book);
        held.fetch(&mut open, place.home, key, since)
    }

    // Lists hints, under the node's lock and the book's.
    pub(crate) fn offer_at<R: Wait>(&self, rt: &R, node: NodeId) -> Result<Vec<RowFor>, Fault>
        ensures for_homes { IfOk result (λ hints. AreForHomes J.ring J.n hints.items) }
        ensures for_others { IfOk result (λ hints. AreForOthers node hints.items) }
        ensures refused { IfErr result IsOfOffer }
    {
        let Some(mut held) = self.lock_node(rt, node) else {
            return Err(Fault::Down);
        };
        let mut open = lock_soon(rt, self.book);
        offer_by(&mut held, &mut open, node)
    }

    // Gives up what the receipts name, under the node's lock and the book's.
    pub(crate) fn settle_at<R: Wait>(
        &self,
        rt: &R,
        node: NodeId,
        receipts: &[Receipt<J>],
    ) -> Result<usize, Fault>
        requires { All (λ r. r.holder ≡ r.home) receipts.now }
        ensures { IfErr result IsOfNode }
    {
        let Some(mut held) = self.lock_node(rt, node) else {
            return Err(Fault::Down);
        };
        let mut open = lock_soon(rt, self.book);
        held.settle(&mut open, receipts)
    }

    // The answer of the node, where it is up and in the plain mode. None where it is not, and
    // nothing was done then.
    pub(crate) fn answer_plainly_at<R: Wait>(
        &self,
        rt: &R,
        to: NodeId,
        ask: &Ask<'_, J>,
    ) -> Option<Answer<J>>
        requires { MayAsk J.ring J.n to ask.now }
        ensures { IfSome result (λ answer. IsAnswerTo to ask.now answer) }
    {
        let mut held = self.lock_node(rt, to)?;
        let mut open = lock_soon(rt, self.book);
        answer_plainly_by(&mut held, &mut open, ask)
    }

    /// The node's first and later answer. May wait for locks.
    pub fn answer_at<R: Wait>(
        &self,
        rt: &R,
        to: NodeId,
        ask: &Ask<'_, J>,
    ) -> (Answer<J>, Option<Answer<J>>)
        requires { MayAsk J.ring J.n to ask.now }
        ensures first { IsAnswerTo to ask.now result.0 }
        ensures second { IfSome result.1 (λ second. IsAnswerTo to ask.now second) }
        ensures awaited { IfSome result.1 (λ _. result.0 ≡ NoAnswer) }
    {
        let Some(mut held) = self.lock_node(rt, to) else {
            return (Answer::NoAnswer, None);
        };
        let mut open = lock_soon(rt, self.book);
        answer_by(&mut held, &mut open, ask)
    }
}
