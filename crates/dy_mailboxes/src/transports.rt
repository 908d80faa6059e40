ghost use Rattle.std.specs.Prelude.{◌≡◌, ◌<◌, ◌≤◌, ◌+◌, ◌*◌, ◌^◌, ℕ, length, IfOk, IfNone, IfSome};
ghost use Rattle.std.specs.Prelude.{IsOkUnless, OnErr, Some, None, true, false};
ghost use Rattle.dy_core.specs.declared.places.Place.{Place};
ghost use Rattle.dy_node.specs.{declared.asks.Answer.{Answer}, Answers.{MayAsk}};
ghost use Rattle.dy_transport.specs.Asking.{what_of};
ghost use Rattle.dy_transport.specs.Told.{AllAnswered, Answers, IsAwaited};
ghost use Rattle.dy_transport.specs.Told.{nothing_told, with_ask, with_none};
ghost use Rattle.dy_sheets.specs.{
  Kept.{IsKept},
  declared.sent.Sent.{Sent},
  Sheets.{IsOfUnsent, IsUnsent, is_awaiting, with_answer, with_sent, with_told},
};
ghost use Rattle.dy_mailboxes.specs.inside.Calls.{with_ask as with_posted};

use crate::parcels::{Parcel, Posted};
use crate::posts::Post;
use crate::replies::Replies;
use dy_book::Book;
use dy_core::Place;
use dy_dots::{Fault, NodeId};
use dy_node::{Answer, Ask, Node};
use dy_shares::Naming;
use dy_sheets::{Answered, Kept, Sheet};
use dy_transport::{Reach, Transport, Try};
use std::alloc::Global;
use std::marker::Model;
use std::sync::{Mutex, Wait};

/// A transport whose asks go to the nodes' workers, and whose tries and acks are made on the
/// caller's own thread. The nodes lie in the order of their numbers, and so do the mailboxes.
pub struct Mailboxes<'a, J: Naming> {
    alloc: Global,
    reach: Reach<'a, J>,
    post: Post<J>,
    replies: Replies<J>,
    sheet: Sheet<J>,
}

impl<'a, J: Naming> Drop for Mailboxes<'a, J> {
    fn drop(self) {
        let Mailboxes {
            alloc: _,
            reach: _,
            post: _,
            replies: _,
            sheet: _,
        } = self;
    }
}

impl<'a, J: Naming> Model for Mailboxes<'a, J> {
    ghost use Rattle.std.specs.Coded.{codes};
    ghost use Rattle.dy_dots.specs.Dots.{dot_set_code};
    ghost use Rattle.dy_siblings.specs.Siblings.{siblings_code};
    ghost use Rattle.dy_shares.specs.Codes.{answer_code, receipt_parts_code as receipt_code};
    ghost use Rattle.dy_transport.specs.Told.{Told};
    ghost use Rattle.dy_mailboxes.specs.inside.Calls.{AreOfOneCall};

    ghost Value = { Told J };

    ghost coded = { Prim.hlevel (codes, dot_set_code, siblings_code, receipt_code, answer_code) };

    ghost view = { λ m. m.sheet.told };

    ghost invariant = { λ m. AreOfOneCall m.sheet m.replies m.post };
}

impl<'a, J: Naming> Mailboxes<'a, J> {
    /// A transport of these nodes, their mailboxes and this book, with room for so many asks.
    pub fn new(
        alloc: Global,
        nodes: &'a [Mutex<Node<J>>],
        book: &'a Mutex<Book<J>>,
        post: Post<J>,
        room: usize,
    ) -> Result<Mailboxes<'a, J>, Fault>
        requires some { 0 < room }
        requires few { room < 2 ^ 32 }
        ensures ok { IfOk result (λ mailboxes. mailboxes ≡ nothing_told room) }
        ensures memory { IsOkUnless result Fault.OutOfMemory }
    {
        let sheet = Sheet::new(alloc, room)?;
        let replies = Replies::new(alloc, room, post.count())?;
        let reach = Reach::new(alloc, nodes, book);
        Ok(Mailboxes {
            alloc,
            reach,
            post,
            replies,
            sheet,
        })
    }
}

// Posts an ask of the present call: what its answers are held against, and whether it is on its
// way.
fn post_ask<J: Naming, R: Wait>(
    rt: &R,
    alloc: Global,
    post: &mut Post<J>,
    replies: &mut Replies<J>,
    number: usize,
    to: NodeId,
    ask: &Ask<'_, J>,
) -> Result<(Kept, bool), Fault>
    requires may_ask { MayAsk J.ring J.n to ask.now }
    requires few { replies.old.posted + 1 < 2 ^ 64 }
    ensures kept { IfOk result (λ posted. IsKept (what_of ask.now) (Some posted.0)) }
    ensures counted { IfOk result (λ _. replies.new ≡ with_posted replies.old) }
    ensures err { OnErr result (replies.new ≡ replies.old) }
    ensures same { post.new ≡ post.old }
    ensures memory { IsOkUnless result Fault.OutOfMemory }
{
    let kept = Kept::new(alloc, ask)?;
    let parcel = Parcel::new(alloc, ask)?;
    let reply_to = replies.reply_to(number)?;
    let is_posted = post.send(
        rt,
        Posted {
            to,
            parcel,
            reply_to,
        },
    );
    if is_posted {
        replies.count_sent();
    }
    Ok((kept, is_posted))
}

// Tells of an ask what came of posting it: what is kept of it, and whether it is on its way, or
// that there was no memory for it.
fn tell_ask<J: Naming>(
    sheet: &mut Sheet<J>,
    to: NodeId,
    ask: &Ask<'_, J>,
    posted: Result<(Kept, bool), Fault>,
)
    requires room { length sheet.old.told.asks < sheet.old.told.room }
    requires kept { IfOk posted (λ p. IsKept (what_of ask.now) (Some p.0)) }
    ensures ok { IfOk posted (λ p. sheet.new ≡ with_sent sheet.old to ask.now (Some p.0) p.1) }
    ensures err { OnErr posted (sheet.new ≡ with_sent sheet.old to ask.now None false) }
    ensures told { sheet.new.told ≡ with_ask sheet.old.told to ask.now }
    ensures call { sheet.new.call ≡ sheet.old.call }
{
    match posted {
        Ok((kept, is_posted)) => sheet.put(to, ask, Some(kept), is_posted),
        Err(_) => sheet.put(to, ask, None, false),
    }
}

// The next answer that comes to this call, while one may still come.
#[inline(always)]
fn receive_awaited<J: Naming, R: Wait>(
    rt: &R,
    replies: &mut Replies<J>,
    sheet: &Sheet<J>,
) -> Option<Answered<J>>
    requires awaiting { is_awaiting sheet.now.left ≡ true }
    ensures some { IfSome result (λ answered. answered.call ≡ replies.old.call) }
    ensures same { replies.new ≡ replies.old }
{
    // The sheet is for the contract alone.
    let _ = sheet;
    replies.receive(rt)
}

// The next answer: that of an ask that could not be sent, else the next that comes to this call and
// is not one too many. Where none is left to come, that nothing came to an ask without an answer,
// else none.
#[inline(always)]
fn next_of<J: Naming, R: Wait>(
    rt: &R,
    replies: &mut Replies<J>,
    sheet: &mut Sheet<J>,
) -> Option<(Place, Answer<J>)>
    requires { sheet.old.call ≡ replies.old.call }
    ensures none { IfNone result
        ((sheet.new ≡ with_told sheet.old (with_none sheet.old.told))
        × AllAnswered sheet.new.told) }
    ensures some { IfSome result (λ r. (number left : ℕ)
        × (sheet.new ≡ with_answer sheet.old number r.0.holder r.0.home r.1 left)
        × Answers sheet.old.told.asks number r.0.holder r.0.home r.1
        × IsAwaited sheet.old.told.replies number) }
    ensures unsent { (k : ℕ) (s : Sent) → IsUnsent sheet.old.sent sheet.old.left k s →
        (r : Place × Answer J) × (result ≡ Some r) × IsOfUnsent sheet.old r.1 }
    ensures within { IfSome result
        (λ _. length sheet.old.told.replies < 2 * length sheet.old.told.asks) }
    ensures same { replies.new ≡ replies.old }
{
    if let Some(reply) = sheet.take_unsent() {
        return Some(reply);
    }
    'waiting: for _ in rt.forever() {
        if !sheet.is_open() {
            break;
        }
        let Some(answered) = receive_awaited(rt, replies, sheet) else {
            break;
        };
        if let Some(reply) = sheet.take(answered) {
            return Some(reply);
        }
    }
    sheet.close()
}

impl<J: Naming> Transport<J> for Mailboxes<'_, J> {
    ghost told = { λ m. m };

    fn room(&self) -> usize {
        self.sheet.room()
    }

    fn reach(&self) -> &Reach<'_, J> {
        &self.reach
    }

    fn note_try(&mut self, tried: &mut Option<Try<J>>) {
        if let Some(tried) = tried.take() {
            self.sheet.note_try(tried);
        }
    }

    fn ask<R: Wait>(&mut self, rt: &R, to: NodeId, ask: &Ask<'_, J>) {
        let number = self.sheet.ask_count();
        let post = &mut self.post;
        let replies = &mut self.replies;
        let posted = post_ask(rt, self.alloc, post, replies, number, to, ask);
        tell_ask(&mut self.sheet, to, ask, posted);
    }

    #[inline(always)]
    fn next_reply<R: Wait>(&mut self, rt: &R) -> Option<(Place, Answer<J>)> {
        next_of(rt, &mut self.replies, &mut self.sheet)
    }

    /// Takes memory once in 2^64 calls, when the numbers of its calls are used up.
    fn renew<R: Wait>(&mut self, rt: &R) -> Result<(), Fault> {
        if self.replies.can_go_on() {
            self.replies.go_on(rt);
        } else {
            self.replies = Replies::new(self.alloc, self.sheet.room(), self.post.count())?;
        }
        self.sheet.renew(self.replies.call());
        Ok(())
    }
}
