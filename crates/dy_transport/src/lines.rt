ghost use Rattle.std.specs.Prelude.{◌≡◌, ◌<◌, ◌+◌, ◌*◌, ◌^◌, ◌++◌, ◌∷◌, [], ℕ, length, IfNone};
ghost use Rattle.std.specs.Prelude.{IfOk, IfSome, IsOkUnless};
ghost use Rattle.std.specs.VecDeque.{deque_capacity, deque_len};
ghost use Rattle.dy_node.specs.declared.asks.Answer.TheVariants.{NoAnswer};
ghost use Rattle.dy_transport.specs.{
  Asking.{IsAnswerTo},
  Lines.{IsReadNext, handed_on, later_for, nothing_in_line, waiting_for, with_told},
  Told.{with_ask, with_none, with_reply, with_try, AllAnswered, Answers, IsAwaited},
  declared.transports.TheConstants.{SPARE_TRIES},
};

use crate::asked::home_asked;
use crate::trails::Trail;
use crate::tries::Try;
use dy_core::Place;
use dy_dots::{Fault, NodeId};
use dy_node::{Answer, Ask};
use dy_shares::Naming;
use std::alloc::Global;
use std::collections::VecDeque;
use std::marker::Model;

/// An answer that waits to be read: the number of its ask, from 0, the node asked, the home, and
/// the answer.
#[derive(Drop)]
pub struct Waiting<J: Naming> {
    pub number: usize,
    pub node: NodeId,
    pub home: NodeId,
    pub answer: Answer<J>,
}

/// A trace, and the answers that wait to be read: first answers in the order of the asks, and after
/// them second answers. It has no lock and no thread, so any transport can use it.
#[derive(Drop)]
pub struct Line<J: Naming> {
    trail: Trail<J>,
    first: VecDeque<Waiting<J>>,
    second: VecDeque<Waiting<J>>,
}

impl<J: Naming> Model for Line<J> {
    ghost use Rattle.std.specs.{Prelude.{◌≤◌}, VecDeque.{deque_capacity}, Coded.{codes}};
    ghost use Rattle.dy_dots.specs.Dots.{dot_set_code};
    ghost use Rattle.dy_siblings.specs.Siblings.{siblings_code};
    ghost use Rattle.dy_shares.specs.Codes.{answer_code, receipt_parts_code as receipt_code};
    ghost use Rattle.dy_transport.specs.{Lines.{LineParts}, inside.Lines.{IsLine}};

    ghost Value = { LineParts J };

    ghost coded = { Prim.hlevel (codes, dot_set_code, siblings_code, receipt_code, answer_code) };

    ghost view = { λ l.
        record { told = l.trail; first = l.first.items; second = l.second.items } };

    ghost invariant = { λ l.
        IsLine l.trail.asks l.trail.room l.trail.replies l.first.items l.second.items
        × (l.trail.room ≤ deque_capacity l.first) × (l.trail.room ≤ deque_capacity l.second) };
}

impl<J: Naming> Line<J> {
    /// An empty line, with room for this many asks, two answers to each, and the tries.
    pub fn new(alloc: Global, room: usize) -> Result<Line<J>, Fault>
        requires { room < 2 ^ 32 }
        ensures ok { IfOk result (λ line. line ≡ nothing_in_line room) }
        ensures memory { IsOkUnless result Fault.OutOfMemory }
    {
        Ok(Line {
            trail: Trail::new(alloc, room)?,
            first: VecDeque::with_capacity(alloc, room)?,
            second: VecDeque::with_capacity(alloc, room)?,
        })
    }

    /// For how many asks there is room. Takes no memory.
    pub fn room(&self) -> usize
        ensures { result ≡ self.now.told.room }
    {
        self.trail.room()
    }

    /// Adds a try to the trace. Takes no memory.
    pub fn note_try(&mut self, tried: Try<J>)
        requires { length self.old.told.tries < self.old.told.room + SPARE_TRIES }
        ensures { self.new ≡ with_told self.old (with_try self.old.told tried) }
    {
        self.trail.note_try(tried);
    }

    /// Adds an ask to the trace, and its answers to the line: one, or a `NoAnswer` and a later one.
    /// Takes no memory.
    pub fn put(&mut self, to: NodeId, ask: &Ask<'_, J>, answer: Answer<J>, later: Option<Answer<J>>)
        requires room { length self.old.told.asks < self.old.told.room }
        requires first { IsAnswerTo to ask.now answer }
        requires second { IfSome later (λ second. IsAnswerTo to ask.now second) }
        requires awaited { IfSome later (λ _. answer ≡ NoAnswer) }
        ensures told { self.new.told ≡ with_ask self.old.told to ask.now }
        ensures first_ones { self.new.first ≡ self.old.first
            ++ waiting_for (length self.old.told.asks) to ask.now answer ∷ [] }
        ensures second_ones { self.new.second ≡ self.old.second
            ++ later_for (length self.old.told.asks) to ask.now later }
    {
        let home = home_asked(ask);
        let number = self.trail.note_ask(to, ask);
        self.first.push_back_reserved(Waiting {
            number,
            node: to,
            home,
            answer,
        });
        if let Some(answer) = later {
            put_later(&mut self.second, number, to, home, answer);
        }
    }

    /// Reads the next answer, with the place that was asked. None where none is left. Takes no
    /// memory.
    pub fn next(&mut self) -> Option<(Place, Answer<J>)>
        ensures next { IsReadNext self.old.told self.old.first self.old.second result self.new }
        ensures none { IfNone result (AllAnswered self.new.told) }
        ensures some { IfSome result (λ r. (number : ℕ)
            × (self.new.told ≡ with_reply self.old.told number r.0.holder r.0.home r.1)
            × Answers self.old.told.asks number r.0.holder r.0.home r.1
            × IsAwaited self.old.told.replies number) }
        ensures drained { IfNone result (self.new.told ≡ with_none self.old.told) }
        ensures within { IfSome result
            (λ _. length self.old.told.replies < 2 * length self.old.told.asks) }
    {
        if let Some(waiting) = self.first.pop_front() {
            return Some(read(&mut self.trail, waiting));
        }
        if let Some(waiting) = self.second.pop_front() {
            return Some(read(&mut self.trail, waiting));
        }
        self.trail.note_none();
        None
    }

    /// Empties the trace for the next call, and drops answers that nobody has read. Takes no
    /// memory.
    pub fn renew(&mut self)
        ensures { self.new ≡ nothing_in_line self.old.told.room }
    {
        self.trail.renew();
        self.first.clear();
        self.second.clear();
    }
}

// Adds a later answer to the end of the line. It is a call of its own: few asks have one, and room
// for it is cleared where it stands.
#[inline(never)]
fn put_later<J: Naming>(
    second: &mut VecDeque<Waiting<J>>,
    number: usize,
    node: NodeId,
    home: NodeId,
    answer: Answer<J>,
)
    requires { deque_len second.old < deque_capacity second.old }
    ensures items { second.new.items ≡ second.old.items
        ++ record { number = number; node = node; home = home; answer = answer } ∷ [] }
    ensures capacity { deque_capacity second.new ≡ deque_capacity second.old }
{
    second.push_back_reserved(Waiting {
        number,
        node,
        home,
        answer,
    });
}

// Adds an answer to the trace, and gives it.
fn read<J: Naming>(trail: &mut Trail<J>, waiting: Waiting<J>) -> (Place, Answer<J>)
    requires { length trail.old.replies < 2 * trail.old.room }
    ensures told { trail.new
        ≡ with_reply trail.old waiting.number waiting.node waiting.home waiting.answer }
    ensures same { result ≡ handed_on waiting }
{
    let Waiting {
        number,
        node,
        home,
        answer,
    } = waiting;
    trail.note_reply(number, node, home, &answer);
    (Place { holder: node, home }, answer)
}
