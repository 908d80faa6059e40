ghost use Rattle.std.specs.Prelude.{◌≡◌, ◌<◌, ◌+◌, ◌*◌, ◌^◌, ℕ, length, get_or};
ghost use Rattle.std.specs.Prelude.{IfOk, IfNone, IfSome, IsOkUnless};
ghost use Rattle.dy_node.specs.declared.asks.Answer.TheVariants.{NoAnswer};
ghost use Rattle.dy_transport.specs.{
  Asking.{what_of},
  Told.{with_none, with_try, AllAnswered, Answers, IsAwaited},
  declared.transports.TheConstants.{SPARE_TRIES},
};
ghost use Rattle.dy_sheets.specs.{
  Kept.{IsKept},
  declared.sent.Sent.{Sent},
  Sheets.{IsFittedTo, IsOfUnsent, IsUnsent, is_awaiting, left_of, nothing_on_sheet},
  Sheets.{with_answer, with_sent, with_told},
};

use crate::answered::Answered;
use crate::kept::Kept;
use crate::sent::Sent;
use dy_core::Place;
use dy_dots::{Fault, NodeId};
use dy_node::{Answer, Ask};
use dy_shares::Naming;
use dy_transport::{Trail, Try, home_asked};
use std::alloc::Global;
use std::marker::Model;

/// What is told of one call, with what each answer is held against, and how many answers to each
/// ask may still be handed on: two at first, one where the first said that nothing came; and the
/// number of the call.
#[derive(Drop)]
pub struct Sheet<J: Naming> {
    trail: Trail<J>,
    sent: Vec<Sent>,
    left: Vec<u8>,
    call: u64,
}

impl<J: Naming> Model for Sheet<J> {
    ghost use Rattle.std.specs.{Prelude.{◌≤◌, vec_capacity}, Coded.{codes}};
    ghost use Rattle.dy_dots.specs.Dots.{dot_set_code};
    ghost use Rattle.dy_siblings.specs.Siblings.{siblings_code};
    ghost use Rattle.dy_shares.specs.Codes.{answer_code, receipt_parts_code as receipt_code};
    ghost use Rattle.dy_sheets.specs.Sheets.{IsSheet, SheetParts};

    ghost Value = { SheetParts J };

    ghost coded = { Prim.hlevel (codes, dot_set_code, siblings_code, receipt_code, answer_code) };

    ghost view = { λ s. record {
      told = s.trail;
      call = s.call;
      sent = s.sent.items;
      left = s.left.items;
    } };

    ghost invariant = { λ s.
        IsSheet s.trail.asks s.trail.room s.trail.replies s.sent.items s.left.items
        × (s.trail.room ≤ vec_capacity s.sent) × (s.trail.room ≤ vec_capacity s.left) };
}

// The first ask that has no answer yet.
fn unanswered(left: &[u8]) -> Option<usize>
    ensures some { IfSome result (λ k. (k < length left.now) × (get_or left.now k 0 ≡ 2)) }
    ensures none { IfNone result
        ((k : ℕ) → k < length left.now → get_or left.now k 0 ≡ 2 → ⊥) }
{
    for k in 0..left.len() {
        if left[k] == 2 {
            return Some(k);
        }
    }
    None
}

// The first ask that is not on its way and has no answer yet.
fn unsent(sent: &[Sent], left: &[u8]) -> Option<usize>
    requires { length sent.now ≡ length left.now }
    ensures some { IfSome result (λ k. (k < length sent.now)
        × ((s : Sent) × IsUnsent sent.now left.now k s)) }
    ensures none { IfNone result
        ((k : ℕ) (s : Sent) → IsUnsent sent.now left.now k s → ⊥) }
{
    for k in 0..sent.len() {
        let one = &sent[k];
        if !one.is_posted && left[k] == 2 {
            return Some(k);
        }
    }
    None
}

// How many answers to an ask may still be handed on, of so many, once this one is: one that says
// more than that nothing came is the last.
fn left_after<J: Naming>(left: u8, answer: &Answer<J>, is_last: bool) -> u8
    requires { 0 < left }
    ensures value { result ≡ left_of left answer.now is_last }
    ensures less { result < left }
    ensures awaited { 0 < result → answer.now ≡ NoAnswer }
{
    match answer {
        Answer::NoAnswer => { if is_last { 0 } else { left - 1 } }
        Answer::Stored(_) | Answer::Rows(_) | Answer::Down | Answer::Refused(_) => 0,
    }
}

impl<J: Naming> Sheet<J> {
    /// A sheet of nothing, with room for so many asks, and two answers to each, for the call of
    /// number 0.
    pub fn new(alloc: Global, room: usize) -> Result<Sheet<J>, Fault>
        requires { room < 2 ^ 32 }
        ensures ok { IfOk result (λ sheet. sheet ≡ nothing_on_sheet room 0) }
        ensures memory { IsOkUnless result Fault.OutOfMemory }
    {
        let trail = Trail::new(alloc, room)?;
        let sent = Vec::with_capacity(alloc, room)?;
        let left = Vec::with_capacity(alloc, room)?;
        Ok(Sheet {
            trail,
            sent,
            left,
            call: 0,
        })
    }

    /// Tells nothing of the call before, for the one of this number. Takes no memory.
    pub fn renew(&mut self, call: u64)
        ensures { self.new ≡ nothing_on_sheet self.old.told.room call }
    {
        self.trail.renew();
        self.sent.clear();
        self.left.clear();
        self.call = call;
    }

    /// For how many asks there is room. Takes no memory.
    pub fn room(&self) -> usize
        ensures { result ≡ self.now.told.room }
    {
        self.trail.room()
    }

    /// How many asks are told. Takes no memory.
    pub fn ask_count(&self) -> usize
        ensures { result ≡ length self.now.told.asks }
    {
        self.sent.len()
    }

    /// Tells of a try. Takes no memory.
    pub fn note_try(&mut self, tried: Try<J>)
        requires { length self.old.told.tries < self.old.told.room + SPARE_TRIES }
        ensures { self.new ≡ with_told self.old (with_try self.old.told tried) }
    {
        self.trail.note_try(tried);
    }

    /// Tells of an ask, with what its answers are held against, and whether it is on its
    /// way. Takes no memory.
    pub fn put(&mut self, to: NodeId, ask: &Ask<'_, J>, kept: Option<Kept>, is_posted: bool)
        requires room { length self.old.told.asks < self.old.told.room }
        requires kept { IsKept (what_of ask.now) kept }
        ensures { self.new ≡ with_sent self.old to ask.now kept is_posted }
    {
        let home = home_asked(ask);
        self.trail.note_ask(to, ask);
        self.sent.push_reserved(Sent {
            to,
            home,
            kept,
            is_posted,
        });
        self.left.push_reserved(2);
    }

    /// Whether an answer may still come. Takes no memory.
    pub fn is_open(&self) -> bool
        ensures { result ≡ is_awaiting self.now.left }
    {
        self.left.iter().any(|left| *left > 0)
    }

    /// Reads an answer that came to this call: it is handed on, as that nothing came where it is no
    /// answer to its ask; one too many for its ask is dropped. Takes no memory.
    #[inline(always)]
    pub fn take(&mut self, answered: Answered<J>) -> Option<(Place, Answer<J>)>
        requires { answered.call ≡ self.old.call }
        ensures none { IfNone result (self.new ≡ self.old) }
        ensures surplus { IfNone result (get_or self.old.left answered.number 0 ≡ 0) }
        ensures some { IfSome result (λ r.
            (self.new ≡ with_answer self.old answered.number r.0.holder r.0.home r.1
            (left_of (get_or self.old.left answered.number 0) r.1 answered.is_last))
            × Answers self.old.told.asks answered.number r.0.holder r.0.home r.1
            × IsAwaited self.old.told.replies answered.number) }
        ensures gives { IfSome result (λ r.
            IsFittedTo self.old.sent answered.number answered.answer r.1) }
        ensures within { IfSome result
            (λ _. length self.old.told.replies < 2 * length self.old.told.asks) }
    {
        let Answered {
            number,
            answer,
            is_last,
            ..
        } = answered;
        if number >= self.left.len() {
            return None;
        }
        let left = self.left[number];
        if left == 0 {
            return None;
        }
        let sent = &self.sent[number];
        let answer = sent.only_fitting(answer);
        self.left[number] = left_after(left, &answer, is_last);
        let place = Place {
            holder: sent.to,
            home: sent.home,
        };
        self.trail
            .note_reply(number, place.holder, place.home, &answer);
        Some((place, answer))
    }

    /// Answers an ask that could not be sent: refused where there was no memory, else that nothing
    /// came. No further answer to it comes. Takes no memory.
    #[inline(always)]
    pub fn take_unsent(&mut self) -> Option<(Place, Answer<J>)>
        ensures none { IfNone result (self.new ≡ self.old) }
        ensures all_sent { IfNone result
            ((k : ℕ) (s : Sent) → IsUnsent self.old.sent self.old.left k s → ⊥) }
        ensures some { IfSome result (λ r. (number : ℕ)
            × (self.new ≡ with_answer self.old number r.0.holder r.0.home r.1 0)
            × Answers self.old.told.asks number r.0.holder r.0.home r.1
            × IsAwaited self.old.told.replies number) }
        ensures gives { IfSome result (λ r. IsOfUnsent self.old r.1) }
        ensures within { IfSome result
            (λ _. length self.old.told.replies < 2 * length self.old.told.asks) }
    {
        let number = unsent(&self.sent, &self.left)?;
        let reason = self.sent[number].not_sent();
        self.take(Answered {
            call: self.call,
            number,
            answer: reason,
            is_last: true,
        })
    }

    /// Nothing more comes: that nothing came to an ask that has no answer yet, else none. Takes no
    /// memory.
    pub fn close(&mut self) -> Option<(Place, Answer<J>)>
        ensures none { IfNone result
            ((self.new ≡ with_told self.old (with_none self.old.told))
            × AllAnswered self.new.told) }
        ensures some { IfSome result (λ r. (number : ℕ)
            × (self.new ≡ with_answer self.old number r.0.holder r.0.home r.1 0)
            × Answers self.old.told.asks number r.0.holder r.0.home r.1
            × IsAwaited self.old.told.replies number) }
        ensures gives { IfSome result (λ r. r.1 ≡ NoAnswer) }
        ensures within { IfSome result
            (λ _. length self.old.told.replies < 2 * length self.old.told.asks) }
    {
        let Some(number) = unanswered(&self.left) else {
            self.trail.note_none();
            return None;
        };
        self.take(Answered {
            call: self.call,
            number,
            answer: Answer::NoAnswer,
            is_last: true,
        })
    }
}
