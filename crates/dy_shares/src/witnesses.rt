// What a ledger tells of its log: how long it is, its acks, and witnesses of what holds.
ghost use Rattle.std.specs.{Prelude.{◌≡◌, ◌≤◌, length}, List.{All}};
ghost use mathlib.Core.List.{IsPrefix};
ghost use Rattle.dy_core.specs.{Worlds.{layout_of}, Logs.{IsAnswer, IsLegal}};
ghost use Rattle.dy_shares.specs.{
  Trails.{AreKept},
  Shares.{IsReceipt, acks_of, answer_of, receipt_parts, steps_of},
};

use crate::chronicles::Front;
use crate::kept_steps::KeptStep;
use crate::ledgers::Ledger;
use crate::names::Naming;
use crate::receipts::Receipt;
use crate::seen::Seen;
use crate::since::Since;
use dy_core::{Acked, Place};
use dy_dots::Dot;
use dy_siblings::{Key, Row};

impl<J: Naming> Ledger<J> {
    /// How many steps the log has. Takes no memory.
    pub fn steps(&self) -> usize
        ensures value { result ≡ length self.now.log }
        ensures legal { IsLegal (layout_of J.ring J.n) (steps_of self.now.log) }
    {
        self.steps
    }

    /// The acks of the log, the oldest first. Takes no memory.
    pub fn acked(&self) -> &[Acked]
        ensures { result.now ≡ acks_of (steps_of self.now.log) }
    {
        self.acks.as_slice()
    }

    /// Each step of the log as it is kept, the oldest first. Takes no memory.
    pub fn trail(&self) -> &[KeptStep]
        ensures { AreKept result.now (steps_of self.now.log) }
    {
        self.trail.as_slice()
    }

    /// A receipt of what is covered as the log stands. Takes no memory.
    pub fn receipt(&self, key: Key, dot: Dot, place: Place) -> Receipt<J>
        requires { IsReceipt (steps_of self.now.log)
            (receipt_parts key dot place.holder place.home) }
        ensures { result ≡ receipt_parts key dot place.holder place.home }
    {
        Receipt::new(key, dot, place, self.chronicle.front())
    }

    /// An answer that the log has. Takes no memory.
    pub fn seen(&self, at: usize, place: Place, row: Row) -> Seen<J>
        requires { IsAnswer (steps_of self.now.log)
            (answer_of at place.holder place.home row.key row) }
        ensures { result ≡ answer_of at place.holder place.home row.key row }
    {
        Seen::new(at, place, row, self.chronicle.front())
    }

    /// How many steps the log has. Takes no memory.
    pub fn since(&self) -> Since<J>
        ensures { result ≡ length self.now.log }
    {
        Since::new(self.steps, self.chronicle.front())
    }

    /// The log as it stands. Takes no memory.
    pub fn front(&self) -> Front<J>
        ensures { result ≡ self.now.log }
    {
        self.chronicle.front()
    }

    /// The log begins with the front, whatever came between. Takes no memory.
    pub fn learn(&mut self, front: &Front<J>)
        ensures log { self.new ≡ self.old }
        ensures begins { IsPrefix front.now self.old.log }
    {
        self.chronicle.learn(front);
    }

    /// The receipt holds as the log stands now, whatever came between. Takes no memory.
    pub fn learn_receipt(&mut self, receipt: &Receipt<J>)
        ensures log { self.new ≡ self.old }
        ensures holds { IsReceipt (steps_of self.old.log) receipt.now }
    {
        self.chronicle.learn(receipt.front());
    }

    /// Each of the receipts holds as the log stands now, whatever came between. Takes no memory.
    pub fn learn_receipts(&mut self, receipts: &[Receipt<J>])
        ensures log { self.new ≡ self.old }
        ensures hold { All (IsReceipt (steps_of self.old.log)) receipts.now }
    {
        for receipt in receipts {
            self.learn_receipt(receipt);
        }
    }

    /// The log has the answer at its number, whatever came between. Takes no memory.
    pub fn learn_seen(&mut self, seen: &Seen<J>)
        ensures log { self.new ≡ self.old }
        ensures is { IsAnswer (steps_of self.old.log) seen.now }
    {
        self.chronicle.learn(seen.front());
    }

    /// The log has at least so many steps. Takes no memory.
    pub fn learn_since(&mut self, since: &Since<J>)
        ensures log { self.new ≡ self.old }
        ensures reached { since.now ≤ length self.old.log }
    {
        self.chronicle.learn(since.front());
    }
}
