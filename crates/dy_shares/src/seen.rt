ghost use Rattle.std.specs.Prelude.{◌≡◌, ◌≤◌, length, IfOk, IsOkUnless};
ghost use Rattle.dy_core.specs.{Worlds.{layout_of}, Logs.{IsAnswer, IsLegal}};
ghost use Rattle.dy_shares.specs.Shares.{answer_of, steps_of};

use crate::chronicles::Front;
use crate::names::Naming;
use dy_core::Place;
use dy_dots::{Fault, NodeId};
use dy_siblings::{Key, Row};
use std::alloc::Global;
use std::marker::Model;

/// An answer to a get: the step of this number is a fetch at the holder for the home and the key,
/// with this row. It stays true, whatever steps come, and may be dropped.
pub struct Seen<J: Naming> {
    at: usize,
    place: Place,
    row: Row,
    front: Front<J>,
}

impl<J: Naming> Drop for Seen<J> {
    fn drop(self) {
        let Seen {
            at: _,
            place: _,
            row: _,
            front: _,
        } = self;
    }
}

impl<J: Naming> Model for Seen<J> {
    ghost use Rattle.dy_core.specs.{Worlds.{layout_of}, Logs.{Answer, IsAnswer, IsLegal}};
    ghost use Rattle.dy_shares.specs.{Shares.{answer_of, steps_of}, Codes.{answer_code}};

    ghost Value = { Answer };

    ghost coded = { answer_code };

    ghost view = { λ s. answer_of s.at s.place.holder s.place.home s.row.key s.row };

    ghost invariant = { λ s.
        IsAnswer (steps_of s.front) (answer_of s.at s.place.holder s.place.home s.row.key s.row)
        × IsLegal (layout_of J.ring J.n) (steps_of s.front) };
}

impl<J: Naming> Seen<J> {
    // What the log has at this number as it stood at the front.
    pub(crate) fn new(at: usize, place: Place, row: Row, front: Front<J>) -> Seen<J>
        requires is { IsAnswer (steps_of front) (answer_of at place.holder place.home row.key row) }
        requires legal { IsLegal (layout_of J.ring J.n) (steps_of front) }
        ensures { result ≡ answer_of at place.holder place.home row.key row }
    {
        Seen {
            at,
            place,
            row,
            front,
        }
    }

    /// The number of the step, from 1. Takes no memory.
    pub fn at(&self) -> usize
        ensures { result ≡ self.now.at }
    {
        self.at
    }

    /// The node that answered. Takes no memory.
    pub fn holder(&self) -> NodeId
        ensures { result ≡ self.now.holder }
    {
        self.place.holder
    }

    /// The home that it answered for. Takes no memory.
    pub fn home(&self) -> NodeId
        ensures { result ≡ self.now.home }
    {
        self.place.home
    }

    /// The key that was asked for. Takes no memory.
    pub fn key(&self) -> &Key
        ensures { result.now ≡ self.now.key }
    {
        self.row.key()
    }

    /// The row that was held there. Takes no memory.
    pub fn row(&self) -> &Row
        ensures { result.now ≡ record { key = self.now.key; versions = self.now.row } }
    {
        &self.row
    }

    /// A copy, as true as the answer.
    pub fn try_clone(&self, alloc: Global) -> Result<Seen<J>, Fault>
        ensures value { IfOk result (λ seen. seen ≡ self.now) }
        ensures memory { IsOkUnless result Fault.OutOfMemory }
    {
        Ok(Seen {
            at: self.at,
            place: self.place,
            row: self.row.try_clone(alloc)?,
            front: self.front.copied(),
        })
    }

    // The log as it stood, at which it was made.
    pub(crate) fn front(&self) -> &Front<J>
        ensures is { IsAnswer (steps_of result.now) self.now }
        ensures legal { IsLegal (layout_of J.ring J.n) (steps_of result.now) }
        ensures reached { self.now.at ≤ length result.now }
    {
        &self.front
    }
}
