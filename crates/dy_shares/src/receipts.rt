ghost use Rattle.std.specs.Prelude.{◌≡◌, IfOk, IsOkUnless};
ghost use Rattle.dy_shares.specs.Shares.{IsReceipt, receipt_parts, steps_of};

use crate::chronicles::Front;
use crate::names::Naming;
use dy_core::Place;
use dy_dots::{Dot, Fault, NodeId};
use dy_siblings::Key;
use std::alloc::Global;
use std::marker::Model;

/// A receipt of a dot for a home: its holder, or the home itself, covers the dot for the home. It
/// stays true, whatever steps come, and may be dropped.
pub struct Receipt<J: Naming> {
    key: Key,
    dot: Dot,
    place: Place,
    front: Front<J>,
}

impl<J: Naming> Drop for Receipt<J> {
    fn drop(self) {
        let Receipt {
            key: _,
            dot: _,
            place: _,
            front: _,
        } = self;
    }
}

impl<J: Naming> Model for Receipt<J> {
    ghost use Rattle.dy_shares.specs.{
      Shares.{ReceiptParts, receipt_parts, IsReceipt, steps_of},
      Codes.{receipt_parts_code},
    };

    ghost Value = { ReceiptParts };

    ghost coded = { receipt_parts_code };

    ghost view = { λ r. receipt_parts r.key r.dot r.place.holder r.place.home };

    ghost invariant = { λ r.
        IsReceipt (steps_of r.front) (receipt_parts r.key r.dot r.place.holder r.place.home) };
}

impl<J: Naming> Receipt<J> {
    // What holds of the log as it stood at the front.
    pub(crate) fn new(key: Key, dot: Dot, place: Place, front: Front<J>) -> Receipt<J>
        requires { IsReceipt (steps_of front) (receipt_parts key dot place.holder place.home) }
        ensures { result ≡ receipt_parts key dot place.holder place.home }
    {
        Receipt {
            key,
            dot,
            place,
            front,
        }
    }

    /// The key of the version. Takes no memory.
    pub fn key(&self) -> &Key
        ensures { result.now ≡ self.now.key }
    {
        &self.key
    }

    /// The dot of the version. Takes no memory.
    pub fn dot(&self) -> Dot
        ensures { result ≡ self.now.dot }
    {
        self.dot
    }

    /// Who held the version for the home. Takes no memory.
    pub fn holder(&self) -> NodeId
        ensures { result ≡ self.now.holder }
    {
        self.place.holder
    }

    /// The home that is covered. Takes no memory.
    pub fn home(&self) -> NodeId
        ensures { result ≡ self.now.home }
    {
        self.place.home
    }

    // The log as it stood, at which it was made.
    pub(crate) fn front(&self) -> &Front<J>
        ensures { IsReceipt (steps_of result.now) self.now }
    {
        &self.front
    }

    /// A copy, as true as the receipt.
    pub fn try_clone(&self, alloc: Global) -> Result<Receipt<J>, Fault>
        ensures value { IfOk result (λ receipt. receipt ≡ self.now) }
        ensures memory { IsOkUnless result Fault.OutOfMemory }
    {
        Ok(Receipt {
            key: self.key.try_clone(alloc)?,
            dot: self.dot,
            place: self.place,
            front: self.front.copied(),
        })
    }
}
