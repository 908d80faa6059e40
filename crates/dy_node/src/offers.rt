// The hints of a node, to be handed over.
ghost use Rattle.std.specs.{
  Prelude.{◌≡◌, ◌↔◌, ◌⊎◌, ◌-◌, ◌^◌, false, length, map, min, IfOk, IfErr, IsErrOf, IsOkUnless},
  List.{All},
};
ghost use Rattle.std.specs.FinMap as maps;
ghost use Rattle.dy_hint_store.specs.Hints.{IsHint, shown};
ghost use Rattle.dy_node.specs.Nodes.{AreForHomes, AreForOthers, hints_of};

use crate::nodes::Node;
use dy_book::Book;
use dy_dots::{Fault, NodeId};
use dy_hint_store::RowRefFor;
use dy_shares::Naming;
use dy_siblings::Row;
use std::alloc::Global;

/// A home, and a row that is held for it.
pub type RowFor = (NodeId, Row);

// Copies of the rows, each with its home.
fn copied(alloc: Global, hints: &[RowRefFor<'_>]) -> Result<Vec<RowFor>, Fault>
    ensures ok { IfOk result (λ copies. copies.items ≡ map shown hints.now) }
    ensures memory { IsOkUnless result Fault.OutOfMemory }
{
    let mut copies = Vec::with_capacity(alloc, hints.len())?;
    for hint in hints {
        let row = hint.1.try_clone(alloc)?;
        copies.push_reserved((hint.0, row));
    }
    Ok(copies)
}

impl<J: Naming> Node<J> {
    /// How many hints the node keeps, up to the greatest `usize`. A node that is down gives it too.
    /// Takes no memory.
    pub fn hint_count(&self) -> usize
        ensures { result ≡ min (length (maps.entries self.now.rooms.hints)) (2 ^ 64 - 1) }
    {
        self.stores.hint_count()
    }

    /// Copies of the hints, by home and then by key. It borrows the book because the book's log
    /// proves that each hint is for a home of its key.
    pub fn offer(&mut self, book: &mut Book<J>) -> Result<Vec<RowFor>, Fault>
        ensures hints { IfOk result (λ hints. hints.items ≡ hints_of self.old) }
        ensures kept { IfOk result (λ hints. All (IsHint self.old.rooms.hints) hints.items) }
        ensures for_homes { IfOk result (λ hints. AreForHomes J.ring J.n hints.items) }
        ensures for_others { IfOk result (λ hints.
            AreForOthers self.old.part.node hints.items) }
        ensures down { IsErrOf result Fault.Down ↔ (self.old.is_up ≡ false) }
        ensures only { IfErr result (λ fault.
            (fault ≡ Fault.Down) ⊎ (fault ≡ Fault.OutOfMemory)) }
        ensures node { self.new ≡ self.old }
        ensures book { book.new ≡ book.old }
    {
        if !self.is_up {
            return Err(Fault::Down);
        }
        book.agree(&mut self.share);
        let Ok(hints) = self.stores.list(self.alloc) else {
            return Err(Fault::OutOfMemory);
        };
        match copied(self.alloc, hints.as_slice()) {
            Ok(copies) => Ok(copies),
            Err(_fault) => Err(Fault::OutOfMemory),
        }
    }
}
