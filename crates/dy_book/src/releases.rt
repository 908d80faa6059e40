// How hints are given up.
ghost use Rattle.std.specs.{
  Prelude.{◌≡◌, ◌≢◌, ◌↔◌, ◌⊎◌, ℕ, [], length, IfOk, IfErr, OnOk, OnErr, IsErrOf, IsOk, IsOkUnless},
  List.{All},
};
ghost use Rattle.dy_core.specs.{Worlds.{World}, Logs.{world_from}};
ghost use Rattle.dy_index.specs.Indexes.{IsIndex};
ghost use Rattle.dy_shares.specs.Shares.{BelongsTo, NodeStays, SessionStays, steps_of, with_steps};
ghost use Rattle.dy_book.specs.Books.{AreOfDistinctDots, HasRoom, LacksRoom, MayRelease};
ghost use Rattle.dy_book.specs.Books.{release_steps, with_untold, world_of};

use crate::books::Book;
use dy_core::Place;
use dy_dots::{Fault, NodeId};
use dy_index::KeyPart;
use dy_shares::{Naming, NodeShare, Receipt, StepRef};
use dy_siblings::Key;
use std::alloc::Global;
use std::collections::HashMap;

// A release of each receipt's dot.
fn steps_of_release<'a, J: Naming>(
    alloc: Global,
    holder: NodeId,
    receipts: &'a [Receipt<J>],
) -> Result<Vec<StepRef<'a>>, Fault>
    ensures ok { IfOk result (λ steps. steps.items ≡ release_steps holder receipts.now) }
    ensures memory { IsOkUnless result Fault.OutOfMemory }
{
    let mut steps = Vec::with_capacity(alloc, receipts.len())?;
    for receipt in receipts {
        let home = receipt.home();
        let place = Place { holder, home };
        steps.push(StepRef::release(place, receipt.key(), receipt.dot()))?;
    }
    Ok(steps)
}

// Each receipt's dot leaves what the holder holds for its home. Takes no memory.
fn give_up_all<J: Naming>(keys: &mut HashMap<Key, KeyPart>, holder: NodeId, receipts: &[Receipt<J>])
    ensures { (w : World) → IsIndex w keys.old.entries →
        IsIndex (world_from w (release_steps holder receipts.now)) keys.new.entries }
{
    for receipt in receipts {
        dy_index::give_up(keys, holder, receipt.home(), receipt.key(), receipt.dot());
    }
}

impl<J: Naming> Book<J> {
    /// Releases each receipt's dot from what the share's node holds for the receipt's home: all or
    /// none. Without receipts it takes no memory.
    pub fn release(
        &mut self,
        share: &mut NodeShare<J>,
        receipts: &[Receipt<J>],
    ) -> Result<(), Fault>
        requires each { All (MayRelease (world_of self.old) share.old.node) receipts.now }
        requires once { AreOfDistinctDots receipts.now }
        ensures log { OnOk result
            (self.new ≡ with_untold self.old (release_steps share.old.node receipts.now)) }
        ensures share { OnOk result
            (share.new ≡ with_steps share.old (release_steps share.old.node receipts.now)) }
        ensures steps_full { IsErrOf result Fault.StepsFull
            ↔ LacksRoom self.old (length receipts.now) }
        ensures only { IfErr result (λ fault.
            (fault ≡ Fault.StepsFull) ⊎ (fault ≡ Fault.OutOfMemory)) }
        ensures err { OnErr result ((self.new ≡ self.old) × (share.new ≡ share.old)) }
        ensures spared { receipts.now ≡ [] → IsOk result }
        ensures belongs { BelongsTo (steps_of self.old.log) share.old }
        ensures nodes { (node : ℕ) → node ≢ share.old.node →
            NodeStays self.old.log self.new.log node }
        ensures sessions { (session : ℕ) → SessionStays self.old.log self.new.log session }
    {
        self.ledger.agree(share);
        if self.steps_left() < receipts.len() {
            return Err(Fault::StepsFull);
        }
        let holder = share.node();
        match self.release_within(share, holder, receipts) {
            Ok(()) => Ok(()),
            Err(fault) => Err(fault),
        }
    }

    // The same, where as many steps are left.
    fn release_within(
        &mut self,
        share: &mut NodeShare<J>,
        holder: NodeId,
        receipts: &[Receipt<J>],
    ) -> Result<(), Fault>
        requires holder { holder ≡ share.old.node }
        requires each { All (MayRelease (world_of self.old) share.old.node) receipts.now }
        requires once { AreOfDistinctDots receipts.now }
        requires room { HasRoom self.old (length receipts.now) }
        ensures log { OnOk result
            (self.new ≡ with_untold self.old (release_steps share.old.node receipts.now)) }
        ensures share { OnOk result
            (share.new ≡ with_steps share.old (release_steps share.old.node receipts.now)) }
        ensures memory { IsOkUnless result Fault.OutOfMemory }
        ensures spared { receipts.now ≡ [] → IsOk result }
        ensures err { OnErr result ((self.new ≡ self.old) × (share.new ≡ share.old)) }
        ensures nodes { (node : ℕ) → node ≢ share.old.node →
            NodeStays self.old.log self.new.log node }
        ensures sessions { (session : ℕ) → SessionStays self.old.log self.new.log session }
    {
        if receipts.is_empty() {
            return Ok(());
        }
        let steps = steps_of_release(self.alloc, holder, receipts)?;
        self.ledger.learn_receipts(receipts);
        self.ledger.node_steps(share, steps.as_slice())?;
        give_up_all(&mut self.keys, holder, receipts);
        Ok(())
    }
}
