// How holds are added to the book.
ghost use Rattle.std.specs.{
  Prelude.{◌≡◌, ◌≢◌, ◌<◌, ◌↔◌, ◌⊎◌, ◌++◌, ◌∷◌, ℕ, [], Some, map, IsTrue, IfOk, IfErr, OnOk, OnErr},
  Prelude.{IsErrOf, IsOkUnless, MatchOption},
  List.{All},
  List.Sorted.{IsStrictlySortedBy},
};
ghost use Rattle.dy_dots.specs.declared.dots.Dot.{Dot as DotParts};
ghost use Rattle.dy_siblings.specs.Siblings.{AreOneByDot};
ghost use Rattle.dy_preference.specs.Preferences.{homes_of, may_hold};
ghost use Rattle.dy_core.specs.{
  Worlds.{AreMadeOf, layout_of},
  Steps.{place_for},
  Logs.{IsLegal, world_after},
  Orders.{holding_cmp},
  inside.Meanings.{row_in},
  declared.steps.Step.TheVariants.{Hold},
};
ghost use Rattle.dy_index.specs.{Indexes.{IsPart}, Merges.{IsHeldAt}, Readings.{IsLeastNotIssued}};
ghost use Rattle.dy_shares.specs.Shares.{BelongsTo, MayFollow, NodeStays, SessionStays, node_of};
ghost use Rattle.dy_shares.specs.Shares.{steps_of, untold, with_entries, with_steps};
ghost use Rattle.dy_book.specs.Books.{HasRoom, LacksRoom, receipts_of, with_untold, world_of};

use crate::books::Book;
use crate::receipts::{give_receipts, more_keys};
use dy_core::Place;
use dy_dots::{Dot, Fault, NodeId};
use dy_index::KeyPart;
use dy_shares::{Ledger, Naming, NodeShare, Receipt, StepRef};
use dy_siblings::Row;
use std::alloc::Global;

// Holds the row at its place, and adds these steps to the ledger, or does neither.
pub(crate) fn hold_at<J: Naming>(
    alloc: Global,
    ledger: &mut Ledger<J>,
    part: &mut KeyPart,
    share: &mut NodeShare<J>,
    home: NodeId,
    row: &Row,
    steps: &[StepRef<'_>],
) -> Result<(), Fault>
    requires in_order { IsStrictlySortedBy holding_cmp part.old.places.items }
    requires agree { AreOneByDot
        (row_in part.old.places.items share.old.node home row.now.key ++ row.now.versions) }
    requires own { All (λ s. node_of s ≡ Some share.old.node) steps.now }
    requires allowed { MayFollow J.ring J.n ledger.old.log steps.now }
    ensures places { OnOk result (IsHeldAt part.old.places.items share.old.node home row.now
        part.new.places.items) }
    ensures made { part.new.made ≡ part.old.made }
    ensures log { OnOk result (ledger.new ≡ with_entries ledger.old (map untold steps.now)) }
    ensures share { OnOk result (share.new ≡ with_steps share.old steps.now) }
    ensures stay { OnErr result (part.new.places.items ≡ part.old.places.items) }
    ensures err { OnErr result ((ledger.new ≡ ledger.old) × (share.new ≡ share.old)) }
    ensures memory { IsOkUnless result Fault.OutOfMemory }
    ensures nodes { (node : ℕ) → node ≢ share.old.node →
        NodeStays ledger.old.log ledger.new.log node }
    ensures sessions { (session : ℕ) → SessionStays ledger.old.log ledger.new.log session }
{
    let placing = part.begin(alloc, share.node(), home, row)?;
    if let Err(fault) = ledger.node_steps(share, steps) {
        part.take_back(placing);
        return Err(fault);
    }
    part.finish(placing);
    Ok(())
}

// Holds the row, whose versions are the issued ones, in the log and in the part of its key. Gives
// its receipts. A refusal changes nothing.
fn hold_in<J: Naming>(
    alloc: Global,
    ledger: &mut Ledger<J>,
    part: &mut KeyPart,
    share: &mut NodeShare<J>,
    home: NodeId,
    row: &Row,
) -> Result<Vec<Receipt<J>>, Fault>
    requires legal { IsLegal (layout_of J.ring J.n) (steps_of ledger.old.log) }
    requires part { IsPart (world_after (steps_of ledger.old.log)) row.now.key (Some part.old) }
    requires may_hold { IsTrue
        (may_hold (homes_of J.ring J.n row.now.key) share.old.node home) }
    requires issued { AreMadeOf (world_after (steps_of ledger.old.log)) row.now.key
        row.now.versions }
    ensures log { OnOk result
        (ledger.new ≡ with_entries ledger.old
        (map untold (Hold (place_for share.old.node home) row.now ∷ []))) }
    ensures share { OnOk result
        (share.new ≡ with_steps share.old
        (Hold (place_for share.old.node home) row.now ∷ [])) }
    ensures receipts { IfOk result (λ receipts.
        receipts.items ≡ receipts_of row.now.versions share.old.node home) }
    ensures err { OnErr result ((ledger.new ≡ ledger.old) × (share.new ≡ share.old)) }
    ensures memory { IsOkUnless result Fault.OutOfMemory }
    ensures part { IsPart (world_after (steps_of ledger.new.log)) row.now.key (Some part.new) }
    ensures nodes { (node : ℕ) → node ≢ share.old.node →
        NodeStays ledger.old.log ledger.new.log node }
    ensures sessions { (session : ℕ) → SessionStays ledger.old.log ledger.new.log session }
{
    let holder = share.node();
    let place = Place { holder, home };
    let steps = [StepRef::hold(place, row)];
    let first = row.key().try_clone(alloc)?;
    let mut keys = more_keys(alloc, row)?;
    let mut receipts = Vec::with_capacity(alloc, row.versions().len())?;
    hold_at(alloc, ledger, part, share, home, row, &steps)?;
    give_receipts(ledger, &mut receipts, first, &mut keys, row, &place);
    Ok(receipts)
}

impl<J: Naming> Book<J> {
    /// Merges the row into what the node holds for the home. Gives a receipt for each version of
    /// the row, in the order of the dots.
    pub fn hold(
        &mut self,
        share: &mut NodeShare<J>,
        home: NodeId,
        incoming: &Row,
    ) -> Result<Vec<Receipt<J>>, Fault>
        requires may_hold { IsTrue
            (may_hold (homes_of J.ring J.n incoming.now.key) share.old.node home) }
        ensures log { OnOk result
            (self.new ≡ with_untold self.old
            (Hold (place_for share.old.node home) incoming.now ∷ [])) }
        ensures share { OnOk result
            (share.new ≡ with_steps share.old
            (Hold (place_for share.old.node home) incoming.now ∷ [])) }
        ensures receipts { IfOk result (λ receipts.
            receipts.items ≡ receipts_of incoming.now.versions share.old.node home) }
        ensures not_issued { (d : DotParts) → IsErrOf result (Fault.NotIssued d)
            ↔ IsLeastNotIssued (world_of self.old).versions incoming.now.versions d }
        ensures steps_full { IsErrOf result Fault.StepsFull
            ↔ (AreMadeOf (world_of self.old) incoming.now.key incoming.now.versions
            × LacksRoom self.old 1) }
        ensures only { IfErr result (λ fault.
            ((d : DotParts) × (fault ≡ Fault.NotIssued d))
            ⊎ ((fault ≡ Fault.StepsFull) ⊎ (fault ≡ Fault.OutOfMemory))) }
        ensures err { OnErr result ((self.new ≡ self.old) × (share.new ≡ share.old)) }
        ensures belongs { BelongsTo (steps_of self.old.log) share.old }
        ensures nodes { (node : ℕ) → node ≢ share.old.node →
            NodeStays self.old.log self.new.log node }
        ensures sessions { (session : ℕ) → SessionStays self.old.log self.new.log session }
    {
        self.agree(share);
        match self.check_hold(incoming) {
            Ok(()) => {}
            Err(fault) => return Err(fault),
        }
        match self.hold_issued(share, home, incoming) {
            Ok(receipts) => Ok(receipts),
            Err(fault) => Err(fault),
        }
    }

    /// The same of a row that `check_hold` let through. Compares nothing more.
    pub fn hold_issued(
        &mut self,
        share: &mut NodeShare<J>,
        home: NodeId,
        incoming: &Row,
    ) -> Result<Vec<Receipt<J>>, Fault>
        requires may_hold { IsTrue
            (may_hold (homes_of J.ring J.n incoming.now.key) share.old.node home) }
        requires issued { AreMadeOf (world_of self.old) incoming.now.key incoming.now.versions }
        requires room { HasRoom self.old 1 }
        ensures log { OnOk result
            (self.new ≡ with_untold self.old
            (Hold (place_for share.old.node home) incoming.now ∷ [])) }
        ensures share { OnOk result
            (share.new ≡ with_steps share.old
            (Hold (place_for share.old.node home) incoming.now ∷ [])) }
        ensures receipts { IfOk result (λ receipts.
            receipts.items ≡ receipts_of incoming.now.versions share.old.node home) }
        ensures memory { IsOkUnless result Fault.OutOfMemory }
        ensures err { OnErr result ((self.new ≡ self.old) × (share.new ≡ share.old)) }
        ensures nodes { (node : ℕ) → node ≢ share.old.node →
            NodeStays self.old.log self.new.log node }
        ensures sessions { (session : ℕ) → SessionStays self.old.log self.new.log session }
    {
        match dy_index::make_part_of(self.alloc, &mut self.keys, incoming) {
            Ok(()) => {}
            Err(fault) => return Err(fault),
        }
        let Some(part) = self.keys.get_mut(incoming.key()) else {
            unreachable!()
        };
        let ledger = &mut self.ledger;
        let receipts = match hold_in(self.alloc, ledger, part, share, home, incoming) {
            Ok(receipts) => receipts,
            Err(fault) => return Err(fault),
        };
        Ok(receipts)
    }

    // The least dot of the row's versions that is not of the issued version.
    fn first_not_issued(&self, row: &Row) -> Option<Dot>
        ensures { MatchOption result
            (AreMadeOf (world_of self.now) row.now.key row.now.versions)
            (IsLeastNotIssued (world_of self.now).versions row.now.versions) }
    {
        dy_index::first_not_issued(self.part(row.key()), row)
    }

    /// Whether each version of the row is the issued one, and a step is left. A hold of the row can
    /// then be refused for memory alone. Takes no memory.
    pub fn check_hold(&self, incoming: &Row) -> Result<(), Fault>
        ensures ok { OnOk result
            (AreMadeOf (world_of self.now) incoming.now.key incoming.now.versions
            × HasRoom self.now 1) }
        ensures not_issued { (d : DotParts) → IsErrOf result (Fault.NotIssued d)
            ↔ IsLeastNotIssued (world_of self.now).versions incoming.now.versions d }
        ensures steps_full { IsErrOf result Fault.StepsFull
            ↔ (AreMadeOf (world_of self.now) incoming.now.key incoming.now.versions
            × LacksRoom self.now 1) }
        ensures only { IfErr result (λ fault.
            ((d : DotParts) × (fault ≡ Fault.NotIssued d)) ⊎ (fault ≡ Fault.StepsFull)) }
    {
        if let Some(dot) = self.first_not_issued(incoming) {
            return Err(Fault::NotIssued { dot });
        }
        if self.steps_left() < 1 {
            return Err(Fault::StepsFull);
        }
        Ok(())
    }
}
