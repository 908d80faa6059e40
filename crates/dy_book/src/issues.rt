// How versions are added to the book, each with its first hold.
ghost use Rattle.std.specs.Prelude.{◌≡◌, ◌≢◌, ◌<◌, ℕ, Some, map, IsTrue, IfOk, OnOk, OnErr};
ghost use Rattle.std.specs.Prelude.{IsOkUnless};
ghost use Rattle.dy_dots.specs.declared.dots.TheConstants.{MAX_COUNTER};
ghost use Rattle.dy_preference.specs.Preferences.{homes_of, may_hold};
ghost use Rattle.dy_core.specs.{
  Worlds.{layout_of},
  Steps.{version_made},
  Logs.{IsLegal, world_after},
};
ghost use Rattle.dy_index.specs.Indexes.{IsPart};
ghost use Rattle.dy_shares.specs.Shares.{BelongsTo, NodeStays, SessionStays};
ghost use Rattle.dy_shares.specs.Shares.{receipt_parts, steps_of, untold, with_entries, with_steps};
ghost use Rattle.dy_book.specs.Books.{IsNext, MayIssue, issue_steps, row_alone, with_untold};
ghost use Rattle.dy_book.specs.Books.{world_of};

use crate::books::Book;
use crate::holds::hold_at;
use dy_core::Place;
use dy_dots::{Fault, NodeId};
use dy_index::KeyPart;
use dy_shares::{Ledger, Naming, NodeShare, Receipt, StepRef};
use dy_siblings::{Row, Version};
use std::alloc::Global;

// The issue of the version, with its whole past as context, and the hold of this row, which is the
// version alone.
fn steps_of_issue<'a>(
    node: NodeId,
    home: NodeId,
    version: &'a Version,
    row: &'a Row,
) -> [StepRef<'a>; 2]
    requires row { row.now ≡ row_alone version.now }
    requires maker { version.now.dot.node ≡ node }
    ensures { result ≡ issue_steps node home version.now }
{
    let place = Place { holder: node, home };
    [StepRef::issue(version), StepRef::hold(place, row)]
}

// Adds the version, and holds it alone, in the log and in the part of its key, or in neither.
fn issue_in<J: Naming>(
    alloc: Global,
    ledger: &mut Ledger<J>,
    part: &mut KeyPart,
    share: &mut NodeShare<J>,
    home: NodeId,
    version: &Version,
) -> Result<(), Fault>
    requires legal { IsLegal (layout_of J.ring J.n) (steps_of ledger.old.log) }
    requires part { IsPart (world_after (steps_of ledger.old.log)) version.now.key
        (Some part.old) }
    requires may_hold { IsTrue
        (may_hold (homes_of J.ring J.n version.now.key) share.old.node home) }
    requires next { IsNext (world_after (steps_of ledger.old.log)) share.old.node version.now }
    requires room { (world_after (steps_of ledger.old.log)).counters share.old.node
        version.now.key < MAX_COUNTER }
    ensures log { OnOk result (ledger.new ≡ with_entries ledger.old
        (map untold (issue_steps share.old.node home version.now))) }
    ensures share { OnOk result
        (share.new ≡ with_steps share.old (issue_steps share.old.node home version.now)) }
    ensures err { OnErr result ((ledger.new ≡ ledger.old) × (share.new ≡ share.old)) }
    ensures memory { IsOkUnless result Fault.OutOfMemory }
    ensures part { IsPart (world_after (steps_of ledger.new.log)) version.now.key
        (Some part.new) }
    ensures nodes { (node : ℕ) → node ≢ share.old.node →
        NodeStays ledger.old.log ledger.new.log node }
    ensures sessions { (session : ℕ) → SessionStays ledger.old.log ledger.new.log session }
{
    let node = share.node();
    let row = Row::of(alloc, version.try_clone(alloc)?)?;
    let copy = version.try_clone(alloc)?;
    let steps = steps_of_issue(node, home, version, &row);
    part.add(alloc, copy)?;
    if let Err(fault) = hold_at(alloc, ledger, part, share, home, &row, &steps) {
        part.remove_last(node);
        return Err(fault);
    }
    Ok(())
}

// Issues the version and holds it alone, in the log and in the part of its key, or does neither.
// Gives the receipt.
fn issue_alone<J: Naming>(
    alloc: Global,
    ledger: &mut Ledger<J>,
    part: &mut KeyPart,
    share: &mut NodeShare<J>,
    home: NodeId,
    version: &Version,
) -> Result<Receipt<J>, Fault>
    requires legal { IsLegal (layout_of J.ring J.n) (steps_of ledger.old.log) }
    requires part { IsPart (world_after (steps_of ledger.old.log)) version.now.key
        (Some part.old) }
    requires may_hold { IsTrue
        (may_hold (homes_of J.ring J.n version.now.key) share.old.node home) }
    requires next { IsNext (world_after (steps_of ledger.old.log)) share.old.node version.now }
    requires room { (world_after (steps_of ledger.old.log)).counters share.old.node
        version.now.key < MAX_COUNTER }
    ensures log { OnOk result (ledger.new ≡ with_entries ledger.old
        (map untold (issue_steps share.old.node home version.now))) }
    ensures share { OnOk result
        (share.new ≡ with_steps share.old (issue_steps share.old.node home version.now)) }
    ensures receipt { IfOk result (λ r.
        r ≡ receipt_parts version.now.key version.now.dot share.old.node home) }
    ensures err { OnErr result ((ledger.new ≡ ledger.old) × (share.new ≡ share.old)) }
    ensures memory { IsOkUnless result Fault.OutOfMemory }
    ensures part { IsPart (world_after (steps_of ledger.new.log)) version.now.key
        (Some part.new) }
    ensures nodes { (node : ℕ) → node ≢ share.old.node →
        NodeStays ledger.old.log ledger.new.log node }
    ensures sessions { (session : ℕ) → SessionStays ledger.old.log ledger.new.log session }
{
    let node = share.node();
    let key = version.key().try_clone(alloc)?;
    issue_in(alloc, ledger, part, share, home, version)?;
    let place = Place { holder: node, home };
    Ok(ledger.receipt(key, version.dot(), place))
}

impl<J: Naming> Book<J> {
    /// Issues the version and holds it alone, or does neither. Gives the receipt.
    pub fn issue(
        &mut self,
        share: &mut NodeShare<J>,
        home: NodeId,
        version: &Version,
    ) -> Result<Receipt<J>, Fault>
        requires may { MayIssue self.old share.old.node version.now }
        requires may_hold { IsTrue
            (may_hold (homes_of J.ring J.n version.now.key) share.old.node home) }
        ensures log { OnOk result
            (self.new ≡ with_untold self.old (issue_steps share.old.node home version.now)) }
        ensures share { OnOk result
            (share.new ≡ with_steps share.old (issue_steps share.old.node home version.now)) }
        ensures issued { OnOk result (version_made (world_of self.old) share.old.node
            version.now.key version.now.past version.now.value ≡ version.now) }
        ensures receipt { IfOk result (λ r.
            r ≡ receipt_parts version.now.key version.now.dot share.old.node home) }
        ensures err { OnErr result ((self.new ≡ self.old) × (share.new ≡ share.old)) }
        ensures memory { IsOkUnless result Fault.OutOfMemory }
        ensures belongs { BelongsTo (steps_of self.old.log) share.old }
        ensures nodes { (node : ℕ) → node ≢ share.old.node →
            NodeStays self.old.log self.new.log node }
        ensures sessions { (session : ℕ) → SessionStays self.old.log self.new.log session }
    {
        self.ledger.agree(share);
        let key = version.key().try_clone(self.alloc)?;
        let entry = self.keys.entry(key)?;
        let part = entry.or_insert(KeyPart::new(self.alloc));
        let receipt = issue_alone(self.alloc, &mut self.ledger, part, share, home, version)?;
        self.versions += 1;
        Ok(receipt)
    }
}
