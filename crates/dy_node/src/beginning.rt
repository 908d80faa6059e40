// Versions that a node makes.
ghost use Rattle.std.specs.{
  Prelude.{◌≡◌, ◌+◌, ◌≤◌, ◌∷◌, [], IsTrue, IfOk, OnOk, OnErr, IsOkUnless},
  List.{Contains},
  Result.{result_err},
};
ghost use Rattle.std.specs.FinSet as set;
ghost use Rattle.dy_dots.specs.declared.dots.TheConstants.{MAX_COUNTER};
ghost use Rattle.dy_siblings.specs.Siblings.{IsSameRow, merge};
ghost use Rattle.dy_node_store.specs.Counters.{greatest_used};
ghost use Rattle.dy_preference.specs.Preferences.{homes_of, may_hold};
ghost use Rattle.dy_core.specs.{Worlds.{layout_of}, Steps.{version_made}};
ghost use Rattle.dy_shares.specs.Shares.{receipt_parts, with_steps};
ghost use Rattle.dy_book.specs.Books.{MayIssue, issue_steps, with_untold, world_of};
ghost use Rattle.dy_node.specs.{
  Stored.{Shows, versions_at},
  Nodes.{version_begun},
  Refusals.{BeginRefused, PlanRefused},
  inside.Agreed.{IsAgreed},
};

use crate::begun::Begun;
use crate::nodes::Node;
use crate::stores::Stores;
use dy_book::{Book, VouchedRow};
use dy_dots::{Context, Fault, NodeId};
use dy_shares::{Naming, NodeShare, Receipt};
use dy_siblings::{Key, Row, Value, Version};
use std::alloc::Global;

// The version that the node would make now, and its counter. Changes nothing.
fn plan_next<J: Naming>(
    stores: &Stores,
    share: &NodeShare<J>,
    book: &Book<J>,
    key: &Key,
    context: &Context,
    value: Option<Value>,
) -> Result<(Version, u32), Fault>
    requires agreed { IsAgreed (layout_of J.ring J.n) book.now share.now }
    requires shown { Shows share.now stores.now }
    ensures version { IfOk result (λ p.
        p.0 ≡ version_made (world_of book.now) share.now.node key.now context.now value) }
    ensures may { IfOk result (λ p. MayIssue book.now share.now.node p.0) }
    ensures few { OnOk result (book.now.options.counter_limit ≤ MAX_COUNTER) }
    ensures follows { IfOk result (λ p. IsTrue (set.is_subset context.now p.0.past)) }
    ensures counter { IfOk result (λ p. p.1 ≡ greatest_used stores.now.counters key.now + 1) }
    ensures refused { PlanRefused book.now share.now.node key.now context.now
        (result_err result) }
{
    let limit = book.counter_limit();
    let counter = match stores.next_counter(key, limit) {
        Ok(counter) => counter,
        Err(_fault) => return Err(Fault::CounterFull),
    };
    let version = match book.plan(share, key, context, value) {
        Ok(version) => version,
        Err(fault) => return Err(fault),
    };
    Ok((version, counter))
}

// Copies what is kept for the home, and then issues the version in the book.
#[inline(always)]
fn copy_and_issue<J: Naming>(
    alloc: Global,
    stores: &Stores,
    share: &mut NodeShare<J>,
    book: &mut Book<J>,
    home: NodeId,
    version: &Version,
) -> Result<(Row, Receipt<J>), Fault>
    requires may_hold { IsTrue
        (may_hold (homes_of J.ring J.n version.now.key) share.old.node home) }
    requires may { MayIssue book.old share.old.node version.now }
    ensures log { OnOk result
        (book.new ≡ with_untold book.old (issue_steps share.old.node home version.now)) }
    ensures share { OnOk result
        (share.new ≡ with_steps share.old (issue_steps share.old.node home version.now)) }
    ensures issued { OnOk result (version_made (world_of book.old) share.old.node
        version.now.key version.now.past version.now.value ≡ version.now) }
    ensures row { IfOk result (λ p. p.0 ≡ record {
      key = version.now.key;
      versions = versions_at stores.now.rooms home version.now.key;
    }) }
    ensures receipt { IfOk result (λ p. p.1 ≡
        receipt_parts version.now.key version.now.dot share.old.node home) }
    ensures err { OnErr result ((share.new ≡ share.old) × (book.new ≡ book.old)) }
    ensures memory { IsOkUnless result Fault.OutOfMemory }
{
    let whole = stores.copied(alloc, home, version.key())?;
    let receipt = book.issue(share, home, version)?;
    Ok((whole, receipt))
}

// Makes the planned version, and holds it for the home. A refusal changes nothing. Gives a copy of
// what is kept there then.
fn issue_row<J: Naming>(
    alloc: Global,
    stores: &mut Stores,
    share: &mut NodeShare<J>,
    book: &mut Book<J>,
    home: NodeId,
    version: &Version,
    counter: u32,
) -> Result<(Row, Receipt<J>), Fault>
    requires may_hold { IsTrue
        (may_hold (homes_of J.ring J.n version.now.key) share.old.node home) }
    requires shown { Shows share.old stores.old }
    requires may { MayIssue book.old share.old.node version.now }
    requires few { book.old.options.counter_limit ≤ MAX_COUNTER }
    requires counter { counter ≡ greatest_used stores.old.counters version.now.key + 1 }
    ensures shown { Shows share.new stores.new }
    ensures log { OnOk result
        (book.new ≡ with_untold book.old (issue_steps share.old.node home version.now)) }
    ensures share { OnOk result
        (share.new ≡ with_steps share.old (issue_steps share.old.node home version.now)) }
    ensures key { IfOk result (λ p. p.0.key ≡ version.now.key) }
    ensures whole { IfOk result (λ p. IsSameRow p.0.versions
        (merge (versions_at stores.old.rooms home version.now.key) (version.now ∷ []))) }
    ensures in_row { IfOk result (λ p. Contains p.0.versions version.now) }
    ensures kept { IfOk result (λ p.
        p.0.versions ≡ versions_at stores.new.rooms home version.now.key) }
    ensures receipt { IfOk result (λ p. p.1 ≡
        receipt_parts version.now.key version.now.dot share.old.node home) }
    ensures rooms { OnErr result (stores.new.rooms ≡ stores.old.rooms) }
    ensures err { OnErr result ((share.new ≡ share.old) × (book.new ≡ book.old)) }
    ensures memory { IsOkUnless result Fault.OutOfMemory }
{
    book.agree(share);
    stores.make_counter(version.key(), counter)?;
    let alone = Row::of(alloc, version.try_clone(alloc)?)?;
    let placed = stores.add(home, &alone)?;
    match copy_and_issue(alloc, stores, share, book, home, version) {
        Ok(issued) => {
            stores.use_made(version.key(), counter);
            book.agree(share);
            Ok(issued)
        }
        Err(fault) => {
            stores.take_back(home, version.key(), placed);
            Err(fault)
        }
    }
}

// The row that is kept for the home, with the book's word for it.
fn vouch_kept<J: Naming>(
    stores: &Stores,
    share: &mut NodeShare<J>,
    book: &mut Book<J>,
    home: NodeId,
    row: Row,
) -> VouchedRow<J>
    requires shown { Shows share.old stores.now }
    requires kept { row.versions ≡ versions_at stores.now.rooms home row.key }
    ensures row { result ≡ row }
    ensures share { share.new ≡ share.old }
    ensures book { book.new ≡ book.old }
{
    book.agree(share);
    book.vouch(row)
}

impl<J: Naming> Node<J> {
    /// Makes a version of the key, and holds it alone for the home: in the log, the share and the
    /// store, or in none. Its dot is the node's next of the key. Its past is the union of the
    /// histories of the versions that the context names.
    pub fn begin(
        &mut self,
        book: &mut Book<J>,
        home: NodeId,
        key: &Key,
        context: &Context,
        value: Option<Value>,
    ) -> Result<Begun<J>, Fault>
        requires may_hold { IsTrue
            (may_hold (homes_of J.ring J.n key.now) self.old.part.node home) }
        ensures log { OnOk result (book.new ≡ with_untold book.old (issue_steps
            self.old.part.node home
            (version_begun book.old self.old key.now context.now value))) }
        ensures share { OnOk result (self.new.part ≡ with_steps self.old.part (issue_steps
            self.old.part.node home
            (version_begun book.old self.old key.now context.now value))) }
        ensures dot { IfOk result (λ begun.
            begun.dot ≡ (version_begun book.old self.old key.now context.now value).dot) }
        ensures follows { OnOk result (IsTrue (set.is_subset context.now
            (version_begun book.old self.old key.now context.now value).past)) }
        ensures key { IfOk result (λ begun. begun.row.key ≡ key.now) }
        ensures row { IfOk result (λ begun. IsSameRow begun.row.versions
            (merge (versions_at self.old.rooms home key.now)
            (version_begun book.old self.old key.now context.now value ∷ []))) }
        ensures in_row { IfOk result (λ begun. Contains begun.row.versions
            (version_begun book.old self.old key.now context.now value)) }
        ensures kept { IfOk result (λ begun.
            begun.row.versions ≡ versions_at self.new.rooms home key.now) }
        ensures receipt { IfOk result (λ begun. begun.receipt ≡ receipt_parts key.now
            (version_begun book.old self.old key.now context.now value).dot
            self.old.part.node home) }
        ensures is_up { self.new.is_up ≡ self.old.is_up }
        ensures mode { self.new.mode ≡ self.old.mode }
        ensures waiting { self.new.waiting ≡ self.old.waiting }
        ensures refused { BeginRefused book.old self.old key.now context.now
            (result_err result) }
        ensures err { OnErr result ((self.new ≡ self.old) × (book.new ≡ book.old)) }
    {
        if !self.is_up {
            return Err(Fault::Down);
        }
        book.agree(&mut self.share);
        let (stores, share) = (&self.stores, &self.share);
        let (version, counter) = match plan_next(stores, share, book, key, context, value) {
            Ok(planned) => planned,
            Err(fault) => return Err(fault),
        };
        let (row, receipt) = match issue_row(
            self.alloc,
            &mut self.stores,
            &mut self.share,
            book,
            home,
            &version,
            counter,
        ) {
            Ok(issued) => issued,
            Err(_fault) => return Err(Fault::OutOfMemory),
        };
        let vouched = vouch_kept(&self.stores, &mut self.share, book, home, row);
        Ok(Begun {
            dot: version.dot(),
            row: vouched,
            receipt,
        })
    }
}
