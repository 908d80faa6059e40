ghost use Rattle.std.specs.{
  Prelude.{◌≡◌, ◌++◌, [], IfOk, OnOk, OnErr, MatchOption, IsOkUnless},
  List.{Contains, list_any},
};
ghost use Rattle.dy_siblings.specs.Siblings.{Siblings, AreOneByDot, IsSameRow, merge, without};
ghost use Rattle.dy_core.specs.{
  Orders.{key_cmp, gathered},
  inside.Meanings.{is_hint, kept, others, row_in, settled_in},
  declared.holdings.Holding.{Holding as HoldingParts},
};

use crate::lists::{self, Ranked};
use crate::placed::Placed;
use crate::places::Place;
use dy_dots::{Dot, Fault, NodeId};
use dy_siblings::{Key, Row, Version};
use std::alloc::Global;
use std::cmp::Ordering;

/// What a holder holds for a home of one key.
#[derive(Debug, Drop)]
pub struct Holding {
    pub holder: NodeId,
    pub home: NodeId,
    pub row: Row,
}

impl Ranked for Holding {
    ghost use Rattle.dy_core.specs.Orders.{holding_cmp};

    ghost ranked = { holding_cmp };

    fn rank(&self, other: &Holding) -> Ordering {
        self.holder
            .cmp(&other.holder)
            .then(self.home.cmp(&other.home))
            .then(self.row.key().cmp(other.row.key()))
    }
}

impl Placed for Holding {
    ghost holding = { λ h. h };

    fn place(&self) -> Place {
        Place {
            holder: self.holder,
            home: self.home,
        }
    }

    fn is_covering(&self, key: &Key, dot: Dot) -> bool {
        self.row.key() == key && self.row.covers(dot)
    }
}

impl Holding {
    ghost use Rattle.dy_core.specs.inside.Meanings.{is_at, is_hint};

    // Whether it is of the key, and for another node.
    fn is_hint(&self, key: &Key) -> bool
        ensures { result ≡ is_hint key.now self.now }
    {
        self.holder != self.home && self.row.key() == key
    }

    // Whether it is at the place.
    fn is_at(&self, holder: NodeId, home: NodeId, key: &Key) -> bool
        ensures { result ≡ is_at holder home key.now self.now }
    {
        self.holder == holder && (self.home == home && self.row.key() == key)
    }
}

/// The row at the place, where there is one. Takes no memory.
pub(crate) fn find<'a>(
    held: &'a [Holding],
    holder: NodeId,
    home: NodeId,
    key: &Key,
) -> Option<&'a Row>
    ensures none { MatchOption result (row_in held.now holder home key.now ≡ [])
        (λ row. row.now.key ≡ key.now) }
    ensures some { MatchOption result (row_in held.now holder home key.now ≡ [])
        (λ row. row.now.versions ≡ row_in held.now holder home key.now) }
    ensures inside { MatchOption result (row_in held.now holder home key.now ≡ [])
        (λ row. (h : HoldingParts) × Contains held.now h × (h.row ≡ row.now)) }
{
    for holding in held {
        if holding.is_at(holder, home, key) {
            return Some(&holding.row);
        }
    }
    None
}

/// A copy of the row at the place.
pub(crate) fn copy_at(
    alloc: Global,
    held: &[Holding],
    holder: NodeId,
    home: NodeId,
    key: &Key,
) -> Result<Row, Fault>
    ensures ok { IfOk result
        (λ row. row ≡ record { key = key.now; versions = row_in held.now holder home key.now }) }
    ensures memory { IsOkUnless result Fault.OutOfMemory }
{
    match find(held, holder, home, key) {
        Some(row) => row.try_clone(alloc),
        None => Ok(Row::new(alloc, key.try_clone(alloc)?)),
    }
}

/// Keeps the holding in its place, or none there where its row has no version.
pub(crate) fn keep(held: &mut Vec<Holding>, holding: Holding) -> Result<(), Fault>
    ensures ok { OnOk result (held.new.items ≡ kept held.old.items holding) }
    ensures err { OnErr result (held.new.items ≡ held.old.items) }
    ensures memory { IsOkUnless result Fault.OutOfMemory }
{
    if holding.row.is_empty() {
        drop_at(held, &holding);
        return Ok(());
    }
    lists::put(held, holding)
}

// Drops the holding at the place of this one.
fn drop_at(held: &mut Vec<Holding>, holding: &Holding)
    ensures { held.new.items ≡
        others holding.now.holder holding.now.home holding.now.row.key held.old.items }
{
    held.retain(|other| !other.is_at(holding.holder, holding.home, holding.row.key()));
}

/// Merges the row into what the holder holds for the home.
pub(crate) fn hold(
    alloc: Global,
    held: &mut Vec<Holding>,
    holder: NodeId,
    home: NodeId,
    row: &Row,
) -> Result<(), Fault>
    requires { AreOneByDot (row_in held.old.items holder home row.now.key ++ row.now.versions) }
    ensures ok { OnOk result ((new : Siblings) × (new.key ≡ row.now.key)
        × IsSameRow new.versions
        (merge (row_in held.old.items holder home row.now.key) row.now.versions)
        × (held.new.items ≡
        kept held.old.items (record { holder = holder; home = home; row = new }))) }
    ensures err { OnErr result (held.new.items ≡ held.old.items) }
    ensures memory { IsOkUnless result Fault.OutOfMemory }
{
    let mut merged = copy_at(alloc, held.as_slice(), holder, home, row.key())?;
    merged.merge(alloc, row)?;
    let holding = Holding {
        holder,
        home,
        row: merged,
    };
    keep(held, holding)?;
    Ok(())
}

/// Drops the version of the dot from what the holder holds for the home.
pub(crate) fn release(
    alloc: Global,
    held: &mut Vec<Holding>,
    holder: NodeId,
    home: NodeId,
    key: &Key,
    dot: Dot,
) -> Result<(), Fault>
    ensures ok { OnOk result (held.new.items ≡ kept held.old.items
        (record {
          holder = holder;
          home = home;
          row = record {
            key = key.now;
            versions = without (row_in held.old.items holder home key.now) dot;
          };
        })) }
    ensures err { OnErr result (held.new.items ≡ held.old.items) }
    ensures memory { IsOkUnless result Fault.OutOfMemory }
{
    let mut left = copy_at(alloc, held.as_slice(), holder, home, key)?;
    left.remove(dot);
    let holding = Holding {
        holder,
        home,
        row: left,
    };
    keep(held, holding)?;
    Ok(())
}

/// Whether what is held of the key is held by its homes alone. Takes no memory.
pub(crate) fn are_settled(held: &[Holding], key: &Key) -> bool
    ensures { result ≡ settled_in held.now key.now }
{
    !have_hint(held, key)
}

// Whether one of the holdings is of the key, and for another node.
fn have_hint(held: &[Holding], key: &Key) -> bool
    ensures { result ≡ list_any (is_hint key.now) held.now }
{
    held.iter().any(|holding| holding.is_hint(key))
}

/// The keys of versions that are settled, by their bytes.
pub(crate) fn settled_of(
    alloc: Global,
    held: &[Holding],
    versions: &[Version],
) -> Result<Vec<Key>, Fault>
    ensures ok { IfOk result (λ keys. keys.items ≡
        gathered key_cmp (λ v. settled_in held.now v.key) (λ v. v.key) versions.now) }
    ensures memory { IsOkUnless result Fault.OutOfMemory }
{
    let mut keys = Vec::new(alloc);
    for version in versions {
        if are_settled(held, version.key()) {
            lists::put(&mut keys, version.key().try_clone(alloc)?)?;
        }
    }
    Ok(keys)
}
