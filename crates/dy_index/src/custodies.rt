// What is held of one key, place by place.
ghost use Rattle.std.specs.{
  Prelude.{◌≡◌, ◌<◌, ◌++◌, map, length, slice_index_or, false, true, [], vec_len, vec_capacity},
  Prelude.{IfOk, OnOk, OnErr, IfSome, IfNone, IsOkUnless, MatchOption},
  List.{list_any},
};
ghost use Rattle.dy_siblings.specs.{
  Siblings.{AreOneByDot, IsBeside, IsSameRow, merge},
  Versions.{VersionParts},
};
ghost use Rattle.dy_core.specs.{
  Orders.{holding_cmp, put},
  inside.Meanings.{is_at, row_in},
  declared.holdings.Holding.{Holding as HoldingParts},
};
ghost use Rattle.dy_index.specs.{
  Readings.{DotsRise},
  inside.Held.{is_hint_here, listed_from, released},
};

use crate::dots::Dots;
use dy_core::{Holding, Place, Placed, Ranked};
use dy_dots::{Dot, Fault, NodeId};
use dy_siblings::{Key, Row, Version};
use std::alloc::Global;
use std::cmp::Ordering;
use std::marker::Model;

// What a holder holds for a home of one key: the row, and the dots of its versions as a slice that
// can be lent.
#[derive(Debug, Drop)]
pub struct Custody {
    holder: NodeId,
    home: NodeId,
    row: Row,
    dots: Dots,
}

impl Model for Custody {
    ghost use Rattle.std.specs.Prelude.{◌≡◌, map};
    ghost use Rattle.dy_core.specs.declared.holdings.Holding.{Holding};
    ghost use Rattle.dy_index.specs.Lists.{holding_code};

    ghost Value = { Holding };

    ghost coded = { holding_code };

    ghost view = { λ c. record { holder = c.holder; home = c.home; row = c.row } };

    ghost invariant = { λ c. c.dots ≡ map (λ v. v.dot) c.row.versions };
}

impl Placed for Custody {
    ghost holding = { λ c. c };

    fn place(&self) -> Place {
        Place {
            holder: self.holder,
            home: self.home,
        }
    }

    fn is_covering(&self, key: &Key, dot: Dot) -> bool {
        self.row.key() == key && self.row.covers(dot)
    }
}

impl Custody {
    ghost use Rattle.dy_siblings.specs.Siblings.{without};
    ghost use Rattle.dy_index.specs.Lists.{held_alone, taken_out};

    // The custody of the row at the place.
    pub(crate) fn new(
        alloc: Global,
        holder: NodeId,
        home: NodeId,
        row: Row,
    ) -> Result<Custody, Fault>
        ensures ok { IfOk result (λ c. c ≡ record { holder = holder; home = home; row = row }) }
        ensures memory { IsOkUnless result Fault.OutOfMemory }
    {
        let dots = Dots::of(alloc, row.versions())?;
        Ok(Custody {
            holder,
            home,
            row,
            dots,
        })
    }

    // The row.
    pub(crate) fn row(&self) -> &Row
        ensures { result.now ≡ self.now.row }
    {
        &self.row
    }

    // The dots of the row's versions, in their order.
    pub(crate) fn dots(&self) -> &[Dot]
        ensures value { result.now ≡ map (λ v. v.dot) self.now.row.versions }
        ensures rise { DotsRise result.now }
    {
        let _versions = self.row.versions();
        self.dots.as_slice()
    }

    // Whether it is at the place.
    fn is_at(&self, holder: NodeId, home: NodeId, key: &Key) -> bool
        ensures { result ≡ is_at holder home key.now self.now }
    {
        self.holder == holder && (self.home == home && self.row.key() == key)
    }

    // Whether it has a version, and is held for another node.
    fn is_hint(&self) -> bool
        ensures { result ≡ is_hint_here self.now }
    {
        self.holder != self.home && !self.row.is_empty()
    }

    // Inserts the row's version, if the row has exactly one that is not held, and it is concurrent
    // with all that is held. That makes the merge of both. Gives the version's dot.
    pub(crate) fn put_beside(&mut self, alloc: Global, row: &Row) -> Result<Option<Dot>, Fault>
        requires one_key { self.old.row.key ≡ row.now.key }
        requires agree { AreOneByDot (self.old.row.versions ++ row.now.versions) }
        ensures holder { self.new.holder ≡ self.old.holder }
        ensures home { self.new.home ≡ self.old.home }
        ensures key { self.new.row.key ≡ self.old.row.key }
        ensures merge { IfOk result (λ put. IfSome put (λ dot.
            IsSameRow self.new.row.versions (merge self.old.row.versions row.now.versions))) }
        ensures back { IfOk result (λ put. IfSome put (λ dot.
            without self.new.row.versions dot ≡ self.old.row.versions)) }
        ensures none { IfOk result (λ put. IfNone put ((v : VersionParts) →
            IsBeside self.old.row.versions row.now.versions v → ⊥)) }
        ensures same { IfOk result (λ put. IfNone put (self.new ≡ self.old)) }
        ensures err { OnErr result (self.new ≡ self.old) }
        ensures memory { IsOkUnless result Fault.OutOfMemory }
    {
        match self.row.put_beside(alloc, row)? {
            Some(put) => {
                // The row has the version now, with the dot put.1 at the index put.0. The dots
                // follow.
                if let Err(fault) = self.dots.insert(alloc, put.0, put.1) {
                    self.row.remove(put.1);
                    return Err(fault);
                }
                Ok(Some(put.1))
            }
            None => Ok(None),
        }
    }

    // What is held once the row is merged into it.
    pub(crate) fn merged(&self, alloc: Global, row: &Row) -> Result<Custody, Fault>
        requires one_key { self.now.row.key ≡ row.now.key }
        requires agree { AreOneByDot (self.now.row.versions ++ row.now.versions) }
        ensures holder { IfOk result (λ c. c.holder ≡ self.now.holder) }
        ensures home { IfOk result (λ c. c.home ≡ self.now.home) }
        ensures key { IfOk result (λ c. c.row.key ≡ self.now.row.key) }
        ensures row { IfOk result (λ c. IsSameRow c.row.versions
            (merge self.now.row.versions row.now.versions)) }
        ensures memory { IsOkUnless result Fault.OutOfMemory }
    {
        let merged = self.row.merged(alloc, row)?;
        let custody = Custody::new(alloc, self.holder, self.home, merged)?;
        Ok(custody)
    }

    // The version is held alone, in the place of all that is held. Takes no memory.
    pub(crate) fn put_alone(&mut self, version: Version)
        requires { version.key ≡ self.old.row.key }
        ensures { self.new ≡ held_alone version self.old }
    {
        self.dots.put_alone(version.dot());
        self.row.put_alone(version);
    }

    // The version of the dot is no longer held. Takes no memory.
    pub(crate) fn take_out(&mut self, dot: Dot)
        ensures { self.new ≡ taken_out dot self.old }
    {
        self.row.remove(dot);
        self.dots.take_out(dot);
    }

    // The dot is no longer held, where it is at the place.
    fn give_up(&mut self, holder: NodeId, home: NodeId, key: &Key, dot: Dot)
        ensures { self.new ≡ released holder home key.now dot self.old }
    {
        if self.is_at(holder, home, key) {
            self.take_out(dot);
        }
    }
}

impl Ranked for Custody {
    ghost use Rattle.dy_core.specs.Orders.{holding_cmp};

    ghost ranked = { holding_cmp };

    fn rank(&self, other: &Custody) -> Ordering {
        self.holder
            .cmp(&other.holder)
            .then(self.home.cmp(&other.home))
            .then(self.row.key().cmp(other.row.key()))
    }
}

// The custody at the place, where there is one.
fn find<'a>(places: &'a [Custody], holder: NodeId, home: NodeId, key: &Key) -> Option<&'a Custody>
    ensures none { MatchOption result (row_in places.now holder home key.now ≡ [])
        (λ c. c.now.row.key ≡ key.now) }
    ensures some { MatchOption result (row_in places.now holder home key.now ≡ [])
        (λ c. c.now.row.versions ≡ row_in places.now holder home key.now) }
{
    match index_of(places, holder, home, key) {
        Some(at) => Some(&places[at]),
        None => None,
    }
}

// The index of the place's custody in the list.
pub(crate) fn index_of(places: &[Custody], holder: NodeId, home: NodeId, key: &Key) -> Option<usize>
    ensures bound { IfSome result (λ at. at < length places.now) }
    ensures there { IfSome result (λ at. (c : HoldingParts) →
        is_at holder home key.now (slice_index_or places.now at c) ≡ true) }
    ensures row { IfSome result (λ at. (c : HoldingParts) →
        row_in places.now holder home key.now ≡ (slice_index_or places.now at c).row.versions) }
    ensures none { IfNone result (list_any (is_at holder home key.now) places.now ≡ false) }
{
    for (at, custody) in places.iter().enumerate() {
        if custody.is_at(holder, home, key) {
            return Some(at);
        }
    }
    None
}

// A copy of the row at the place.
pub(crate) fn copy_at(
    alloc: Global,
    places: &[Custody],
    holder: NodeId,
    home: NodeId,
    key: &Key,
) -> Result<Row, Fault>
    ensures ok { IfOk result
        (λ row. row ≡ record { key = key.now; versions = row_in places.now holder home key.now }) }
    ensures memory { IsOkUnless result Fault.OutOfMemory }
{
    match find(places, holder, home, key) {
        Some(custody) => custody.row.try_clone(alloc),
        None => Ok(Row::new(alloc, key.try_clone(alloc)?)),
    }
}

// Puts the custody into the list, or replaces the one of the same place. There is room.
pub(crate) fn put(list: &mut Vec<Custody>, item: Custody)
    requires { vec_len list.old < vec_capacity list.old }
    ensures { list.new.items ≡ put holding_cmp list.old.items item }
{
    dy_core::put_reserved(list, item);
}

// The dots at the place, rising.
pub(crate) fn dots_at<'a>(places: &'a [Custody], place: Place, key: &Key) -> &'a [Dot]
    ensures value { result.now ≡
        map (λ v. v.dot) (row_in places.now place.holder place.home key.now) }
    ensures rise { DotsRise result.now }
{
    match find(places, place.holder, place.home, key) {
        Some(custody) => custody.dots(),
        None => &[],
    }
}

// Lists what is held there, where it has a version.
pub(crate) fn list_held(
    alloc: Global,
    held: &mut Vec<Holding>,
    custodies: &[Custody],
) -> Result<(), Fault>
    ensures ok { OnOk result (held.new.items ≡ listed_from held.old.items custodies.now) }
    ensures memory { IsOkUnless result Fault.OutOfMemory }
{
    for custody in custodies {
        if !custody.row.is_empty() {
            let holding = Holding {
                holder: custody.holder,
                home: custody.home,
                row: custody.row.try_clone(alloc)?,
            };
            held.push(holding)?;
        }
    }
    Ok(())
}

// Whether one of the rows has a version, and is held for another node.
pub(crate) fn have_hint(custodies: &[Custody]) -> bool
    ensures { result ≡ list_any is_hint_here custodies.now }
{
    custodies.iter().any(|custody| custody.is_hint())
}

// The dot is no longer held at the place. Takes no memory.
pub(crate) fn give_up(places: &mut [Custody], holder: NodeId, home: NodeId, key: &Key, dot: Dot)
    ensures { places.new ≡ map (released holder home key.now dot) places.old }
{
    for custody in places.iter_mut() {
        custody.give_up(holder, home, key, dot);
    }
}
