// How a row is merged into what is held. The merge is made ready first; then it stands without
// memory, or it is taken back.
ghost use Rattle.std.specs.{
  Prelude.{◌≡◌, ◌<◌, ◌++◌, true, false, IfOk, OnErr, IsOkUnless, vec_len, vec_capacity},
  List.{list_any},
  List.Sorted.{IsStrictlySortedBy},
};
ghost use Rattle.dy_siblings.specs.Siblings.{AreOneByDot, IsSameRow, merge};
ghost use Rattle.dy_core.specs.{Orders.{holding_cmp}, inside.Meanings.{is_at, row_in}};
ghost use Rattle.dy_index.specs.Merges.{FitsAt, FitsIn, IsHeldAt, is_first, merged_by, placed_by};
ghost use Rattle.dy_index.specs.Merges.{taken_back, taken_from};

use crate::custodies::{self, Custody};
use crate::holds::held_first;
use crate::parts::KeyPart;
use dy_dots::{Dot, Fault, NodeId};
use dy_siblings::{Row, Version};
use std::alloc::Global;

/// A merge into what is held: the version is to stand alone, or that of the dot stands beside the
/// others already, or the custody is to take the place.
#[derive(Debug, Drop)]
pub enum Merging {
    Alone { version: Version },
    Beside { dot: Dot },
    Over { custody: Custody },
}

/// A merge that was made ready: into what is held at this index, or at a place that is new.
#[derive(Debug, Drop)]
pub enum Placing {
    At { at: usize, merging: Merging },
    First { custody: Custody },
}

impl Custody {
    // Makes the merge with the row ready.
    fn begin(&mut self, alloc: Global, row: &Row) -> Result<Merging, Fault>
        requires one_key { self.old.row.key ≡ row.now.key }
        requires agree { AreOneByDot (self.old.row.versions ++ row.now.versions) }
        ensures fits { IfOk result (λ m. FitsIn m self.new) }
        ensures holder { IfOk result (λ m. (merged_by m self.new).holder ≡ self.old.holder) }
        ensures home { IfOk result (λ m. (merged_by m self.new).home ≡ self.old.home) }
        ensures key { IfOk result (λ m. (merged_by m self.new).row.key ≡ self.old.row.key) }
        ensures row { IfOk result (λ m. IsSameRow (merged_by m self.new).row.versions
            (merge self.old.row.versions row.now.versions)) }
        ensures back { IfOk result (λ m. taken_back m self.new ≡ self.old) }
        ensures err { OnErr result (self.new ≡ self.old) }
        ensures memory { IsOkUnless result Fault.OutOfMemory }
    {
        // Most puts have the context of a get.
        if let Some(version) = self.row().follower(row) {
            let copy = version.try_clone(alloc)?;
            return Ok(Merging::Alone { version: copy });
        }
        if let Some(dot) = self.put_beside(alloc, row)? {
            return Ok(Merging::Beside { dot });
        }
        self.begin_over(alloc, row)
    }

    // The same of a merge that is to take the place. It is a call of its own, since few are.
    #[inline(never)]
    fn begin_over(&mut self, alloc: Global, row: &Row) -> Result<Merging, Fault>
        requires one_key { self.old.row.key ≡ row.now.key }
        requires agree { AreOneByDot (self.old.row.versions ++ row.now.versions) }
        ensures fits { IfOk result (λ m. FitsIn m self.new) }
        ensures holder { IfOk result (λ m. (merged_by m self.new).holder ≡ self.old.holder) }
        ensures home { IfOk result (λ m. (merged_by m self.new).home ≡ self.old.home) }
        ensures key { IfOk result (λ m. (merged_by m self.new).row.key ≡ self.old.row.key) }
        ensures row { IfOk result (λ m. IsSameRow (merged_by m self.new).row.versions
            (merge self.old.row.versions row.now.versions)) }
        ensures back { IfOk result (λ m. taken_back m self.new ≡ self.old) }
        ensures same { self.new ≡ self.old }
        ensures memory { IsOkUnless result Fault.OutOfMemory }
    {
        let custody = self.merged(alloc, row)?;
        Ok(Merging::Over { custody })
    }

    // The merge stands. Takes no memory.
    fn finish(&mut self, merging: Merging)
        requires { FitsIn merging self.old }
        ensures { self.new ≡ merged_by merging self.old }
    {
        match merging {
            Merging::Alone { version } => self.put_alone(version),
            Merging::Beside { dot: _ } => {}
            Merging::Over { custody } => *self = custody,
        }
    }

    // What is held is as it was before the merge was made ready. Takes no memory.
    fn take_back(&mut self, merging: Merging)
        ensures { self.new ≡ taken_back merging self.old }
    {
        match merging {
            Merging::Alone { version: _ } => {}
            Merging::Beside { dot } => self.take_out(dot),
            Merging::Over { custody: _ } => {}
        }
    }
}

// Makes ready that the row is the first that the holder holds for the home. It is a call of its
// own, since most rows come where one is held.
#[inline(never)]
fn begin_first(
    alloc: Global,
    places: &mut Vec<Custody>,
    holder: NodeId,
    home: NodeId,
    row: &Row,
) -> Result<Placing, Fault>
    requires nothing { list_any (is_at holder home row.now.key) places.old.items ≡ false }
    requires agree { AreOneByDot
        (row_in places.old.items holder home row.now.key ++ row.now.versions) }
    ensures fits { IfOk result (λ p. FitsAt p places.new.items) }
    ensures room { IfOk result (λ p. is_first p ≡ true →
        vec_len places.new < vec_capacity places.new) }
    ensures held { IfOk result (λ p.
        IsHeldAt places.old.items holder home row.now (placed_by p places.new.items)) }
    ensures back { IfOk result (λ p. taken_from p places.new.items ≡ places.old.items) }
    ensures err { OnErr result (places.new.items ≡ places.old.items) }
    ensures memory { IsOkUnless result Fault.OutOfMemory }
{
    let custody = held_first(alloc, holder, home, row)?;
    places.reserve(1)?;
    Ok(Placing::First { custody })
}

// Makes ready that the row is merged into what the holder holds for the home.
fn begin_at(
    alloc: Global,
    places: &mut Vec<Custody>,
    holder: NodeId,
    home: NodeId,
    row: &Row,
) -> Result<Placing, Fault>
    requires in_order { IsStrictlySortedBy holding_cmp places.old.items }
    requires agree { AreOneByDot
        (row_in places.old.items holder home row.now.key ++ row.now.versions) }
    ensures fits { IfOk result (λ p. FitsAt p places.new.items) }
    ensures room { IfOk result (λ p. is_first p ≡ true →
        vec_len places.new < vec_capacity places.new) }
    ensures held { IfOk result (λ p.
        IsHeldAt places.old.items holder home row.now (placed_by p places.new.items)) }
    ensures back { IfOk result (λ p. taken_from p places.new.items ≡ places.old.items) }
    ensures err { OnErr result (places.new.items ≡ places.old.items) }
    ensures memory { IsOkUnless result Fault.OutOfMemory }
{
    if let Some(at) = custodies::index_of(places.as_slice(), holder, home, row.key()) {
        let merging = places[at].begin(alloc, row)?;
        return Ok(Placing::At { at, merging });
    }
    begin_first(alloc, places, holder, home, row)
}

// The merge stands in the list. Takes no memory.
fn finish_at(places: &mut Vec<Custody>, placing: Placing)
    requires fits { FitsAt placing places.old.items }
    requires room { is_first placing ≡ true → vec_len places.old < vec_capacity places.old }
    ensures { places.new.items ≡ placed_by placing places.old.items }
{
    match placing {
        Placing::At { at, merging } => places[at].finish(merging),
        Placing::First { custody } => custodies::put(places, custody),
    }
}

// The list is as it was before the merge was made ready. Takes no memory.
fn take_back_at(places: &mut Vec<Custody>, placing: Placing)
    requires fits { FitsAt placing places.old.items }
    ensures { places.new.items ≡ taken_from placing places.old.items }
{
    match placing {
        Placing::At { at, merging } => places[at].take_back(merging),
        Placing::First { custody: _ } => {}
    }
}

impl KeyPart {
    /// Makes ready that the row is merged into what the holder holds for the home.
    pub fn begin(
        &mut self,
        alloc: Global,
        holder: NodeId,
        home: NodeId,
        row: &Row,
    ) -> Result<Placing, Fault>
        requires in_order { IsStrictlySortedBy holding_cmp self.old.places.items }
        requires agree { AreOneByDot
            (row_in self.old.places.items holder home row.now.key ++ row.now.versions) }
        ensures fits { IfOk result (λ p. FitsAt p self.new.places.items) }
        ensures room { IfOk result (λ p. is_first p ≡ true →
            vec_len self.new.places < vec_capacity self.new.places) }
        ensures held { IfOk result (λ p. IsHeldAt self.old.places.items holder home row.now
            (placed_by p self.new.places.items)) }
        ensures back { IfOk result
            (λ p. taken_from p self.new.places.items ≡ self.old.places.items) }
        ensures made { self.new.made ≡ self.old.made }
        ensures err { OnErr result (self.new.places.items ≡ self.old.places.items) }
        ensures memory { IsOkUnless result Fault.OutOfMemory }
    {
        begin_at(alloc, &mut self.places, holder, home, row)
    }

    /// The merge that was made ready stands. Takes no memory.
    pub fn finish(&mut self, placing: Placing)
        requires fits { FitsAt placing self.old.places.items }
        requires room { is_first placing ≡ true →
            vec_len self.old.places < vec_capacity self.old.places }
        ensures places { self.new.places.items ≡ placed_by placing self.old.places.items }
        ensures made { self.new.made ≡ self.old.made }
    {
        finish_at(&mut self.places, placing);
    }

    /// What is held is as it was before the merge was made ready. Takes no memory.
    pub fn take_back(&mut self, placing: Placing)
        requires fits { FitsAt placing self.old.places.items }
        ensures places { self.new.places.items ≡ taken_from placing self.old.places.items }
        ensures made { self.new.made ≡ self.old.made }
    {
        take_back_at(&mut self.places, placing);
    }
}
