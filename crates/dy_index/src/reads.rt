// What a key's part tells, where the book knows the key.
ghost use Rattle.std.specs.{
  Prelude.{◌≡◌, ℕ, List, false, IfOk, IsOkUnless, MatchOption},
  List.{Contains},
  Option.{option_copied},
};
ghost use Rattle.dy_siblings.specs.Siblings.{IsSameRow};
ghost use Rattle.dy_core.specs.{
  Worlds.{is_issued, row_at, World},
  Logs.{world_after},
  Listings.{ListsCovers},
  declared.steps.Step.{Step},
};
ghost use Rattle.dy_index.specs.{Indexes.{IsPart, IsPartAfter}, Readings.{ListsDots}};

use crate::custodies;
use crate::parts::KeyPart;
use dy_core::Place;
use dy_dots::{Dot, Fault, NodeId};
use dy_siblings::{Key, Row, Version};
use std::alloc::Global;
use std::collections::HashMap;

/// The greatest counter that the node used for the key, 0 where there is none. Takes no memory.
pub fn last(part: Option<&KeyPart>, node: NodeId) -> usize
    ensures { (steps : List Step) (key : List ℕ) →
        IsPartAfter steps key (option_copied part.entry) →
        result ≡ (world_after steps).counters node key }
{
    match part {
        Some(part) => part.count(node),
        None => 0,
    }
}

/// The version of this key and dot, where one was issued. Takes no memory.
pub fn version<'a>(part: Option<&'a KeyPart>, dot: Dot) -> Option<&'a Version>
    ensures { (steps : List Step) (key : List ℕ) →
        IsPartAfter steps key (option_copied part.entry) →
        MatchOption result (is_issued (world_after steps).versions key dot ≡ false)
        (λ v. Contains (world_after steps).versions v.now
        × (v.now.key ≡ key) × (v.now.dot ≡ dot)) }
{
    let _counter = dot.counter();
    match part {
        Some(part) => part.version(dot),
        None => None,
    }
}

/// A copy of the row that the holder holds for the home.
pub fn row_copy(
    alloc: Global,
    part: Option<&KeyPart>,
    holder: NodeId,
    home: NodeId,
    key: &Key,
) -> Result<Row, Fault>
    ensures key { IfOk result (λ row. row.key ≡ key.now) }
    ensures row { (w : World) → IsPart w key.now (option_copied part.entry) → IfOk result
        (λ row. IsSameRow row.versions (row_at w holder home key.now)) }
    ensures memory { IsOkUnless result Fault.OutOfMemory }
{
    match part {
        Some(part) => custodies::copy_at(alloc, part.places.as_slice(), holder, home, key),
        None => {
            let key = key.try_clone(alloc)?;
            Ok(Row::new(alloc, key))
        }
    }
}

/// The dots held there, rising. Takes no memory.
pub fn held_dots<'a>(part: Option<&'a KeyPart>, place: Place, key: &Key) -> &'a [Dot]
    ensures { (steps : List Step) → IsPartAfter steps key.now (option_copied part.entry) →
        ListsDots (world_after steps) place.holder place.home key.now result.now }
{
    match part {
        Some(part) => custodies::dots_at(part.places.as_slice(), place, key),
        None => &[],
    }
}

/// All places that cover the dot, by home and holder.
pub fn covering(
    alloc: Global,
    part: Option<&KeyPart>,
    key: &Key,
    dot: Dot,
) -> Result<Vec<Place>, Fault>
    ensures ok { (w : World) → IsPart w key.now (option_copied part.entry) → IfOk result
        (λ places. ListsCovers w key.now dot places.items) }
    ensures memory { IsOkUnless result Fault.OutOfMemory }
{
    match part {
        Some(part) => {
            let places = dy_core::covering(alloc, part.places.as_slice(), key, dot)?;
            Ok(places)
        }
        None => Ok(Vec::new(alloc)),
    }
}

/// A copy of the key. A long one shares its bytes with the index, where the index has it.
pub fn own_copy(alloc: Global, keys: &HashMap<Key, KeyPart>, key: &Key) -> Result<Key, Fault>
    ensures value { IfOk result (λ copy. copy ≡ key.now) }
    ensures memory { IsOkUnless result Fault.OutOfMemory }
{
    if let Some(copy) = key.short() {
        return Ok(copy);
    }
    match keys.get_key_value(key) {
        Some((own, _part)) => own.try_clone(alloc),
        None => key.try_clone(alloc),
    }
}
