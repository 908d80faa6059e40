// What the whole index lists.
ghost use Rattle.std.specs.{
  Prelude.{◌≡◌, [], List, Some, IfOk, IsOkUnless},
  List.{All},
  HashMap.{IsUnique},
};
ghost use Rattle.dy_siblings.specs.Siblings.{same_key};
ghost use Rattle.dy_core.specs.{
  Worlds.{Layout, World},
  Logs.{IsLegal, world_after},
  Listings.{ListsHoldings, ListsSettled},
  declared.steps.Step.{Step},
};
ghost use Rattle.dy_index.specs.{
  Indexes.{IsIndex, part_at},
  inside.Listed.{held_in_all, settled_keys},
};

use crate::entries::{self, Entry};
use crate::parts::KeyPart;
use crate::{custodies, holders, lists};
use dy_core::Holding;
use dy_dots::Fault;
use dy_siblings::Key;
use std::alloc::Global;
use std::collections::HashMap;

// What the entries have, one after another.
fn held_of(alloc: Global, entries: &[Entry<'_>]) -> Result<Vec<Holding>, Fault>
    ensures ok { IfOk result (λ held. held.items ≡ held_in_all [] entries.now) }
    ensures memory { IsOkUnless result Fault.OutOfMemory }
{
    let mut held = Vec::new(alloc);
    for entry in entries {
        custodies::list_held(alloc, &mut held, entry.part.places.as_slice())?;
    }
    Ok(held)
}

// The keys of the index that are settled, entry by entry.
fn settled_of(alloc: Global, keys: &HashMap<Key, KeyPart>) -> Result<Vec<Key>, Fault>
    ensures ok { IfOk result (λ settled. settled.items ≡ settled_keys keys.now.entries) }
    ensures found { All (λ e. part_at keys.now.entries e.0 ≡ Some e.1) keys.now.entries }
    ensures unique { IsUnique same_key keys.now }
    ensures memory { IsOkUnless result Fault.OutOfMemory }
{
    let mut settled = Vec::new(alloc);
    for (key, part) in keys.iter() {
        if part.is_settled() {
            let key = key.try_clone(alloc)?;
            settled.push(key)?;
        }
    }
    Ok(settled)
}

/// What is held, by holder, home and the bytes of the key.
pub fn held(alloc: Global, keys: &HashMap<Key, KeyPart>) -> Result<Vec<Holding>, Fault>
    ensures ok { (w : World) → IsIndex w keys.now.entries → IfOk result
        (λ held. ListsHoldings w held.items) }
    ensures memory { IsOkUnless result Fault.OutOfMemory }
{
    let entries = entries::by_key(alloc, keys)?;
    let listed = held_of(alloc, entries.as_slice())?;
    let held = holders::ordered(alloc, listed)?;
    Ok(held)
}

/// The settled keys of which a version was made, by their bytes.
pub fn settled(alloc: Global, keys: &HashMap<Key, KeyPart>) -> Result<Vec<Key>, Fault>
    ensures ok { (layout : Layout) (steps : List Step) → IsLegal layout steps →
        IsIndex (world_after steps) keys.now.entries → IfOk result
        (λ keys. ListsSettled (world_after steps) keys.items) }
    ensures memory { IsOkUnless result Fault.OutOfMemory }
{
    let listed = settled_of(alloc, keys)?;
    let settled = lists::ordered(listed)?;
    Ok(settled)
}
