// How what is known of a key begins.
ghost use Rattle.std.specs.Prelude.{◌≡◌, [], IfOk, OnOk, IsOkUnless, IsSome};
ghost use Rattle.dy_siblings.specs.Siblings.{AreOneByDot, IsSameRow, merge};
ghost use Rattle.dy_core.specs.Worlds.{World};
ghost use Rattle.dy_index.specs.Indexes.{IsIndex, part_at};

use crate::custodies::Custody;
use crate::parts::KeyPart;
use dy_dots::{Fault, NodeId};
use dy_siblings::{Key, Row};
use std::alloc::Global;
use std::collections::HashMap;

// Makes a part for the key, where there is none yet.
fn make_part(alloc: Global, keys: &mut HashMap<Key, KeyPart>, key: &Key) -> Result<(), Fault>
    ensures same { (w : World) → IsIndex w keys.old.entries → IsIndex w keys.new.entries }
    ensures has { OnOk result (IsSome (part_at keys.new.entries key.now)) }
    ensures memory { IsOkUnless result Fault.OutOfMemory }
{
    if keys.contains_key(key) {
        return Ok(());
    }
    let key = key.try_clone(alloc)?;
    keys.insert(key, KeyPart::new(alloc))?;
    Ok(())
}

/// Makes a part for the key of a row without versions, if there is none yet.
pub fn make_part_of(alloc: Global, keys: &mut HashMap<Key, KeyPart>, row: &Row) -> Result<(), Fault>
    ensures same { (w : World) → IsIndex w keys.old.entries → IsIndex w keys.new.entries }
    ensures has { OnOk result (row.now.versions ≡ [] →
        IsSome (part_at keys.new.entries row.now.key)) }
    ensures memory { IsOkUnless result Fault.OutOfMemory }
{
    if !row.is_empty() {
        return Ok(());
    }
    make_part(alloc, keys, row.key())?;
    Ok(())
}

// What is held of the row at a place where nothing was held.
pub(crate) fn held_first(
    alloc: Global,
    holder: NodeId,
    home: NodeId,
    row: &Row,
) -> Result<Custody, Fault>
    requires { AreOneByDot row.now.versions }
    ensures holder { IfOk result (λ c. c.holder ≡ holder) }
    ensures home { IfOk result (λ c. c.home ≡ home) }
    ensures key { IfOk result (λ c. c.row.key ≡ row.now.key) }
    ensures row { IfOk result (λ c. IsSameRow c.row.versions (merge [] row.now.versions)) }
    ensures memory { IsOkUnless result Fault.OutOfMemory }
{
    let none = Row::new(alloc, row.key().try_clone(alloc)?);
    let merged = none.merged(alloc, row)?;
    let custody = Custody::new(alloc, holder, home, merged)?;
    Ok(custody)
}
