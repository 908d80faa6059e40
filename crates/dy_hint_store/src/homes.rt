ghost use Rattle.std.specs.Prelude.{◌≡◌, ◌<◌, ◌≤◌, ◌++◌, length, map, OnOk, OnErr, IsOkUnless};
ghost use Rattle.dy_dots.specs.declared.nodes.TheConstants.{MAX_NODES};
ghost use Rattle.dy_hint_store.specs.{Hints.{shown}, inside.Homes.{HaveSameRows}};

use crate::stores::RowRefFor;
use dy_dots::{Fault, NodeId};
use dy_node_store::RowMap;
use dy_siblings::Row;
use std::alloc::Global;

// Makes maps with no rows, until there is one for the home.
pub(crate) fn make_room(alloc: Global, homes: &mut Vec<RowMap>, home: usize) -> Result<(), Fault>
    requires home { home < MAX_NODES }
    requires few { length homes.old.items ≤ MAX_NODES }
    ensures room { OnOk result (home < length homes.new.items) }
    ensures short { OnErr result (length homes.old.items ≤ home) }
    ensures same { HaveSameRows homes.new.items homes.old.items }
    ensures few { length homes.new.items ≤ MAX_NODES }
    ensures memory { IsOkUnless result Fault.OutOfMemory }
{
    while homes.len() <= home {
        homes.push(RowMap::new(alloc))?;
    }
    Ok(())
}

// Lists the rows as hints for the home.
pub(crate) fn add_hints<'a>(
    hints: &mut Vec<RowRefFor<'a>>,
    home: NodeId,
    rows: &[&'a Row],
) -> Result<(), Fault>
    ensures ok { OnOk result
        (map shown hints.new.items ≡
        map shown hints.old.items ++ map (λ row. shown (home, row)) rows.now) }
    ensures memory { IsOkUnless result Fault.OutOfMemory }
{
    for row in rows {
        if hints.push((home, *row)).is_err() {
            return Err(Fault::OutOfMemory);
        }
    }
    Ok(())
}
