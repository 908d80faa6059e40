// What is held, put in order holder by holder. Entry by entry each holder's list is nearly in order
// already, so to sort it takes about one pass.
ghost use Rattle.std.specs.Prelude.{◌≡◌, ℕ, List, [], length, IfOk, IsOkUnless};
ghost use Rattle.dy_core.specs.{
  Orders.{holding_cmp},
  declared.holdings.Holding.{Holding as HoldingParts},
};
ghost use Rattle.dy_index.specs.{Lists.{IsInOrder}, inside.Holders.{AreByHolder, list_of}};

use crate::lists;
use dy_core::Holding;
use dy_dots::{Fault, MAX_NODES};
use std::alloc::Global;
use std::marker::Model;

// What one node holds.
#[derive(Debug, Drop)]
pub struct HeldBy {
    held: Vec<Holding>,
}

impl Model for HeldBy {
    ghost use Rattle.std.specs.{Prelude.{List}, Coded.{coded_list}};
    ghost use Rattle.dy_core.specs.declared.holdings.Holding.{Holding};
    ghost use Rattle.dy_index.specs.Lists.{holding_code};

    ghost Value = { List Holding };

    ghost coded = { coded_list holding_code };

    ghost view = { λ h. h.held.items };
}

// An empty list for each node.
fn none_held(alloc: Global) -> Result<Vec<HeldBy>, Fault>
    ensures many { IfOk result (λ lists. length lists.items ≡ MAX_NODES) }
    ensures none { IfOk result (λ lists. (n : ℕ) → list_of lists.items n ≡ []) }
    ensures memory { IsOkUnless result Fault.OutOfMemory }
{
    let mut holders = Vec::with_capacity(alloc, MAX_NODES as usize)?;
    while holders.len() < MAX_NODES as usize {
        holders.push(HeldBy {
            held: Vec::new(alloc),
        })?;
    }
    Ok(holders)
}

// What is held, in a list for each holder.
fn by_holder(alloc: Global, held: Vec<Holding>) -> Result<Vec<HeldBy>, Fault>
    ensures ok { IfOk result (λ lists. AreByHolder 0 held.items lists.items) }
    ensures memory { IsOkUnless result Fault.OutOfMemory }
{
    let mut holders = none_held(alloc)?;
    for holding in held {
        let at = holding.holder.number() as usize;
        holders[at].held.push(holding)?;
    }
    Ok(holders)
}

// The lists one behind another, each in order.
fn joined(alloc: Global, holders: Vec<HeldBy>) -> Result<Vec<Holding>, Fault>
    ensures ok { (held : List HoldingParts) → AreByHolder 0 held holders.items →
        IfOk result (λ all. IsInOrder holding_cmp held all.items) }
    ensures memory { IsOkUnless result Fault.OutOfMemory }
{
    let mut all = Vec::new(alloc);
    for holder in holders {
        let mut sorted = lists::ordered(holder.held)?;
        all.append(&mut sorted)?;
    }
    Ok(all)
}

// What is held, by holder, home and the bytes of the key.
pub(crate) fn ordered(alloc: Global, held: Vec<Holding>) -> Result<Vec<Holding>, Fault>
    ensures ok { IfOk result (λ all. IsInOrder holding_cmp held.items all.items) }
    ensures memory { IsOkUnless result Fault.OutOfMemory }
{
    let holders = by_holder(alloc, held)?;
    let all = joined(alloc, holders)?;
    Ok(all)
}
