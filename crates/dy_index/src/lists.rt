// Lists that are in an order.
ghost use Rattle.std.specs.{Prelude.{IfOk, IsOkUnless}, Cmp.{IsTotalOrder}};
ghost use Rattle.dy_index.specs.Lists.{IsInOrder};

use dy_core::Ranked;
use dy_dots::Fault;
use std::cmp::Ordering;

/// The items in order. Of items that tie it keeps the first.
pub fn ordered<T: Ranked + Drop>(mut items: Vec<T>) -> Result<Vec<T>, Fault>
    requires { IsTotalOrder T.ranked }
    ensures ok { IfOk result (λ list. IsInOrder T.ranked items.items list.items) }
    ensures memory { IsOkUnless result Fault.OutOfMemory }
{
    items.sort_by(|item, other| item.rank(other))?;
    items.dedup_by(|item, other| item.rank(other) == Ordering::Equal);
    Ok(items)
}
