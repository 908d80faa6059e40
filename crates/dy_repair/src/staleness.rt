ghost use Rattle.std.specs.Prelude.{◌≡◌, ◌↔◌, not, map, IfOk, IsOkUnless, IsTrue};
ghost use Rattle.dy_repair.specs.{
  Stales.{AreCurrent, AreStale},
  inside.Telling.{is_current, tells_stale},
};

use dy_dots::Fault;
use dy_shares::{Naming, Seen};
use dy_siblings::Row;
use std::alloc::Global;

// Whether the answer's row is another.
fn is_other<J: Naming>(seen: &Seen<J>, row: &Row) -> bool
    ensures { result ≡ not (is_current row.now seen.now) }
{
    !seen.row().is_same(row)
}

// Whether a home answered by itself, with another row.
fn is_stale<J: Naming>(seen: &Seen<J>, row: &Row) -> bool
    ensures { result ≡ tells_stale row.now seen.now }
{
    seen.holder() == seen.home() && is_other(seen, row)
}

/// Whether no home answered by itself with another row. Takes no memory.
pub fn are_current<J: Naming>(seens: &[Seen<J>], row: &Row) -> bool
    ensures { IsTrue result ↔ AreCurrent row.now seens.now }
{
    for answer in seens {
        if is_stale(answer, row) {
            return false;
        }
    }
    true
}

/// The answers of homes that answered by themselves with another row, in the order read (Dynamo,
/// section 5).
pub fn stale<'a, J: Naming>(
    alloc: Global,
    seens: &'a [Seen<J>],
    row: &Row,
) -> Result<Vec<&'a Seen<J>>, Fault>
    ensures ok { IfOk result (λ list. AreStale row.now seens.now (map (λ s. s.now) list.items)) }
    ensures memory { IsOkUnless result Fault.OutOfMemory }
{
    let mut list = Vec::with_capacity(alloc, seens.len())?;
    for i in 0..seens.len() {
        let seen = &seens[i];
        if is_stale(seen, row) {
            list.push_reserved(seen);
        }
    }
    Ok(list)
}
