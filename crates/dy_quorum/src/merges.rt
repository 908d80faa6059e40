ghost use Rattle.std.specs.{Prelude.{◌≡◌, ◌≤◌, List, ℕ, length, IfOk, IsOkUnless}, List.{All}};
ghost use Rattle.dy_siblings.specs.Siblings.{IsSameRow, newest};
ghost use Rattle.dy_core.specs.Logs.{rows_of};

use dy_dots::Fault;
use dy_shares::{Merging, Naming, Seen};
use dy_siblings::Row;
use std::alloc::Global;

/// The row that these answers of one key make together (Dynamo, section 4.5).
pub fn merge_all<J: Naming>(alloc: Global, seens: &[Seen<J>]) -> Result<Row, Fault>
    requires some { 1 ≤ length seens.now }
    requires one_key { (key : List ℕ) × All (λ a. a.key ≡ key) seens.now }
    ensures merged { IfOk result (λ row. IsSameRow row.versions (newest (rows_of seens.now))) }
    ensures key { (key : List ℕ) → All (λ a. a.key ≡ key) seens.now →
        IfOk result (λ row. row.key ≡ key) }
    ensures memory { IsOkUnless result Fault.OutOfMemory }
{
    let mut merging = Merging::of(alloc, &seens[0])?;
    for i in 1..seens.len() {
        let seen = &seens[i];
        merging.add(alloc, seen)?;
    }
    Ok(merging.into_row())
}
