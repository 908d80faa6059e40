// The receipts of a row that is held: one for each of its versions.
ghost use Rattle.std.specs.{
  Prelude.{◌≡◌, ◌-◌, ◌<◌, ◌≤◌, [], length, vec_capacity, IfOk, IfSome, IsSome, IsOkUnless},
  List.{All},
};
ghost use Rattle.dy_siblings.specs.declared.keys.TheConstants.{SHORT_KEY_BYTES};
ghost use Rattle.dy_shares.specs.Shares.{IsReceipt, receipt_parts, steps_of};
ghost use Rattle.dy_book.specs.Books.{receipts_of};

use dy_core::Place;
use dy_dots::Fault;
use dy_shares::{Ledger, Naming, Receipt};
use dy_siblings::{Key, Row};
use std::alloc::Global;

// Copies of the row's key, for all of its versions but one, where a copy takes memory.
pub(crate) fn more_keys(alloc: Global, row: &Row) -> Result<Vec<Key>, Fault>
    ensures count { IfOk result (λ keys. SHORT_KEY_BYTES < length row.now.key →
        length keys.items ≡ length row.now.versions - 1) }
    ensures same { IfOk result (λ keys. All (λ key. key ≡ row.now.key) keys.items) }
    ensures memory { IsOkUnless result Fault.OutOfMemory }
{
    if row.key().short().is_some() {
        return Ok(Vec::new(alloc));
    }
    let count = row.versions().len().max(1) - 1;
    let mut keys = Vec::with_capacity(alloc, count)?;
    while keys.len() < count {
        keys.push(row.key().try_clone(alloc)?)?;
    }
    Ok(keys)
}

// A copy of the row's key: a short one is made in place, a long one is taken from these.
fn next_key(row: &Row, keys: &mut Vec<Key>) -> Option<Key>
    requires same { All (λ key. key ≡ row.now.key) keys.old.items }
    ensures there { (SHORT_KEY_BYTES < length row.now.key → 0 < length keys.old.items) →
        IsSome result }
    ensures value { IfSome result (λ key. key ≡ row.now.key) }
    ensures same { All (λ key. key ≡ row.now.key) keys.new.items }
    ensures left { SHORT_KEY_BYTES < length row.now.key →
        length keys.new.items ≡ length keys.old.items - 1 }
{
    match row.key().short() {
        Some(key) => Some(key),
        None => keys.pop(),
    }
}

// A receipt for each version of the row, which is held in the ledger's world.
pub(crate) fn give_receipts<J: Naming>(
    ledger: &Ledger<J>,
    receipts: &mut Vec<Receipt<J>>,
    key: Key,
    keys: &mut Vec<Key>,
    row: &Row,
    place: &Place,
)
    requires none { receipts.old.items ≡ [] }
    requires room { length row.now.versions ≤ vec_capacity receipts.old }
    requires key { key ≡ row.now.key }
    requires count { SHORT_KEY_BYTES < length row.now.key →
        length keys.old.items ≡ length row.now.versions - 1 }
    requires same { All (λ key. key ≡ row.now.key) keys.old.items }
    requires held { All (λ v. IsReceipt (steps_of ledger.now.log)
        (receipt_parts row.now.key v.dot place.now.holder place.now.home)) row.now.versions }
    ensures { receipts.new.items ≡ receipts_of row.now.versions place.now.holder place.now.home }
{
    let versions = row.versions();
    let Some((last, others)) = versions.split_last() else {
        return;
    };
    for version in others {
        let Some(copy) = next_key(row, keys) else {
            unreachable!()
        };
        receipts.push_reserved(ledger.receipt(copy, version.dot(), *place));
    }
    receipts.push_reserved(ledger.receipt(key, last.dot(), *place));
}
