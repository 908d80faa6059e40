// The present values of what is held.
ghost use Rattle.std.specs.Prelude.{◌≡◌, ◌++◌, OnOk, IfOk, IsOkUnless, flat_map};
ghost use Rattle.dy_cluster.specs.{
  PresentValues.{ArePresent, present_cmp},
  inside.Pasts.{values_in},
};
ghost use Rattle.dy_index.specs.Lists.{IsInOrder};

use crate::pasts::{Pasts, pasts_of};
use crate::resting::Closed;
use dy_core::Holding;
use dy_dots::{Dot, Fault};
use dy_siblings::{Key, Row, Value};
use std::alloc::Global;
use std::cmp::Ordering;

/// A value that was present when a cluster closed, with its key and the dot that named it there.
#[derive(Debug, Drop)]
pub struct PresentValue {
    pub key: Key,
    pub dot: Dot,
    pub value: Value,
}

// How two values are ordered: by key, then by dot, and by value where two had one dot.
fn compare(item: &PresentValue, other: &PresentValue) -> Ordering
    ensures { result ≡ present_cmp item.now other.now }
{
    item.key
        .cmp(&other.key)
        .then(item.dot.cmp(&other.dot))
        .then(item.value.as_bytes().cmp(other.value.as_bytes()))
}

// Adds the row's present values whose dot lies in the past of no version of its key.
fn add_values(
    alloc: Global,
    found: &mut Vec<PresentValue>,
    row: &Row,
    pasts: &Pasts,
) -> Result<(), Fault>
    ensures ok { OnOk result (found.new.items ≡
        found.old.items ++ values_in pasts.now row.now.key row.now.versions) }
    ensures memory { IsOkUnless result Fault.OutOfMemory }
{
    for version in row.versions() {
        if pasts.has(row.key(), version.dot()) {
            continue;
        }
        if let Some(value) = version.value() {
            found.push(PresentValue {
                key: row.key().try_clone(alloc)?,
                dot: version.dot(),
                value: value.try_clone(alloc)?,
            })?;
        }
    }
    Ok(())
}

// The same of all that is held, row by row.
fn found_of(alloc: Global, held: &[Holding], pasts: &Pasts) -> Result<Vec<PresentValue>, Fault>
    ensures ok { IfOk result (λ found. found.items ≡
        flat_map (λ h. values_in pasts.now h.row.key h.row.versions) held.now) }
    ensures memory { IsOkUnless result Fault.OutOfMemory }
{
    let mut found = Vec::new(alloc);
    for holding in held {
        add_values(alloc, &mut found, &holding.row, pasts)?;
    }
    Ok(found)
}

// The values in order, each once.
fn ordered(mut found: Vec<PresentValue>) -> Result<Vec<PresentValue>, Fault>
    ensures ok { IfOk result (λ list. IsInOrder present_cmp found.items list.items) }
    ensures memory { IsOkUnless result Fault.OutOfMemory }
{
    found.sort_by(|item, other| compare(item, other))?;
    found.dedup_by(|item, other| compare(item, other) == Ordering::Equal);
    Ok(found)
}

// The present values of what is held, whoever holds it.
fn values_of(alloc: Global, held: &[Holding]) -> Result<Vec<PresentValue>, Fault>
    ensures ok { IfOk result (λ values. ArePresent held.now values.items) }
    ensures memory { IsOkUnless result Fault.OutOfMemory }
{
    let pasts = pasts_of(alloc, held)?;
    let found = found_of(alloc, held, &pasts)?;
    ordered(found)
}

impl Closed {
    /// The values that were present when the cluster closed, by key and then by dot. They are those
    /// of the merge of all rows of a key, held by homes and by stand-ins.
    pub fn values(&self, alloc: Global) -> Result<Vec<PresentValue>, Fault>
        ensures ok { IfOk result (λ values.
            ArePresent self.now.audit.held.items values.items) }
        ensures memory { IsOkUnless result Fault.OutOfMemory }
    {
        values_of(alloc, self.audit.held.as_slice())
    }
}
