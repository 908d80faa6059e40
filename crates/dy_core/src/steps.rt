ghost use Rattle.std.specs.Prelude.{◌≡◌, IfOk, IsOkUnless};
ghost use Rattle.dy_core.specs.declared.steps.Step.TheVariants.{Issue};

use crate::places::Place;
use dy_dots::{Context, Dot, Fault, NodeId};
use dy_siblings::{Key, Row, Value};
use std::alloc::Global;

/// One step of the store. Which steps come, and when, is free; each must be allowed where it
/// stands.
#[derive(Debug, Drop)]
pub enum Step {
    /// The node makes a version of the key, which follows the versions that the context names; no
    /// value deletes (Dynamo, section 4.4).
    Issue {
        node: NodeId,
        key: Key,
        context: Context,
        value: Option<Value>,
    },
    /// The holder merges the row into what it holds for the home (Dynamo, sections 4.4 and 4.6).
    Hold {
        place: Place,
        row: Row,
    },
    /// The holder gives up one dot of the hint that it keeps for the home (Dynamo, section 4.6).
    Release {
        place: Place,
        key: Key,
        dot: Dot,
    },
    /// The holder answers the row that it holds for the home (Dynamo, section 4.5).
    Fetch {
        place: Place,
        key: Key,
    },
    /// A put is told that w homes have its version (Dynamo, section 4.5).
    Ack {
        key: Key,
        dot: Dot,
        w: u8,
    },
}

impl Step {
    /// A copy.
    pub fn try_clone(&self, alloc: Global) -> Result<Step, Fault>
        ensures ok { IfOk result (λ step. step ≡ self.now) }
        ensures memory { IsOkUnless result Fault.OutOfMemory }
    {
        match self {
            Step::Issue {
                node,
                key,
                context,
                value,
            } => issue_of(alloc, *node, key, context, value),
            Step::Hold { place, row } => {
                let row = row.try_clone(alloc)?;
                Ok(Step::Hold { place: *place, row })
            }
            Step::Release { place, key, dot } => {
                let key = key.try_clone(alloc)?;
                Ok(Step::Release {
                    place: *place,
                    key,
                    dot: *dot,
                })
            }
            Step::Fetch { place, key } => {
                let key = key.try_clone(alloc)?;
                Ok(Step::Fetch { place: *place, key })
            }
            Step::Ack { key, dot, w } => {
                let key = key.try_clone(alloc)?;
                Ok(Step::Ack {
                    key,
                    dot: *dot,
                    w: *w,
                })
            }
        }
    }
}

/// A copy of the value, where there is one.
pub(crate) fn copy_of(alloc: Global, value: &Option<Value>) -> Result<Option<Value>, Fault>
    ensures ok { IfOk result (λ copy. copy ≡ value.now) }
    ensures memory { IsOkUnless result Fault.OutOfMemory }
{
    match value {
        Some(value) => Ok(Some(value.try_clone(alloc)?)),
        None => Ok(None),
    }
}

// The issue of copies of these.
fn issue_of(
    alloc: Global,
    node: NodeId,
    key: &Key,
    context: &Context,
    value: &Option<Value>,
) -> Result<Step, Fault>
    ensures ok { IfOk result (λ step. step ≡ Issue node key.now context.now value.now) }
    ensures memory { IsOkUnless result Fault.OutOfMemory }
{
    let key = key.try_clone(alloc)?;
    let context = context.try_clone(alloc)?;
    let value = copy_of(alloc, value)?;
    Ok(Step::Issue {
        node,
        key,
        context,
        value,
    })
}
