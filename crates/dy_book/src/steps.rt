// How the steps of a log are read.
ghost use Rattle.std.specs.Prelude.{◌≡◌, ◌≤◌, ◌-◌, Some, length, slice_get, IfOk, IsOkUnless};
ghost use Rattle.dy_siblings.specs.Siblings.{Siblings};
ghost use Rattle.dy_core.specs.{
  declared.steps.Step.{Step as OneStep},
  declared.steps.Step.TheVariants.{Issue},
};
ghost use Rattle.dy_shares.specs.{Shares.{steps_of}, Trails.{HasRuns, Keeps}};
ghost use Rattle.dy_book.specs.inside.Readings.{IsLogged, IsLoggedRow};

use crate::books::Book;
use dy_core::Step;
use dy_dots::{Fault, Run};
use dy_index::KeyPart;
use dy_shares::{KeptStep, Naming};
use dy_siblings::{Key, Row, Version};
use std::alloc::Global;
use std::collections::HashMap;

// The row of the key whose dots these runs are. A key has one version of a dot.
fn row_of(
    alloc: Global,
    keys: &HashMap<Key, KeyPart>,
    key: &Key,
    runs: &[Run],
) -> Result<Row, Fault>
    requires logged { (row : Siblings) × IsLoggedRow keys.now.entries row
        × HasRuns row key.now runs.now }
    ensures ok { (row : Siblings) → IsLoggedRow keys.now.entries row →
        HasRuns row key.now runs.now → IfOk result (λ r. r ≡ row) }
    ensures memory { IsOkUnless result Fault.OutOfMemory }
{
    let part = keys.get(key);
    let versions = dy_index::versions_of(alloc, part, runs)?;
    let own = key.try_clone(alloc)?;
    Ok(Row::from_versions(own, versions))
}

// The issue of the version, with its whole past as context.
fn issue_of(alloc: Global, version: &Version) -> Result<Step, Fault>
    ensures ok { IfOk result (λ step. step ≡
        Issue version.now.dot.node version.now.key version.now.past version.now.value) }
    ensures memory { IsOkUnless result Fault.OutOfMemory }
{
    let node = version.dot().node();
    let key = version.key().try_clone(alloc)?;
    let context = version.past().try_clone(alloc)?;
    let value = match version.value() {
        Some(value) => Some(value.try_clone(alloc)?),
        None => None,
    };
    Ok(Step::Issue {
        node,
        key,
        context,
        value,
    })
}

// The step that is kept so, by the log's index.
pub(crate) fn step_of(
    alloc: Global,
    keys: &HashMap<Key, KeyPart>,
    kept: &KeptStep,
) -> Result<Step, Fault>
    requires logged { (s : OneStep) × IsLogged keys.now.entries s × Keeps kept.now s }
    ensures ok { (s : OneStep) → IsLogged keys.now.entries s → Keeps kept.now s →
        IfOk result (λ step. step ≡ s) }
    ensures memory { IsOkUnless result Fault.OutOfMemory }
{
    match kept {
        KeptStep::Issued { version } => {
            let step = issue_of(alloc, version)?;
            Ok(step)
        }
        KeptStep::Held { place, run, key } => {
            let row = row_of(alloc, keys, key, &[*run])?;
            Ok(Step::Hold { place: *place, row })
        }
        KeptStep::HeldRuns { place, key, dots } => {
            let row = row_of(alloc, keys, key, dots.runs())?;
            Ok(Step::Hold { place: *place, row })
        }
        KeptStep::Released { place, dot, key } => {
            let key = key.try_clone(alloc)?;
            Ok(Step::Release {
                place: *place,
                key,
                dot: *dot,
            })
        }
        KeptStep::Fetched { place, key } => {
            let key = key.try_clone(alloc)?;
            Ok(Step::Fetch { place: *place, key })
        }
        KeptStep::Acked { w, dot, key } => {
            let key = key.try_clone(alloc)?;
            Ok(Step::Ack {
                key,
                dot: *dot,
                w: *w,
            })
        }
    }
}

impl<J: Naming> Book<J> {
    /// How many steps the log has. Takes no memory.
    pub fn steps(&self) -> usize
        ensures { result ≡ length self.now.log }
    {
        self.ledger.steps()
    }

    /// The step of this number, from 1.
    pub fn step(&self, at: usize) -> Result<Step, Fault>
        requires from_one { 1 ≤ at }
        requires within { at ≤ length self.now.log }
        ensures ok { IfOk result
            (λ step. slice_get (steps_of self.now.log) (at - 1) ≡ Some step) }
        ensures memory { IsOkUnless result Fault.OutOfMemory }
    {
        let trail = self.ledger.trail();
        let kept = &trail[at - 1];
        let step = step_of(self.alloc, &self.keys, kept)?;
        Ok(step)
    }
}
