// How a trail grows by the steps of a log.
ghost use Rattle.std.specs.Prelude.{◌≡◌, ◌+◌, ◌++◌, List, length, IfOk, OnOk, OnErr, IsOkUnless};
ghost use Rattle.dy_shares.specs.{
  inside.Parts.{entries_of},
  Trails.{AreKept},
  declared.kept_steps.KeptStep.{KeptStep as Kept},
};

use crate::chronicles::Chronicle;
use crate::entries::Batch;
use crate::kept_steps::KeptStep;
use crate::names::Naming;
use crate::step_refs::StepRef;
use dy_dots::Fault;
use std::alloc::Global;

// Keeps each of the steps at the end of the trail, or none.
pub(crate) fn keep_all(
    alloc: Global,
    trail: &mut Vec<KeptStep>,
    steps: &[StepRef<'_>],
) -> Result<(), Fault>
    ensures ok { OnOk result ((kept : List Kept) × (trail.new.items ≡ trail.old.items ++ kept)
        × AreKept kept steps.now) }
    ensures err { OnErr result (trail.new.items ≡ trail.old.items) }
    ensures memory { IsOkUnless result Fault.OutOfMemory }
{
    let before = trail.len();
    trail.reserve(steps.len())?;
    for step in steps {
        match step.kept(alloc) {
            Ok(kept) => trail.push_reserved(kept),
            Err(fault) => {
                trail.truncate(before);
                return Err(fault);
            }
        }
    }
    Ok(())
}

// Puts the steps behind the trail and the log, all or none, and says how many there are then.
pub(crate) fn write<J: Naming>(
    alloc: Global,
    trail: &mut Vec<KeptStep>,
    chronicle: &mut Chronicle<J>,
    before: usize,
    batch: &Batch<'_>,
) -> Result<usize, Fault>
    ensures count { IfOk result (λ count. count ≡ before + length batch.now.steps.now) }
    ensures log { OnOk result
        (chronicle.new ≡ chronicle.old ++ entries_of batch.now.told batch.now.steps.now) }
    ensures kept { OnOk result ((kept : List Kept) × (trail.new.items ≡ trail.old.items ++ kept)
        × AreKept kept batch.now.steps.now) }
    ensures log_stays { OnErr result (chronicle.new ≡ chronicle.old) }
    ensures trail_stays { OnErr result (trail.new.items ≡ trail.old.items) }
    ensures memory { IsOkUnless result Fault.OutOfMemory }
{
    let Some(count) = before.checked_add(batch.steps.len()) else {
        return Err(Fault::OutOfMemory);
    };
    let kept = trail.len();
    keep_all(alloc, trail, batch.steps)?;
    if !chronicle.append(batch) {
        trail.truncate(kept);
        return Err(Fault::OutOfMemory);
    }
    Ok(count)
}
