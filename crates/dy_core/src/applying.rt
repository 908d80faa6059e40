ghost use Rattle.std.specs.Prelude.{◌≡◌, ◌≤◌, ◌++◌, ◌∷◌, [], List, IfOk, OnOk, OnErr, IsOkUnless};
ghost use Rattle.std.specs.Prelude.{◌<◌, vec_len, vec_capacity};
ghost use Rattle.dy_siblings.specs.{
  Siblings.{IsSameRow},
  declared.versions.Version.{Version as VersionParts},
};
ghost use Rattle.dy_core.specs.{
  Worlds.{Layout, layout_of},
  Steps.{IsAllowed, row_answered, key_of},
  Logs.{IsLegal, world_after, with_step},
  inside.Meanings.{IsAfter},
  declared.acks.Acked.{Acked as AckedParts},
  declared.steps.Step.{Step as StepParts},
};

use crate::acks::Acked;
use crate::holdings::{self, Holding};
use crate::steps::Step;
use crate::worlds::World;
use crate::{issuing, lists};
use dy_dots::{Context, Dot, Fault, NodeId};
use dy_ring::Ring;
use dy_siblings::{Key, Row, Value, Version};
use std::alloc::Global;

impl World {
    /// Makes the step, which must be allowed. The answer of a fetch is the row at its place, and
    /// that of another step the empty row of its key.
    pub fn apply(&mut self, alloc: Global, step: Step) -> Result<Row, Fault>
        requires allowed { IsAllowed (layout_of self.old.ring self.old.n)
            (world_after self.old.steps) step }
        ensures log { OnOk result (self.new ≡ with_step self.old step) }
        ensures row { IfOk result
            (λ row. IsSameRow row.versions (row_answered (world_after self.old.steps) step)) }
        ensures key { IfOk result (λ row. row.key ≡ key_of step) }
        ensures err { OnErr result (self.new ≡ self.old) }
        ensures memory { IsOkUnless result Fault.OutOfMemory }
    {
        match make(
            alloc,
            &mut self.versions,
            &mut self.held,
            &mut self.acked,
            &mut self.steps,
            &step,
        ) {
            Ok(row) => {
                self.steps.push_reserved(step);
                Ok(row)
            }
            Err(fault) => Err(fault),
        }
    }
}

// Makes the step in the lists of a world in which it is allowed, and has room for it behind the
// steps; its row is what it answers.
fn make(
    alloc: Global,
    versions: &mut Vec<Version>,
    held: &mut Vec<Holding>,
    acked: &mut Vec<Acked>,
    steps: &mut Vec<Step>,
    step: &Step,
) -> Result<Row, Fault>
    requires { (layout : Layout) × IsAfter layout steps.old.items versions.old.items held.old.items
        acked.old.items × IsAllowed layout (world_after steps.old.items) step.now }
    ensures log { OnOk result ((layout : Layout) →
        IsAfter layout steps.old.items versions.old.items held.old.items acked.old.items →
        IsAllowed layout (world_after steps.old.items) step.now →
        IsAfter layout (steps.old.items ++ step.now ∷ []) versions.new.items held.new.items
        acked.new.items) }
    ensures row { IfOk result
        (λ row. IsSameRow row.versions (row_answered (world_after steps.old.items) step.now)) }
    ensures key { IfOk result (λ row. row.key ≡ key_of step.now) }
    ensures steps_stay { steps.new.items ≡ steps.old.items }
    ensures room { OnOk result (vec_len steps.new < vec_capacity steps.new) }
    ensures versions_stay { OnErr result (versions.new.items ≡ versions.old.items) }
    ensures held_stays { OnErr result (held.new.items ≡ held.old.items) }
    ensures acked_stays { OnErr result (acked.new.items ≡ acked.old.items) }
    ensures memory { IsOkUnless result Fault.OutOfMemory }
{
    steps.reserve(1)?;
    let row = answer(alloc, held.as_slice(), step)?;
    match perform(alloc, versions, held, acked, step) {
        Ok(()) => Ok(row),
        Err(fault) => Err(fault),
    }
}

// The row that the step answers where this is held: for a fetch a copy of that at its place, and
// for another step the empty row of its key.
fn answer(alloc: Global, held: &[Holding], step: &Step) -> Result<Row, Fault>
    ensures row { IfOk result (λ row. (layout : Layout) (steps : List StepParts)
        (versions : List VersionParts) (acked : List AckedParts) →
        IsAfter layout steps versions held.now acked →
        IsSameRow row.versions (row_answered (world_after steps) step.now)) }
    ensures key { IfOk result (λ row. row.key ≡ key_of step.now) }
    ensures memory { IsOkUnless result Fault.OutOfMemory }
{
    match step {
        Step::Issue { key, .. } => Ok(Row::new(alloc, key.try_clone(alloc)?)),
        Step::Hold { row, .. } => Ok(Row::new(alloc, row.key().try_clone(alloc)?)),
        Step::Release { key, .. } => Ok(Row::new(alloc, key.try_clone(alloc)?)),
        Step::Fetch { place, key } => {
            holdings::copy_at(alloc, held, place.holder, place.home, key)
        }
        Step::Ack { key, .. } => Ok(Row::new(alloc, key.try_clone(alloc)?)),
    }
}

// Makes the step in the lists of a world in which it is allowed.
fn perform(
    alloc: Global,
    versions: &mut Vec<Version>,
    held: &mut Vec<Holding>,
    acked: &mut Vec<Acked>,
    step: &Step,
) -> Result<(), Fault>
    requires { (layout : Layout) × (steps : List StepParts)
        × IsAfter layout steps versions.old.items held.old.items acked.old.items
        × IsAllowed layout (world_after steps) step.now }
    ensures log { OnOk result ((layout : Layout) (steps : List StepParts) →
        IsAfter layout steps versions.old.items held.old.items acked.old.items →
        IsAllowed layout (world_after steps) step.now →
        IsAfter layout (steps ++ step.now ∷ []) versions.new.items held.new.items acked.new.items) }
    ensures versions_stay { OnErr result (versions.new.items ≡ versions.old.items) }
    ensures held_stays { OnErr result (held.new.items ≡ held.old.items) }
    ensures acked_stays { OnErr result (acked.new.items ≡ acked.old.items) }
    ensures memory { IsOkUnless result Fault.OutOfMemory }
{
    match step {
        Step::Issue {
            node,
            key,
            context,
            value,
        } => {
            let list = versions.as_slice();
            let version = issuing::next_version(alloc, list, *node, key, context, value)?;
            versions.push(version)?;
            Ok(())
        }
        Step::Hold { place, row } => holdings::hold(alloc, held, place.holder, place.home, row),
        Step::Release { place, key, dot } => {
            holdings::release(alloc, held, place.holder, place.home, key, *dot)
        }
        Step::Fetch { .. } => Ok(()),
        Step::Ack { key, dot, w } => {
            let key = key.try_clone(alloc)?;
            let ack = Acked {
                key,
                dot: *dot,
                w: *w,
            };
            lists::put(acked, ack)
        }
    }
}

/// The world after the steps, which are a legal log on this ring with n homes a key.
pub fn run_steps(alloc: Global, ring: Ring, n: u8, steps: &[Step]) -> Result<World, Fault>
    requires some { 1 ≤ n }
    requires enough { n ≤ ring.nodes }
    requires legal { IsLegal (layout_of ring n) steps.now }
    ensures log { IfOk result
        (λ world. world ≡ record { ring = ring; n = n; steps = steps.now }) }
    ensures memory { IsOkUnless result Fault.OutOfMemory }
{
    let mut world = World::new(alloc, ring, n)?;
    for step in steps {
        match apply_copy(alloc, &mut world, step) {
            Ok(()) => {}
            Err(fault) => return Err(fault),
        }
    }
    Ok(world)
}

// Makes a copy of the step, which must be allowed.
fn apply_copy(alloc: Global, world: &mut World, step: &Step) -> Result<(), Fault>
    requires { IsAllowed (layout_of world.old.ring world.old.n)
        (world_after world.old.steps) step.now }
    ensures log { OnOk result (world.new ≡ with_step world.old step.now) }
    ensures memory { IsOkUnless result Fault.OutOfMemory }
{
    let copy = step.try_clone(alloc)?;
    let _answer = world.apply(alloc, copy)?;
    Ok(())
}
