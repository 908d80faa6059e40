// The past of a version, gathered from the versions that a context names.
ghost use Rattle.std.specs.{
  Prelude.{◌≡◌, ◌+◌, ◌≤◌, ℕ, List, true, IfOk, OnOk, IsOkUnless, MatchOption},
  Option.{option_copied},
};
ghost use Rattle.std.specs.FinSet as set;
ghost use Rattle.dy_dots.specs.declared.dots.TheConstants.{MAX_COUNTER};
ghost use Rattle.dy_core.specs.{
  Worlds.{is_issued},
  Steps.{IsKnown, past_of},
  Logs.{world_after},
  Listings.{IsLeastUnknown},
  inside.Meanings.{AreIssuedBelow, IsFirstUnissued},
  declared.steps.Step.{Step},
};
ghost use Rattle.dy_index.specs.{
  Indexes.{IsPartAfter},
  inside.Pasts.{GrowsBy, GrowsByRun, HasFrom, IsGathering},
};

use crate::parts::KeyPart;
use crate::reads;
use dy_dots::{Context, Dot, Fault, Run};
use std::alloc::Global;

// Of the dots of the set that lie below this one without a gap, the first counter.
fn low_end(past: &Context, dot: Dot) -> u32
    requires { set.contains past.now dot ≡ true }
    ensures low { result ≤ dot.counter }
    ensures inside { HasFrom past.now dot.node result (dot.counter + 1) }
{
    let (node, counter) = (dot.node(), dot.counter());
    let runs = past.runs();
    let place = runs.partition_point(|run| {
        run.node < node || run.node == node && run.first <= counter
    });
    if place == 0 {
        return counter;
    }
    let run = runs[place - 1];
    if run.node != node {
        return counter;
    }
    if run.first > counter {
        return counter;
    }
    if run.last < counter {
        return counter;
    }
    run.first
}

// The least dot of the run that no version of the key has.
fn first_unknown(part: Option<&KeyPart>, run: &Run) -> Option<Dot>
    requires low { 1 ≤ run.now.first }
    requires high { run.now.last ≤ MAX_COUNTER }
    ensures { (steps : List Step) (key : List ℕ) →
        IsPartAfter steps key (option_copied part.entry) → MatchOption result
        (AreIssuedBelow (world_after steps).versions key run.now (run.now.last + 1))
        (IsFirstUnissued (world_after steps).versions key run.now) }
{
    let last = reads::last(part, run.node);
    if run.last as usize <= last {
        return None;
    }
    let counter = run.first.max(last as u32 + 1);
    if counter > run.last {
        return None;
    }
    let dot = Dot::new(run.node, counter).unwrap();
    Some(dot)
}

/// The least dot of the context that no version of the key has, if there is one. It goes run by
/// run, not dot by dot. Takes no memory.
pub fn unknown(part: Option<&KeyPart>, context: &Context) -> Option<Dot>
    ensures { (steps : List Step) (key : List ℕ) →
        IsPartAfter steps key (option_copied part.entry) →
        MatchOption result (IsKnown (world_after steps) key context.now)
        (IsLeastUnknown (world_after steps).versions key context.now) }
{
    let runs = context.runs();
    for run in runs {
        match first_unknown(part, run) {
            Some(dot) => return Some(dot),
            None => {}
        }
    }
    None
}

// Adds the history of the dot's version to the past, if the dot isn't there yet. Gives the first of
// the counters that lie below it without a gap. A dot of no version adds nothing.
fn add_history(
    alloc: Global,
    part: Option<&KeyPart>,
    past: &mut Context,
    dot: Dot,
) -> Result<u32, Fault>
    ensures grows { OnOk result ((steps : List Step) (key : List ℕ) →
        IsGathering steps key (option_copied part.entry) past.old →
        is_issued (world_after steps).versions key dot ≡ true →
        GrowsBy (world_after steps).versions key dot past.old past.new) }
    ensures low { IfOk result (λ first. first ≤ dot.counter) }
    ensures inside { IfOk result (λ first. (steps : List Step) (key : List ℕ) →
        IsGathering steps key (option_copied part.entry) past.old →
        is_issued (world_after steps).versions key dot ≡ true →
        HasFrom past.new dot.node first (dot.counter + 1)) }
    ensures memory { IsOkUnless result Fault.OutOfMemory }
{
    if past.contains(dot) {
        return Ok(low_end(past, dot));
    }
    let Some(version) = reads::version(part, dot) else {
        return Ok(dot.counter());
    };
    past.union(alloc, version.past())?;
    past.insert(dot)?;
    Ok(dot.counter())
}

// Adds the histories of the versions that the run names, from the last to the first. It skips dots
// that are there already: a version's history lies in that of each version that follows it.
fn add_run(
    alloc: Global,
    part: Option<&KeyPart>,
    past: &mut Context,
    run: &Run,
) -> Result<(), Fault>
    requires low { 1 ≤ run.now.first }
    requires high { run.now.last ≤ MAX_COUNTER }
    ensures grows { OnOk result ((steps : List Step) (key : List ℕ) →
        IsGathering steps key (option_copied part.entry) past.old →
        AreIssuedBelow (world_after steps).versions key run.now (run.now.last + 1) →
        GrowsByRun (world_after steps).versions key run.now past.old past.new) }
    ensures inside { OnOk result ((steps : List Step) (key : List ℕ) →
        IsGathering steps key (option_copied part.entry) past.old →
        AreIssuedBelow (world_after steps).versions key run.now (run.now.last + 1) →
        HasFrom past.new run.now.node run.now.first (run.now.last + 1)) }
    ensures memory { IsOkUnless result Fault.OutOfMemory }
{
    let mut next = run.last + 1;
    while next > run.first {
        let dot = Dot::new(run.node, next - 1).unwrap();
        next = add_history(alloc, part, past, dot)?;
    }
    Ok(())
}

/// The union of the histories of the key's versions that the context names.
pub fn past_named(
    alloc: Global,
    part: Option<&KeyPart>,
    context: &Context,
) -> Result<Context, Fault>
    ensures ok { (steps : List Step) (key : List ℕ) →
        IsPartAfter steps key (option_copied part.entry) →
        IsKnown (world_after steps) key context.now → IfOk result
        (λ past. past ≡ past_of (world_after steps).versions key context.now) }
    ensures memory { IsOkUnless result Fault.OutOfMemory }
{
    let mut past = Context::new(alloc);
    let runs = context.runs();
    for run in runs {
        add_run(alloc, part, &mut past, run)?;
    }
    Ok(past)
}
