ghost use Rattle.std.specs.{
  Prelude.{◌≡◌, List, ℕ, Result, IfErr, IfOk, OnOk, true},
  Io.KnownBytes.{Appends},
  declared.marker.Brand.{Brand},
};
ghost use Rattle.dy_dots.specs.declared.faults.Fault.{Fault as FaultParts};
ghost use Rattle.dy_ring.specs.Rings.{Tokens};
ghost use Rattle.dy_script.specs.Reading.{script_parts};
ghost use Rattle.dy_book.specs.Limits.{AreLimits};
ghost use Rattle.dy_shares.specs.Shares.{SessionPart};
ghost use Rattle.dy_cluster.specs.{Ends.{IsClosed}, Refusals.{IsOpenRefusal}, Settings.{setting}};
ghost use Rattle.dy_lines.specs.Stops.{IsStoppedFor};
ghost use Rattle.dy_plans.specs.{
  Openings.{IsPlanOf, options_for},
  Refusals.{HasFailed, IsFirstRefusal, IsStoppedBy, IsStoppedOnlyBy},
  RingLines.{IsRingMade, lists_of},
};
ghost use Rattle.dy_runner.specs.Runs.{HasRun, IsRun};

use crate::recordings::{Recorded, Recording};
use crate::running::Run;
use crate::telling::write_plays;
use crate::traces::Trace;
use dy_book::Options;
use dy_cluster::{Closed, with_cluster};
use dy_lines::{ClusterLine, Stopped, write_cluster};
use dy_plans::{Plan, plan_of, write_audit};
use dy_ring::Ring;
use dy_script::Script;
use std::alloc::Global;
use std::io::Write;
use std::sync::Wait;

/// Runs the script: writes a line for each command, and then the audit. With the steps it keeps
/// what came of the commands, and writes all once the cluster is closed. May wait for locks.
pub fn write_run<O: Write, R: Wait>(
    rt: &R,
    alloc: Global,
    script: &Script,
    with_steps: bool,
    out: &mut O,
) -> Result<(), Stopped>
    ensures limits { OnOk result (AreLimits (options_for (script_parts script.now))) }
    ensures refused { (made : Result Tokens FaultParts)
        × IsRingMade (lists_of (script_parts script.now).layout) made
        × IsStoppedBy (IsFirstRefusal made (options_for (script_parts script.now))) result
        (O.contents out.old) (O.contents out.new)
        × IsStoppedOnlyBy (IsFirstRefusal made (options_for (script_parts script.now))) result }
    ensures run { OnOk result ((wrote : List ℕ) × IsRun (script_parts script.now) with_steps wrote
        × Appends (O.contents out.old) (O.contents out.new) wrote) }
{
    match plan_of(alloc, script) {
        Ok(plan) => write_planned(rt, alloc, plan, script, with_steps, out),
        Err(fault) => Err(Stopped::Refused(fault)),
    }
}

// Runs the script on the cluster that it asks for, with the steps or without.
fn write_planned<O: Write, R: Wait>(
    rt: &R,
    alloc: Global,
    plan: Plan,
    script: &Script,
    with_steps: bool,
    out: &mut O,
) -> Result<(), Stopped>
    requires planned { IsPlanOf (script_parts script.now) plan }
    ensures run { OnOk result ((wrote : List ℕ) × IsRun (script_parts script.now) with_steps wrote
        × Appends (O.contents out.old) (O.contents out.new) wrote) }
    ensures only { IfErr result (IsStoppedFor HasFailed) }
{
    if with_steps {
        return write_with_steps(rt, alloc, &plan, script, out);
    }
    let Plan { ring, options } = plan;
    let closed = run_script(rt, alloc, ring, options, script, out)?;
    write_audit(alloc, script.w, script.settled, &closed.audit, out)?;
    Ok(())
}

// Runs the script on the cluster that it asks for, which it closes, and then writes the cluster,
// each command with the steps that the book made, and the audit.
fn write_with_steps<O: Write, R: Wait>(
    rt: &R,
    alloc: Global,
    plan: &Plan,
    script: &Script,
    out: &mut O,
) -> Result<(), Stopped>
    requires planned { IsPlanOf (script_parts script.now) plan.now }
    ensures run { OnOk result ((wrote : List ℕ) × IsRun (script_parts script.now) true wrote
        × Appends (O.contents out.old) (O.contents out.new) wrote) }
    ensures only { IfErr result (IsStoppedFor HasFailed) }
{
    let ring = plan.ring.try_clone(alloc)?;
    let mut recording = Recording {
        script,
        recorded: Recorded::new(alloc),
    };
    let closed = with_cluster(rt, alloc, ring, plan.options, &mut recording)?;
    let recorded = &recording.recorded;
    let audit = &closed.audit;
    let trace = Trace::new(alloc, recorded.seats.numbers.as_slice(), audit)?;
    let line = ClusterLine {
        n: script.n,
        r: script.r,
        w: script.w,
    };
    write_cluster(line, plan.ring.tokens(), out)?;
    write_plays(alloc, &trace, recorded.plays.as_slice(), out)?;
    write_audit(alloc, script.w, script.settled, audit, out)?;
    Ok(())
}

/// Runs the script on a cluster of this ring, which it closes, and writes a line for each command.
/// The audit is left to the caller. May wait for locks.
pub fn run_script<O: Write, R: Wait>(
    rt: &R,
    alloc: Global,
    ring: Ring,
    options: Options,
    script: &Script,
    out: &mut O,
) -> Result<Closed, Stopped>
    ensures run { IfOk result (λ closed. (tellings : List SessionPart)
        × IsClosed ring options.n options.r tellings closed
        × HasRun (setting Brand ring options.n options.r options) (script_parts script.now) tellings
        (O.contents out.old) (O.contents out.new)) }
    ensures options { IfOk result (λ closed. closed.options ≡ options) }
    ensures only { IsStoppedOnlyBy (IsOpenRefusal options ring.nodes) result }
{
    let mut run = Run {
        script,
        out,
        lost: None,
    };
    let ended = with_cluster(rt, alloc, ring, options, &mut run);
    if let Some(error) = run.lost {
        return Err(Stopped::Output(error));
    }
    Ok(ended?)
}
