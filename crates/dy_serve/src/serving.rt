ghost use Rattle.std.specs.{
  Prelude.{◌≡◌, ◌⊎◌, List, ℕ, Result, IfErr, IfOk, OnOk, length},
  Io.KnownBytes.{Appends},
  declared.marker.Brand.{Brand},
};
ghost use Rattle.dy_dots.specs.declared.faults.Fault.{Fault as FaultParts};
ghost use Rattle.dy_ring.specs.Rings.{Tokens};
ghost use Rattle.dy_script.specs.Reading.{script_parts};
ghost use Rattle.dy_shares.specs.{Shares.{SessionPart}, declared.entries.Entry.{Entry}};
ghost use Rattle.dy_cluster.specs.{Marks.{IsClosedBehind}, Settings.{setting}};
ghost use Rattle.dy_lines.specs.Stops.{IsStoppedFor};
ghost use Rattle.dy_plans.specs.{
  Openings.{IsPlanOf, options_for},
  Refusals.{HasFailed, IsFirstRefusal, IsStoppedBy, IsStoppedOnlyBy},
  RingLines.{IsRingMade, lists_of},
};
ghost use Rattle.dy_serve.specs.{
  Below.{standing},
  InputLines.{IsAllOf},
  Refusals.{CutsService},
  Served.{IsServed, first_lines, service_of},
  inside.Shortages.{StopsCluster, StopsClusters},
  inside.Stretches.{HasServed, HasServedAll, ServesCluster},
};

use crate::closing::write_closing;
use crate::input_lines::Line;
use crate::services::{Progress, Service, Stop};
use dy_cluster::{Closed, with_marked_cluster};
use dy_commands::Seats;
use dy_lines::{ClusterLine, Stopped, write_cluster};
use dy_plans::{Plan, plan_of};
use dy_script::Script;
use std::alloc::Global;
use std::io;
use std::io::{BufRead, Write};
use std::sync::Wait;

// What a service is for: the script, the cluster that it asks for, and whether steps are wanted.
#[derive(Drop)]
struct Setup<'a, R: Wait> {
    rt: &'a R,
    alloc: Global,
    plan: &'a Plan,
    script: &'a Script<'a>,
    with_steps: bool,
}

/// Opens the cluster that the script asks for, and does its commands. Then it does the command that
/// each line of the input says, to its end. Each is answered by a line, with its steps below if
/// they are wanted. All of it reaches the reader before the next line is read. Behind the last the
/// cluster is closed, and its audit is written. Room for the longest line is had before the first
/// is read. May wait for locks, and for the input.
pub fn serve<I: BufRead, O: Write, R: Wait>(
    rt: &R,
    alloc: Global,
    script: &Script,
    with_steps: bool,
    input: &mut I,
    out: &mut O,
) -> Result<(), Stopped>
    ensures refused { (made : Result Tokens FaultParts)
        × IsRingMade (lists_of (script_parts script.now).layout) made
        × IsStoppedBy (IsFirstRefusal made (options_for (script_parts script.now))) result
        (O.contents out.old) (O.contents out.new)
        × IsStoppedOnlyBy (λ fault.
        IsFirstRefusal made (options_for (script_parts script.now)) fault
        ⊎ CutsService (script_parts script.now) with_steps (I.remaining input.old)
        (O.contents out.old) (O.contents out.new) fault) result }
    ensures served { OnOk result ((text wrote : List ℕ)
        × IsServed (script_parts script.now) with_steps text wrote
        × IsAllOf (I.remaining input.old) text
        × Appends (O.contents out.old) (O.contents out.new) wrote) }
{
    match plan_of(alloc, script) {
        Ok(plan) => {
            let setup = Setup {
                rt,
                alloc,
                plan: &plan,
                script,
                with_steps,
            };
            serve_planned(&setup, input, out)
        }
        Err(fault) => Err(Stopped::Refused(fault)),
    }
}

// Serves in clusters of this plan, one after another.
fn serve_planned<I: BufRead, O: Write, R: Wait>(
    setup: &Setup<'_, R>,
    input: &mut I,
    out: &mut O,
) -> Result<(), Stopped>
    requires planned { IsPlanOf (script_parts setup.now.script.now) setup.now.plan.now }
    ensures served { OnOk result ((text wrote : List ℕ)
        × IsServed (script_parts setup.now.script.now) setup.now.with_steps text wrote
        × IsAllOf (I.remaining input.old) text
        × Appends (O.contents out.old) (O.contents out.new) wrote) }
    ensures only { IfErr result (IsStoppedFor (λ fault.
        CutsService (script_parts setup.now.script.now) setup.now.with_steps
        (I.remaining input.old) (O.contents out.old) (O.contents out.new) fault
        ⊎ HasFailed fault)) }
{
    write_head(setup.plan, setup.script, setup.with_steps, out)?;
    let line = Line::new(setup.alloc)?;
    serve_clusters(setup, line, input, out)?;
    Ok(())
}

// Writes the cluster's numbers and its tokens, if the steps are wanted.
fn write_head<O: Write>(
    plan: &Plan,
    script: &Script,
    with_steps: bool,
    out: &mut O,
) -> io::Result<()>
    ensures { OnOk result (Appends (O.contents out.old) (O.contents out.new)
        (first_lines (script_parts script.now) plan.now.ring with_steps)) }
{
    if !with_steps {
        return Ok(());
    }
    let line = ClusterLine {
        n: script.n,
        r: script.r,
        w: script.w,
    };
    write_cluster(line, plan.ring.tokens(), out)?;
    Ok(())
}

// Serves in one cluster after another, until no line asks to renew it.
fn serve_clusters<I: BufRead, O: Write, R: Wait>(
    setup: &Setup<'_, R>,
    line: Line,
    input: &mut I,
    out: &mut O,
) -> Result<(), Stopped>
    requires planned { IsPlanOf (script_parts setup.now.script.now) setup.now.plan.now }
    ensures served { OnOk result (HasServedAll
        (service_of (script_parts setup.now.script.now) setup.now.plan.now.ring
        setup.now.with_steps) (I.remaining input.old) (I.remaining input.new)
        (O.contents out.old) (O.contents out.new)) }
    ensures only { IfErr result (IsStoppedFor (StopsClusters
        (service_of (script_parts setup.now.script.now) setup.now.plan.now.ring
        setup.now.with_steps) (I.remaining input.old)
        (O.contents out.old) (O.contents out.new))) }
{
    let stop = Stop {
        count: 0,
        renews: false,
        is_last: false,
    };
    let mut progress = Progress {
        line,
        closed: None,
        seats: Seats::new(setup.alloc),
        steps: 0,
        stop,
    };
    serve_cluster(setup, &mut progress, input, out)?;
    for _ in setup.rt.forever() {
        if !progress.stop.renews {
            return Ok(());
        }
        serve_cluster(setup, &mut progress, input, out)?;
    }
    unreachable!()
}

// Opens a cluster, serves in it, closes it, and writes how it was closed.
fn serve_cluster<I: BufRead, O: Write, R: Wait>(
    setup: &Setup<'_, R>,
    progress: &mut Progress,
    input: &mut I,
    out: &mut O,
) -> Result<(), Stopped>
    requires planned { IsPlanOf (script_parts setup.now.script.now) setup.now.plan.now }
    ensures served { OnOk result (ServesCluster
        (record {
          setting = setting Brand setup.now.plan.now.ring setup.now.plan.now.options.n
              setup.now.plan.now.options.r setup.now.plan.now.options;
          script = script_parts setup.now.script.now;
          with_steps = setup.now.with_steps;
        })
        progress.old.closed progress.old.stop progress.new.closed progress.new.stop
        (I.remaining input.old) (I.remaining input.new)
        (O.contents out.old) (O.contents out.new)) }
    ensures only { IfErr result (IsStoppedFor (StopsCluster
        (setting Brand setup.now.plan.now.ring setup.now.plan.now.options.n
        setup.now.plan.now.options.r setup.now.plan.now.options)
        (script_parts setup.now.script.now) progress.old.closed progress.old.stop
        (I.remaining input.old) (O.contents out.old) (O.contents out.new))) }
{
    let closed = close_served(setup, progress, input, out)?;
    let steps = progress.steps;
    let (script, with_steps) = (setup.script, setup.with_steps);
    write_closing(setup.alloc, script, with_steps, steps, &closed.audit, out)?;
    progress.closed = Some(closed);
    Ok(())
}

// Opens a cluster, serves in it, and closes it.
fn close_served<I: BufRead, O: Write, R: Wait>(
    setup: &Setup<'_, R>,
    progress: &mut Progress,
    input: &mut I,
    out: &mut O,
) -> Result<Closed, Stopped>
    requires planned { IsPlanOf (script_parts setup.now.script.now) setup.now.plan.now }
    ensures served { IfOk result (λ closed. (tellings : List SessionPart) × (read : List Entry)
        × IsClosedBehind setup.now.plan.now.ring setup.now.plan.now.options.n
        setup.now.plan.now.options.r tellings read closed
        × (progress.new.steps ≡ length read)
        × HasServed (setting Brand setup.now.plan.now.ring setup.now.plan.now.options.n
        setup.now.plan.now.options.r setup.now.plan.now.options)
        (record { w = setup.now.script.now.w; with_steps = setup.now.with_steps })
        (script_parts setup.now.script.now) progress.old.closed progress.old.stop
        progress.new.stop (standing progress.new.seats tellings read)
        (I.remaining input.old) (I.remaining input.new)
        (O.contents out.old) (O.contents out.new)) }
    ensures options { IfOk result (λ closed. closed.options ≡ setup.now.plan.now.options) }
    ensures only { IfErr result (IsStoppedFor (StopsCluster
        (setting Brand setup.now.plan.now.ring setup.now.plan.now.options.n
        setup.now.plan.now.options.r setup.now.plan.now.options)
        (script_parts setup.now.script.now) progress.old.closed progress.old.stop
        (I.remaining input.old) (O.contents out.old) (O.contents out.new))) }
{
    let plan = setup.plan;
    let ring = plan.ring.try_clone(setup.alloc)?;
    let mut service = Service {
        script: setup.script,
        with_steps: setup.with_steps,
        progress,
        input,
        out,
        lost: None,
    };
    let ended = with_marked_cluster(setup.rt, setup.alloc, ring, plan.options, &mut service);
    if let Some(error) = service.lost {
        return Err(Stopped::Output(error));
    }
    Ok(ended?)
}
