// What a storm prints.
ghost use Rattle.std.specs.{
  Prelude.{◌≡◌, OnOk, IfErr},
  Io.KnownBytes.{Appends},
  declared.marker.Brand.{Brand as BrandParts},
};
ghost use Rattle.dy_ring.specs.{Rings.{Tokens}, Lists.{IsRingOf}};
ghost use Rattle.dy_clients.specs.Refusals.{IsRunRefusal};
ghost use Rattle.dy_storm.specs.{
  Clusters.{five_tokens},
  Ends.{IsStormed},
  Lines.{counts_line, storm_lines},
  declared.storms.StormDone.{StormDone},
};

use crate::counts::Counts;
use crate::rings::five_nodes;
use crate::storms::storm_on;
use crate::traces::write_trace;
use dy_clients::Fault;
use dy_lines::Stopped;
use dy_plans::Storm;
use std::alloc::Global;
use std::io;
use std::io::Write;
use std::sync::Wait;
use std::thread::Threads;

/// Plays the storm, and writes its steps where they are wanted, and then the line of its counts.
/// Writes nothing where the storm is refused. May wait for locks, answers and threads.
pub fn write_storm<O: Write, R: Threads + Wait + Sync>(
    rt: &R,
    alloc: Global,
    plan: Storm,
    out: &mut O,
) -> Result<(), Stopped>
    ensures written { OnOk result ((ring : Tokens) × IsRingOf five_tokens ring
        × ((done : StormDone) × ((stormed : IsStormed BrandParts ring 3 2 plan done)
        × Appends (O.contents out.old) (O.contents out.new)
        (storm_lines plan.steps ring.tokens stormed.tellings done)))) }
    ensures refused { IfErr result (λ stopped. (fault : Fault)
        → stopped ≡ Stopped.Refused fault → IsRunRefusal fault) }
{
    let ring = five_nodes(alloc)?;
    // The cluster takes the ring.
    let copy = ring.try_clone(alloc)?;
    let done = storm_on(rt, alloc, ring, plan)?;
    write_trace(alloc, plan.steps, copy.tokens(), &done.closed.audit, out)?;
    write_counts(done.counts, out)?;
    Ok(())
}

// Writes the line of the counts.
fn write_counts<O: Write>(counts: Counts, out: &mut O) -> io::Result<()>
    ensures { OnOk result (Appends (O.contents out.old) (O.contents out.new)
        (counts_line counts)) }
{
    writeln!(out, "{counts}")
}
