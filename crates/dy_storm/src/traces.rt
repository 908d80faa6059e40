// What a storm prints of its steps.
ghost use Rattle.std.specs.{
  Prelude.{◌≡◌, List, OnOk, IfErr},
  Io.KnownBytes.{Appends},
  List.{enumerate_from, flat_map},
};
ghost use Rattle.dy_shares.specs.Shares.{SessionPart};
ghost use Rattle.dy_lines.specs.{Sessions.{place_by}, Tellings.{AreToldBy}};
ghost use Rattle.dy_storm.specs.Traces.{all_gets, step_line, trace_lines};

use crate::rings::options;
use dy_book::Audit;
use dy_dots::Fault;
use dy_lines::{ClusterLine, SessionIndex, StepLine, Stopped, write_cluster, write_gets};
use dy_ring::Token;
use dy_shares::{KeptStep, StepNumbers};
use std::alloc::Global;
use std::io;
use std::io::Write;

/// How many answers a get has.
const R: usize = 2;

/// Where steps are wanted, writes the cluster with these tokens, each step, and which fetches the
/// gets of each session used. Writes nothing where memory is wanting.
pub(crate) fn write_trace<O: Write>(
    alloc: Global,
    is_wanted: bool,
    tokens: &[Token],
    audit: &Audit,
    out: &mut O,
) -> Result<(), Stopped>
    ensures written { OnOk result ((tellings : List SessionPart)
        → AreToldBy 2 audit.now.told.items tellings
        → Appends (O.contents out.old) (O.contents out.new)
        (trace_lines is_wanted tokens.now audit.now (all_gets tellings))) }
    ensures refused { IfErr result (λ stopped. (fault : Fault)
        → stopped ≡ Stopped.Refused fault → fault ≡ Fault.OutOfMemory) }
{
    if !is_wanted {
        return Ok(());
    }
    let told = audit.told.as_slice();
    let steps = audit.history.kept();
    let sessions = SessionIndex::new(alloc, steps.len(), told)?;
    let options = options();
    let line = ClusterLine {
        n: options.n,
        r: options.r,
        w: options.w,
    };
    write_cluster(line, tokens, out)?;
    write_steps(&sessions, steps, out)?;
    write_told(told, out)?;
    Ok(())
}

// Writes each step with its number, from 1, and the session of that number.
fn write_steps<O: Write>(sessions: &SessionIndex, steps: &[KeptStep], out: &mut O) -> io::Result<()>
    ensures { OnOk result (Appends (O.contents out.old) (O.contents out.new)
        (flat_map (step_line (place_by sessions.now)) (enumerate_from 1 steps.now))) }
{
    for (index, step) in steps.iter().enumerate() {
        let number = index + 1;
        let line = StepLine {
            number,
            step,
            session: sessions.session_at(number),
        };
        writeln!(out, "{line}")?;
    }
    Ok(())
}

// Writes what the gets of each session used.
fn write_told<O: Write>(told: &[StepNumbers], out: &mut O) -> io::Result<()>
    ensures { OnOk result ((tellings : List SessionPart) → AreToldBy 2 told.now tellings
        → Appends (O.contents out.old) (O.contents out.new) (all_gets tellings)) }
{
    for (session, numbers) in told.iter().enumerate() {
        write_gets(session, R, numbers.fetches.as_slice(), out)?;
    }
    Ok(())
}
