// The lines of commands, and of steps below them.
ghost use Rattle.std.specs.{
  Prelude.{◌≤◌, ◌+◌, [], List, ℕ, length, IfErr, IfOk, OnOk, slice_range},
  Io.KnownBytes.{Appends},
};
ghost use Rattle.dy_lines.specs.{StepLines.{step_lines}, Stops.{IsStoppedForMemory}};
ghost use Rattle.dy_runner.specs.{
  Runs.{outcomes_in},
  Traces.{AreTraced, command_lines, sessions_of},
};

use crate::recordings::Played;
use crate::traces::Trace;
use dy_lines::{CommandLine, Stopped, write_step_lines, write_whole};
use std::alloc::Global;
use std::io::Write;

/// Writes a line for what came of each command, and right below it the lines of the steps that the
/// book made until the next one; the last has those that are left too.
pub(crate) fn write_plays<O: Write>(
    alloc: Global,
    trace: &Trace<'_>,
    plays: &[Played],
    out: &mut O,
) -> Result<(), Stopped>
    ensures written { OnOk result ((wrote : List ℕ)
        × AreTraced (sessions_of trace.now) (outcomes_in plays.now) trace.now.steps.now wrote
        × Appends (O.contents out.old) (O.contents out.new) wrote) }
    ensures memory { IfErr result IsStoppedForMemory }
{
    let mut at = 0;
    for (index, play) in plays.iter().enumerate() {
        at = write_play(alloc, trace, index + 1, play, at, out)?;
    }
    write_steps(alloc, trace, at, trace.steps.len(), out)?;
    Ok(())
}

// Writes the line of the command, and its steps, from this place on. Gives where they end.
fn write_play<O: Write>(
    alloc: Global,
    trace: &Trace<'_>,
    number: usize,
    play: &Played,
    at: usize,
    out: &mut O,
) -> Result<usize, Stopped>
    requires within { at ≤ length trace.now.steps.now }
    ensures rises { IfOk result (λ end. at ≤ end) }
    ensures within { IfOk result (λ end. end ≤ length trace.now.steps.now) }
    ensures wrote { IfOk result (λ end. Appends (O.contents out.old) (O.contents out.new)
        (command_lines (sessions_of trace.now) number (at + 1)
        (record { outcome = play.now.outcome; steps = slice_range trace.now.steps.now at end }))) }
    ensures memory { IfErr result IsStoppedForMemory }
{
    let line = CommandLine {
        number,
        outcome: &play.outcome,
    };
    write_whole(&line, out)?;
    let end = mark_of(at, play.steps, trace.steps.len());
    write_steps(alloc, trace, at, end, out)?;
    Ok(end)
}

// Where a command's steps end: at its mark, which is not before the mark before it, nor behind the
// last step.
fn mark_of(before: usize, mark: usize, count: usize) -> usize
    requires { before ≤ count }
    ensures rises { before ≤ result }
    ensures within { result ≤ count }
{
    if mark < before {
        return before;
    }
    if count < mark {
        return count;
    }
    mark
}

// Writes the steps from this place up to that one, and what was told of their fetches.
fn write_steps<O: Write>(
    alloc: Global,
    trace: &Trace<'_>,
    at: usize,
    end: usize,
    out: &mut O,
) -> Result<(), Stopped>
    requires rises { at ≤ end }
    requires within { end ≤ length trace.now.steps.now }
    ensures written { OnOk result (Appends (O.contents out.old) (O.contents out.new)
        (step_lines (sessions_of trace.now) [] (at + 1) (slice_range trace.now.steps.now at end))) }
    ensures memory { IfErr result IsStoppedForMemory }
{
    write_step_lines(alloc, trace, at, &trace.steps[at..end], out)?;
    Ok(())
}
