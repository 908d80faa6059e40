// The lines of steps, and of what sessions were told of the fetches among them.
ghost use Rattle.std.specs.{
  Prelude.{◌≡◌, ◌≤◌, ◌<◌, ◌+◌, ◌^◌, [], IfErr, OnOk, length},
  Io.KnownBytes.{Appends},
};
ghost use Rattle.dy_lines.specs.{
  StepLines.{fetches_behind, is_fetch as is_a_fetch, line_behind, step_line, step_lines, told_line},
  Stops.{IsStoppedForMemory},
  inside.Fetches.{IsFirstBetween},
};

use crate::audiences::Audience;
use crate::steps::{StepLine, ToldLine};
use crate::stops::Stopped;
use crate::whole::write_whole;
use dy_dots::Fault;
use dy_shares::KeptStep;
use std::alloc::Global;
use std::io;
use std::io::Write;

/// Writes a line for each of the steps, the first of which has the number behind this one. Behind
/// fetches that follow each other stands one line more, of those that a session was told of.
pub fn write_step_lines<A: Audience, O: Write>(
    alloc: Global,
    audience: &A,
    before: usize,
    steps: &[KeptStep],
    out: &mut O,
) -> Result<(), Stopped>
    requires behind { A.before audience.now ≤ before }
    requires within { before + length steps.now ≤ A.last audience.now }
    requires fits { before + length steps.now < 2 ^ 64 }
    ensures written { OnOk result (Appends (O.contents out.old) (O.contents out.new)
        (step_lines (A.sessions audience.now) [] (before + 1) steps.now)) }
    ensures memory { IfErr result IsStoppedForMemory }
{
    let mut fetches = Vec::new(alloc);
    for (index, step) in steps.iter().enumerate() {
        write_step(audience, &mut fetches, before + index + 1, step, out)?;
    }
    write_told(audience, fetches.as_slice(), out)?;
    Ok(())
}

// Writes the step, and before one that is no fetch what was told of the fetches before it.
fn write_step<A: Audience, O: Write>(
    audience: &A,
    fetches: &mut Vec<usize>,
    number: usize,
    step: &KeptStep,
    out: &mut O,
) -> Result<(), Stopped>
    requires behind { A.before audience.now < number }
    requires within { number ≤ A.last audience.now }
    requires first { IsFirstBetween (A.before audience.now) (A.last audience.now)
        fetches.old.items }
    ensures first { OnOk result (IsFirstBetween (A.before audience.now) (A.last audience.now)
        fetches.new.items) }
    ensures wrote { OnOk result (Appends (O.contents out.old) (O.contents out.new)
        (line_behind (A.sessions audience.now) fetches.old.items number step.now)) }
    ensures fetches { OnOk result (fetches.new.items
        ≡ fetches_behind (A.sessions audience.now) fetches.old.items number step.now) }
    ensures memory { IfErr result IsStoppedForMemory }
{
    if is_fetch(step) {
        write_line(audience, number, step, out)?;
        if audience.is_told(number) {
            fetches.push(number).map_err(|_| Fault::OutOfMemory)?;
        }
        return Ok(());
    }
    write_told(audience, fetches.as_slice(), out)?;
    fetches.clear();
    write_line(audience, number, step, out)?;
    Ok(())
}

// Whether the step is a fetch.
fn is_fetch(step: &KeptStep) -> bool
    ensures { result ≡ is_a_fetch step.now }
{
    match step {
        KeptStep::Fetched { .. } => true,
        _ => false,
    }
}

// Writes the line of the step.
fn write_line<A: Audience, O: Write>(
    audience: &A,
    number: usize,
    step: &KeptStep,
    out: &mut O,
) -> io::Result<()>
    requires behind { A.before audience.now < number }
    requires within { number ≤ A.last audience.now }
    ensures { OnOk result (Appends (O.contents out.old) (O.contents out.new)
        (step_line (A.sessions audience.now) number step.now)) }
{
    let line = StepLine {
        number,
        step,
        session: audience.session_of(number),
    };
    write_whole(&line, out)?;
    Ok(())
}

// Writes which fetches a session was told of, if there are any.
fn write_told<A: Audience, O: Write>(audience: &A, fetches: &[usize], out: &mut O) -> io::Result<()>
    requires first { IsFirstBetween (A.before audience.now) (A.last audience.now) fetches.now }
    ensures { OnOk result (Appends (O.contents out.old) (O.contents out.new)
        (told_line (A.sessions audience.now) fetches.now)) }
{
    if fetches.is_empty() {
        return Ok(());
    }
    let line = ToldLine {
        fetches,
        session: audience.session_of(fetches[0]),
    };
    write_whole(&line, out)?;
    Ok(())
}
