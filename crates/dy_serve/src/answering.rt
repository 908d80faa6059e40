// How a command and a line are answered.
ghost use Rattle.std.specs.{
  Prelude.{◌≡◌, ◌⊎◌, ◌+◌, List, ℕ, IfErr, IfOk, OnOk},
  Io.KnownBytes.{Appends},
};
ghost use Rattle.dy_lines.specs.{
  Outcomes.{command_text},
  Served.{refused_text},
  Stops.{IsStoppedFor, IsStoppedForMemory},
  Texts.{line as text_line},
};
ghost use Rattle.dy_script.specs.Orders.{command_parts};
ghost use Rattle.dy_cluster.specs.Settings.{setting};
ghost use Rattle.dy_commands.specs.Commands.{IsTogether};
ghost use Rattle.dy_serve.specs.{
  Answers.{IsDone},
  Below.{standing},
  inside.Meeting.{AsksSo, MeetsLine},
  inside.Shortages.{HasNoNumber},
  InputLines.{IsKept},
};

use crate::input_lines::{Line, is_blank};
use crate::served_clusters::ServedCluster;
use crate::told::{session_of, told_so_far};
use dy_cluster::OpenCluster;
use dy_commands::run_command;
use dy_dots::Fault;
use dy_lines::{CommandLine, Outcome, ServedLine, Stopped, write_whole};
use dy_script::{Buffers, Command, Request, read_request};
use dy_shares::Naming;
use std::alloc::Global;
use std::io;
use std::io::Write;
use std::sync::Wait;

/// What a line asks for.
#[derive(Debug, Drop)]
enum LineAsked<'a> {
    /// Nothing: it is blank.
    Nothing,
    /// What it says, by this number.
    Wanted { number: u32, request: Request<'a> },
    /// What can't be read, or is no request.
    Wrong { number: u32, fault: Fault },
}

/// The number behind this one, of which there are 4,294,967,295.
pub(crate) fn next_number(count: u32) -> Result<u32, Fault>
    ensures number { IfOk result (λ number. number ≡ count + 1) }
    ensures only { IfErr result (HasNoNumber count) }
{
    match count.checked_add(1) {
        Some(number) => Ok(number),
        None => Err(Fault::TooMany),
    }
}

/// Does the command of this number, and writes its line, and its steps below if they are wanted.
/// All of it reaches the reader at once. May wait for locks.
pub(crate) fn answer_command<J: Naming, O: Write, R: Wait>(
    lent: &mut OpenCluster<'_, J, R>,
    opened: &mut ServedCluster<'_, J>,
    number: u32,
    command: &Command,
    out: &mut O,
) -> Result<(), Stopped>
    requires together { IsTogether opened.old.runner.seats lent.old.sessions.items }
    ensures together { IsTogether opened.new.runner.seats lent.new.sessions.items }
    ensures cluster { lent.new.cluster.now ≡ lent.old.cluster.now }
    ensures terms { opened.new.terms ≡ opened.old.terms }
    ensures done { OnOk result ((text : List ℕ)
        × IsDone (setting J J.ring J.n J.r lent.old.cluster.now.options) opened.old.terms.ways.w
        opened.old.terms.ways.with_steps (command_parts command.now) number
        (standing opened.old.runner.seats lent.old.sessions.items opened.old.mark)
        (standing opened.new.runner.seats lent.new.sessions.items opened.new.mark) text
        × Appends (O.contents out.old) (O.contents out.new) text) }
    ensures memory { IfErr result IsStoppedForMemory }
{
    let session = session_of(command);
    let so_far = told_so_far(&opened.runner.seats, lent.sessions.as_slice(), session);
    let ways = opened.terms.ways;
    let outcome = run_command(lent, &mut opened.runner, command, ways.w);
    tell(number, &outcome, out)?;
    opened.write_below(lent, session, so_far, out)?;
    out.flush()?;
    Ok(())
}

/// Writes what came of the command of this number.
fn tell<O: Write>(number: u32, outcome: &Outcome, out: &mut O) -> io::Result<()>
    ensures { OnOk result (Appends (O.contents out.old) (O.contents out.new)
        (text_line (command_text number outcome.now))) }
{
    let line = CommandLine {
        number: number as usize,
        outcome,
    };
    write_whole(&line, out)?;
    Ok(())
}

/// Writes that the command of this number is refused, which reaches the reader at once.
fn refuse<O: Write>(number: u32, fault: Fault, out: &mut O) -> io::Result<()>
    ensures { OnOk result (Appends (O.contents out.old) (O.contents out.new)
        (text_line (refused_text number fault))) }
{
    let refusal = ServedLine::Refused { number, fault };
    writeln!(out, "{refusal}")?;
    out.flush()?;
    Ok(())
}

/// What the line asks for, of a store with so many nodes, and its number, which is behind this one
/// unless the line is blank.
fn asked_of_line<'a>(
    alloc: Global,
    buffers: &'a mut Buffers,
    nodes: usize,
    count: u32,
    line: &'a Line,
) -> Result<LineAsked<'a>, Fault>
    ensures asked { IfOk result (λ asked. (whole : List ℕ) →
        IsKept line.now.is_long line.now.bytes.items whole →
        AsksSo nodes count whole asked) }
    ensures only { IfErr result (HasNoNumber count) }
{
    let Some(bytes) = line.bytes() else {
        let number = next_number(count)?;
        let fault = Fault::ScriptSyntax { command: number };
        return Ok(LineAsked::Wrong { number, fault });
    };
    if is_blank(bytes) {
        return Ok(LineAsked::Nothing);
    }
    let number = next_number(count)?;
    match read_request(alloc, buffers, bytes, number, nodes) {
        Ok(request) => Ok(LineAsked::Wanted { number, request }),
        Err(fault) => Ok(LineAsked::Wrong { number, fault }),
    }
}

/// What came of a line.
#[derive(Clone, Copy, Debug, PartialEq, Eq)]
pub(crate) struct Answered {
    /// The number of the last command, this line's or one before it.
    pub count: u32,
    /// Whether it asks to renew the cluster, which is left to the caller.
    pub renews: bool,
}

/// Answers the line, unless it asks to renew the cluster. May wait for locks.
pub(crate) fn answer_line<J: Naming, O: Write, R: Wait>(
    lent: &mut OpenCluster<'_, J, R>,
    opened: &mut ServedCluster<'_, J>,
    buffers: &mut Buffers,
    line: &Line,
    count: u32,
    out: &mut O,
) -> Result<Answered, Stopped>
    requires together { IsTogether opened.old.runner.seats lent.old.sessions.items }
    ensures together { IsTogether opened.new.runner.seats lent.new.sessions.items }
    ensures cluster { lent.new.cluster.now ≡ lent.old.cluster.now }
    ensures terms { opened.new.terms ≡ opened.old.terms }
    ensures answered { IfOk result (λ answered. (whole : List ℕ) →
        IsKept line.now.is_long line.now.bytes.items whole →
        (text : List ℕ)
        × MeetsLine (setting J J.ring J.n J.r lent.old.cluster.now.options) opened.old.terms.ways
        opened.old.terms.nodes count whole answered
        (standing opened.old.runner.seats lent.old.sessions.items opened.old.mark)
        (standing opened.new.runner.seats lent.new.sessions.items opened.new.mark) text
        × Appends (O.contents out.old) (O.contents out.new) text) }
    ensures only { IfErr result (IsStoppedFor
        (λ fault. (fault ≡ Fault.OutOfMemory) ⊎ HasNoNumber count fault)) }
{
    let nodes = opened.terms.nodes;
    match asked_of_line(lent.alloc, buffers, nodes, count, line)? {
        LineAsked::Nothing => Ok(Answered {
            count,
            renews: false,
        }),
        LineAsked::Wrong { number, fault } => {
            refuse(number, fault, out)?;
            Ok(Answered {
                count: number,
                renews: false,
            })
        }
        LineAsked::Wanted { number, request } => match request {
            Request::Renew => Ok(Answered {
                count: number,
                renews: true,
            }),
            Request::Do(command) => {
                answer_command(lent, opened, number, &command, out)?;
                Ok(Answered {
                    count: number,
                    renews: false,
                })
            }
        },
    }
}
