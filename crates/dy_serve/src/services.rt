// What is served in one cluster.
ghost use Rattle.std.specs.{
  Prelude.{◌≡◌, ◌⊎◌, List, ℕ, None, false, true, IfErr, IfOk, IsTrue, OnOk, length},
  Option.{option_copied},
  Io.KnownBytes.{Appends},
};
ghost use Rattle.dy_script.specs.Reading.{script_parts, node_count};
ghost use Rattle.dy_cluster.specs.Settings.{setting};
ghost use Rattle.dy_commands.specs.Commands.{IsTogether};
ghost use Rattle.dy_lines.specs.Stops.{IsStoppedFor};
ghost use Rattle.dy_serve.specs.{
  Below.{IsUntouched, standing},
  Refusals.{IsNotCarried},
  inside.Shortages.{StopsBeginning, StopsLines, StopsScript, StopsServing},
  inside.Stretches.{GoesOn, HasBegun, HasServed, RunsScript, ServesLines},
};

use crate::answering::{answer_command, answer_line, next_number};
use crate::input_lines::Line;
use crate::served_clusters::{ServedCluster, Terms, Ways};
use crate::told::ToldSoFar;
use dy_cluster::{Closed, Mark, MarkedWork, OpenCluster};
use dy_commands::Seats;
use dy_dots::Fault;
use dy_lines::{ServedLine, Stopped};
use dy_script::{Buffers, Script};
use dy_shares::Naming;
use std::io;
use std::io::{BufRead, Write};
use std::sync::Wait;

/// Why no more lines are served in a cluster.
#[derive(Clone, Copy, Debug, PartialEq, Eq)]
pub(crate) struct Stop {
    /// The number of the last command.
    pub count: u32,
    /// A line asks to renew the cluster.
    pub renews: bool,
    /// The input is at its end.
    pub is_last: bool,
}

/// How far a service is.
#[derive(Drop)]
pub(crate) struct Progress {
    // The line that was read last.
    pub line: Line,
    // The cluster before, if there was one.
    pub closed: Option<Closed>,
    pub seats: Seats,
    // How many steps of the cluster were printed.
    pub steps: usize,
    pub stop: Stop,
}

/// What a cluster is opened for: the commands of the script, or to go on with what was present in
/// one that was closed; and then the lines of the input.
#[derive(Drop)]
pub(crate) struct Service<'s, 'p, 'i, 'o, I: BufRead, O: Write> {
    pub script: &'s Script<'s>,
    pub with_steps: bool,
    pub progress: &'p mut Progress,
    pub input: &'i mut I,
    pub out: &'o mut O,
    // The first error of the output or the input.
    pub lost: Option<io::Error>,
}

impl<I: BufRead, O: Write> MarkedWork for Service<'_, '_, '_, '_, I, O> {
    ghost use Rattle.dy_script.specs.Reading.{script_parts as parts};
    ghost use Rattle.dy_serve.specs.{
      Below.{standing as standing_at},
      inside.Shortages.{StopsServing as IsStopping},
      inside.Stretches.{HasServed as HasServedLines},
    };

    ghost told = { λ setting before after tellings read.
        (after.progress.ghost_name ≡ before.progress.ghost_name)
        × (after.out.ghost_name ≡ before.out.ghost_name)
        × (after.input.ghost_name ≡ before.input.ghost_name)
        × (after.script.now ≡ before.script.now)
        × (after.with_steps ≡ before.with_steps)
        × (after.lost ≡ None → (after.progress.now.steps ≡ length read)
        × HasServedLines setting
        (record { w = before.script.now.w; with_steps = before.with_steps })
        (parts before.script.now) before.progress.now.closed
        before.progress.now.stop after.progress.now.stop
        (standing_at after.progress.now.seats tellings read)
        (I.remaining before.input.now) (I.remaining after.input.now)
        (O.contents before.out.now) (O.contents after.out.now)) };

    // Where it is refused, the output stays the same one, and a cause is told.
    ghost refused = { λ setting before after fault.
        (after.out.ghost_name ≡ before.out.ghost_name)
        × IsStopping setting (parts before.script.now) before.progress.now.closed
        before.progress.now.stop (I.remaining before.input.now)
        (O.contents before.out.now) (O.contents after.out.now) fault };

    fn run<J: Naming, R: Wait>(
        &mut self,
        lent: &mut OpenCluster<'_, J, R>,
        mark: &mut Mark<J>,
    ) -> Result<(), Fault> {
        let ways = Ways {
            w: self.script.w,
            with_steps: self.with_steps,
        };
        let nodes = self.script.layout.nodes();
        let terms = Terms { ways, nodes };
        let mut opened = ServedCluster::new(lent.alloc, lent.cluster, terms)?;
        let served = self.serve_in(lent, &mut opened);
        let ServedCluster {
            runner,
            mark: read,
            terms: _,
        } = opened;
        self.progress.seats = runner.seats;
        self.progress.steps = read.steps();
        *mark = read;
        match served {
            Ok(stop) => {
                self.progress.stop = stop;
                Ok(())
            }
            Err(Stopped::Refused(fault)) => Err(fault),
            Err(Stopped::Output(error)) => {
                self.lost = Some(error);
                Ok(())
            }
        }
    }
}

impl<I: BufRead, O: Write> Service<'_, '_, '_, '_, I, O> {
    // Begins in the open cluster, and serves the lines of the input, if there are any left.
    fn serve_in<J: Naming, R: Wait>(
        &mut self,
        lent: &mut OpenCluster<'_, J, R>,
        opened: &mut ServedCluster<'_, J>,
    ) -> Result<Stop, Stopped>
        requires none { IsUntouched opened.old.runner.seats lent.old.sessions.items
            opened.old.mark }
        requires nodes { opened.old.terms.nodes
            ≡ node_count (script_parts self.old.script.now).layout }
        ensures progress { self.new.progress.ghost_name ≡ self.old.progress.ghost_name }
        ensures out { self.new.out.ghost_name ≡ self.old.out.ghost_name }
        ensures input { self.new.input.ghost_name ≡ self.old.input.ghost_name }
        ensures script { self.new.script.now ≡ self.old.script.now }
        ensures lost { self.new.lost ≡ self.old.lost }
        ensures with_steps { self.new.with_steps ≡ self.old.with_steps }
        ensures served { IfOk result (λ stop. HasServed
            (setting J J.ring J.n J.r lent.old.cluster.now.options) opened.old.terms.ways
            (script_parts self.old.script.now) self.old.progress.now.closed
            self.old.progress.now.stop stop
            (standing opened.new.runner.seats lent.new.sessions.items opened.new.mark)
            (I.remaining self.old.input.now) (I.remaining self.new.input.now)
            (O.contents self.old.out.now) (O.contents self.new.out.now)) }
        ensures only { IfErr result (IsStoppedFor (StopsServing
            (setting J J.ring J.n J.r lent.old.cluster.now.options)
            (script_parts self.old.script.now) self.old.progress.now.closed
            self.old.progress.now.stop (I.remaining self.old.input.now)
            (O.contents self.old.out.now) (O.contents self.new.out.now))) }
    {
        let Stop { count, is_last, .. } = self.progress.stop;
        let closed = self.progress.closed.take();
        let count = begin(lent, opened, self.script, count, closed.as_ref(), self.out)?;
        if is_last {
            return Ok(Stop {
                count,
                renews: false,
                is_last,
            });
        }
        let line = &mut self.progress.line;
        let stop = serve_lines(lent, opened, count, line, self.input, self.out)?;
        Ok(stop)
    }
}

// Begins with the commands of the script, or goes on with what was present in the closed cluster.
fn begin<J: Naming, O: Write, R: Wait>(
    lent: &mut OpenCluster<'_, J, R>,
    opened: &mut ServedCluster<'_, J>,
    script: &Script,
    number: u32,
    closed: Option<&Closed>,
    out: &mut O,
) -> Result<u32, Stopped>
    requires none { IsUntouched opened.old.runner.seats lent.old.sessions.items opened.old.mark }
    ensures cluster { lent.new.cluster.now ≡ lent.old.cluster.now }
    ensures terms { opened.new.terms ≡ opened.old.terms }
    ensures begun { IfOk result (λ count. HasBegun
        (setting J J.ring J.n J.r lent.old.cluster.now.options) opened.old.terms.ways
        (script_parts script.now) (option_copied closed.entry) number
        (standing opened.new.runner.seats lent.new.sessions.items opened.new.mark) count
        (O.contents out.old) (O.contents out.new)) }
    ensures only { IfErr result (IsStoppedFor (StopsBeginning
        (setting J J.ring J.n J.r lent.old.cluster.now.options) (script_parts script.now)
        (option_copied closed.entry) (O.contents out.old) (O.contents out.new))) }
{
    match closed {
        Some(closed) => {
            go_on(lent, opened, closed, number, out)?;
            Ok(number)
        }
        None => run_script(lent, opened, script, out),
    }
}

// Puts what was present in the closed cluster, and writes the line of the renewal, which has this
// number, and its steps below if they are wanted.
fn go_on<J: Naming, O: Write, R: Wait>(
    lent: &mut OpenCluster<'_, J, R>,
    opened: &mut ServedCluster<'_, J>,
    closed: &Closed,
    number: u32,
    out: &mut O,
) -> Result<(), Stopped>
    requires none { IsUntouched opened.old.runner.seats lent.old.sessions.items opened.old.mark }
    ensures cluster { lent.new.cluster.now ≡ lent.old.cluster.now }
    ensures terms { opened.new.terms ≡ opened.old.terms }
    ensures together { OnOk result
        (IsTogether opened.new.runner.seats lent.new.sessions.items) }
    ensures wrote { OnOk result ((text : List ℕ)
        × GoesOn (setting J J.ring J.n J.r lent.old.cluster.now.options)
        opened.old.terms.ways.with_steps closed.now number
        (standing opened.new.runner.seats lent.new.sessions.items opened.new.mark) number text
        × Appends (O.contents out.old) (O.contents out.new) text) }
    ensures only { IfErr result (IsStoppedFor (λ fault. (fault ≡ Fault.OutOfMemory)
        ⊎ (IsNotCarried (setting J J.ring J.n J.r lent.old.cluster.now.options) closed.now fault
        × (O.contents out.new ≡ O.contents out.old)))) }
{
    let carried = opened.carry(lent, closed)?;
    let line = ServedLine::Renewed { number, carried };
    writeln!(out, "{line}")?;
    let none = ToldSoFar {
        acks: 0,
        fetches: 0,
    };
    opened.write_below(lent, 0, none, out)?;
    out.flush()?;
    Ok(())
}

// Does each command of the script, and writes its line. Gives how many they are.
fn run_script<J: Naming, O: Write, R: Wait>(
    lent: &mut OpenCluster<'_, J, R>,
    opened: &mut ServedCluster<'_, J>,
    script: &Script,
    out: &mut O,
) -> Result<u32, Stopped>
    requires none { IsUntouched opened.old.runner.seats lent.old.sessions.items opened.old.mark }
    ensures cluster { lent.new.cluster.now ≡ lent.old.cluster.now }
    ensures terms { opened.new.terms ≡ opened.old.terms }
    ensures together { IfOk result
        (λ _. IsTogether opened.new.runner.seats lent.new.sessions.items) }
    ensures wrote { IfOk result (λ count. (text : List ℕ)
        × RunsScript (setting J J.ring J.n J.r lent.old.cluster.now.options)
        opened.old.terms.ways (script_parts script.now)
        (standing opened.new.runner.seats lent.new.sessions.items opened.new.mark) count text
        × Appends (O.contents out.old) (O.contents out.new) text) }
    ensures only { IfErr result (IsStoppedFor (StopsScript (script_parts script.now))) }
{
    let mut count = 0;
    for command in script.run.as_slice() {
        count = next_number(count)?;
        answer_command(lent, opened, count, command, out)?;
    }
    Ok(count)
}

// Answers each line of the input, until one asks to renew the cluster. The first command has the
// number behind this one.
fn serve_lines<J: Naming, I: BufRead, O: Write, R: Wait>(
    lent: &mut OpenCluster<'_, J, R>,
    opened: &mut ServedCluster<'_, J>,
    count: u32,
    line: &mut Line,
    input: &mut I,
    out: &mut O,
) -> Result<Stop, Stopped>
    requires together { IsTogether opened.old.runner.seats lent.old.sessions.items }
    ensures served { IfOk result (λ stop. (text : List ℕ)
        × ServesLines (setting J J.ring J.n J.r lent.old.cluster.now.options)
        opened.old.terms.ways opened.old.terms.nodes count stop
        (standing opened.old.runner.seats lent.old.sessions.items opened.old.mark)
        (standing opened.new.runner.seats lent.new.sessions.items opened.new.mark)
        (I.remaining input.old) (I.remaining input.new) text
        × Appends (O.contents out.old) (O.contents out.new) text) }
    ensures only { IfErr result (IsStoppedFor
        (StopsLines opened.old.terms.nodes count (I.remaining input.old))) }
{
    let mut buffers = Buffers::new(lent.alloc);
    let mut count = count;
    for _ in lent.rt.forever() {
        let is_last = line.read(input)?;
        let answered = answer_line(lent, opened, &mut buffers, line, count, out)?;
        count = answered.count;
        let stop = Stop {
            count,
            renews: answered.renews,
            is_last,
        };
        if is_end(stop) {
            return Ok(stop);
        }
    }
    unreachable!()
}

// Whether no more lines are served behind this one.
fn is_end(stop: Stop) -> bool
    ensures { (IsTrue result → stop.renews ≡ false → stop.is_last ≡ true)
        × (result ≡ false → (stop.renews ≡ false) × (stop.is_last ≡ false)) }
{
    stop.renews || stop.is_last
}
