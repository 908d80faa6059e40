// A run whose outcomes are kept until its cluster is closed.
ghost use Rattle.std.specs.Prelude.{◌≡◌, [], IfOk, IsOkUnless};
ghost use Rattle.dy_script.specs.Reading.{script_parts};
ghost use Rattle.dy_cluster.specs.Settings.{setting};
ghost use Rattle.dy_runner.specs.Runs.{HasPlayed};

use dy_cluster::{OpenCluster, Work};
use dy_commands::{Runner, Seats, run_command};
use dy_dots::Fault;
use dy_lines::Outcome;
use dy_script::Script;
use dy_shares::Naming;
use std::alloc::Global;
use std::sync::Wait;

/// A command that was done: what came of it, and how many steps the book had made behind it.
#[derive(Drop)]
pub(crate) struct Played {
    pub outcome: Outcome,
    pub steps: usize,
}

/// What a script did: its commands, in their order, and its sessions.
#[derive(Drop)]
pub(crate) struct Recorded {
    pub plays: Vec<Played>,
    pub seats: Seats,
}

impl Recorded {
    /// Nothing is done yet. Takes no memory.
    pub(crate) fn new(alloc: Global) -> Recorded
        ensures plays { result.plays.items ≡ [] }
        ensures seats { result.seats.numbers.items ≡ [] }
    {
        Recorded {
            plays: Vec::new(alloc),
            seats: Seats::new(alloc),
        }
    }
}

/// A script that is run on a cluster, and what it did.
#[derive(Drop)]
pub(crate) struct Recording<'a> {
    pub script: &'a Script<'a>,
    pub recorded: Recorded,
}

impl Work for Recording<'_> {
    ghost use Rattle.dy_dots.specs.declared.faults.Fault.TheVariants as Fault;
    ghost use Rattle.dy_script.specs.Reading.{script_parts as parts};
    ghost use Rattle.dy_runner.specs.Runs.{HasPlayed as IsRecorded};

    // The commands are done, and recorded. A refusal is for want of memory.
    ghost told = { λ setting before after tellings.
        IsRecorded setting (parts before.script.now) tellings after.recorded };

    ghost refused = { λ _ _ _ fault. fault ≡ Fault.OutOfMemory };

    fn run<J: Naming, R: Wait>(&mut self, lent: &mut OpenCluster<'_, J, R>) -> Result<(), Fault> {
        self.recorded = record_all(lent, self.script)?;
        Ok(())
    }
}

// Runs each command. Room for what came of it is had before.
fn record_all<J: Naming, R: Wait>(
    lent: &mut OpenCluster<'_, J, R>,
    script: &Script,
) -> Result<Recorded, Fault>
    requires none { lent.old.sessions.items ≡ [] }
    ensures played { IfOk result (HasPlayed
        (setting J J.ring J.n J.r lent.old.cluster.now.options) (script_parts script.now)
        lent.new.sessions.items) }
    ensures memory { IsOkUnless result Fault.OutOfMemory }
{
    let mut runner = Runner::new(lent.alloc, lent.cluster)?;
    let mut plays = Vec::new(lent.alloc);
    for command in script.run.as_slice() {
        plays.reserve(1)?;
        let outcome = run_command(lent, &mut runner, command, script.w);
        let steps = lent.cluster.steps(lent.rt);
        plays.push_reserved(Played { outcome, steps });
    }
    let seats = runner.seats;
    Ok(Recorded { plays, seats })
}
