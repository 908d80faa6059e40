ghost use Rattle.std.specs.Prelude.{◌≡◌, [], false, OnOk};
ghost use Rattle.dy_script.specs.Reading.{script_parts};
ghost use Rattle.dy_cluster.specs.Settings.{setting};
ghost use Rattle.dy_runner.specs.Runs.{HasRun};

use dy_cluster::{OpenCluster, Work};
use dy_commands::{Runner, run_command};
use dy_dots::Fault;
use dy_lines::{CommandLine, write_whole};
use dy_script::Script;
use dy_shares::Naming;
use std::io;
use std::io::Write;
use std::sync::Wait;

/// A script that is run on a cluster, with its output: what it prints, and the first error of it.
#[derive(Drop)]
pub(crate) struct Run<'a, O: Write> {
    pub script: &'a Script<'a>,
    pub out: &'a mut O,
    pub lost: Option<io::Error>,
}

impl<O: Write> Work for Run<'_, O> {
    ghost use Rattle.std.specs.Prelude.{None};
    ghost use Rattle.dy_dots.specs.declared.faults.Fault.TheVariants as Fault;
    ghost use Rattle.dy_script.specs.Reading.{script_parts as parts};
    ghost use Rattle.dy_runner.specs.Runs.{HasRun as IsDone};

    // The output stays the same one; and where it took all, the commands are done, and their lines
    // are written. A refusal is for want of memory.
    ghost told = { λ setting before after tellings.
        (after.out.ghost_name ≡ before.out.ghost_name)
        × (after.lost ≡ None →
        IsDone setting (parts before.script.now) tellings
        (O.contents before.out.now) (O.contents after.out.now)) };

    ghost refused = { λ _ _ _ fault. fault ≡ Fault.OutOfMemory };

    fn run<J: Naming, R: Wait>(&mut self, lent: &mut OpenCluster<'_, J, R>) -> Result<(), Fault> {
        let runner = Runner::new(lent.alloc, lent.cluster)?;
        if let Err(error) = run_all(lent, runner, self.script, self.out) {
            self.lost = Some(error);
        }
        Ok(())
    }
}

// Runs each command, and writes its line.
fn run_all<J: Naming, O: Write, R: Wait>(
    lent: &mut OpenCluster<'_, J, R>,
    mut runner: Runner<'_, J>,
    script: &Script,
    out: &mut O,
) -> io::Result<()>
    requires unseated { runner.seats.numbers.items ≡ [] }
    requires asked { runner.seats.refused ≡ false }
    requires none { lent.old.sessions.items ≡ [] }
    ensures { OnOk result (HasRun (setting J J.ring J.n J.r lent.old.cluster.now.options)
        (script_parts script.now) lent.new.sessions.items (O.contents out.old)
        (O.contents out.new)) }
{
    for (index, command) in script.run.iter().enumerate() {
        let outcome = run_command(lent, &mut runner, command, script.w);
        let line = CommandLine {
            number: index + 1,
            outcome: &outcome,
        };
        write_whole(&line, out)?;
    }
    Ok(())
}
