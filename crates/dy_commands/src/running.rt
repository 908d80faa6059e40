ghost use Rattle.std.specs.Prelude.{◌≡◌};
ghost use Rattle.dy_script.specs.Orders.{command_parts};
ghost use Rattle.dy_cluster.specs.Settings.{setting};
ghost use Rattle.dy_commands.specs.Commands.{Does, IsTogether, seated};

use crate::gets::run_get;
use crate::givens::{read_delete, read_put};
use crate::outages::{run_deliver, run_handoff, run_set_mode, run_set_up, run_show};
use crate::runners::Runner;
use crate::writes::{Judged, run_write};
use dy_cluster::OpenCluster;
use dy_lines::{Outcome, Word};
use dy_script::Command;
use dy_shares::Naming;
use std::sync::Wait;

/// What comes of the command, whose puts need this many homes where they name no number of their
/// own. May wait for locks.
#[inline(always)]
pub fn run_command<J: Naming, R: Wait>(
    lent: &mut OpenCluster<'_, J, R>,
    runner: &mut Runner<'_, J>,
    command: &Command,
    w: u8,
) -> Outcome
    requires together { IsTogether runner.old.seats lent.old.sessions.items }
    ensures together { IsTogether runner.new.seats lent.new.sessions.items }
    ensures cluster { lent.new.cluster.now ≡ lent.old.cluster.now }
    ensures done { Does (setting J J.ring J.n J.r lent.old.cluster.now.options) w
        (command_parts command.now) result
        (seated runner.old.seats lent.old.sessions.items)
        (seated runner.new.seats lent.new.sessions.items) }
{
    match command {
        Command::Put { write, value } => {
            let judged = Judged {
                session: write.session,
                w: write.w.unwrap_or(w),
                word: Word::Put,
                given: read_put(lent.alloc, write, value.as_slice()),
            };
            run_write(lent, runner, judged)
        }
        Command::Delete { write } => {
            let judged = Judged {
                session: write.session,
                w: write.w.unwrap_or(w),
                word: Word::Delete,
                given: read_delete(lent.alloc, write),
            };
            run_write(lent, runner, judged)
        }
        Command::Get { key, session } => run_get(lent, runner, *session, key),
        Command::Down { node } => run_set_up(lent, Word::Down, *node, false),
        Command::Up { node } => run_set_up(lent, Word::Up, *node, true),
        Command::SetMode { node, mode } => run_set_mode(lent, *node, *mode),
        Command::Deliver { node } => run_deliver(lent, *node),
        Command::Handoff { node } => run_handoff(lent, *node),
        Command::Show { node, key } => run_show(lent, *node, key),
    }
}
