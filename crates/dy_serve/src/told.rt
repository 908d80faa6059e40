// What the session of a command was told by it.
ghost use Rattle.std.specs.Prelude.{◌≡◌, IfOk, IsOkUnless, drop};
ghost use Rattle.dy_commands.specs.Commands.{seated};
ghost use Rattle.dy_script.specs.Orders.{command_parts};
ghost use Rattle.dy_serve.specs.Below.{AreNew, session_at, session_in, told_by};

use dy_cluster::Session;
use dy_commands::Seats;
use dy_dots::Fault;
use dy_script::Command;
use dy_shares::{Naming, StepNumbers};
use std::alloc::Global;

/// How many acks a session was told, and how many fetches its gets used.
#[derive(Clone, Copy, Debug, PartialEq, Eq)]
pub(crate) struct ToldSoFar {
    pub acks: usize,
    pub fetches: usize,
}

/// The session of the command, which is 0 where it names none.
pub(crate) fn session_of(command: &Command) -> u8
    ensures { result ≡ session_in (command_parts command.now) }
{
    match command {
        Command::Put { write, .. } => write.session,
        Command::Delete { write } => write.session,
        Command::Get { session, .. } => *session,
        _ => 0,
    }
}

/// What the session of this number was told so far. Takes no memory.
pub(crate) fn told_so_far<J: Naming>(
    seats: &Seats,
    sessions: &[Session<J>],
    number: u8,
) -> ToldSoFar
    ensures { result ≡ told_by (session_at number (seated seats.now sessions.now)) }
{
    match sessions.get(seats.seat_of(number)) {
        Some(session) => {
            let numbers = session.numbers();
            ToldSoFar {
                acks: numbers.acks.len(),
                fetches: numbers.fetches.len(),
            }
        }
        None => ToldSoFar {
            acks: 0,
            fetches: 0,
        },
    }
}

/// What the session of this number was told behind that.
pub(crate) fn told_since<J: Naming>(
    alloc: Global,
    seats: &Seats,
    sessions: &[Session<J>],
    number: u8,
    so_far: ToldSoFar,
) -> Result<StepNumbers, Fault>
    ensures ok { IfOk result
        (AreNew so_far (session_at number (seated seats.now sessions.now))) }
    ensures memory { IsOkUnless result Fault.OutOfMemory }
{
    match sessions.get(seats.seat_of(number)) {
        Some(session) => {
            let numbers = session.numbers();
            let acks = behind(numbers.acks.as_slice(), so_far.acks);
            let fetches = behind(numbers.fetches.as_slice(), so_far.fetches);
            Ok(numbers_of(alloc, acks, fetches)?)
        }
        None => Ok(numbers_of(alloc, &[], &[])?),
    }
}

/// These step numbers of a session.
pub(crate) fn numbers_of(
    alloc: Global,
    acks: &[usize],
    fetches: &[usize],
) -> Result<StepNumbers, Fault>
    ensures acks { IfOk result (λ told. told.acks.items ≡ acks.now) }
    ensures fetches { IfOk result (λ told. told.fetches.items ≡ fetches.now) }
    ensures memory { IsOkUnless result Fault.OutOfMemory }
{
    let acks = Vec::from_slice(alloc, acks)?;
    let fetches = Vec::from_slice(alloc, fetches)?;
    Ok(StepNumbers { acks, fetches })
}

// The numbers behind so many.
fn behind(numbers: &[usize], count: usize) -> &[usize]
    ensures { result.now ≡ drop count numbers.now }
{
    if count < numbers.len() {
        return &numbers[count..];
    }
    &[]
}
