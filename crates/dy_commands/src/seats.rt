ghost use Rattle.std.specs.Prelude.{◌≡◌, ◌<◌, ◌≤◌, ◌⊎◌, ◌↔◌, [], length, false, is_err};
ghost use Rattle.std.specs.Prelude.{IfOk, IfErr, OnErr};
ghost use Rattle.dy_dots.specs.declared.faults.Fault.TheVariants as Fault;
ghost use Rattle.dy_commands.specs.Seats.{IsOpen, IsOpened, IsSeated, seat_of};

use dy_cluster::{Cluster, Session};
use dy_dots::Fault;
use dy_shares::Naming;
use std::alloc::Global;
use std::sync::Wait;

/// Which session of the script lies where among those that the cluster opened.
#[derive(Drop)]
pub struct Seats {
    // The number of each, in the order in which they were opened.
    pub numbers: Vec<u8>,
    // Whether the session that was asked for last could not be opened.
    pub refused: bool,
}

impl Seats {
    /// No session of the script is opened yet. Takes no memory.
    pub fn new(alloc: Global) -> Seats
        ensures none { result.numbers.items ≡ [] }
        ensures asked { result.refused ≡ false }
    {
        Seats {
            numbers: Vec::new(alloc),
            refused: false,
        }
    }

    /// Where the session of this number is among those opened, or their count where it is not
    /// there. Takes no memory.
    pub fn seat_of(&self, number: u8) -> usize
        ensures { result ≡ seat_of number self.now.numbers.items }
    {
        index_of(self.numbers.as_slice(), number)
    }

    /// The place of the session of this number, which is opened where it was not. May wait for a
    /// lock.
    #[inline(always)]
    pub(crate) fn place_of<J: Naming, R: Wait>(
        &mut self,
        rt: &R,
        cluster: &Cluster<J>,
        sessions: &mut Vec<Session<J>>,
        number: u8,
    ) -> Result<usize, Fault>
        requires together { length self.old.numbers.items ≡ length sessions.old.items }
        ensures together { length self.new.numbers.items ≡ length sessions.new.items }
        ensures place { IfOk result (λ place. place ≡ seat_of number self.new.numbers.items) }
        ensures there { IfOk result (λ place. place < length sessions.new.items) }
        ensures opened { IsOpened number self.old.numbers.items self.new.numbers.items }
        ensures seated { IsSeated sessions.old.items sessions.new.items }
        ensures is_open { IsOpen number self.new.numbers.items ↔ (self.new.refused ≡ false) }
        ensures err { OnErr result (sessions.new.items ≡ sessions.old.items) }
        ensures refused { self.new.refused ≡ is_err result }
        ensures only { IfErr result (λ fault. (fault ≡ Fault.OutOfMemory)
            ⊎ (fault ≡ Fault.TooMany)) }
    {
        let place = seat_in(rt, cluster, sessions, &mut self.numbers, number);
        self.refused = place.is_err();
        place
    }
}

// The place of the session of this number among these, which is opened where it was not.
fn seat_in<J: Naming, R: Wait>(
    rt: &R,
    cluster: &Cluster<J>,
    sessions: &mut Vec<Session<J>>,
    numbers: &mut Vec<u8>,
    number: u8,
) -> Result<usize, Fault>
    requires together { length numbers.old.items ≡ length sessions.old.items }
    ensures together { length numbers.new.items ≡ length sessions.new.items }
    ensures place { IfOk result (λ place. place ≡ seat_of number numbers.new.items) }
    ensures there { IfOk result (λ place. place < length sessions.new.items) }
    ensures opened { IsOpened number numbers.old.items numbers.new.items }
    ensures seated { IsSeated sessions.old.items sessions.new.items }
    ensures is_open { IsOpen number numbers.new.items ↔ (is_err result ≡ false) }
    ensures err { OnErr result (sessions.new.items ≡ sessions.old.items) }
    ensures only { IfErr result (λ fault. (fault ≡ Fault.OutOfMemory)
        ⊎ (fault ≡ Fault.TooMany)) }
{
    let index = index_of(numbers.as_slice(), number);
    if index < numbers.len() {
        return Ok(index);
    }
    numbers.reserve(1)?;
    let place = cluster.seat(rt, sessions)?;
    numbers.push_reserved(number);
    Ok(place)
}

// Where the number is, or their count where it is not there.
fn index_of(numbers: &[u8], number: u8) -> usize
    ensures first { result ≡ seat_of number numbers.now }
    ensures within { result ≤ length numbers.now }
{
    for (index, seated) in numbers.iter().enumerate() {
        if *seated == number {
            return index;
        }
    }
    numbers.len()
}
