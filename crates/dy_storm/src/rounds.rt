// Rounds of a storm.
ghost use Rattle.std.specs.Prelude.{◌≡◌, ◌↔◌, ◌⊎◌, ◌+◌, ◌-◌, ◌^◌, ◌<◌, ◌≤◌, true, false, min};
ghost use Rattle.std.specs.Prelude.{IsTrue};

use std::sync::{Condvar, Mutex, Wait};

/// Rounds: each is as many turns as there are clients, of whichever clients. One thread waits for
/// them.
#[derive(Drop)]
pub(crate) struct Rounds {
    turns: Mutex<Turns>,
    is_over: Condvar,
}

// How many turns were made in this round, how many rounds are over, and whether no turn comes any
// more.
#[derive(Clone, Copy)]
struct Turns {
    clients: u8,
    made: u8,
    rounds: u32,
    have_ended: bool,
}

impl Rounds {
    /// No turn was made yet.
    pub fn new(clients: u8) -> Rounds {
        Rounds {
            turns: Mutex::new(Turns::new(clients)),
            is_over: Condvar::new(),
        }
    }

    /// A client has made a turn. May wait for a lock.
    pub fn count<R: Wait>(&self, rt: &R) {
        let is_over = self.turns.lock(rt).count();
        if is_over {
            self.is_over.notify_one();
        }
    }

    /// Waits until the round of this number, from 0, is over, or no turn comes any more.
    pub fn wait<R: Wait>(&self, rt: &R, round: u32) {
        let turns = self.turns.lock(rt);
        let _turns = self
            .is_over
            .wait_while(rt, turns, |turns| !turns.are_past(round));
    }

    /// No turn comes any more. May wait for a lock.
    pub fn end<R: Wait>(&self, rt: &R) {
        self.turns.lock(rt).end();
        self.is_over.notify_one();
    }
}

impl Turns {
    fn new(clients: u8) -> Turns
        ensures clients { result.clients ≡ clients }
        ensures made { result.made ≡ 0 }
        ensures rounds { result.rounds ≡ 0 }
        ensures have_ended { result.have_ended ≡ false }
    {
        Turns {
            clients,
            made: 0,
            rounds: 0,
            have_ended: false,
        }
    }

    // One turn more. Tells whether its round is over by it.
    fn count(&mut self) -> bool
        ensures over { IsTrue result ↔ (self.old.clients ≤ self.old.made + 1) }
        ensures more { self.old.made + 1 < self.old.clients →
            (self.new.made ≡ self.old.made + 1) × (self.new.rounds ≡ self.old.rounds) }
        ensures next { self.old.clients ≤ self.old.made + 1 → (self.new.made ≡ 0)
            × (self.new.rounds ≡ min (self.old.rounds + 1) (2 ^ 32 - 1)) }
        ensures clients { self.new.clients ≡ self.old.clients }
        ensures have_ended { self.new.have_ended ≡ self.old.have_ended }
    {
        self.made = self.made.saturating_add(1);
        if self.made < self.clients {
            return false;
        }
        self.made = 0;
        self.rounds = self.rounds.saturating_add(1);
        true
    }

    // Whether the round of this number is over, or no turn comes any more.
    fn are_past(&self, round: u32) -> bool
        ensures { IsTrue result
            ↔ ((round < self.now.rounds) ⊎ (self.now.have_ended ≡ true)) }
    {
        round < self.rounds || self.have_ended
    }

    // No turn comes any more.
    fn end(&mut self)
        ensures ended { self.new.have_ended ≡ true }
        ensures clients { self.new.clients ≡ self.old.clients }
        ensures made { self.new.made ≡ self.old.made }
        ensures rounds { self.new.rounds ≡ self.old.rounds }
    {
        self.have_ended = true;
    }
}
