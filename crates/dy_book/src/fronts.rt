// The steps of an open book as they are kept, and beginnings of its log.
ghost use Rattle.std.specs.Prelude.{◌≡◌};
ghost use mathlib.Core.List.{IsPrefix};
ghost use Rattle.dy_shares.specs.{Shares.{steps_of}, Trails.{AreKept}};

use crate::books::Book;
use dy_shares::{Front, KeptStep, Naming};

impl<J: Naming> Book<J> {
    /// Each step of the log as it is kept, the oldest first. Takes no memory.
    pub fn trail(&self) -> &[KeptStep]
        ensures { AreKept result.now (steps_of self.now.log) }
    {
        self.ledger.trail()
    }

    /// The log as it stands. Takes no memory.
    pub fn front(&self) -> Front<J>
        ensures { result ≡ self.now.log }
    {
        self.ledger.front()
    }

    /// The log begins with the front, whatever came between. Takes no memory.
    pub fn learn(&mut self, front: &Front<J>)
        ensures book { self.new ≡ self.old }
        ensures begins { IsPrefix front.now self.old.log }
    {
        self.ledger.learn(front);
    }
}
