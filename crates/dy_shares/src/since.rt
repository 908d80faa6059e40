ghost use Rattle.std.specs.Prelude.{◌≡◌, ◌≤◌, length};

use crate::chronicles::Front;
use crate::names::Naming;
use std::marker::Model;

/// A witness that the log has at least so many steps. It stays true, and may be dropped.
pub struct Since<J: Naming> {
    at: usize,
    front: Front<J>,
}

impl<J: Naming> Drop for Since<J> {
    fn drop(self) {
        let Since { at: _, front: _ } = self;
    }
}

impl<J: Naming> Model for Since<J> {
    ghost use Rattle.std.specs.Prelude.{ℕ, ◌≤◌, length};

    ghost Value = { ℕ };

    ghost view = { λ s. s.at };

    ghost invariant = { λ s. s.at ≤ length s.front };
}

impl<J: Naming> Since<J> {
    // So many steps the log had as it stood at the front.
    pub(crate) fn new(at: usize, front: Front<J>) -> Since<J>
        requires { at ≤ length front }
        ensures { result ≡ at }
    {
        Since { at, front }
    }

    /// How many steps the log has at least. Takes no memory.
    pub fn at(&self) -> usize
        ensures { result ≡ self.now }
    {
        self.at
    }

    // The log as it stood, at which it was made.
    pub(crate) fn front(&self) -> &Front<J>
        ensures { self.now ≤ length result.now }
    {
        &self.front
    }

    /// The same once more. Takes no memory.
    pub fn copied(&self) -> Since<J>
        ensures { result ≡ self.now }
    {
        Since {
            at: self.at,
            front: self.front.copied(),
        }
    }
}
