// How far the steps of a cluster were read.
ghost use Rattle.std.specs.Prelude.{◌≡◌, [], length, IfOk, OnErr, IsOkUnless};
ghost use mathlib.Core.List.{IsPrefix};
ghost use Rattle.dy_cluster.specs.Marks.{IsMoved};

use crate::clusters::Cluster;
use crate::step_copies::{copies_of, rest_of};
use dy_book::Book;
use dy_dots::Fault;
use dy_shares::{Front, KeptStep, Naming};
use std::alloc::Global;
use std::marker::Model;
use std::sync::Wait;

/// How far the steps of a cluster were read. It keeps no step, and takes no memory. To a contract
/// it is the beginning of the log that was read.
#[derive(Drop)]
pub struct Mark<J: Naming> {
    front: Option<Front<J>>,
    steps: usize,
}

impl<J: Naming> Model for Mark<J> {
    ghost use Rattle.std.specs.Prelude.{◌≡◌, List, length};
    ghost use Rattle.dy_shares.specs.{Codes.{entries_code}, declared.entries.Entry.{Entry}};
    ghost use Rattle.dy_cluster.specs.Marks.{log_of};

    ghost Value = { List Entry };

    ghost coded = { entries_code };

    ghost view = { λ m. log_of m.front };

    ghost invariant = { λ m. m.steps ≡ length (log_of m.front) };
}

impl<J: Naming> Mark<J> {
    /// Nothing was read yet. Takes no memory.
    pub fn new() -> Mark<J>
        ensures { result ≡ [] }
    {
        Mark {
            front: None,
            steps: 0,
        }
    }

    /// How many steps were read. Takes no memory.
    pub fn steps(&self) -> usize
        ensures { result ≡ length self.now }
    {
        self.steps
    }

    // The log of the book begins with what was read.
    pub(crate) fn learn(&self, book: &mut Book<J>)
        ensures book { book.new ≡ book.old }
        ensures begins { IsPrefix self.now book.old.log }
    {
        match &self.front {
            Some(front) => book.learn(front),
            None => {}
        }
    }

    // Gives the steps behind the mark, which moves to the end of the log.
    fn pass(&mut self, alloc: Global, book: &mut Book<J>) -> Result<Vec<KeptStep>, Fault>
        ensures ok { IfOk result (λ kept. IsMoved self.old self.new kept.items) }
        ensures err { OnErr result (self.new ≡ self.old) }
        ensures memory { IsOkUnless result Fault.OutOfMemory }
    {
        self.learn(book);
        let trail = book.trail();
        let kept = copies_of(alloc, rest_of(trail, self.steps))?;
        self.steps = trail.len();
        self.front = Some(book.front());
        Ok(kept)
    }
}

impl<J: Naming> Cluster<J> {
    /// The steps that the book made behind the mark, each as it is kept. The mark moves behind
    /// them. May wait for a lock.
    pub fn steps_behind<R: Wait>(&self, rt: &R, mark: &mut Mark<J>) -> Result<Vec<KeptStep>, Fault>
        ensures ok { IfOk result (λ kept. IsMoved mark.old mark.new kept.items) }
        ensures err { OnErr result (mark.new ≡ mark.old) }
        ensures memory { IsOkUnless result Fault.OutOfMemory }
    {
        let mut book = self.book.lock(rt);
        mark.pass(self.alloc, &mut book)
    }
}
