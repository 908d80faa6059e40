ghost use Rattle.std.specs.{
  Prelude.{◌≡◌, ◌⊎◌, [], List, ℕ, IfErr, IfOk, IsOkUnless, OnOk},
  Io.KnownBytes.{Appends},
};
ghost use Rattle.dy_cluster.specs.Settings.{setting};
ghost use Rattle.dy_lines.specs.Stops.{IsStoppedForMemory};
ghost use Rattle.dy_commands.specs.Commands.{IsTogether, seated};
ghost use Rattle.dy_shares.specs.Shares.{steps_of};
ghost use Rattle.dy_serve.specs.{
  Answers.{IsCarriedInto},
  Below.{AreBelowIf, IsUntouched, standing},
  Refusals.{IsNotCarried},
};

use crate::news::News;
use crate::told::{ToldSoFar, told_since};
use dy_cluster::{Closed, Cluster, Mark, OpenCluster, carry_over};
use dy_commands::Runner;
use dy_dots::Fault;
use dy_lines::{Stopped, write_step_lines};
use dy_shares::Naming;
use std::alloc::Global;
use std::io::Write;
use std::sync::Wait;

/// How commands are done and told: how many homes a put names that names none of its own, and
/// whether steps are printed below it.
#[derive(Clone, Copy, Debug, PartialEq, Eq)]
pub(crate) struct Ways {
    pub w: u8,
    pub with_steps: bool,
}

/// What stays while lines are served in a cluster: how commands are done and told, and how many
/// nodes its ring has.
#[derive(Clone, Copy, Debug, PartialEq, Eq)]
pub(crate) struct Terms {
    pub ways: Ways,
    pub nodes: usize,
}

/// What lines are served with in a cluster that is open: what runs the commands, and how far its
/// steps were printed.
#[derive(Drop)]
pub(crate) struct ServedCluster<'a, J: Naming> {
    pub runner: Runner<'a, J>,
    pub mark: Mark<J>,
    pub terms: Terms,
}

impl<'a, J: Naming> ServedCluster<'a, J> {
    /// No session of the cluster is known, and no step was printed.
    pub(crate) fn new(
        alloc: Global,
        cluster: &'a Cluster<J>,
        terms: Terms,
    ) -> Result<ServedCluster<'a, J>, Fault>
        ensures terms { IfOk result (λ opened. opened.terms ≡ terms) }
        ensures none { IfOk result (λ opened. IsUntouched opened.runner.seats [] opened.mark) }
        ensures memory { IsOkUnless result Fault.OutOfMemory }
    {
        let runner = Runner::new(alloc, cluster)?;
        Ok(ServedCluster {
            runner,
            mark: Mark::new(),
            terms,
        })
    }

    /// Opens session 0, and puts what was present in the closed cluster in it. Gives how many
    /// values that were. May wait for locks.
    pub(crate) fn carry<R: Wait>(
        &mut self,
        lent: &mut OpenCluster<'_, J, R>,
        closed: &Closed,
    ) -> Result<usize, Fault>
        requires none { IsUntouched self.old.runner.seats lent.old.sessions.items self.old.mark }
        ensures cluster { lent.new.cluster.now ≡ lent.old.cluster.now }
        ensures mark { self.new.mark ≡ self.old.mark }
        ensures terms { self.new.terms ≡ self.old.terms }
        ensures together { IfOk result
            (λ _. IsTogether self.new.runner.seats lent.new.sessions.items) }
        ensures carried { IfOk result (IsCarriedInto (setting J J.ring J.n J.r
            lent.old.cluster.now.options) closed.now
            (seated self.new.runner.seats lent.new.sessions.items)) }
        ensures only { IfErr result (λ fault. (fault ≡ Fault.OutOfMemory) ⊎ IsNotCarried
            (setting J J.ring J.n J.r lent.old.cluster.now.options) closed.now fault) }
    {
        let runner = &mut self.runner;
        runner.seats.numbers.reserve(1)?;
        lent.sessions.reserve(1)?;
        let mut connection = lent.cluster.connect(lent.rt)?;
        let carried = carry_over(lent.rt, lent.alloc, closed, &mut connection);
        let (session, _direct) = connection.into_parts();
        lent.sessions.push_reserved(session);
        runner.seats.numbers.push_reserved(0);
        Ok(carried?)
    }

    /// Writes the lines of the steps that the book made behind the mark, if they are wanted. The
    /// session of this number was told what is new to it of them. May wait for a lock.
    pub(crate) fn write_below<O: Write, R: Wait>(
        &mut self,
        lent: &OpenCluster<'_, J, R>,
        number: u8,
        so_far: ToldSoFar,
        out: &mut O,
    ) -> Result<(), Stopped>
        ensures seats { self.new.runner.seats ≡ self.old.runner.seats }
        ensures terms { self.new.terms ≡ self.old.terms }
        ensures below { OnOk result ((text : List ℕ)
            × AreBelowIf self.old.terms.ways.with_steps so_far (steps_of self.old.mark) number
            (standing self.new.runner.seats lent.now.sessions.items self.new.mark) text
            × Appends (O.contents out.old) (O.contents out.new) text) }
        ensures memory { IfErr result IsStoppedForMemory }
    {
        if !self.terms.ways.with_steps {
            return Ok(());
        }
        let sessions = lent.sessions.as_slice();
        let told = told_since(lent.alloc, &self.runner.seats, sessions, number, so_far)?;
        let before = self.mark.steps();
        let steps = lent.cluster.steps_behind(lent.rt, &mut self.mark)?;
        let _end = self.mark.steps();
        let news = News::new(lent.alloc, before, steps.as_slice(), number, told)?;
        write_step_lines(lent.alloc, &news, news.before, news.steps, out)?;
        Ok(())
    }
}
