// The steps of a run, and who was told of them.
ghost use Rattle.std.specs.Prelude.{◌≡◌, get_or, length};
ghost use Rattle.dy_lines.specs.Sessions.{HasSessions};

use dy_book::Audit;
use dy_dots::Fault;
use dy_lines::{Audience, SessionIndex};
use dy_shares::{KeptStep, StepNumbers};
use std::alloc::Global;

/// The steps of a run, and its sessions in the order of their opening.
#[derive(Drop)]
pub(crate) struct Trace<'a> {
    pub steps: &'a [KeptStep],
    // The script's numbers of the sessions.
    pub numbers: &'a [u8],
    // What each was told.
    pub told: &'a [StepNumbers],
    index: SessionIndex,
    ghost indexed: { HasSessions (length steps.now) told.now index },
}

impl<'a> Trace<'a> {
    ghost use Rattle.std.specs.Prelude.{◌≡◌, IfOk, IsOkUnless};
    ghost use Rattle.dy_dots.specs.declared.faults.Fault.TheVariants as Fault;

    /// The steps that the audit has, and its sessions, which have these numbers.
    pub(crate) fn new(
        alloc: Global,
        numbers: &'a [u8],
        audit: &'a Audit,
    ) -> Result<Trace<'a>, Fault>
        ensures steps { IfOk result (λ trace. trace.steps.now ≡ audit.now.history.trail.items) }
        ensures numbers { IfOk result (λ trace. trace.numbers.now ≡ numbers.now) }
        ensures told { IfOk result (λ trace. trace.told.now ≡ audit.now.told.items) }
        ensures memory { IsOkUnless result Fault.OutOfMemory }
    {
        let steps = audit.history.kept();
        let told = audit.told.as_slice();
        let index = SessionIndex::new(alloc, steps.len(), told)?;
        Ok(Trace {
            steps,
            numbers,
            told,
            index,
        })
    }
}

impl Audience for Trace<'_> {
    ghost use Rattle.std.specs.Prelude.{length};
    ghost use Rattle.dy_runner.specs.Traces.{sessions_of};

    ghost sessions = { sessions_of };

    ghost before = { λ trace. 0 };

    ghost last = { λ trace. length trace.steps.now };

    fn is_told(&self, number: usize) -> bool {
        self.index.session_at(number) < self.told.len()
    }

    fn session_of(&self, number: usize) -> usize {
        number_at(self.numbers, self.index.session_at(number))
    }
}

// The number at this place among those of the sessions, or 0 where there is none. Takes no memory.
fn number_at(numbers: &[u8], place: usize) -> usize
    ensures { result ≡ get_or numbers.now place 0 }
{
    usize::from(numbers.get(place).copied().unwrap_or(0))
}
