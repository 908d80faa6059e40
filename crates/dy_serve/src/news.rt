// Steps that were not printed yet, and what a session was told of them.
ghost use Rattle.std.specs.Prelude.{◌≡◌, ◌+◌, ◌<◌, ◌-◌, ◌^◌, IfOk, IsOkUnless, length, map};
ghost use Rattle.dy_serve.specs.inside.Indexed.{IsIndexed};

use dy_dots::Fault;
use dy_lines::{Audience, SessionIndex};
use dy_shares::{KeptStep, StepNumbers};
use std::alloc::Global;

/// Steps of a log behind so many, and one session by its number, which was told these of them.
#[derive(Drop)]
pub(crate) struct News<'a> {
    pub before: usize,
    pub steps: &'a [KeptStep],
    pub session: u8,
    pub told: StepNumbers,
    pub index: SessionIndex,
    ghost fits: { before + length steps.now < 2 ^ 64 },
    ghost indexed: { IsIndexed before (length steps.now) told index },
}

impl<'a> News<'a> {
    /// These steps behind so many, and the session that was told these of them.
    pub(crate) fn new(
        alloc: Global,
        before: usize,
        steps: &'a [KeptStep],
        session: u8,
        told: StepNumbers,
    ) -> Result<News<'a>, Fault>
        requires fits { before + length steps.now < 2 ^ 64 }
        ensures before { IfOk result (λ news. news.before ≡ before) }
        ensures steps { IfOk result (λ news. news.steps.now ≡ steps.now) }
        ensures session { IfOk result (λ news. news.session ≡ session) }
        ensures told { IfOk result (λ news. news.told ≡ told) }
        ensures memory { IsOkUnless result Fault.OutOfMemory }
    {
        let acks = less(alloc, told.acks.as_slice(), before)?;
        let fetches = less(alloc, told.fetches.as_slice(), before)?;
        let here = [StepNumbers { acks, fetches }];
        let index = SessionIndex::new(alloc, steps.len(), &here)?;
        Ok(News {
            before,
            steps,
            session,
            told,
            index,
        })
    }
}

impl Audience for News<'_> {
    ghost use Rattle.std.specs.Prelude.{◌+◌, length};
    ghost use Rattle.dy_serve.specs.inside.Telling.{teller_of};

    ghost sessions = { teller_of };

    ghost before = { λ news. news.before };

    ghost last = { λ news. news.before + length news.steps.now };

    fn is_told(&self, number: usize) -> bool {
        self.index.session_at(number - self.before) < 1
    }

    fn session_of(&self, number: usize) -> usize {
        if self.is_told(number) {
            return usize::from(self.session);
        }
        0
    }
}

// The numbers, each less so many, and 0 where it is less than that.
fn less(alloc: Global, numbers: &[usize], before: usize) -> Result<Vec<usize>, Fault>
    ensures ok { IfOk result (λ made. made.items ≡ map (λ x. x - before) numbers.now) }
    ensures memory { IsOkUnless result Fault.OutOfMemory }
{
    let mut made = Vec::with_capacity(alloc, numbers.len())?;
    for number in numbers {
        made.push(number.saturating_sub(before))?;
    }
    Ok(made)
}
