ghost use Rattle.std.specs.Prelude.{◌≡◌, [], IfOk, IsOkUnless};

use dy_dots::Fault;
use std::alloc::Global;

/// The step numbers that a session was told, from 1: those of its acks, and those of the answers of
/// its gets, one get after another.
#[derive(Debug)]
pub struct StepNumbers {
    pub acks: Vec<usize>,
    pub fetches: Vec<usize>,
}

impl Drop for StepNumbers {
    fn drop(self) {
        let StepNumbers {
            acks: _,
            fetches: _,
        } = self;
    }
}

impl StepNumbers {
    // Nothing was told.
    pub(crate) fn new(alloc: Global) -> StepNumbers
        ensures acks { result.acks.items ≡ [] }
        ensures fetches { result.fetches.items ≡ [] }
    {
        StepNumbers {
            acks: Vec::new(alloc),
            fetches: Vec::new(alloc),
        }
    }

    /// A copy.
    pub fn try_clone(&self, alloc: Global) -> Result<StepNumbers, Fault>
        ensures acks { IfOk result (λ numbers. numbers.acks.items ≡ self.now.acks.items) }
        ensures fetches { IfOk result
            (λ numbers. numbers.fetches.items ≡ self.now.fetches.items) }
        ensures memory { IsOkUnless result Fault.OutOfMemory }
    {
        let acks = Vec::from_slice(alloc, self.acks.as_slice())?;
        let fetches = Vec::from_slice(alloc, self.fetches.as_slice())?;
        Ok(StepNumbers { acks, fetches })
    }
}
