ghost use Rattle.std.specs.Prelude.{◌≡◌, ◌≤◌, ◌-◌, List, [], Some, length, slice_get, IfOk};
ghost use Rattle.std.specs.Prelude.{IsOkUnless};
ghost use Rattle.dy_core.specs.declared.steps.Step.{Step as OneStep};
ghost use Rattle.dy_shares.specs.Trails.{AreKept};
ghost use Rattle.dy_book.specs.Audits.{IsHistoryOf};

use crate::steps::step_of;
use dy_core::Step;
use dy_dots::Fault;
use dy_index::KeyPart;
use dy_shares::KeptStep;
use dy_siblings::Key;
use std::alloc::Global;
use std::collections::HashMap;

/// The steps of a book that was closed, to be read by their numbers.
#[derive(Debug)]
pub struct History {
    pub(crate) trail: Vec<KeptStep>,
    pub(crate) keys: HashMap<Key, KeyPart>,
}

impl Drop for History {
    fn drop(self) {
        let History { trail: _, keys: _ } = self;
    }
}

impl History {
    // No step.
    pub(crate) fn new(alloc: Global) -> History
        ensures { result.trail.items ≡ [] }
    {
        History {
            trail: Vec::new(alloc),
            keys: HashMap::new(alloc),
        }
    }

    /// How many steps there are. Takes no memory.
    pub fn len(&self) -> usize
        ensures { (steps : List OneStep) → IsHistoryOf self.now steps → result ≡ length steps }
    {
        self.trail.len()
    }

    /// Each step as it is kept, the oldest first. Takes no memory.
    pub fn kept(&self) -> &[KeptStep]
        ensures trail { result.now ≡ self.now.trail.items }
        ensures kept { (steps : List OneStep) → IsHistoryOf self.now steps →
            AreKept result.now steps }
    {
        self.trail.as_slice()
    }

    /// The step of this number, from 1.
    pub fn step(&self, alloc: Global, at: usize) -> Result<Step, Fault>
        requires from_one { 1 ≤ at }
        requires within { (steps : List OneStep) × IsHistoryOf self.now steps
            × (at ≤ length steps) }
        ensures ok { (steps : List OneStep) → IsHistoryOf self.now steps →
            IfOk result (λ step. slice_get steps (at - 1) ≡ Some step) }
        ensures memory { IsOkUnless result Fault.OutOfMemory }
    {
        let kept = &self.trail[at - 1];
        let step = step_of(alloc, &self.keys, kept)?;
        Ok(step)
    }
}
