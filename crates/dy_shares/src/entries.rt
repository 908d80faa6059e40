use crate::step_refs::StepRef;
use dy_core::Step;

/// An entry of the log: a step, and the session that was told of it, where it is an ack. Only the
/// proof has entries.
#[derive(Drop)]
pub struct Entry {
    pub told: Option<usize>,
    pub step: Step,
}

// A step with its number in the log, from 1. Only the proof has it.
#[derive(Drop)]
pub struct Done {
    pub at: usize,
    pub step: Step,
}

// Steps that come to the log all or none: whom they are told to, and they themselves.
#[derive(Drop)]
pub struct Batch<'a> {
    pub told: Option<usize>,
    pub steps: &'a [StepRef<'a>],
}
