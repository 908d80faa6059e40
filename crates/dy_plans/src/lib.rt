//! What a script or a storm asks for, and what is printed of a ring and an audit.
#![tactic(auto)]

mod audits;
mod options;
mod plans;
mod rings;
mod storms;

pub use audits::write_audit;
pub use options::{options_of, ring_of};
pub use plans::{Plan, plan_of};
pub use rings::write_ring;
pub use storms::Storm;
