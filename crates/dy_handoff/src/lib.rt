//! The handover of a node's hints to their homes.
#![tactic(auto)]

mod counts;
mod passes;
mod workers;

pub use counts::Pass;
pub use passes::pass;
pub use workers::{Passing, worker};
