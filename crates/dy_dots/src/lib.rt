//! Dots, the sets of dots that versions carry, and the faults of the whole workspace.
#![tactic(auto)]

mod contexts;
mod dots;
mod faults;
mod nodes;
mod runs;
mod texts;

pub use contexts::{
    Context, spelled_set_is_unique, spelling_is_the_text, spelling_is_unique, written_is_read_back,
};
pub use dots::{Dot, MAX_COUNTER};
pub use faults::Fault;
pub use nodes::{MAX_NODES, NodeId};
pub use runs::Run;
pub use texts::MAX_CONTEXT_DOTS;
