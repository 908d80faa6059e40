//! The repair of homes that answered a get with another row.
#![tactic(auto)]

mod repairs;
mod staleness;

pub use repairs::repair;
pub use staleness::{are_current, stale};
