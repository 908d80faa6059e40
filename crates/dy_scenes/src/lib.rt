//! What tests of a cluster share: scenes, the calls that they make, a ring, and answers as texts.
#![tactic(auto)]

mod calls;
mod rings;
mod scenes;
mod texts;

pub use calls::{Caller, Calls, Got};
pub use rings::{five_nodes, options};
pub use scenes::{Put, Scene, play};
pub use texts::is_told;
