//! The steps of a closed cluster, played on a plain world, and what that world has.
#![tactic(auto)]

mod laws;
mod playing;
mod replays;

pub use laws::replays_agree;
pub use replays::replay;
