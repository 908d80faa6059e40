//! Storms: clients that get and put beside each other, and nodes that fail beside them.
#![tactic(auto)]

mod clients;
mod counts;
mod events;
mod outages;
mod rings;
mod rounds;
mod storms;
mod traces;
mod turns;
mod words;
mod writing;

pub use counts::Counts;
pub use storms::{StormDone, storm};
pub use writing::write_storm;
