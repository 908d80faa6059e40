//! Which receipts of a put make a quorum, and which answers of a get are used.
#![tactic(auto)]

mod gatherings;
mod laws;
mod merges;
mod tallies;

pub use gatherings::Gathering;
pub use laws::{distinct_homes_are_enough, first_answers_are_one_a_home};
pub use merges::merge_all;
pub use tallies::{MAX_RECEIPTS, Tally};
