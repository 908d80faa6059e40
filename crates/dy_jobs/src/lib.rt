//! What the words of the command line ask for.
#![tactic(auto)]

mod command_lines;
mod jobs;
mod numbers;

pub use command_lines::{explain, words};
pub use jobs::Job;
