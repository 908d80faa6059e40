//! Runs a script on a cluster, and prints its lines.
#![tactic(auto)]

mod recordings;
mod running;
mod telling;
mod traces;
mod writing;

pub use writing::{run_script, write_run};
