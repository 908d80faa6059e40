//! Runs the commands of a script on a cluster, one at a time.
#![tactic(auto)]

mod gets;
mod givens;
mod outages;
mod runners;
mod running;
mod seats;
mod writes;

pub use runners::Runner;
pub use running::run_command;
pub use seats::Seats;
