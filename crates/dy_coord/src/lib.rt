//! Puts and gets, over any transport.
#![tactic(auto)]

mod get_done;
mod get_endings;
mod get_faults;
mod get_readings;
mod get_tasks;
mod gets;
pub mod laws;
mod put_reads;
mod put_results;
mod put_tasks;
mod puts;

pub use get_done::GetDone;
pub use get_faults::GetFault;
pub use gets::get;
pub use put_results::{PutDone, PutFault};
pub use puts::put;
