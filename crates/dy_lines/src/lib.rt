//! The lines that a run, its audit, its steps and a ring print, each a type whose `Display` states
//! its bytes.
#![tactic(auto)]

mod audiences;
mod audits;
mod clusters;
mod keeping;
mod listed;
mod outcomes;
mod places;
mod printed;
mod refusals;
mod rings;
mod served;
mod session_indexes;
mod step_lines;
mod steps;
mod stops;
mod tellings;
mod whole;

pub use audiences::Audience;
pub use audits::{AckedLine, EndLine, HeldLine, SettledLine};
pub use clusters::{ClusterLine, write_cluster};
pub use keeping::Kept;
pub use listed::{Item, Listed};
pub use outcomes::{CommandLine, Outcome, Values, Word};
pub use places::At;
pub use printed::{Hex, Position};
pub use refusals::Refusal;
pub use rings::{KeyLine, TokenLine, write_tokens};
pub use served::ServedLine;
pub use session_indexes::SessionIndex;
pub use step_lines::write_step_lines;
pub use steps::{StepLine, ToldLine};
pub use stops::Stopped;
pub use tellings::write_gets;
pub use whole::write_whole;
