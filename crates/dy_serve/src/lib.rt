//! Serves a cluster to another program: each line of an input is a command, and is answered by a
//! line.
#![tactic(auto)]

mod answering;
mod closing;
mod input_lines;
mod news;
mod served_clusters;
mod services;
mod serving;
mod told;

pub use input_lines::MAX_LINE_BYTES;
pub use serving::serve;
