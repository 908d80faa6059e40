//! What carries the messages of one put, get, repair or pass, and keeps a trace of the call.
#![tactic(auto)]

mod asked;
mod directs;
mod kinds;
mod lines;
mod locks;
mod reaches;
mod replies;
mod snapshots;
mod trails;
mod transports;
mod tries;

pub use asked::{Asked, What, home_asked};
pub use directs::Direct;
pub use kinds::kind_of;
pub use lines::{Line, Waiting};
pub use locks::lock_soon;
pub use reaches::Reach;
pub use replies::Reply;
pub use trails::Trail;
pub use transports::{SPARE_TRIES, Transport};
pub use tries::Try;
