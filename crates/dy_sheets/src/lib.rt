//! What a transport over threads keeps of a call's asks, and which answers to them it hands on.
#![tactic(auto)]

mod answered;
mod dot_lists;
mod kept;
mod sent;
mod sheets;

pub use answered::Answered;
pub use kept::Kept;
pub use sent::Sent;
pub use sheets::Sheet;
