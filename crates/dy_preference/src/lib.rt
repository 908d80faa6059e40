//! Which nodes hold a key, the nearest first, and which stand in for them.
#![tactic(auto)]

mod assigns;
mod lists;
mod orders;

pub use assigns::Assign;
pub use lists::Preference;
pub use orders::{order_is_by_distance, order_is_unique, preference};
