//! What the book knows of each key: the versions by node, and what is held.
#![tactic(auto)]

mod custodies;
mod dots;
mod entries;
mod holders;
mod holds;
mod incomings;
mod listings;
mod lists;
mod merges;
mod parts;
mod pasts;
mod reads;
mod releases;
mod rows;

pub use holds::make_part_of;
pub use incomings::first_not_issued;
pub use listings::{held, settled};
pub use lists::ordered;
pub use merges::{Merging, Placing};
pub use parts::KeyPart;
pub use pasts::{past_named, unknown};
pub use reads::{covering, held_dots, last, own_copy, row_copy, version};
pub use releases::give_up;
pub use rows::versions_of;
