//! What a put and a get have in common: whom they try, whom they ask, and how they read.
#![tactic(auto)]

mod reads;
mod requests;
mod starts;
mod tries;

pub use reads::{ask_homes, read_next};
pub use requests::Request;
pub use starts::Somewhere;
pub use tries::{begin_somewhere, look_somewhere};
