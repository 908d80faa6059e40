//! The fixed ring of tokens, and the positions of keys on it.
#![tactic(auto)]

mod givens;
mod rings;

pub use rings::{MAX_TOKENS_PER_NODE, Ring, Token};
