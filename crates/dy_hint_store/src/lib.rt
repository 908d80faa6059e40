//! The rows that a node holds for others until they can take them: its hints.
#![tactic(auto)]

mod homes;
mod stores;

pub use stores::{HintStore, RowRefFor};
