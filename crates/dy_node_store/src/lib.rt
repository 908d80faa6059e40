//! What a node keeps by itself: a row for each key, and the counters that it has used.
#![tactic(auto)]

mod placed;
mod row_maps;
mod stores;

pub use placed::Placed;
pub use row_maps::RowMap;
pub use stores::NodeStore;
