use dy_dots::{Context, Fault, NodeId};
use dy_node::{Begun, RowFor};
use dy_shares::{Naming, Receipt, Seen};
use dy_siblings::{Key, Value};
use std::snapshot::Snapshot;

/// A try on the caller's thread, at a node or at the book, with its arguments and its result. All
/// but nodes, homes and numbers is for contracts alone.
#[derive(Drop)]
pub enum Try<J: Naming> {
    /// A put was begun for a home.
    Begin {
        node: NodeId,
        home: NodeId,
        key: Snapshot<Key>,
        context: Snapshot<Context>,
        value: Snapshot<Option<Value>>,
        gave: Snapshot<Result<Begun<J>, Fault>>,
    },
    /// What the node keeps for a home was looked at.
    Look {
        node: NodeId,
        home: NodeId,
        key: Snapshot<Key>,
        since: usize,
        gave: Snapshot<Result<Seen<J>, Fault>>,
    },
    /// The node's hints were listed.
    Offer {
        node: NodeId,
        gave: Snapshot<Result<Vec<RowFor>, Fault>>,
    },
    /// The node released what receipts of homes name.
    Settle {
        node: NodeId,
        receipts: Snapshot<Vec<Receipt<J>>>,
        gave: Snapshot<Result<usize, Fault>>,
    },
    /// An ack was tried, with the w that the put named, and these receipts to be spent.
    Record {
        w: u8,
        receipts: Snapshot<Vec<Receipt<J>>>,
        gave: Snapshot<Result<(), Fault>>,
    },
}
