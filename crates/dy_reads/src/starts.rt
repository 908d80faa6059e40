use dy_dots::{Fault, NodeId};

/// Where a call began: at a node, which gave this; at none, since all were down; or it was refused.
#[derive(Drop)]
pub enum Somewhere<X> {
    At(NodeId, X),
    NoNode,
    Refused(Fault),
}
