use dy_dots::NodeId;
use dy_node::Ask;
use dy_shares::Naming;

/// What a worker passes with each ask and each answer, under no lock. A scene may wait there.
pub trait Gate {
    /// Passes once the node may answer the ask.
    fn pass<J: Naming>(&self, node: NodeId, ask: &Ask<'_, J>);

    /// Passes once the node may send an answer, whose call it has found to be the present one.
    fn compared(&self, _node: NodeId) {}
}

/// Lets every ask pass.
pub struct Open;

impl Gate for Open {
    fn pass<J: Naming>(&self, _node: NodeId, _ask: &Ask<'_, J>) {}
}
