use dy_dots::NodeId;
use dy_node::Answer;
use dy_shares::Naming;
use std::snapshot::Snapshot;

/// An answer that was read: the number of its ask, from 0, the node asked, the home, and the
/// answer, which is for contracts alone.
pub struct Reply<J: Naming> {
    pub number: usize,
    pub node: NodeId,
    pub home: NodeId,
    pub answer: Snapshot<Answer<J>>,
}

impl<J: Naming> Drop for Reply<J> {
    fn drop(self) {
        let Reply {
            number: _,
            node: _,
            home: _,
            answer: _,
        } = self;
    }
}
