ghost use Rattle.std.specs.Prelude.{◌≡◌, ◌<◌, ◌≤◌, ◌+◌, [], vec_len, vec_capacity, slice_set};
ghost use Rattle.dy_dots.specs.declared.nodes.TheConstants.{MAX_NODES};
ghost use Rattle.dy_shares.specs.{
  inside.Agreeing.{retired},
  inside.Parts.{AgreesAsNode, IsRollOf, done_steps},
  Shares.{first_parts},
};

use crate::names::Naming;
use crate::parts::{Roll, Share};
use dy_dots::NodeId;
use std::marker::Model;

/// A node's share of a book: what the node holds, and its greatest counters, as its own steps show
/// them. It can't be dropped or copied, and must be handed in.
pub struct NodeShare<J: Naming> {
    node: NodeId,
    pub(crate) share: Share<J>,
}

impl<J: Naming> Model for NodeShare<J> {
    ghost use Rattle.std.specs.Prelude.{◌≡◌, ◌<◌};
    ghost use Rattle.dy_shares.specs.{
      inside.Parts.{done_steps},
      Shares.{NodePart},
      Codes.{node_part_code},
    };

    ghost Value = { NodePart };

    ghost coded = { node_part_code };

    ghost view = { λ s. record { node = s.node; steps = done_steps s.share.part } };

    ghost invariant = { λ s. (s.share.index ≡ s.node) × (s.node < J.ring.nodes) };
}

impl<J: Naming> NodeShare<J> {
    // The share of a seat as its node's.
    pub(crate) fn new(node: NodeId, share: Share<J>) -> NodeShare<J>
        requires place { share.index ≡ node }
        requires valid { node < J.ring.nodes }
        ensures { result ≡ record { node = node; steps = done_steps share.part } }
    {
        NodeShare { node, share }
    }

    /// The node whose share it is. Takes no memory.
    pub fn node(&self) -> NodeId
        ensures value { result ≡ self.now.node }
        ensures valid { result < J.ring.nodes }
    {
        self.node
    }

    // Compares the share with its seat of the roll, for the last time, and marks the seat.
    pub(crate) fn end(self, roll: &mut Roll<J>)
        ensures low { self.node < J.ring.nodes }
        ensures agrees { (a : AgreesAsNode roll.old self)
            × (roll.new ≡ slice_set roll.old self.node (retired a.part)) }
    {
        let NodeShare { node: _, share } = self;
        roll.end(share);
    }

    // Only a ledger that ends lets a share go.
    pub(crate) fn abandon(self) {
        let NodeShare { node: _, share } = self;
        share.abandon();
    }
}

// Opens a seat of the roll for each node, and gives its share.
pub(crate) fn open_nodes<J: Naming>(
    roll: &mut Roll<J>,
    shares: &mut Vec<NodeShare<J>>,
    nodes: usize,
)
    requires roll { roll.old ≡ [] }
    requires shares { shares.old.items ≡ [] }
    requires room { vec_len shares.old + nodes ≤ vec_capacity shares.old }
    requires nodes { nodes ≡ J.ring.nodes }
    requires small { nodes ≤ MAX_NODES }
    ensures roll { IsRollOf J.ring.nodes [] J.ring.nodes roll.new }
    ensures shares { shares.new.items ≡ first_parts J.ring.nodes }
{
    for number in 0..nodes {
        let share = roll.open(number);
        shares.push_reserved(NodeShare::new(NodeId::nth(number), share));
    }
}
