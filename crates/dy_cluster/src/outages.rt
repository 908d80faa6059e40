// Which nodes a cluster has, and which of them fail or come back.
ghost use Rattle.std.specs.Prelude.{◌≡◌, ◌↔◌, true, IsSome, IfSome};
ghost use Rattle.dy_node.specs.Nodes.{with_mode, with_up};
ghost use Rattle.dy_cluster.specs.Named.{IsNodeOf};

use crate::clusters::Cluster;
use dy_dots::NodeId;
use dy_node::{Mode, Node};
use dy_shares::Naming;
use std::sync::{Mutex, Wait};

impl<J: Naming> Cluster<J> {
    /// How many nodes the ring has. Takes no memory.
    pub fn nodes(&self) -> u8
        ensures { result ≡ J.ring.nodes }
    {
        self.ring.nodes()
    }

    /// The node of this number, where the ring has it. Takes no memory.
    pub fn node(&self, number: usize) -> Option<NodeId>
        ensures some { IsSome result ↔ IsNodeOf J.ring number }
        ensures value { IfSome result (λ node. node ≡ number) }
    {
        if number < usize::from(self.ring.nodes()) {
            Some(NodeId::nth(number))
        } else {
            None
        }
    }

    // The node's lock.
    pub(crate) fn lock_of(&self, node: NodeId) -> &Mutex<Node<J>>
        requires ring { IsNodeOf J.ring node }
    {
        &self.nodes[place_of(node)]
    }

    /// The node goes down, or comes up. May wait for a lock.
    pub fn set_up(&self, rt: &impl Wait, node: NodeId, is_up: bool)
        requires ring { IsNodeOf J.ring node }
    {
        set_one_up(&mut self.lock_of(node).lock(rt), is_up);
    }

    /// Sets what the node does with asks. May wait for a lock.
    pub fn fault(&self, rt: &impl Wait, node: NodeId, mode: Mode)
        requires ring { IsNodeOf J.ring node }
    {
        set_one_mode(&mut self.lock_of(node).lock(rt), mode);
    }

    /// Brings every node up, and sets its mode to `Plain`. May wait for locks.
    pub fn restore(&self, rt: &impl Wait) {
        for lock in self.nodes.iter() {
            restore_one(&mut lock.lock(rt));
        }
    }
}

// The index of the node in the ring's order.
fn place_of(node: NodeId) -> usize
    ensures { result ≡ node }
{
    usize::from(node.number())
}

// The node goes down, or comes up.
fn set_one_up<J: Naming>(node: &mut Node<J>, is_up: bool)
    ensures { node.new ≡ with_up node.old is_up }
{
    node.set_up(is_up);
}

// The node does this with asks from now on.
fn set_one_mode<J: Naming>(node: &mut Node<J>, mode: Mode)
    ensures { node.new ≡ with_mode node.old mode }
{
    node.set_fault(mode);
}

// Brings the node up, and sets its mode to `Plain`.
fn restore_one<J: Naming>(node: &mut Node<J>)
    ensures { node.new ≡ with_mode (with_up node.old true) Mode.Plain }
{
    set_one_up(node, true);
    set_one_mode(node, Mode::Plain);
}
