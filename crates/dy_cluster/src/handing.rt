// What is done at one node of a cluster: passes, kept messages, and what it shows.
ghost use Rattle.std.specs.Prelude.{◌≡◌, ◌≤◌, ◌⊎◌, ◌↔◌, ◌-◌, ◌^◌, false, length, min};
ghost use Rattle.std.specs.Prelude.{IfOk, IfErr, IsErrOf, IsOkUnless};
ghost use Rattle.std.specs.FinMap as maps;
ghost use Rattle.dy_transport.specs.Told.{Told};
ghost use Rattle.dy_handoff.specs.Passes.{IsPass};
ghost use Rattle.dy_cluster.specs.{
  Deliveries.{IsDelivery, IsDeliveryRefusal},
  Named.{IsNodeOf},
  Shows.{IsShow},
};

use crate::clusters::Cluster;
use dy_dots::{Fault, NodeId};
use dy_handoff::{Pass, pass};
use dy_mailboxes::{Mailboxes, Post};
use dy_node::{Node, RowFor};
use dy_shares::Naming;
use dy_siblings::Key;
use dy_transport::Direct;
use std::sync::Wait;

// The greatest room that a transport is made with.
const MAX_ROOM: usize = 1_000_000;

// How many hints the node keeps, if it is up.
fn hints_at<J: Naming>(node: &Node<J>) -> Result<usize, Fault>
    ensures ok { IfOk result (λ count.
        count ≡ min (length (maps.entries node.now.rooms.hints)) (2 ^ 64 - 1)) }
    ensures down { IsErrOf result Fault.Down ↔ (node.now.is_up ≡ false) }
    ensures only { IsOkUnless result Fault.Down }
{
    if node.is_up() {
        Ok(node.hint_count())
    } else {
        Err(Fault::Down)
    }
}

impl<J: Naming> Cluster<J> {
    // How many hints the node keeps, if it is up. May wait for a lock.
    fn hint_count<R: Wait>(&self, rt: &R, node: NodeId) -> Result<usize, Fault>
        requires ring { IsNodeOf J.ring node }
        ensures only { IsOkUnless result Fault.Down }
    {
        let held = self.lock_of(node).lock(rt);
        hints_at(&held)
    }

    /// A pass over the node's hints, on the caller's own thread. It asks each home to hold its row,
    /// and then releases what the home holds. May wait for locks.
    pub fn handoff<R: Wait>(&self, rt: &R, node: NodeId) -> Result<Pass, Fault>
        requires ring { IsNodeOf J.ring node }
        ensures ok { IfOk result (λ done. (told : Told J) × IsPass {J = J} node told done) }
        ensures fewer { IfOk result (λ done. done.stored ≤ done.offers) }
        ensures only { IfErr result (λ fault. (fault ≡ Fault.Down) ⊎ (fault ≡ Fault.OutOfMemory)) }
    {
        // That a node is down is found before memory is taken.
        let room = self.hint_count(rt, node)?.min(MAX_ROOM);
        let mut direct = Direct::new(self.alloc, self.nodes.as_slice(), &self.book, room)?;
        pass(rt, &mut direct, node)
    }

    /// The same pass, with the homes asked through their workers. May wait for answers and locks.
    pub fn handoff_by_post<R: Wait>(
        &self,
        rt: &R,
        post: &mut Post<J>,
        node: NodeId,
    ) -> Result<Pass, Fault>
        requires ring { IsNodeOf J.ring node }
        ensures ok { IfOk result (λ done. (told : Told J) × IsPass {J = J} node told done) }
        ensures fewer { IfOk result (λ done. done.stored ≤ done.offers) }
        ensures only { IfErr result (λ fault. (fault ≡ Fault.Down) ⊎ (fault ≡ Fault.OutOfMemory)) }
    {
        // Mailboxes have room for one ask at least.
        let room = self.hint_count(rt, node)?.clamp(1, MAX_ROOM);
        let nodes = self.nodes.as_slice();
        let again = post.try_clone()?;
        let mut mailboxes = Mailboxes::new(self.alloc, nodes, &self.book, again, room)?;
        pass(rt, &mut mailboxes, node)
    }

    /// Has the node store the messages that it kept, the oldest first, and gives how many. May wait
    /// for locks.
    pub fn deliver<R: Wait>(&self, rt: &R, node: NodeId) -> Result<usize, Fault>
        requires ring { IsNodeOf J.ring node }
        ensures ok { IfOk result IsDelivery }
        ensures only { IfErr result IsDeliveryRefusal }
    {
        let mut held = self.lock_of(node).lock(rt);
        let mut open = self.book.lock(rt);
        held.deliver(&mut open)
    }

    /// Copies of what the node keeps of the key: its own row, and then its hints in the order of
    /// their homes. May wait for a lock.
    pub fn show<R: Wait>(&self, rt: &R, node: NodeId, key: &Key) -> Result<Vec<RowFor>, Fault>
        requires ring { IsNodeOf J.ring node }
        ensures ok { IfOk result (λ rows. IsShow key.now rows.items) }
        ensures memory { IsOkUnless result Fault.OutOfMemory }
    {
        let mut copies = Vec::new(self.alloc);
        let held = self.lock_of(node).lock(rt);
        let rows = held.rows(key)?;
        for row in rows.as_slice() {
            let copy = row.1.try_clone(self.alloc)?;
            copies.push((row.0, copy))?;
        }
        Ok(copies)
    }
}
