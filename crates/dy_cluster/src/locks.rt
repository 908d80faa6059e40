// How nodes go into their locks, and out of them.
ghost use Rattle.std.specs.Prelude.{◌≡◌, ◌≤◌, ◌<◌, ◌+◌, [], length, vec_len, vec_capacity};
ghost use Rattle.dy_node.specs.Nodes.{first_state};
ghost use Rattle.dy_cluster.specs.{Ends.{GoTogether, GoesWith}, Firsts.{AreFirstFrom}};

use dy_node::{Node, Rest};
use dy_shares::{Naming, NodeShare};
use std::alloc::Global;
use std::sync::Mutex;

// Puts a new node for each share into a lock, each at the place of its number.
pub(crate) fn lock_all<J: Naming>(
    alloc: Global,
    shares: &mut Vec<NodeShare<J>>,
    locks: &mut Vec<Mutex<Node<J>>>,
)
    requires first { AreFirstFrom (vec_len locks.old) shares.old.items }
    requires room { vec_len locks.old + length shares.old.items ≤ vec_capacity locks.old }
    ensures count { vec_len locks.new ≡ vec_len locks.old + length shares.old.items }
    ensures emptied { shares.new.items ≡ [] }
    ensures memory { vec_capacity shares.new ≡ vec_capacity shares.old }
{
    shares.reverse();
    while let Some(share) = shares.pop() {
        lock_next(alloc, share, locks);
    }
}

// Puts the new node of the next number into a lock.
fn lock_next<J: Naming>(alloc: Global, share: NodeShare<J>, locks: &mut Vec<Mutex<Node<J>>>)
    requires number { share.node ≡ vec_len locks.old }
    requires fresh { share.steps ≡ [] }
    requires room { vec_len locks.old < vec_capacity locks.old }
    ensures count { vec_len locks.new ≡ vec_len locks.old + 1 }
    ensures memory { vec_capacity locks.new ≡ vec_capacity locks.old }
{
    locks.push_reserved(Mutex::new(first_node(alloc, share)));
}

// The node of a share without a step: it is up, and keeps nothing.
fn first_node<J: Naming>(alloc: Global, share: NodeShare<J>) -> Node<J>
    requires fresh { share.steps ≡ [] }
    ensures { result ≡ first_state share }
{
    Node::new(alloc, share)
}

// Takes the nodes out of their locks, the last first. The list keeps its memory.
pub(crate) fn retire_all<J: Naming>(
    locks: &mut Vec<Mutex<Node<J>>>,
    shares: &mut Vec<NodeShare<J>>,
    rests: &mut Vec<Rest>,
)
    requires shares { shares.old.items ≡ [] }
    requires rests { rests.old.items ≡ [] }
    requires shares_room { vec_len locks.old ≤ vec_capacity shares.old }
    requires rests_room { vec_len locks.old ≤ vec_capacity rests.old }
    ensures emptied { vec_len locks.new ≡ 0 }
    ensures memory { vec_capacity locks.new ≡ vec_capacity locks.old }
    ensures count { length shares.new.items ≡ vec_len locks.old }
    ensures together { GoTogether J.ring J.n shares.new.items rests.new.items }
    ensures shares_memory { vec_capacity shares.new ≡ vec_capacity shares.old }
    ensures rests_memory { vec_capacity rests.new ≡ vec_capacity rests.old }
{
    while let Some(lock) = locks.pop() {
        let (share, rest) = retire_one(lock.into_inner());
        shares.push_reserved(share);
        rests.push_reserved(rest);
    }
}

// Takes the node's share out of it. What is left is as it was.
fn retire_one<J: Naming>(node: Node<J>) -> (NodeShare<J>, Rest)
    ensures share { result.0 ≡ node.part }
    ensures rooms { result.1.stored.rooms ≡ node.rooms }
    ensures is_up { result.1.is_up ≡ node.is_up }
    ensures mode { result.1.mode ≡ node.mode }
    ensures waiting { result.1.waiting ≡ node.waiting }
    ensures together { GoesWith J.ring J.n result.0 result.1 }
{
    node.retire()
}

// Puts the nodes back, each into a lock.
pub(crate) fn rejoin_all<J: Naming>(
    locks: &mut Vec<Mutex<Node<J>>>,
    shares: &mut Vec<NodeShare<J>>,
    rests: &mut Vec<Rest>,
)
    requires room { vec_len locks.old + length shares.old.items ≤ vec_capacity locks.old }
    requires together { GoTogether J.ring J.n shares.old.items rests.old.items }
    ensures count { vec_len locks.new ≡ vec_len locks.old + length shares.old.items }
    ensures no_shares { shares.new.items ≡ [] }
    ensures no_rests { rests.new.items ≡ [] }
    ensures shares_room { vec_capacity shares.new ≡ vec_capacity shares.old }
    ensures rests_room { vec_capacity rests.new ≡ vec_capacity rests.old }
{
    while let Some(share) = shares.pop() {
        let Some(rest) = rests.pop() else {
            unreachable!()
        };
        locks.push_reserved(Mutex::new(rejoin_one(share, rest)));
    }
}

// Puts a node together again, as it was.
fn rejoin_one<J: Naming>(share: NodeShare<J>, rest: Rest) -> Node<J>
    requires together { GoesWith J.ring J.n share rest }
    ensures share { result.part ≡ share }
    ensures rooms { result.rooms ≡ rest.stored.rooms }
    ensures is_up { result.is_up ≡ rest.is_up }
    ensures mode { result.mode ≡ rest.mode }
    ensures waiting { result.waiting ≡ rest.waiting }
{
    Node::rejoin(share, rest)
}
