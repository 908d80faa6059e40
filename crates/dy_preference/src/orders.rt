ghost use Rattle.std.specs.Prelude.{◌≡◌, ◌≤◌, take, length};
ghost use Rattle.dy_dots.specs.declared.nodes.TheConstants.{MAX_NODES};
ghost use Rattle.dy_ring.specs.Rings.{position_of};
ghost use Rattle.dy_preference.specs.{
  Preferences.{IsByDistance, preference_of},
  inside.Walks.{met},
};

use crate::lists::{Nodes, Preference};
use dy_dots::NodeId;
use dy_ring::{Ring, Token};
use dy_siblings::Key;

/// The preference list of the key, of which the first n nodes are its homes. Takes no memory.
pub fn preference(ring: &Ring, key: &Key, n: u8) -> Preference
    requires some { 1 ≤ n }
    requires enough { n ≤ ring.now.nodes }
    ensures nodes { result.nodes ≡ preference_of ring.now key.now }
    ensures homes { result.n ≡ n }
    ensures order { IsByDistance ring.now (position_of key.now) result.nodes }
{
    let nodes = in_order(ring, key);
    Preference::of(nodes, n as usize)
}

/// The nodes in the order in which a walk round the ring meets them, from the key's position on.
fn in_order(ring: &Ring, key: &Key) -> Nodes
    ensures nodes { result.items ≡ preference_of ring.now key.now }
    ensures order { IsByDistance ring.now (position_of key.now) result.items }
    ensures few { length result.items ≤ MAX_NODES }
{
    let count = ring.nodes() as usize;
    let first = ring.first_after(Ring::position(key));
    let (before, after) = ring.tokens().split_at(first);
    let mut nodes = Nodes::new();
    meet(&mut nodes, after, count);
    meet(&mut nodes, before, count);
    nodes
}

/// Each node of the tokens that isn't there yet is put at the end, until there are so many.
fn meet(nodes: &mut Nodes, tokens: &[Token], count: usize)
    requires room { count ≤ MAX_NODES }
    requires few { length nodes.old.items ≤ count }
    ensures { nodes.new.items ≡ take count (met nodes.old.items tokens.now) }
{
    for token in tokens {
        if nodes.len() == count {
            return;
        }
        if !nodes.contains(&token.1) {
            nodes.push(token.1);
        }
    }
}

/// In the preference list of a key each node comes once, by rising distance. Takes no memory.
pub fn order_is_by_distance(ring: &Ring, key: &Key)
    ensures { IsByDistance ring.now (position_of key.now) (preference_of ring.now key.now) }
{
    let _nodes = ring.nodes();
    let _position = Ring::position(key);
}

/// A list with each node once, by rising distance, is the preference list. Takes no memory.
pub fn order_is_unique(ring: &Ring, key: &Key, nodes: &[NodeId])
    requires { IsByDistance ring.now (position_of key.now) nodes.now }
    ensures { nodes.now ≡ preference_of ring.now key.now }
{
    let _nodes = ring.nodes();
    let _position = Ring::position(key);
}
