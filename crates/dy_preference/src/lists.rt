ghost use Rattle.std.specs.{Prelude.{◌≡◌, take, drop, length, nat_eq, true}, List.{IsDistinct}};
ghost use Rattle.dy_preference.specs.Preferences.{IsPreferred, home_for, is_home, may_hold};

use arrayvec::ArrayVec;
use dy_dots::NodeId;
use std::marker::Model;

/// The nodes of a list, in place: there are few.
pub(crate) type Nodes = ArrayVec<NodeId, 32>;

/// All nodes of a ring in the order in which a key prefers them; the first n are its homes (Dynamo,
/// section 4.3).
#[derive(Debug, Drop)]
pub struct Preference {
    nodes: Nodes,
    n: usize,
}

impl Model for Preference {
    ghost use Rattle.dy_preference.specs.Preferences.{IsPreferred, Preferred, preferred_code};

    ghost Value = { Preferred };

    ghost coded = { preferred_code };

    ghost view = { λ list. record { nodes = list.nodes.items; n = list.n } };

    ghost invariant = { λ list. IsPreferred (record { nodes = list.nodes.items; n = list.n }) };
}

impl Preference {
    /// The list of these nodes, of which the first n are homes. Takes no memory.
    pub(crate) fn of(nodes: Nodes, n: usize) -> Preference
        requires { IsPreferred (record { nodes = nodes.items; n = n }) }
        ensures { result ≡ record { nodes = nodes.items; n = n } }
    {
        Preference { nodes, n }
    }

    /// All nodes, the nearest first. Takes no memory.
    pub fn nodes(&self) -> &[NodeId]
        ensures value { result.now ≡ self.now.nodes }
        ensures valid { IsPreferred self.now }
    {
        self.nodes.as_slice()
    }

    /// The homes of the key, the nearest first. Takes no memory.
    pub fn homes(&self) -> &[NodeId]
        ensures value { result.now ≡ take self.now.n self.now.nodes }
        ensures count { length result.now ≡ self.now.n }
        ensures valid { IsPreferred self.now }
    {
        &self.nodes()[..self.n]
    }

    /// The nodes past the homes. Takes no memory.
    pub(crate) fn past_homes(&self) -> &[NodeId]
        ensures value { result.now ≡ drop self.now.n self.now.nodes }
        ensures valid { IsPreferred self.now }
    {
        &self.nodes()[self.n..]
    }

    /// Whether the node is a home of the key. Takes no memory.
    pub fn is_home(&self, node: NodeId) -> bool
        ensures { result ≡ is_home (take self.now.n self.now.nodes) node }
    {
        self.homes().contains(&node)
    }

    /// The home that the coordinator holds for: itself where it is one, else the first. Takes no
    /// memory.
    pub fn home_for(&self, coordinator: NodeId) -> NodeId
        ensures value { result ≡ home_for (take self.now.n self.now.nodes) coordinator }
        ensures allowed { may_hold (take self.now.n self.now.nodes) coordinator result ≡ true }
    {
        let homes = self.homes();
        if homes.contains(&coordinator) {
            coordinator
        } else {
            homes[0]
        }
    }

    /// Whether the holder may hold the key for the home. Takes no memory.
    pub fn may_hold(&self, holder: NodeId, home: NodeId) -> bool
        ensures { result ≡ may_hold (take self.now.n self.now.nodes) holder home }
    {
        let homes = self.homes();
        homes.contains(&home) && (holder == home || !homes.contains(&holder))
    }
}
