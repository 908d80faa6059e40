// A node without its share.
ghost use Rattle.std.specs.Prelude.{◌≡◌};
ghost use Rattle.dy_node.specs.{Stored.{Shows}, Nodes.{AreDeferred}};

use crate::messages::Message;
use crate::nodes::Node;
use crate::stores::Stores;
use dy_modes::Mode;
use dy_shares::{Naming, NodeShare};
use std::alloc::Global;
use std::collections::VecDeque;
use std::marker::Model;

/// What is left of a node when its share is taken out. It keeps what the node kept, and may be
/// dropped.
#[derive(Drop)]
pub struct Rest {
    alloc: Global,
    stores: Stores,
    is_up: bool,
    mode: Mode,
    waiting: VecDeque<Message>,
}

impl Model for Rest {
    ghost use Rattle.dy_node.specs.Nodes.{RestState, rest_code};

    ghost Value = { RestState };

    ghost coded = { rest_code };

    ghost view = { λ r. record {
      stored = r.stores;
      is_up = r.is_up;
      mode = r.mode;
      waiting = r.waiting.items;
    } };
}

impl Rest {
    ghost use Rattle.std.specs.Prelude.{◌↔◌, IsTrue};
    ghost use Rattle.dy_node.specs.Nodes.{IsRestored};

    /// Whether the node is up, and does what it is asked. Takes no memory.
    pub fn is_restored(&self) -> bool
        ensures { IsTrue result ↔ IsRestored self.now }
    {
        self.is_up && self.mode == Mode::Plain
    }
}

impl<J: Naming> Node<J> {
    /// Takes the node apart: its share, which can be handed in, and its rest. Takes no memory.
    pub fn retire(self) -> (NodeShare<J>, Rest)
        ensures share { result.0 ≡ self.part }
        ensures rooms { result.1.stored.rooms ≡ self.rooms }
        ensures shown { Shows result.0 result.1.stored }
        ensures is_up { result.1.is_up ≡ self.is_up }
        ensures mode { result.1.mode ≡ self.mode }
        ensures waiting { result.1.waiting ≡ self.waiting }
        ensures deferred { AreDeferred J.ring J.n result.0.node result.1.waiting }
    {
        let Node {
            alloc,
            stores,
            share,
            is_up,
            mode,
            waiting,
        } = self;
        let rest = Rest {
            alloc,
            stores,
            is_up,
            mode,
            waiting,
        };
        (share, rest)
    }

    /// Puts a share and a rest together. If the share is unchanged, this is the node that retired.
    /// Takes no memory.
    pub fn rejoin(share: NodeShare<J>, rest: Rest) -> Node<J>
        requires shown { Shows share rest.stored }
        requires deferred { AreDeferred J.ring J.n share.node rest.waiting }
        ensures { result ≡ record {
          part = share;
          rooms = rest.stored.rooms;
          is_up = rest.is_up;
          mode = rest.mode;
          waiting = rest.waiting;
        } }
    {
        let Rest {
            alloc,
            stores,
            is_up,
            mode,
            waiting,
        } = rest;
        Node {
            alloc,
            stores,
            share,
            is_up,
            mode,
            waiting,
        }
    }
}
