ghost use Rattle.std.specs.Prelude.{◌≡◌};
ghost use Rattle.dy_transport.specs.Asking.{asked, home_of};

use crate::snapshots::show;
use dy_dots::NodeId;
use dy_node::Ask;
use dy_shares::Naming;
use dy_siblings::{Key, Row};
use std::snapshot::Snapshot;

/// What was asked: to hold a row, or to fetch what is kept of a key, later than a step. Keys and
/// rows are for contracts alone.
#[derive(Drop)]
pub enum What {
    Store(Snapshot<Row>),
    Fetch(Snapshot<Key>, usize),
}

/// An ask: the node asked, the home, what was asked, and how many answers were read before it.
pub struct Asked {
    pub to: NodeId,
    pub home: NodeId,
    pub what: What,
    pub read: usize,
}

impl Drop for Asked {
    fn drop(self) {
        let Asked {
            to: _,
            home: _,
            what: _,
            read: _,
        } = self;
    }
}

impl Asked {
    // The ask as the trace has it.
    pub(crate) fn new<J: Naming>(to: NodeId, ask: &Ask<'_, J>, read: usize) -> Asked
        ensures { result ≡ asked to ask.now read }
    {
        match ask {
            Ask::Store { home, row } => Asked {
                to,
                home: *home,
                what: What::Store(show(row.row())),
                read,
            },
            Ask::Fetch { home, key, since } => Asked {
                to,
                home: *home,
                what: What::Fetch(show(*key), since.at()),
                read,
            },
        }
    }
}

/// The home that an ask is for. Takes no memory.
pub fn home_asked<J: Naming>(ask: &Ask<'_, J>) -> NodeId
    ensures { result ≡ home_of ask.now }
{
    match ask {
        Ask::Store { home, row: _ } => *home,
        Ask::Fetch { home, .. } => *home,
    }
}
