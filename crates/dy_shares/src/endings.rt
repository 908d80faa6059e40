// How a ledger ends: who is missing, and every share comes back.
ghost use Rattle.std.specs.{Prelude.{◌≡◌, ℕ, ◌+◌, ◌<◌, Decides, MatchBool, map}, List.{All}};
ghost use Rattle.dy_shares.specs.{
  inside.Parts.{AgreesAsNode, AgreesAsSession, CameBack},
  Shares.{HasNode, HasSession},
};

use crate::chronicles::Chronicle;
use crate::ledgers::Ledger;
use crate::names::Naming;
use crate::node_shares::NodeShare;
use crate::parts::Roll;
use crate::session_shares::SessionShare;

/// A share is missing. The ledger and all the shares come back, each list in its order.
pub struct EndRefused<J: Naming> {
    pub ledger: Ledger<J>,
    pub nodes: Vec<NodeShare<J>>,
    pub sessions: Vec<SessionShare<J>>,
}

impl<J: Naming> EndRefused<J> {
    /// Ends the ledger without its shares that are missing.
    pub fn abandon(self) {
        let EndRefused {
            ledger,
            nodes,
            sessions,
        } = self;
        ledger.abandon(nodes, sessions);
    }
}

fn has_node<J: Naming>(shares: &[NodeShare<J>], node: usize) -> bool
    ensures { Decides result (HasNode node shares.now) }
{
    shares
        .iter()
        .any(|share| share.node().number() as usize == node)
}

// Whether a node below this number has no share among these.
pub(crate) fn lacks_node<J: Naming>(shares: &[NodeShare<J>], nodes: usize) -> bool
    ensures { MatchBool result
        ((node : ℕ) × (node < nodes) × ¬ (HasNode node shares.now))
        ((node : ℕ) → node < nodes → HasNode node shares.now) }
{
    for node in 0..nodes {
        if !has_node(shares, node) {
            return true;
        }
    }
    false
}

fn has_session<J: Naming>(shares: &[SessionShare<J>], session: usize) -> bool
    ensures { Decides result (HasSession session shares.now) }
{
    shares.iter().any(|share| share.session() == session)
}

// Whether a session below this number has no share among these.
pub(crate) fn lacks_session<J: Naming>(shares: &[SessionShare<J>], sessions: usize) -> bool
    ensures { MatchBool result
        ((session : ℕ) × (session < sessions) × ¬ (HasSession session shares.now))
        ((session : ℕ) → session < sessions → HasSession session shares.now) }
{
    for session in 0..sessions {
        if !has_session(shares, session) {
            return true;
        }
    }
    false
}

// Compares each node's share with its seat of the roll, for the last time, and marks the seat.
pub(crate) fn end_nodes<J: Naming>(roll: &mut Roll<J>, mut shares: Vec<NodeShare<J>>)
    ensures low { All (λ p. p.node < J.ring.nodes) shares.items }
    ensures agree { All (AgreesAsNode roll.old) shares.items }
    ensures back { CameBack roll.old (map (λ p. p.node) shares.items) roll.new }
{
    while let Some(share) = shares.pop() {
        share.end(roll);
    }
    shares.destroy_empty();
}

// Compares each session's share with its seat of the roll, for the last time, and marks the seat;
// and its gets with the log.
pub(crate) fn end_sessions<J: Naming>(
    roll: &mut Roll<J>,
    chronicle: &mut Chronicle<J>,
    mut shares: Vec<SessionShare<J>>,
)
    ensures chronicle { chronicle.new ≡ chronicle.old }
    ensures agree { All (AgreesAsSession J.ring.nodes J.r roll.old chronicle.old) shares.items }
    ensures back { CameBack roll.old (map (λ s. J.ring.nodes + s.session) shares.items) roll.new }
{
    while let Some(share) = shares.pop() {
        share.end(roll, chronicle);
    }
    shares.destroy_empty();
}

// Lets the nodes' shares go, where the ledger goes too.
pub(crate) fn drop_nodes<J: Naming>(mut shares: Vec<NodeShare<J>>) {
    while let Some(share) = shares.pop() {
        share.abandon();
    }
    shares.destroy_empty();
}

// Lets the sessions' shares go, where the ledger goes too.
pub(crate) fn drop_sessions<J: Naming>(mut shares: Vec<SessionShare<J>>) {
    while let Some(share) = shares.pop() {
        share.abandon();
    }
    shares.destroy_empty();
}
