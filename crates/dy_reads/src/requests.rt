ghost use Rattle.std.specs.Prelude.{◌≡◌, ℕ};
ghost use Rattle.dy_node.specs.Answers.{MayAsk};
ghost use Rattle.dy_transport.specs.Asking.{home_of, what_of};
ghost use Rattle.dy_reads.specs.Rules.{MayRequest, is_served, requested};

use dy_dots::NodeId;
use dy_node::{Answer, Ask, VouchedRow};
use dy_shares::{Naming, Since};
use dy_siblings::Key;

/// What one call asks of every node: to hold a row, or what it keeps of a key.
#[derive(Drop)]
pub enum Request<'a, J: Naming> {
    Store(&'a VouchedRow<J>),
    Fetch { key: &'a Key, since: &'a Since<J> },
}

impl<'a, J: Naming> Request<'a, J> {
    /// The ask for a home. Takes no memory.
    pub fn for_home(&self, home: NodeId) -> Ask<'a, J>
        ensures home { home_of result ≡ home }
        ensures what { what_of result ≡ requested self.now }
        ensures allowed { (node : ℕ) →
            MayRequest J.ring J.n self.now node home → MayAsk J.ring J.n node result }
    {
        match self {
            Request::Store(row) => Ask::Store {
                home,
                row: row.lend(),
            },
            Request::Fetch { key, since } => Ask::Fetch {
                home,
                key: *key,
                since: *since,
            },
        }
    }

    /// Whether this answer is what was asked for. Takes no memory.
    pub fn is_served(&self, answer: &Answer<J>) -> bool
        ensures { result ≡ is_served (requested self.now) answer.now }
    {
        match self {
            Request::Store(_) => matches!(answer, Answer::Stored(_)),
            Request::Fetch { .. } => matches!(answer, Answer::Rows(_)),
        }
    }
}
