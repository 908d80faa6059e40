ghost use Rattle.std.specs.Prelude.{◌≡◌};
ghost use Rattle.dy_script.specs.Reading.{layout_parts, node_count};

use crate::commands::Command;
use dy_siblings::Key;

/// How many commands a script has at most.
pub const MAX_COMMANDS: usize = 100_000;

/// How many sessions a script has at most; they are numbered from 0.
pub const MAX_SCRIPT_SESSIONS: u8 = 32;

/// Where the tokens of a script's ring come from.
#[derive(Debug, Drop)]
pub enum Layout {
    /// Each node's tokens, node 0 first.
    Tokens(Vec<Vec<u128>>),
    /// So many nodes with so many tokens each, derived from their numbers.
    Derived { nodes: u8, per_node: u8 },
}

impl Layout {
    /// How many nodes the ring has. Takes no memory.
    pub fn nodes(&self) -> usize
        ensures { result ≡ node_count (layout_parts self.now) }
    {
        match self {
            Layout::Tokens(lists) => lists.len(),
            Layout::Derived { nodes, .. } => *nodes as usize,
        }
    }
}

/// The limits that a script sets; one that it leaves out is the greatest.
#[derive(Clone, Copy, Debug, PartialEq, Eq)]
pub struct Limits {
    pub counter: Option<u64>,
    pub versions: Option<u64>,
    pub steps: Option<u64>,
}

/// A whole script: the ring, the quorum, and the commands to run, which borrow their texts.
#[derive(Debug, Drop)]
pub struct Script<'a> {
    /// How many homes a key has.
    pub n: u8,
    /// How many homes must answer a get.
    pub r: u8,
    /// How many homes must have a put that names no number of its own.
    pub w: u8,
    pub layout: Layout,
    pub limits: Limits,
    /// The keys whose preference lists `dynamo ring` prints.
    pub keys: Vec<Key>,
    /// Whether the audit names the settled keys.
    pub settled: bool,
    pub run: Vec<Command<'a>>,
}
