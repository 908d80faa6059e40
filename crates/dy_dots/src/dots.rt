ghost use Rattle.std.specs.{
  Prelude.{◌≡◌, ◌≤◌, ◌↔◌, IsSome, IfSome, Some},
  Cmp.{partial_order_from_own_ties},
  Cmp.Rules.{comparing},
  Ordering.{as_partial_cmp},
};
ghost use Rattle.std.proofs.Common.{rules};
ghost use Rattle.dy_dots.specs.{
  Dots.{DotNumbers, dot_cmp, dot_code, dot_text, IsDot},
  declared.dots.TheConstants.{MAX_COUNTER},
};

use crate::nodes::{self, NodeId};
use std::cmp::Ordering;
use std::fmt;
use std::marker::Model;

/// The greatest counter of a dot.
pub const MAX_COUNTER: u32 = 1_000_000;

/// The name of one version of a key: the node that made it, and which of that node's versions of
/// the key it is, from 1 (Preguiça et al., dotted version vectors, section 4). Dots are ordered by
/// node, then by counter.
#[derive(Clone, Copy, Debug, PartialEq, Eq)]
pub struct Dot {
    node: NodeId,
    counter: u32,
}

// Its model has a name of its own, since the specs that define it stand below the type. What stands
// above the type writes the type's name, which is the same.
impl Model for Dot {
    ghost Value = { DotNumbers };

    ghost coded = { dot_code };

    ghost view = { λ dot. record { node = dot.node; counter = dot.counter } };

    ghost invariant = { λ dot. IsDot (record { node = dot.node; counter = dot.counter }) };

    ghost inverse = { λ dot. record { node = dot.node; counter = dot.counter } };
}

impl Dot {
    /// The node's dot of this counter. Takes no memory.
    pub fn new(node: NodeId, counter: u32) -> Option<Dot>
        ensures valid { IsSome result ↔ ((1 ≤ counter) × (counter ≤ MAX_COUNTER)) }
        ensures value { IfSome result (λ dot. dot ≡ record { node = node; counter = counter }) }
    {
        if 1 <= counter && counter <= MAX_COUNTER {
            Some(Dot { node, counter })
        } else {
            None
        }
    }

    /// The node that made the version. Takes no memory.
    pub fn node(self) -> NodeId
        ensures { result ≡ self.node }
    {
        self.node
    }

    /// Which of the node's versions of the key it is, from 1. Takes no memory.
    pub fn counter(self) -> u32
        ensures value { result ≡ self.counter }
        ensures valid { IsDot self }
    {
        self.counter
    }
}

impl Ord for Dot {
    ghost cmp = { dot_cmp };

    ghost total = { Prim.search (comparing, rules) };

    ghost matches_partial_cmp = { Prim.search (comparing, rules) };

    ghost matches_eq = { Prim.search (comparing, rules) };

    fn cmp(&self, other: &Dot) -> Ordering {
        let by_node = self.node.cmp(&other.node);
        by_node.then(self.counter.cmp(&other.counter))
    }
}

impl PartialOrd for Dot {
    ghost partial_cmp = { as_partial_cmp dot_cmp };

    ghost laws = { partial_order_from_own_ties
        (Prim.search (comparing, rules)) (Prim.search (comparing, rules)) };

    fn partial_cmp(&self, other: &Dot) -> Option<Ordering> {
        Some(self.cmp(other))
    }
}

impl fmt::Display for Dot {
    ghost output = { λ dot. Some (dot_text dot) };

    fn fmt<W: fmt::Write>(&self, f: &mut fmt::Formatter<W>) -> fmt::Result {
        nodes::print_head(self.node, f)?;
        fmt::Display::fmt(&self.counter, f)
    }
}
