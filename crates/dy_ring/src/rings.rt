ghost use Rattle.std.specs.{
  Prelude.{◌≡◌, ◌≤◌, ◌<◌, ◌^◌, length, map, take, drop, IfOk, IsOkUnless},
  List.{All},
  Slice.Iter.{iter_rest},
};
ghost use Rattle.dy_ring.specs.{
  Lists.{IsRingOf, RefusesTooMany, RefusesWithout, RefusesClash, TellsClash, MakesUnlessMemory},
  Lists.{derived_lists},
  Rings.{IsRing, position_of},
};

use crate::givens::{
    are_too_many, derives_none, derives_too_many, first_clash, first_without, lists_of, pairs_of,
    sort,
};
use dy_dots::{Fault, NodeId};
use dy_siblings::Key;
use md5::{Digest, Md5};
use std::alloc::Global;
use std::marker::Model;
use std::slice;

/// How many tokens a node has at most.
pub const MAX_TOKENS_PER_NODE: usize = 64;

/// A token of a ring: its position, and its node.
pub type Token = (u128, NodeId);

/// A fixed ring of positions, each a token of one node (Dynamo, section 4.2).
#[derive(Debug, Drop)]
pub struct Ring {
    nodes: u8,
    tokens: Vec<Token>,
}

impl Model for Ring {
    ghost use Rattle.dy_ring.specs.Rings.{IsRing, Tokens, tokens_code};

    ghost Value = { Tokens };

    ghost coded = { tokens_code };

    ghost view = { λ ring. record { nodes = ring.nodes; tokens = ring.tokens.items } };

    ghost invariant = { λ ring.
        IsRing (record { nodes = ring.nodes; tokens = ring.tokens.items }) };
}

impl Ring {
    /// The ring in which each node has the tokens of its list, node 0 first.
    pub fn from_tokens(alloc: Global, lists: &[Vec<u128>]) -> Result<Ring, Fault>
        ensures ok { IfOk result (λ ring. IsRingOf (map (λ list. list.items) lists.now) ring) }
        ensures too_many { RefusesTooMany (map (λ list. list.items) lists.now) result }
        ensures without { RefusesWithout (map (λ list. list.items) lists.now) result }
        ensures clash { RefusesClash (map (λ list. list.items) lists.now) result }
        ensures told { TellsClash (map (λ list. list.items) lists.now) result }
        ensures memory { MakesUnlessMemory (map (λ list. list.items) lists.now) result }
    {
        if are_too_many(lists) {
            return Err(Fault::TooMany);
        }
        if let Some(node) = first_without(lists) {
            return Err(Fault::NodeWithoutToken { node });
        }
        let mut tokens = pairs_of(alloc, lists)?;
        sort(&mut tokens);
        if let Some(position) = first_clash(tokens.as_slice()) {
            return Err(Fault::TokenClash { position });
        }
        Ok(Ring {
            nodes: lists.len() as u8,
            tokens,
        })
    }

    /// The ring in which each node has so many tokens, each the position of the node's number in
    /// decimal, `#`, and the token's, both from 0.
    pub fn derived(alloc: Global, nodes: u8, per_node: u8) -> Result<Ring, Fault>
        ensures ok { IfOk result (λ ring. IsRingOf (derived_lists nodes per_node) ring) }
        ensures too_many { RefusesTooMany (derived_lists nodes per_node) result }
        ensures without { RefusesWithout (derived_lists nodes per_node) result }
        ensures clash { RefusesClash (derived_lists nodes per_node) result }
        ensures told { TellsClash (derived_lists nodes per_node) result }
        ensures memory { MakesUnlessMemory (derived_lists nodes per_node) result }
    {
        if derives_too_many(nodes, per_node) {
            return Err(Fault::TooMany);
        }
        if derives_none(nodes, per_node) {
            return Err(Fault::NodeWithoutToken {
                node: NodeId::nth(0),
            });
        }
        let lists = lists_of(alloc, nodes, per_node)?;
        Ring::from_tokens(alloc, lists.as_slice())
    }

    /// A copy.
    pub fn try_clone(&self, alloc: Global) -> Result<Ring, Fault>
        ensures ok { IfOk result (λ ring. ring ≡ self.now) }
        ensures memory { IsOkUnless result Fault.OutOfMemory }
    {
        Ok(Ring {
            nodes: self.nodes,
            tokens: Vec::from_slice(alloc, self.tokens.as_slice())?,
        })
    }

    /// How many nodes it has. Takes no memory.
    pub fn nodes(&self) -> u8
        ensures value { result ≡ self.now.nodes }
        ensures valid { IsRing self.now }
    {
        self.nodes
    }

    /// Each token's position and its node, in rising position. Takes no memory.
    pub fn tokens(&self) -> &[Token]
        ensures value { result.now ≡ self.now.tokens }
        ensures valid { IsRing self.now }
    {
        self.tokens.as_slice()
    }

    /// How many tokens lie at the position or before. Takes no memory.
    pub fn first_after(&self, position: u128) -> usize
        ensures within { result ≤ length self.now.tokens }
        ensures passed { All (λ t. t.0 ≤ position) (take result self.now.tokens) }
        ensures ahead { All (λ t. position < t.0) (drop result self.now.tokens) }
    {
        self.tokens.partition_point(|token| token.0 <= position)
    }

    /// Where the key lies: its MD5 digest as a number, the first byte the greatest. Takes no
    /// memory.
    pub fn position(key: &Key) -> u128
        ensures value { result ≡ position_of key.now }
        ensures small { position_of key.now < 2 ^ 128 }
    {
        u128::from_be_bytes(Md5::digest(key.as_bytes()))
    }
}

/// Goes over the tokens, in rising position.
impl<'a> IntoIterator for &'a Ring {
    type Item = &'a Token;

    type IntoIter = slice::Iter<'a, Token>;

    ghost into_iter_gives = { λ ring it. iter_rest it ≡ ring.now.tokens };

    fn into_iter(self) -> Self::IntoIter {
        self.tokens().iter()
    }
}
