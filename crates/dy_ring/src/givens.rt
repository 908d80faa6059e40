ghost use Rattle.std.specs.{
  Prelude.{◌≡◌, ◌≤◌, ◌<◌, ◌++◌, ◌^◌, ℕ, true, false, length, map, IfOk, OnOk, IsOkUnless},
  Prelude.{MatchOption},
  List.{All},
  List.Sorted.{IsNonDecreasingBy, IsPermutation},
};
ghost use Rattle.dy_dots.specs.declared.nodes.TheConstants.{MAX_NODES};
ghost use Rattle.dy_ring.specs.{
  Lists.{IsLeast, has_too_many, lacks_token, derived_token, derived_list, derived_lists},
  inside.Making.{pairs_from, clash_of},
};

use crate::rings::{MAX_TOKENS_PER_NODE, Token};
use dy_dots::{Fault, MAX_NODES, NodeId};
use md5::{Digest, Md5};
use std::alloc::Global;

/// Whether these are too many nodes, or one of them has too many tokens.
pub(crate) fn are_too_many(lists: &[Vec<u128>]) -> bool
    ensures { result ≡ has_too_many (map (λ list. list.items) lists.now) }
{
    if lists.len() > MAX_NODES as usize {
        return true;
    }
    for list in lists {
        if list.len() > MAX_TOKENS_PER_NODE {
            return true;
        }
    }
    false
}

/// The least node that has no token; no node at all counts as node 0 without one.
pub(crate) fn first_without(lists: &[Vec<u128>]) -> Option<NodeId>
    requires { length lists.now ≤ MAX_NODES }
    ensures { let given = map (λ list. list.items) lists.now in
        MatchOption result ((node : ℕ) → lacks_token given node ≡ false)
        (λ node. IsLeast (lacks_token given) node) }
{
    if lists.is_empty() {
        return Some(NodeId::nth(0));
    }
    for (number, list) in lists.iter().enumerate() {
        if list.is_empty() {
            return Some(NodeId::nth(number));
        }
    }
    None
}

/// Each position of the list with its node is put at the tokens' end.
fn add(tokens: &mut Vec<Token>, node: NodeId, list: &[u128]) -> Result<(), Fault>
    ensures ok { OnOk result
        (tokens.new.items ≡ tokens.old.items ++ map (λ p. (p, node)) list.now) }
    ensures positions { All (λ p. p < 2 ^ 128) list.now }
    ensures memory { IsOkUnless result Fault.OutOfMemory }
{
    for position in list {
        tokens.push((*position, node))?;
    }
    Ok(())
}

/// Each position of the lists with its node.
pub(crate) fn pairs_of(alloc: Global, lists: &[Vec<u128>]) -> Result<Vec<Token>, Fault>
    requires { length lists.now ≤ MAX_NODES }
    ensures ok { let given = map (λ list. list.items) lists.now in
        IfOk result (λ tokens. tokens.items ≡ pairs_from 0 given) }
    ensures positions { IfOk result (λ tokens. All (λ t. t.0 < 2 ^ 128) tokens.items) }
    ensures memory { IsOkUnless result Fault.OutOfMemory }
{
    let mut tokens = Vec::new(alloc);
    for (number, list) in lists.iter().enumerate() {
        add(&mut tokens, NodeId::nth(number), list.as_slice())?;
    }
    Ok(tokens)
}

/// The tokens are put in the order of their positions.
pub(crate) fn sort(tokens: &mut Vec<Token>)
    ensures permutation { IsPermutation tokens.old.items tokens.new.items }
    ensures sorted { IsNonDecreasingBy (λ t. t.0) tokens.new.items }
{
    tokens.sort_unstable_by_key(|token| token.0);
}

/// The first position that stands twice in a row.
pub(crate) fn first_clash(tokens: &[Token]) -> Option<u128>
    ensures { result ≡ clash_of tokens.now }
{
    let (first, rest) = tokens.split_first()?;
    let mut last = first.0;
    for token in rest {
        if token.0 == last {
            return Some(last);
        }
        last = token.0;
    }
    None
}

/// Whether so many nodes, or so many tokens of each, are too many.
pub(crate) fn derives_too_many(nodes: u8, per_node: u8) -> bool
    ensures { result ≡ has_too_many (derived_lists nodes per_node) }
{
    nodes > MAX_NODES || nodes > 0 && per_node as usize > MAX_TOKENS_PER_NODE
}

/// Whether a node would have no token.
pub(crate) fn derives_none(nodes: u8, per_node: u8) -> bool
    ensures yes { result ≡ true → lacks_token (derived_lists nodes per_node) 0 ≡ true }
    ensures no { result ≡ false
        → (node : ℕ) → lacks_token (derived_lists nodes per_node) node ≡ false }
{
    nodes == 0 || per_node == 0
}

/// Where this token of the node lies.
fn token_of(alloc: Global, node: u8, number: u8) -> Result<u128, Fault>
    ensures ok { IfOk result (λ position. position ≡ derived_token node number) }
    ensures memory { IsOkUnless result Fault.OutOfMemory }
{
    let text = format!(in alloc; "{node}#{number}")?;
    Ok(u128::from_be_bytes(Md5::digest(text.as_bytes())))
}

/// The node's first derived tokens.
fn list_of(alloc: Global, node: u8, count: u8) -> Result<Vec<u128>, Fault>
    ensures ok { IfOk result (λ list. list.items ≡ derived_list node count) }
    ensures memory { IsOkUnless result Fault.OutOfMemory }
{
    let mut list = Vec::new(alloc);
    for number in 0..count {
        list.push(token_of(alloc, node, number)?)?;
    }
    Ok(list)
}

/// So many derived tokens of each of so many nodes.
pub(crate) fn lists_of(alloc: Global, nodes: u8, per_node: u8) -> Result<Vec<Vec<u128>>, Fault>
    ensures ok { IfOk result
        (λ lists. map (λ list. list.items) lists.items ≡ derived_lists nodes per_node) }
    ensures memory { IsOkUnless result Fault.OutOfMemory }
{
    let mut lists = Vec::new(alloc);
    for node in 0..nodes {
        lists.push(list_of(alloc, node, per_node)?)?;
    }
    Ok(lists)
}
