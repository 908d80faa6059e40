// The cluster that the tests use.
use dy_cluster::{Fault, Options, Ring};
use std::alloc::Global;

// How many nodes there are.
pub const NODES: u8 = 5;

// The key `a` lies at 0cc1.. (RFC 1321, A.5), so its nodes are 0, 1, 2, 3 and 4, in this order.
const SPREAD: [u128; 5] = [
    0x20000000000000000000000000000000,
    0x60000000000000000000000000000000,
    0xa0000000000000000000000000000000,
    0xd0000000000000000000000000000000,
    0xf0000000000000000000000000000000,
];

// A list of the one token.
fn one_token(alloc: Global, position: u128) -> Result<Vec<u128>, Fault> {
    let mut list = Vec::new(alloc);
    list.push(position)?;
    Ok(list)
}

// A list of each node's token.
fn five_lists(alloc: Global) -> Result<Vec<Vec<u128>>, Fault> {
    let mut lists = Vec::new(alloc);
    for position in SPREAD {
        lists.push(one_token(alloc, position)?)?;
    }
    Ok(lists)
}

/// A ring of five nodes with a token each. The key `a` has the homes 0, 1 and 2.
pub fn five_nodes(alloc: Global) -> Result<Ring, Fault> {
    let lists = five_lists(alloc)?;
    Ring::from_tokens(alloc, lists.as_slice())
}

/// Three homes a key, of which a put and a get need two.
pub fn options() -> Options {
    Options::of(3, 2, 2)
}
