// The cluster of a storm.
ghost use Rattle.std.specs.Prelude.{◌≡◌, ◌∷◌, [], IfOk, IsOkUnless};
ghost use Rattle.dy_ring.specs.Lists.{IsRingOf};
ghost use Rattle.dy_storm.specs.Clusters.{five_tokens, storm_options};

use dy_book::{MAX_STEPS, MAX_VERSIONS};
use dy_clients::{Fault, Options, Ring};
use dy_dots::MAX_COUNTER;
use std::alloc::Global;

/// The ring of five nodes.
pub(crate) fn five_nodes(alloc: Global) -> Result<Ring, Fault>
    ensures ring { IfOk result (λ ring. IsRingOf five_tokens ring) }
    ensures memory { IsOkUnless result Fault.OutOfMemory }
{
    let mut lists = Vec::new(alloc);
    lists.push(list_of(alloc, 0x20000000000000000000000000000000)?)?;
    lists.push(list_of(alloc, 0x60000000000000000000000000000000)?)?;
    lists.push(list_of(alloc, 0xa0000000000000000000000000000000)?)?;
    lists.push(list_of(alloc, 0xd0000000000000000000000000000000)?)?;
    lists.push(list_of(alloc, 0xf0000000000000000000000000000000)?)?;
    Ring::from_tokens(alloc, lists.as_slice())
}

// The tokens of a node that has one.
fn list_of(alloc: Global, position: u128) -> Result<Vec<u128>, Fault>
    ensures list { IfOk result (λ list. list.items ≡ position ∷ []) }
    ensures memory { IsOkUnless result Fault.OutOfMemory }
{
    let mut list = Vec::new(alloc);
    list.push(position)?;
    Ok(list)
}

/// Three homes a key, of which a put and a get need two, and the greatest limits.
pub(crate) fn options() -> Options
    ensures { result ≡ storm_options }
{
    Options {
        n: 3,
        r: 2,
        w: 2,
        counter_limit: MAX_COUNTER,
        versions_limit: MAX_VERSIONS,
        steps_limit: MAX_STEPS,
    }
}
