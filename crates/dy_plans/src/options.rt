ghost use Rattle.std.specs.Prelude.{◌≡◌, ◌≤◌, ◌↔◌, IfOk, IfErr, IsOk};
ghost use Rattle.dy_book.specs.Limits.{AreLimits};
ghost use Rattle.dy_script.specs.Reading.{layout_parts, script_parts};
ghost use Rattle.dy_plans.specs.{
  Openings.{given_or, options_for},
  RingLines.{IsRingMade, lists_of},
};

use dy_book::{MAX_STEPS, MAX_VERSIONS, Options};
use dy_dots::{Fault, MAX_COUNTER};
use dy_ring::Ring;
use dy_script::{Layout, Script};
use std::alloc::Global;

/// The ring that the layout says, or why there is none.
pub fn ring_of(alloc: Global, layout: &Layout) -> Result<Ring, Fault>
    ensures { IsRingMade (lists_of (layout_parts layout.now)) result }
{
    match layout {
        Layout::Tokens(lists) => Ring::from_tokens(alloc, lists.as_slice()),
        Layout::Derived { nodes, per_node } => Ring::derived(alloc, *nodes, *per_node),
    }
}

/// The options of the cluster that the script asks for, where its limits are in their ranges.
pub fn options_of(script: &Script) -> Result<Options, Fault>
    ensures ok { IfOk result (λ options. options ≡ options_for (script_parts script.now)) }
    ensures limits { IsOk result ↔ AreLimits (options_for (script_parts script.now)) }
    ensures only { IfErr result (λ fault. fault ≡ Fault.TooMany) }
{
    let limits = script.limits;
    let counter = limit_of(limits.counter, u64::from(MAX_COUNTER))?;
    let versions = limit_of(limits.versions, MAX_VERSIONS as u64)?;
    let steps = limit_of(limits.steps, MAX_STEPS as u64)?;
    Ok(Options {
        n: script.n,
        r: script.r,
        w: script.w,
        counter_limit: counter as u32,
        versions_limit: versions as usize,
        steps_limit: steps as usize,
    })
}

// The limit, which is the greatest where none is set.
fn limit_of(limit: Option<u64>, greatest: u64) -> Result<u64, Fault>
    requires some { 1 ≤ greatest }
    ensures ok { IfOk result (λ n. n ≡ given_or greatest limit) }
    ensures range { IsOk result ↔ ((1 ≤ given_or greatest limit)
        × (given_or greatest limit ≤ greatest)) }
    ensures only { IfErr result (λ fault. fault ≡ Fault.TooMany) }
{
    let limit = limit.unwrap_or(greatest);
    if limit < 1 || limit > greatest {
        return Err(Fault::TooMany);
    }
    Ok(limit)
}
