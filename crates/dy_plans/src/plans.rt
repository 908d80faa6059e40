// Which cluster a script asks for, and which refusal of it comes first.
ghost use Rattle.std.specs.Prelude.{◌↔◌, Result, IfOk, IsErrOf};
ghost use Rattle.dy_dots.specs.declared.faults.Fault.{Fault as FaultParts};
ghost use Rattle.dy_ring.specs.Rings.{Tokens};
ghost use Rattle.dy_script.specs.Reading.{script_parts};
ghost use Rattle.dy_plans.specs.{
  Openings.{IsPlanOf, options_for},
  Refusals.{IsFirstRefusal},
  RingLines.{IsRingMade, lists_of},
};

use crate::options::{options_of, ring_of};
use dy_book::Options;
use dy_dots::Fault;
use dy_ring::Ring;
use dy_script::Script;
use std::alloc::Global;

/// What a script's cluster is opened with.
#[derive(Drop)]
pub struct Plan {
    pub ring: Ring,
    pub options: Options,
}

/// What the script's cluster is opened with, or why there is none.
pub fn plan_of(alloc: Global, script: &Script) -> Result<Plan, Fault>
    ensures ok { IfOk result (IsPlanOf (script_parts script.now)) }
    ensures first { (made : Result Tokens FaultParts)
        × IsRingMade (lists_of (script_parts script.now).layout) made
        × ((f : FaultParts) → IsErrOf result f
        ↔ IsFirstRefusal made (options_for (script_parts script.now)) f) }
{
    let ring = match ring_of(alloc, &script.layout) {
        Ok(ring) => ring,
        Err(fault) => return Err(fault),
    };
    let options = match options_of(script) {
        Ok(options) => options,
        Err(fault) => return Err(fault),
    };
    if !options.is_quorum(ring.nodes()) {
        return Err(Fault::BadQuorum);
    }
    Ok(Plan { ring, options })
}
