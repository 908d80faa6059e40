// What is printed of a script's ring.
ghost use Rattle.std.specs.{
  Prelude.{◌≡◌, ◌↔◌, Result, IsErrOf, OnErr, OnOk},
  Io.KnownBytes.{Appends},
};
ghost use Rattle.dy_dots.specs.declared.faults.Fault.{Fault as FaultParts};
ghost use Rattle.dy_ring.specs.Rings.{Tokens};
ghost use Rattle.dy_script.specs.Reading.{script_parts};
ghost use Rattle.dy_plans.specs.RingLines.{IsLaidOut, IsRingMade, key_lines, lists_of, ring_lines};

use crate::options::ring_of;
use dy_lines::{KeyLine, Stopped, write_tokens};
use dy_preference::preference;
use dy_ring::Ring;
use dy_script::Script;
use dy_siblings::Key;
use std::alloc::Global;
use std::io;
use std::io::Write;

/// Writes the tokens of the script's ring, in rising position, and then the preference list of each
/// of its keys.
pub fn write_ring<W: Write>(alloc: Global, script: &Script, out: &mut W) -> Result<(), Stopped>
    ensures written { OnOk result ((ring : Tokens)
        × IsLaidOut (script_parts script.now).layout ring
        × Appends (W.contents out.old) (W.contents out.new)
        (ring_lines ring (script_parts script.now).keys)) }
    ensures refused { (made : Result Tokens FaultParts)
        × IsRingMade (lists_of (script_parts script.now).layout) made
        × ((f : FaultParts) → IsErrOf result (Stopped.Refused f) ↔ IsErrOf made f)
        × OnErr made (W.contents out.new ≡ W.contents out.old) }
{
    let ring = match ring_of(alloc, &script.layout) {
        Ok(ring) => ring,
        Err(fault) => return Err(Stopped::Refused(fault)),
    };
    match write_lines(&ring, script.keys.as_slice(), out) {
        Ok(()) => Ok(()),
        Err(error) => Err(Stopped::Output(error)),
    }
}

fn write_lines<W: Write>(ring: &Ring, keys: &[Key], out: &mut W) -> io::Result<()>
    ensures { OnOk result (Appends (W.contents out.old) (W.contents out.new)
        (ring_lines ring.now keys.now)) }
{
    write_tokens(ring.tokens(), out)?;
    write_keys(ring, keys, out)?;
    Ok(())
}

fn write_keys<W: Write>(ring: &Ring, keys: &[Key], out: &mut W) -> io::Result<()>
    ensures { OnOk result (Appends (W.contents out.old) (W.contents out.new)
        (key_lines ring.now keys.now)) }
{
    for key in keys {
        let list = preference(ring, key, ring.nodes());
        let line = KeyLine {
            key,
            position: Ring::position(key),
            nodes: list.nodes(),
        };
        writeln!(out, "{line}")?;
    }
    Ok(())
}
