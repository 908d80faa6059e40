// What is printed of an audit.
ghost use Rattle.std.specs.{Prelude.{IfErr, OnOk}, Io.KnownBytes.{Appends}, List.{flat_map}};
ghost use Rattle.dy_lines.specs.Stops.{IsStoppedForMemory};
ghost use Rattle.dy_plans.specs.AuditLines.{acked_line, audit_lines, end_line, held_line};
ghost use Rattle.dy_plans.specs.AuditLines.{settled_line, settled_lines};

use dy_book::{AckedAt, Audit};
use dy_core::Holding;
use dy_lines::{AckedLine, EndLine, HeldLine, SettledLine, Stopped, write_whole};
use dy_siblings::Key;
use std::alloc::Global;
use std::io;
use std::io::Write;

/// Writes what the nodes hold, what was acknowledged, which keys are settled where that is wanted,
/// and the sums.
pub fn write_audit<O: Write>(
    alloc: Global,
    w: u8,
    is_settled: bool,
    audit: &Audit,
    out: &mut O,
) -> Result<(), Stopped>
    ensures written { OnOk result (Appends (O.contents out.old) (O.contents out.new)
        (audit_lines w is_settled audit.now)) }
    ensures memory { IfErr result IsStoppedForMemory }
{
    write_held(alloc, audit.held.as_slice(), out)?;
    write_acked(w, audit.acked.as_slice(), out)?;
    write_wanted(is_settled, audit.settled.as_slice(), out)?;
    write_end(audit, out)?;
    Ok(())
}

fn write_held<O: Write>(alloc: Global, held: &[Holding], out: &mut O) -> Result<(), Stopped>
    ensures written { OnOk result (Appends (O.contents out.old) (O.contents out.new)
        (flat_map held_line held.now)) }
    ensures memory { IfErr result IsStoppedForMemory }
{
    for holding in held {
        let line = HeldLine::of(alloc, holding)?;
        write_whole(&line, out)?;
    }
    Ok(())
}

fn write_acked<O: Write>(w: u8, acked: &[AckedAt], out: &mut O) -> io::Result<()>
    ensures { OnOk result (Appends (O.contents out.old) (O.contents out.new)
        (flat_map (acked_line w) acked.now)) }
{
    for ack in acked {
        let line = AckedLine::of(w, ack);
        write_whole(&line, out)?;
    }
    Ok(())
}

fn write_settled<O: Write>(keys: &[Key], out: &mut O) -> io::Result<()>
    ensures { OnOk result (Appends (O.contents out.old) (O.contents out.new)
        (flat_map settled_line keys.now)) }
{
    for key in keys {
        let line = SettledLine { key };
        write_whole(&line, out)?;
    }
    Ok(())
}

fn write_wanted<O: Write>(is_wanted: bool, keys: &[Key], out: &mut O) -> io::Result<()>
    ensures { OnOk result (Appends (O.contents out.old) (O.contents out.new)
        (settled_lines is_wanted keys.now)) }
{
    if is_wanted {
        return write_settled(keys, out);
    }
    Ok(())
}

fn write_end<O: Write>(audit: &Audit, out: &mut O) -> io::Result<()>
    ensures { OnOk result (Appends (O.contents out.old) (O.contents out.new)
        (end_line audit.now)) }
{
    let line = EndLine::of(audit);
    writeln!(out, "{line}")?;
    Ok(())
}
