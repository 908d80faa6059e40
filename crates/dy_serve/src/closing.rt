// What is printed of a cluster that was closed.
ghost use Rattle.std.specs.{Prelude.{◌++◌, List, ℕ, IfErr, OnOk}, Io.KnownBytes.{Appends}};
ghost use Rattle.dy_shares.specs.{Shares.{steps_of}, declared.entries.Entry.{Entry}};
ghost use Rattle.dy_lines.specs.Stops.{IsStoppedForMemory};
ghost use Rattle.dy_plans.specs.AuditLines.{audit_lines};
ghost use Rattle.dy_serve.specs.{Closings.{AreLeft, AreLeftIf}, inside.Reads.{HasRead}};

use crate::news::News;
use crate::told::numbers_of;
use dy_cluster::Audit;
use dy_lines::{Stopped, write_step_lines};
use dy_plans::write_audit;
use dy_script::Script;
use std::alloc::Global;
use std::io::Write;

/// Writes the steps of the cluster behind so many, which were printed, if steps are wanted. Then it
/// writes the audit. All of it reaches the reader at once.
pub(crate) fn write_closing<O: Write>(
    alloc: Global,
    script: &Script,
    with_steps: bool,
    steps: usize,
    audit: &Audit,
    out: &mut O,
) -> Result<(), Stopped>
    ensures written { OnOk result ((read : List Entry) → HasRead steps read audit.now
        → (rest : List ℕ) × AreLeftIf with_steps (steps_of read) audit.now rest
        × Appends (O.contents out.old) (O.contents out.new)
        (rest ++ audit_lines script.now.w script.now.settled audit.now)) }
    ensures memory { IfErr result IsStoppedForMemory }
{
    if !with_steps {
        write_last(alloc, script, audit, out)?;
        return Ok(());
    }
    write_left(alloc, audit, steps, out)?;
    write_last(alloc, script, audit, out)?;
    Ok(())
}

// Writes the audit.
fn write_last<O: Write>(
    alloc: Global,
    script: &Script,
    audit: &Audit,
    out: &mut O,
) -> Result<(), Stopped>
    ensures written { OnOk result (Appends (O.contents out.old) (O.contents out.new)
        (audit_lines script.now.w script.now.settled audit.now)) }
    ensures memory { IfErr result IsStoppedForMemory }
{
    write_audit(alloc, script.w, script.settled, audit, out)?;
    out.flush()?;
    Ok(())
}

// Writes the steps of the cluster behind so many.
fn write_left<O: Write>(
    alloc: Global,
    audit: &Audit,
    steps: usize,
    out: &mut O,
) -> Result<(), Stopped>
    ensures written { OnOk result ((read : List Entry) → HasRead steps read audit.now
        → (rest : List ℕ) × AreLeft (steps_of read) audit.now rest
        × Appends (O.contents out.old) (O.contents out.new) rest) }
    ensures memory { IfErr result IsStoppedForMemory }
{
    let trail = audit.history.kept();
    if trail.len() < steps {
        return Ok(());
    }
    let rest = &trail[steps..];
    let told = numbers_of(alloc, &[], &[])?;
    let news = News::new(alloc, steps, rest, 0, told)?;
    write_step_lines(alloc, &news, news.before, news.steps, out)?;
    Ok(())
}
