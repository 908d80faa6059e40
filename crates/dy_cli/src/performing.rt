ghost use Rattle.std.specs.{
  Prelude.{◌≡◌, ◌≤◌, ◌⊎◌, List, [], ℕ, IfOk, IsTrue, OnErr, OnOk},
  Io.Buffered.{writer_buffer, writer_contents},
  Io.KnownBytes.{Appends},
};
ghost use Rattle.dy_jobs.specs.Jobs.{has_script};
ghost use Rattle.dy_cli.specs.{
  Ends.{IsEnd, IsUnread},
  Jobs.{AreRead, IsRingOfText, IsRunOf, IsServiceOf, IsStormLines, IsWritten},
  Refusals.{AreRefused, HasClusterFault, HasRingFault, HasServiceFault, IsCause, IsHaltedBy},
  Refusals.{IsHaltedFor, RefusesCluster, RefusesRing, Stops},
};

use crate::ends::Ended;
use crate::refusing::{refuse_file, refuse_stopped};
use dy_dots::Fault;
use dy_jobs::Job;
use dy_lines::Stopped;
use dy_plans::{Storm, write_ring};
use dy_runner::write_run;
use dy_script::{Buffers, read};
use dy_serve::serve;
use dy_storm::write_storm;
use std::alloc::Global;
use std::io;
use std::io::{BufRead, BufWriter, Read, Write};
use std::sync::Wait;
use std::thread::Threads;

/// Reads the script from the input, where the job has one, does the job, and has the output take
/// it. It ends with 0 where it was done, with 1 where memory or the output failed, and with 2 where
/// the input can't be read, or the script, its ring, a limit or its quorum is refused. A service
/// reads its commands from `lines`. A refusal is one line on `err`. May wait for locks, a storm for
/// answers and threads, and a service for lines.
pub fn perform<I: Read, L: BufRead, W: Write + Drop, E: Write, R: Threads + Wait + Sync>(
    rt: &R,
    alloc: Global,
    job: &Job,
    input: &mut I,
    lines: &mut L,
    out: &mut BufWriter<W>,
    err: &mut E,
) -> Ended
    ensures status { result.status ≤ 2 }
    ensures done { result.status ≡ 0 → (bytes : List ℕ)
        × AreRead job.now (I.remaining input.old) bytes
        × ((wrote : List ℕ) × IsWritten job.now (L.remaining lines.old) bytes wrote
        × Appends (writer_contents W.contents out.old) (writer_contents W.contents out.new) wrote) }
    ensures flushed { result.status ≡ 0 → writer_buffer out.new ≡ [] }
    ensures quiet { result.status ≡ 0 → E.contents err.new ≡ E.contents err.old }
    ensures ended { IsUnread job.now result
        (writer_contents W.contents out.old) (writer_contents W.contents out.new)
        (E.contents err.old) (E.contents err.new)
        ⊎ ((bytes : List ℕ) × AreRead job.now (I.remaining input.old) bytes
        × IsEnd job.now (L.remaining lines.old) bytes result
        (writer_contents W.contents out.old) (writer_contents W.contents out.new)
        (E.contents err.old) (E.contents err.new)) }
{
    match script_of(alloc, job, input) {
        Ok(bytes) => carry_out(rt, alloc, job, bytes.as_slice(), lines, out, err),
        Err(error) => refuse_file(err, job.file().unwrap_or("-"), &error),
    }
}

/// The bytes of the script that the job reads, and none where it reads none.
fn script_of<I: Read>(alloc: Global, job: &Job, input: &mut I) -> io::Result<Vec<u8>>
    ensures ok { IfOk result (λ bytes. AreRead job.now (I.remaining input.old) bytes.items) }
    ensures err { OnErr result (IsTrue (has_script job.now)) }
{
    let mut bytes = Vec::new(alloc);
    if job.file().is_none() {
        return Ok(bytes);
    }
    input.read_to_end(&mut bytes)?;
    Ok(bytes)
}

/// Does the job of these bytes, and says why it stopped, if it did.
fn carry_out<L: BufRead, W: Write + Drop, E: Write, R: Threads + Wait + Sync>(
    rt: &R,
    alloc: Global,
    job: &Job,
    bytes: &[u8],
    lines: &mut L,
    out: &mut BufWriter<W>,
    err: &mut E,
) -> Ended
    ensures status { result.status ≤ 2 }
    ensures done { result.status ≡ 0 → (wrote : List ℕ)
        × IsWritten job.now (L.remaining lines.old) bytes.now wrote
        × Appends (writer_contents W.contents out.old) (writer_contents W.contents out.new) wrote }
    ensures flushed { result.status ≡ 0 → writer_buffer out.new ≡ [] }
    ensures quiet { result.status ≡ 0 → E.contents err.new ≡ E.contents err.old }
    ensures ended { IsEnd job.now (L.remaining lines.old) bytes.now result
        (writer_contents W.contents out.old) (writer_contents W.contents out.new)
        (E.contents err.old) (E.contents err.new) }
{
    match write_job(rt, alloc, job, bytes, lines, out) {
        Ok(()) => Ended {
            status: 0,
            told: true,
        },
        Err(stopped) => refuse_stopped(err, &stopped),
    }
}

/// Writes what the job is asked to write, and has the output take it.
fn write_job<L: BufRead, W: Write + Drop, R: Threads + Wait + Sync>(
    rt: &R,
    alloc: Global,
    job: &Job,
    bytes: &[u8],
    lines: &mut L,
    out: &mut BufWriter<W>,
) -> Result<(), Stopped>
    ensures ok { OnOk result ((wrote : List ℕ)
        × IsWritten job.now (L.remaining lines.old) bytes.now wrote
        × Appends (writer_contents W.contents out.old) (writer_contents W.contents out.new)
        wrote) }
    ensures flushed { OnOk result (writer_buffer out.new ≡ []) }
    ensures refused { IsHaltedBy (Stops job.now bytes.now) result
        (writer_contents W.contents out.old) (writer_contents W.contents out.new) }
    ensures only { IsHaltedFor (IsCause job.now (L.remaining lines.old) bytes.now
        (writer_contents W.contents out.old) (writer_contents W.contents out.new)) result }
{
    write_lines(rt, alloc, job, bytes, lines, out)?;
    out.flush()?;
    Ok(())
}

/// Writes what the job is asked to write.
fn write_lines<L: BufRead, W: Write, R: Threads + Wait + Sync>(
    rt: &R,
    alloc: Global,
    job: &Job,
    bytes: &[u8],
    lines: &mut L,
    out: &mut W,
) -> Result<(), Stopped>
    ensures ok { OnOk result ((wrote : List ℕ)
        × IsWritten job.now (L.remaining lines.old) bytes.now wrote
        × Appends (W.contents out.old) (W.contents out.new) wrote) }
    ensures refused { IsHaltedBy (Stops job.now bytes.now) result
        (W.contents out.old) (W.contents out.new) }
    ensures only { IsHaltedFor (IsCause job.now (L.remaining lines.old) bytes.now
        (W.contents out.old) (W.contents out.new)) result }
{
    match job {
        Job::Run { with_steps, .. } => write_lines_of_run(rt, alloc, bytes, *with_steps, out),
        Job::Serve { with_steps, .. } => {
            write_lines_of_service(rt, alloc, bytes, *with_steps, lines, out)
        }
        Job::Ring(_) => write_lines_of_ring(alloc, bytes, out),
        Job::Storm(plan) => write_lines_of_storm(rt, alloc, *plan, out),
    }
}

/// Runs the script that the bytes spell, and writes its lines.
fn write_lines_of_run<W: Write, R: Wait>(
    rt: &R,
    alloc: Global,
    bytes: &[u8],
    with_steps: bool,
    out: &mut W,
) -> Result<(), Stopped>
    ensures ok { OnOk result ((wrote : List ℕ) × IsRunOf bytes.now with_steps wrote
        × Appends (W.contents out.old) (W.contents out.new) wrote) }
    ensures refused { IsHaltedBy (AreRefused RefusesCluster bytes.now) result
        (W.contents out.old) (W.contents out.new) }
    ensures only { IsHaltedFor (AreRefused HasClusterFault bytes.now) result }
{
    let mut buffers = Buffers::new(alloc);
    match read(alloc, &mut buffers, bytes) {
        Ok(script) => write_run(rt, alloc, &script, with_steps, out),
        Err(fault) => Err(Stopped::Refused(fault)),
    }
}

/// Serves the lines in the cluster of the script that the bytes spell, and writes the answers.
fn write_lines_of_service<L: BufRead, W: Write, R: Wait>(
    rt: &R,
    alloc: Global,
    bytes: &[u8],
    with_steps: bool,
    lines: &mut L,
    out: &mut W,
) -> Result<(), Stopped>
    ensures ok { OnOk result ((wrote : List ℕ)
        × IsServiceOf (L.remaining lines.old) bytes.now with_steps wrote
        × Appends (W.contents out.old) (W.contents out.new) wrote) }
    ensures refused { IsHaltedBy (AreRefused RefusesCluster bytes.now) result
        (W.contents out.old) (W.contents out.new) }
    ensures only { IsHaltedFor (AreRefused (HasServiceFault with_steps
        (L.remaining lines.old) (W.contents out.old) (W.contents out.new)) bytes.now) result }
{
    let mut buffers = Buffers::new(alloc);
    match read(alloc, &mut buffers, bytes) {
        Ok(script) => serve(rt, alloc, &script, with_steps, lines, out),
        Err(fault) => Err(Stopped::Refused(fault)),
    }
}

/// Writes the lines of the ring of the script that the bytes spell.
fn write_lines_of_ring<W: Write>(alloc: Global, bytes: &[u8], out: &mut W) -> Result<(), Stopped>
    ensures ok { OnOk result ((wrote : List ℕ) × IsRingOfText bytes.now wrote
        × Appends (W.contents out.old) (W.contents out.new) wrote) }
    ensures refused { IsHaltedBy (AreRefused RefusesRing bytes.now) result
        (W.contents out.old) (W.contents out.new) }
    ensures only { IsHaltedFor (AreRefused HasRingFault bytes.now) result }
{
    let mut buffers = Buffers::new(alloc);
    match read(alloc, &mut buffers, bytes) {
        Ok(script) => write_ring(alloc, &script, out),
        Err(fault) => Err(Stopped::Refused(fault)),
    }
}

/// Plays the storm, and writes its lines.
fn write_lines_of_storm<W: Write, R: Threads + Wait + Sync>(
    rt: &R,
    alloc: Global,
    plan: Storm,
    out: &mut W,
) -> Result<(), Stopped>
    ensures ok { OnOk result ((wrote : List ℕ) × IsStormLines plan wrote
        × Appends (W.contents out.old) (W.contents out.new) wrote) }
    ensures only { IsHaltedFor (λ fault. fault ≡ Fault.TooMany) result }
{
    write_storm(rt, alloc, plan, out)
}
