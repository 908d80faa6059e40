use crate::comparing::Compared;
use dy_dots::Fault;
use dy_lines::Stopped;
use dy_plans::{options_of, ring_of};
use dy_replay::replay;
use dy_runner::run_script;
use dy_script::{Buffers, read};
use std::alloc::Global;
use std::sync::Wait;

/// Runs the script on a cluster, which is closed then, plays its steps once more, and compares. May
/// wait for locks.
pub(crate) fn replayed<R: Wait>(rt: &R, alloc: Global, script: &[u8]) -> Result<Compared, Stopped> {
    let mut buffers = Buffers::new(alloc);
    let script = read(alloc, &mut buffers, script)?;
    let ring = ring_of(alloc, &script.layout)?;
    let options = options_of(&script)?;
    if options.n < 1 || options.n > ring.nodes() {
        return Err(Stopped::Refused(Fault::BadQuorum));
    }
    let again = ring.try_clone(alloc)?;
    // The lines of the run go nowhere.
    let mut lines = Vec::new(alloc);
    let closed = run_script(rt, alloc, ring, options, &script, &mut lines)?;
    let world = replay(alloc, again, options.n, &closed)?;
    Ok(Compared::of(alloc, &world, &closed.audit)?)
}
