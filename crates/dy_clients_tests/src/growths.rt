//! A put over mailboxes whose growths may be refused. Run with each allocation refused in turn, one
//! a run.

use crate::workers::with_five_workers;
use dy_clients::{Closed, Fault};
use dy_scenes::{Calls, Scene};
use std::alloc::Global;
use std::sync::Wait;
use std::test::Fail;
use std::thread::Threads;

// One client puts, and once more where memory was wanting.
#[derive(Drop)]
struct Retry;

impl Scene for Retry {
    fn call<C: Calls>(&self, _number: usize, calls: &mut C) -> Result<(), Fault> {
        if let Err(Fault::OutOfMemory) = calls.put_untold(b'a') {
            calls.put_untold(b'a')?;
        }
        Ok(())
    }
}

// What the cluster told as it was closed. Where memory was wanting for the cluster, its posts, a
// thread or the audit, the same once more.
fn closed_or_again<R: Threads + Wait + Sync>(rt: &R, alloc: Global) -> Result<Closed, Fault> {
    match with_five_workers(rt, alloc, 1, &Retry) {
        Err(Fault::OutOfMemory) => with_five_workers(rt, alloc, 1, &Retry),
        ended => ended,
    }
}

// Whichever growth is refused, the put ends: acknowledged, with a stand-in where a home could not
// be asked, or refused for want of memory, and is acknowledged then. The audit has it once.
#[test]
fn survive_a_refused_growth(rt: HostRuntime) -> Result<(), Fail> {
    let closed = closed_or_again(&rt, rt.alloc())?;
    assert!(rt; closed.audit.acked.len() == 1);
    Ok(())
}
