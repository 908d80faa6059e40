// A worker that is held until its mailbox is full.
use crate::workers::with_five_workers;
use dy_clients::Fault;
use dy_mailboxes::MAILBOX_ROOM;
use dy_scenes::{Calls, Scene};
use std::sync::atomic::{AtomicBool, AtomicU64, Ordering};
use std::test::Fail;

// How often each of two clients gets: more, taken together, than the mailbox has room for.
const GETS: u64 = 600;

// The ask that the worker has, and those that its mailbox has room for.
const FULL: u64 = MAILBOX_ROOM as u64 + 1;

// How often the worker looks before it gives up, for about a second, and how often once the mailbox
// is full.
const LOOKS: u32 = 1_000_000_000;

const MORE_LOOKS: u32 = 5_000_000;

// Holds node 1 until its mailbox is full, and counts the gets.
#[derive(Drop)]
struct Full {
    ended: AtomicU64,
    // How many of them two homes answered.
    answered: AtomicU64,
    is_open: AtomicBool,
    // How many had ended when it was opened.
    ended_at: AtomicU64,
}

impl Full {
    fn new() -> Full {
        Full {
            ended: AtomicU64::new(0),
            answered: AtomicU64::new(0),
            is_open: AtomicBool::new(false),
            ended_at: AtomicU64::new(0),
        }
    }

    // Waits until so many gets have ended, or gives up.
    fn wait(&self, looks: u32, gets: u64) {
        for _ in 0..looks {
            if self.ended.load(Ordering::SeqCst) >= gets {
                return;
            }
        }
    }
}

impl Scene for Full {
    // Once the mailbox is full, those may go on who would not wait for room.
    fn pass(&self, node: u8, _is_store: bool) {
        if node == 1 && !self.is_open.load(Ordering::SeqCst) {
            self.wait(LOOKS, FULL);
            self.wait(MORE_LOOKS, FULL + 1);
            let ended = self.ended.load(Ordering::SeqCst);
            self.ended_at.store(ended, Ordering::SeqCst);
            self.is_open.store(true, Ordering::SeqCst);
        }
    }

    fn call<C: Calls>(&self, _number: usize, calls: &mut C) -> Result<(), Fault> {
        for _ in 0..GETS {
            let got = calls.get(b'a')?;
            if got.homes == 2 {
                self.answered.fetch_add(1, Ordering::SeqCst);
            }
            self.ended.fetch_add(1, Ordering::SeqCst);
        }
        Ok(())
    }
}

// Node 1's worker is held over 1,025 gets of two clients, of which each goes on over its
// connection: it has the first ask, and 1,024 lie in its mailbox. Then the clients wait. Once it
// goes on it answers what it was asked, long after those calls, and all gets end. Two homes answer
// each of them.
#[test]
fn a_worker_is_late_by_a_full_mailbox(rt: HostRuntime) -> Result<(), Fail> {
    let full = Full::new();
    let closed = with_five_workers(&rt, rt.alloc(), 2, &full)?;
    assert!(rt; full.ended_at.load(Ordering::SeqCst) == 1025);
    assert!(rt; full.answered.load(Ordering::SeqCst) == 1200);
    assert!(rt; closed.audit.gets == 1200);
    Ok(())
}
