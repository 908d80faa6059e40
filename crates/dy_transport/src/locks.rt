use crossbeam_utils::Backoff;
use std::sync::{Mutex, MutexGuard, Wait};

// How often a lock is tried before the thread sleeps: some forty microseconds.
const TRIES: u32 = 18;

/// Takes the lock of a node or of the book. Each is held for a few microseconds, and a sleep costs
/// more than that: so a thread first tries it for a while. Each try takes the lock's cache line
/// from its holder, so the pauses between grow. May wait for the lock. Takes no memory.
#[inline(always)]
pub fn lock_soon<'a, T, R: Wait>(rt: &R, lock: &'a Mutex<T>) -> MutexGuard<'a, T> {
    match lock.try_lock() {
        Some(guard) => guard,
        None => lock_after_pauses(rt, lock),
    }
}

// The same of a lock that another thread holds.
#[cold]
#[inline(never)]
fn lock_after_pauses<'a, T, R: Wait>(rt: &R, lock: &'a Mutex<T>) -> MutexGuard<'a, T> {
    let backoff = Backoff::new();
    for _ in 1..TRIES {
        backoff.spin();
        if let Some(guard) = lock.try_lock() {
            return guard;
        }
    }
    lock.lock(rt)
}
