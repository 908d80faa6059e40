// Answers that cross the beginning of their client's next call.
use crate::signals::LOOKS;
use crate::workers::with_five_workers;
use dy_clients::Fault;
use dy_scenes::{Calls, Scene};
use std::sync::atomic::{AtomicBool, AtomicU64, Ordering};
use std::test::Fail;

// Each key has its letter as its value.
const KEYS: [u8; 5] = [b'a', b'b', b'c', b'd', b'e'];

// How often all keys are got.
const ROUNDS: u64 = 400;

// Holds what node 1 is asked to give until a call has ended since it came. So its worker is let go
// when its client is about to begin the next call, many times over. It may compare the number of
// its ask's call with the present one, and send, before the client begins that call, behind it, or
// on both sides.
#[derive(Drop)]
struct Crossing {
    ended: AtomicU64,
    is_over: AtomicBool,
    right: AtomicU64,
}

impl Crossing {
    // Waits until a call has ended, or gives up.
    fn wait(&self) {
        let before = self.ended.load(Ordering::SeqCst);
        for _ in 0..LOOKS {
            if self.ended.load(Ordering::SeqCst) != before || self.is_over.load(Ordering::SeqCst) {
                return;
            }
        }
    }

    // Gets the letter, and counts whether two homes answered and gave the letter alone.
    fn get<C: Calls>(&self, calls: &mut C, letter: u8) -> Result<(), Fault> {
        let got = calls.get(letter)?;
        if got.homes == 2 && got.letter == letter {
            self.right.fetch_add(1, Ordering::SeqCst);
        }
        self.ended.fetch_add(1, Ordering::SeqCst);
        Ok(())
    }

    // Puts all keys, and gets them often.
    fn put_and_get<C: Calls>(&self, calls: &mut C) -> Result<(), Fault> {
        for letter in KEYS {
            calls.put(2, letter)?;
        }
        for _ in 0..ROUNDS {
            for letter in KEYS {
                self.get(calls, letter)?;
            }
        }
        Ok(())
    }
}

impl Scene for Crossing {
    fn pass(&self, node: u8, is_store: bool) {
        if node == 1 && !is_store {
            self.wait();
        }
    }

    fn call<C: Calls>(&self, _number: usize, calls: &mut C) -> Result<(), Fault> {
        let done = self.put_and_get(calls);
        self.is_over.store(true, Ordering::SeqCst);
        done
    }
}

// Node 1 answers each of 2,000 gets of five keys about when its client begins the next one. Two
// homes answer each get, it gives its own key's value, and nobody waits for ever.
#[test]
fn no_answer_crosses_into_the_next_call(rt: HostRuntime) -> Result<(), Fail> {
    let crossing = Crossing {
        ended: AtomicU64::new(0),
        is_over: AtomicBool::new(false),
        right: AtomicU64::new(0),
    };
    let closed = with_five_workers(&rt, rt.alloc(), 1, &crossing)?;
    assert!(rt; crossing.right.load(Ordering::SeqCst) == 2000);
    assert!(rt; closed.audit.gets == 2000);
    Ok(())
}
