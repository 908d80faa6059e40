// What one thread waits for and another one says.
use std::hint;
use std::sync::atomic::{AtomicBool, Ordering};

// How often a thread looks before it gives up: for about a second, as LLVM builds it.
pub const LOOKS: u32 = 100_000_000;

// What is said once. A wait for it ends by itself.
#[derive(Drop)]
pub struct Signal {
    is_said: AtomicBool,
    gave_up: AtomicBool,
}

impl Signal {
    pub fn new() -> Signal {
        Signal {
            is_said: AtomicBool::new(false),
            gave_up: AtomicBool::new(false),
        }
    }

    pub fn say(&self) {
        self.is_said.store(true, Ordering::SeqCst);
    }

    pub fn is_said(&self) -> bool {
        self.is_said.load(Ordering::SeqCst)
    }

    // Whether a thread waited in vain.
    pub fn gave_up(&self) -> bool {
        self.gave_up.load(Ordering::SeqCst)
    }

    // Waits until it is said, and tells whether it was. Once a thread has waited in vain, none
    // waits.
    pub fn wait(&self) -> bool {
        for _ in 0..LOOKS {
            if self.is_said() {
                return true;
            }
            if self.gave_up() {
                return false;
            }
            hint::spin_loop();
        }
        self.gave_up.store(true, Ordering::SeqCst);
        false
    }
}
