use crate::shoppers::visit;
use crate::states::{beat, clear, reconcile};
use dy_clients::{Access, Client, Context, Fault, Key, Naming, Transport};
use std::sync::Wait;
use std::sync::atomic::{AtomicUsize, Ordering};

/// The clients: three shoppers and two devices, each with a key of its own.
const NAMES: [&str; 5] = ["ann", "ben", "cleo", "door", "lamp"];

/// A shop: how many of its clients have gone, and how many logins and states the last one found.
/// Each client is in a thread of its own.
#[derive(Drop)]
pub(crate) struct Shop {
    pub gone: AtomicUsize,
    pub found: AtomicUsize,
}

impl Client for Shop {
    fn run<J: Naming, T: Transport<J>, R: Wait>(
        &self,
        number: usize,
        lent: &mut Access<'_, J, T, R>,
    ) -> Result<(), Fault> {
        let done = call(number, lent);
        // Whoever was refused has gone, too.
        if self.gone.fetch_add(1, Ordering::SeqCst) == 4 {
            self.lock_up(lent)?;
        }
        done
    }
}

// What the client of this number came for.
fn call<J: Naming, T: Transport<J>, R: Wait>(
    number: usize,
    lent: &mut Access<'_, J, T, R>,
) -> Result<(), Fault> {
    let key = Key::new(lent.alloc, NAMES[number % 5].as_bytes())?;
    if number < 3 {
        visit(lent, &key, number)
    } else {
        beat(lent, &key, number == 3)
    }
}

impl Shop {
    // The nodes hand over what they kept for each other. Then logins end, and one state of each
    // device is left.
    fn lock_up<J: Naming, T: Transport<J>, R: Wait>(
        &self,
        lent: &mut Access<'_, J, T, R>,
    ) -> Result<(), Fault> {
        let cluster = lent.connection.cluster();
        for number in 0..usize::from(cluster.nodes()) {
            if let Some(node) = cluster.node(number) {
                cluster.handoff(lent.rt, node)?;
            }
        }
        for number in 0..5usize {
            let key = Key::new(lent.alloc, NAMES[number].as_bytes())?;
            let ended = if number < 3 {
                clear(lent, &key, &mut Context::new(lent.alloc))?
            } else {
                reconcile(lent, &key)?
            };
            self.found.fetch_add(ended, Ordering::SeqCst);
        }
        Ok(())
    }
}
