// A handoff that comes before the ack of its put.
use crate::held_puts::HeldPut;
use crate::workers::with_five_workers;
use dy_clients::{AckedAt, Fault};
use dy_scenes::{Calls, Scene, is_told};
use std::sync::Mutex;
use std::test::Fail;

// Holds the row that node 2 is asked to store until node 3 has handed over its own.
#[derive(Drop)]
struct Early {
    held: HeldPut,
    // What node 3 kept before the put had its ack.
    kept: Mutex<Option<String>>,
}

impl Early {
    // Gets: node 3 answers that once it has stored what the put asks of it. Then node 1 comes back,
    // and node 3 hands over.
    fn hand_over<C: Calls>(&self, calls: &mut C) -> Result<(), Fault> {
        self.held.get(calls)?;
        calls.set_up(1, true);
        calls.hand_over(3);
        let kept = calls.kept(3, b'a')?;
        if !self.held.has_ended() {
            calls.keep(&self.kept, Some(kept));
        }
        Ok(())
    }
}

impl Scene for Early {
    fn pass(&self, node: u8, is_store: bool) {
        if is_store && node == 3 {
            self.held.is_asked.say();
        }
        if is_store && node == 2 {
            let _ = self.held.is_over.wait();
        }
    }

    // One client puts while node 1 is down. The other one hands over while the put waits for node
    // 2, and then lets it go on.
    fn call<C: Calls>(&self, number: usize, calls: &mut C) -> Result<(), Fault> {
        if number == 0 {
            calls.set_up(1, false);
        }
        if self.held.begin(number, calls) {
            return self.held.end(self.hand_over(calls));
        }
        Ok(())
    }
}

// Whether three homes cover the put, each by itself.
fn is_covered_by_homes(ack: &AckedAt) -> bool {
    ack.places.len() == 3 && ack.places.iter().all(|place| place.holder == place.home)
}

// The same of the one put.
fn are_covered_by_homes(acked: &[AckedAt]) -> bool {
    match acked {
        [ack] => is_covered_by_homes(ack),
        _ => false,
    }
}

// Node 1 is down, and node 3 stands in for it. The put of three homes has not ended, since node 2's
// worker is held, when node 1 comes back and node 3 hands over what it has of that put. Then node 2
// stores. The put is acknowledged for node 3, which has nothing of it any more, and the audit has
// node 1 in its place.
#[test]
fn a_handoff_comes_before_the_ack(rt: HostRuntime) -> Result<(), Fail> {
    let early = Early {
        held: HeldPut::new(),
        kept: Mutex::new(None),
    };
    let closed = with_five_workers(&rt, rt.alloc(), 2, &early)?;
    assert!(rt; !early.held.gave_up());
    assert!(rt; is_told(&rt, &early.held.got, " 0/0=rows 1/1=down 3/1=rows"));
    assert!(rt; is_told(&rt, &early.kept, ""));
    let wanted = " 0/0=stored 1/1=down 2/2=stored 3/1=stored";
    assert!(rt; is_told(&rt, &early.held.put, wanted));
    assert!(rt; are_covered_by_homes(closed.audit.acked.as_slice()));
    Ok(())
}
