// An answer that comes late, over mailboxes.
use crate::workers::with_five_workers;
use dy_clients::{Fault, Mode};
use dy_scenes::{Calls, Put, Scene, is_told};
use std::sync::atomic::{AtomicU64, Ordering};
use std::test::Fail;

// Counts the asks that pass at node 1, and keeps what the put was answered.
#[derive(Drop)]
struct Late {
    passed: AtomicU64,
    put: Put,
}

impl Scene for Late {
    fn pass(&self, node: u8, _is_store: bool) {
        if node == 1 {
            self.passed.fetch_add(1, Ordering::SeqCst);
        }
    }

    fn call<C: Calls>(&self, number: usize, calls: &mut C) -> Result<(), Fault> {
        calls.set_mode(1, Mode::Late);
        self.put.call(number, calls)
    }
}

// Node 1 answers late: first that nothing came, so that node 3 stands in, and then that it stored.
// The put reads both, and ends. The one ask passed the gate once.
#[test]
fn a_late_answer_comes_second(rt: HostRuntime) -> Result<(), Fail> {
    let late = Late {
        passed: AtomicU64::new(0),
        put: Put::new(3),
    };
    let closed = with_five_workers(&rt, rt.alloc(), 1, &late)?;
    let wanted = " 0/0=stored 1/1=noanswer 1/1=stored 2/2=stored 3/1=stored";
    assert!(rt; is_told(&rt, &late.put.told, wanted));
    assert!(rt; late.passed.load(Ordering::SeqCst) == 1);
    assert!(rt; closed.audit.acked.len() == 1);
    Ok(())
}
