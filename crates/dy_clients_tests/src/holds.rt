// A worker that is held while the others work.
use crate::held_puts::HeldPut;
use crate::workers::with_five_workers;
use dy_clients::Fault;
use dy_scenes::{Calls, Scene, is_told};
use std::test::Fail;

// Holds the row that node 1 is asked to store until a get was answered.
#[derive(Drop)]
struct Hold {
    held: HeldPut,
}

impl Scene for Hold {
    fn pass(&self, node: u8, is_store: bool) {
        if node == 1 && is_store {
            self.held.is_asked.say();
            let _ = self.held.is_over.wait();
        }
    }

    // One client puts. The other one gets meanwhile, and then lets node 1 go on.
    fn call<C: Calls>(&self, number: usize, calls: &mut C) -> Result<(), Fault> {
        if self.held.begin(number, calls) {
            return self.held.end(self.held.get(calls));
        }
        Ok(())
    }
}

// Node 1's worker is held with the row of a put, which waits for it. Nodes 0 and 2 answer a get
// meanwhile, with the version of that put. Then node 1 stores, and the put is acknowledged for
// three homes.
#[test]
fn the_others_answer_while_a_worker_is_held(rt: HostRuntime) -> Result<(), Fail> {
    let hold = Hold {
        held: HeldPut::new(),
    };
    let closed = with_five_workers(&rt, rt.alloc(), 2, &hold)?;
    assert!(rt; !hold.held.gave_up());
    assert!(rt; is_told(&rt, &hold.held.got, " 0/0=rows 2/2=rows"));
    assert!(rt; is_told(&rt, &hold.held.put, " 0/0=stored 1/1=stored 2/2=stored"));
    assert!(rt; closed.audit.acked.len() == 1);
    assert!(rt; closed.audit.gets == 1);
    Ok(())
}
