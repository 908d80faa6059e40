// What a get mends.
use crate::alone::played_alone;
use dy_cluster::Fault;
use dy_scenes::{Calls, Scene, is_told};
use std::sync::Mutex;
use std::test::Fail;

// What node 1 keeps behind a get that mends nothing, and behind one that mends.
#[derive(Drop)]
struct Outage {
    unrepaired: Mutex<Option<String>>,
    mended: Mutex<Option<String>>,
}

// Puts, and puts once more while node 1 is down. A put that is refused is missing in the audit.
fn put_past<C: Calls>(calls: &mut C) {
    let _first = calls.put(2, b'a');
    calls.set_up(1, false);
    let _second = calls.put(2, b'a');
    calls.set_up(1, true);
}

impl Scene for Outage {
    fn call<C: Calls>(&self, _number: usize, calls: &mut C) -> Result<(), Fault> {
        put_past(calls);
        let _got = calls.get(b'a');
        calls.keep(&self.unrepaired, calls.kept(1, b'a').ok());
        let mended = calls.mend(b'a');
        calls.keep(&self.mended, calls.kept(1, b'a').ok());
        mended
    }
}

// A home is down while a second put is stored elsewhere. Once it is up, a get that mends nothing
// leaves it stale, and a get that mends has it store the row.
#[test]
fn a_get_mends_a_home_that_was_down(rt: HostRuntime) -> Result<(), Fail> {
    let outage = Outage {
        unrepaired: Mutex::new(None),
        mended: Mutex::new(None),
    };
    let closed = played_alone(&rt, rt.alloc(), &outage, false)?;
    assert!(rt; is_told(&rt, &outage.unrepaired, " 1/1 n0:1"));
    assert!(rt; is_told(&rt, &outage.mended, " 1/1 n0:1-2"));
    assert!(rt; closed.audit.acked.len() == 2);
    assert!(rt; closed.audit.gets == 2);
    Ok(())
}
