// Mailboxes that are closed.
use crate::alone::played_alone;
use dy_scenes::{Put, is_told};
use std::test::Fail;

// Every mailbox is closed: nothing comes of the homes, nor of those that stand in for them, and the
// put waits for none. It is acknowledged for the one home that begins it.
#[test]
fn nothing_comes_of_a_closed_mailbox(rt: HostRuntime) -> Result<(), Fail> {
    let put = Put::new(1);
    let closed = played_alone(&rt, rt.alloc(), &put, true)?;
    let wanted = " 0/0=stored 1/1=noanswer 2/2=noanswer 3/1=noanswer 4/2=noanswer";
    assert!(rt; is_told(&rt, &put.told, wanted));
    assert!(rt; closed.audit.acked.len() == 1);
    Ok(())
}
