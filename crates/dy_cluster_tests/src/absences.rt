// A cluster that is closed without one of its sessions, goes on, and is closed with all of them.
ghost use Rattle.dy_cluster.specs.Named.{NamesBook};

use crate::alone::call_alone;
use dy_cluster::{
    Closed, Cluster, ClusterRefused, Fault, Naming, OpenCluster, Opened, Resting, Session,
};
use dy_scenes::{Put, five_nodes, options};
use std::alloc::Global;
use std::marker::Brand;
use std::sync::Wait;
use std::test::Fail;

// Puts by a session more. A put that is refused is missing in the audit.
fn put_alone<J: Naming, R: Wait>(
    rt: &R,
    alloc: Global,
    cluster: &Cluster<J>,
    sessions: Vec<Session<J>>,
) -> Vec<Session<J>> {
    let mut lent = OpenCluster {
        rt,
        alloc,
        cluster,
        sessions,
    };
    let _put = call_alone(&mut lent, &Put::new(2));
    lent.into_sessions()
}

// Closes the cluster without any of its sessions. Then wakes it, puts by another session, and
// closes it with all of them.
fn close_twice<J: Naming, R: Wait>(
    rt: &R,
    alloc: Global,
    resting: Resting<J>,
    sessions: Vec<Session<J>>,
) -> Result<Closed, Fault> {
    let none = Vec::new(alloc);
    if !resting.lacks(none.as_slice()) {
        none.destroy_empty();
        resting.abandon(sessions);
        return Err(Fault::NoNode);
    }
    match resting.close(none) {
        Ok(_closed) => unreachable!(),
        Err(refused) => {
            let ClusterRefused {
                fault: _,
                cluster,
                sessions: none,
            } = refused;
            none.destroy_empty();
            let cluster = Cluster::wake(cluster);
            let sessions = put_alone(rt, alloc, &cluster, sessions);
            cluster.end(sessions)
        }
    }
}

// Opens a cluster, puts by a session, and closes it twice.
fn play<J: Naming, R: Wait>(rt: &R, alloc: Global, opened: Opened) -> Result<Closed, Fault>
    requires named { NamesBook J.book J.table J.ring J.n J.r opened }
{
    let cluster = Cluster::<J>::open(alloc, opened)?;
    let sessions = put_alone(rt, alloc, &cluster, Vec::new(alloc));
    close_twice(rt, alloc, cluster.rest(), sessions)
}

// The same under the name that is picked.
fn played<R: Wait>(rt: &R, alloc: Global) -> Result<Closed, Fault> {
    let ring = five_nodes(alloc)?;
    let opened = Opened::new(alloc, ring, options())?;
    play::<Brand, R>(rt, alloc, opened)
}

// A session puts, and the cluster is closed without it: that is refused, and all comes back. The
// cluster is woken, another session puts, and the cluster is closed with both. The audit has both
// puts.
#[test]
fn a_cluster_closed_without_a_session_goes_on(rt: HostRuntime) -> Result<(), Fail> {
    let closed = played(&rt, rt.alloc())?;
    assert!(rt; closed.audit.acked.len() == 2);
    Ok(())
}
