// A scene of one client, on the caller's own thread.
use dy_cluster::{Closed, Connection, Fault, Naming, OpenCluster, Transport, Work, with_cluster};
use dy_scenes::{Caller, Scene, five_nodes, options, play};
use std::alloc::Global;
use std::sync::Wait;

// Plays the scene over the connection.
fn play_over<J: Naming, T: Transport<J>, S: Scene, R: Wait>(
    rt: &R,
    alloc: Global,
    connection: &mut Connection<'_, J, T>,
    scene: &S,
) -> Result<(), Fault> {
    let client = Caller {
        rt,
        alloc,
        connection,
    };
    play(scene, 0, client)
}

// Plays the scene over a connection, and puts its session into the list.
pub fn call_alone<J: Naming, S: Scene, R: Wait>(
    lent: &mut OpenCluster<'_, J, R>,
    scene: &S,
) -> Result<(), Fault> {
    lent.sessions.reserve(1)?;
    let mut connection = lent.cluster.connect(lent.rt)?;
    let called = play_over(lent.rt, lent.alloc, &mut connection, scene);
    let (session, _direct) = connection.into_parts();
    lent.sessions.push_reserved(session);
    called
}

// The same over mailboxes that are closed before anything is sent.
fn call_closed<J: Naming, S: Scene, R: Wait>(
    lent: &mut OpenCluster<'_, J, R>,
    scene: &S,
) -> Result<(), Fault> {
    lent.sessions.reserve(1)?;
    let (post, inboxes) = lent.cluster.post()?;
    drop(inboxes);
    let mut connection = lent.cluster.connect_by_post(lent.rt, post)?;
    let called = play_over(lent.rt, lent.alloc, &mut connection, scene);
    let (session, _mailboxes) = connection.into_parts();
    lent.sessions.push_reserved(session);
    called
}

// The work of the one client, over closed mailboxes or on its own thread.
#[derive(Drop)]
struct Alone<'a, S> {
    scene: &'a S,
    is_closed: bool,
}

impl<S: Scene> Work for Alone<'_, S> {
    fn run<J: Naming, R: Wait>(&mut self, lent: &mut OpenCluster<'_, J, R>) -> Result<(), Fault> {
        if self.is_closed {
            call_closed(lent, self.scene)
        } else {
            call_alone(lent, self.scene)
        }
    }
}

// Plays the scene on the cluster of five nodes, and closes it.
pub fn played_alone<S: Scene, R: Wait>(
    rt: &R,
    alloc: Global,
    scene: &S,
    is_closed: bool,
) -> Result<Closed, Fault> {
    let ring = five_nodes(alloc)?;
    let mut alone = Alone { scene, is_closed };
    with_cluster(rt, alloc, ring, options(), &mut alone)
}
