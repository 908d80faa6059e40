// A scene's clients in threads of their own, beside the workers of five nodes.
use dy_clients::{
    Access, Ask, Client, Closed, Fault, Gate, Naming, NodeId, Transport, with_workers,
};
use dy_scenes::{Caller, Scene, five_nodes, options, play};
use std::alloc::Global;
use std::sync::Wait;
use std::thread::Threads;

// A scene whose clients have connections.
#[derive(Drop)]
struct Played<'a, S> {
    scene: &'a S,
}

impl<S: Scene> Gate for Played<'_, S> {
    fn pass<J: Naming>(&self, node: NodeId, ask: &Ask<'_, J>) {
        let is_store = matches!(ask, Ask::Store { .. });
        self.scene.pass(node.number(), is_store);
    }

    fn compared(&self, node: NodeId) {
        self.scene.compared(node.number());
    }
}

impl<S: Scene> Client for Played<'_, S> {
    fn run<J: Naming, T: Transport<J>, R: Wait>(
        &self,
        number: usize,
        lent: &mut Access<'_, J, T, R>,
    ) -> Result<(), Fault> {
        let client = Caller {
            rt: lent.rt,
            alloc: lent.alloc,
            connection: &mut lent.connection,
        };
        play(self.scene, number, client)
    }
}

// Plays the scene with so many clients beside five workers, and closes the cluster.
pub fn with_five_workers<S: Scene + Sync, R: Threads + Wait + Sync>(
    rt: &R,
    alloc: Global,
    clients: u8,
    scene: &S,
) -> Result<Closed, Fault> {
    let ring = five_nodes(alloc)?;
    let played = Played { scene };
    let done = with_workers(rt, alloc, ring, options(), &played, clients, &played)?;
    Ok(done.closed)
}
