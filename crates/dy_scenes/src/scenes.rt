// What clients do on the cluster that the tests use, and what its workers pass.
use crate::calls::Calls;
use dy_cluster::Fault;
use std::sync::Mutex;

/// A scene: its clients, and the gate of its workers.
pub trait Scene {
    /// What a node's worker passes with an ask to store a row, or else to give one.
    fn pass(&self, _node: u8, _is_store: bool) {}

    /// What it passes once it has found an answer to be of the present call, before it sends it.
    fn compared(&self, _node: u8) {}

    /// What the client of this number does.
    fn call<C: Calls>(&self, number: usize, calls: &mut C) -> Result<(), Fault>;
}

/// Has the client of this number play the scene.
pub fn play<S: Scene, C: Calls + Drop>(
    scene: &S,
    number: usize,
    mut client: C,
) -> Result<(), Fault> {
    scene.call(number, &mut client)
}

/// Puts the key `a`, and keeps what was told.
#[derive(Drop)]
pub struct Put {
    pub w: u8,
    pub told: Mutex<Option<String>>,
}

impl Put {
    /// A put that names so many homes.
    pub fn new(w: u8) -> Put {
        Put {
            w,
            told: Mutex::new(None),
        }
    }
}

impl Scene for Put {
    fn call<C: Calls>(&self, _number: usize, calls: &mut C) -> Result<(), Fault> {
        let told = calls.put(self.w, b'a')?;
        calls.keep(&self.told, Some(told));
        Ok(())
    }
}
