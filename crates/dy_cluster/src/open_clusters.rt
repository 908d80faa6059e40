ghost use Rattle.std.specs.Prelude.{◌≡◌};

use crate::clusters::Cluster;
use dy_shares::{Naming, SessionShare};
use std::alloc::Global;
use std::sync::Wait;

/// A cluster that is open, as a work has it. When the cluster closes, the sessions are handed in.
pub struct OpenCluster<'a, J: Naming, R: Wait> {
    pub rt: &'a R,
    pub alloc: Global,
    pub cluster: &'a Cluster<J>,
    pub sessions: Vec<SessionShare<J>>,
}

impl<J: Naming, R: Wait> OpenCluster<'_, J, R> {
    /// The sessions, to be handed in. Takes no memory.
    pub fn into_sessions(self) -> Vec<SessionShare<J>>
        ensures { result ≡ self.entry.sessions }
    {
        let OpenCluster {
            rt: _,
            alloc: _,
            cluster: _,
            sessions,
        } = self;
        sessions
    }
}
