ghost use Rattle.std.specs.Prelude.{◌≡◌};

use dy_cluster::Connection;
use dy_shares::{Naming, SessionShare};
use dy_transport::Transport;
use std::alloc::Global;
use std::sync::Wait;

/// What a client is lent: its connection, what waits for it, and the allocator.
pub struct Access<'a, J: Naming, T: Transport<J>, R: Wait> {
    pub rt: &'a R,
    pub alloc: Global,
    pub connection: Connection<'a, J, T>,
}

impl<J: Naming, T: Transport<J> + Drop, R: Wait> Access<'_, J, T, R> {
    // The session, to be handed in.
    pub(crate) fn into_session(self) -> SessionShare<J>
        ensures { result ≡ self.entry.connection.session }
    {
        let Access {
            rt: _,
            alloc: _,
            connection,
        } = self;
        let (session, _transport) = connection.into_parts();
        session
    }
}
