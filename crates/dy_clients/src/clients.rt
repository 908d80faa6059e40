ghost use Rattle.std.specs.{Prelude.{◌≡◌, ◌<◌}, declared.marker.Brand.{Brand as BrandParts}};
ghost use Rattle.dy_cluster.specs.{Settings.{Setting, setting}, Tellings.{IsUntold}};
ghost use Rattle.dy_clients.specs.{Runs.{EndsRun}, Tellings.{ClientSaying}};

use crate::accesses::Access;
use crate::clients_done::ClientsDone;
use crate::operators::Nobody;
use crate::staffing::run_opened;
use dy_book::Options;
use dy_dots::Fault;
use dy_mailboxes::Open;
use dy_ring::Ring;
use dy_shares::Naming;
use dy_transport::Transport;
use std::alloc::Global;
use std::sync::Wait;
use std::thread::Threads;

/// What each of many clients does, in a thread of its own, with a connection of its own, over any
/// transport.
pub trait Client {
    // What the client of this number says of its answer and of its session's list, once it ran on a
    // cluster of this setting. If it is left out, it says nothing.
    ghost told: { Setting → Self → ClientSaying } = { λ _ _ _ _ _. Unit {0} };

    /// Clients are numbered from 0. The session's list is empty before, and puts name as many homes
    /// as the cluster's options. A refusal ends this client alone, and is told of it.
    fn run<J: Naming, T: Transport<J>, R: Wait>(
        &self,
        number: usize,
        lent: &mut Access<'_, J, T, R>,
    ) -> Result<(), Fault>
        requires few { number < 255 }
        requires untold { IsUntold lent.old.connection.session }
        requires w { lent.old.connection.w ≡ lent.old.connection.cluster.now.options.w }
        ensures told { told (setting J J.ring J.n J.r lent.old.connection.cluster.now.options)
            self.now number result lent.new.connection.session };
}

/// Opens a cluster on the ring, runs this many clients beside each other, and closes it. Each
/// client has a thread and a connection of its own, and asks the nodes in that thread. If a thread,
/// or memory for a transport, is wanting, that client does not run. `OutOfMemory` is then answered
/// once the others are done.
pub fn with_clients<C: Client + Sync, R: Threads + Wait + Sync>(
    rt: &R,
    alloc: Global,
    ring: Ring,
    options: Options,
    clients: u8,
    client: &C,
) -> Result<ClientsDone, Fault>
    ensures { EndsRun ring options clients
        (C.told (setting BrandParts ring options.n options.r options) client.now) result }
{
    run_opened::<C, Open, Nobody, R>(rt, alloc, ring, options, None, None, clients, client)
}
