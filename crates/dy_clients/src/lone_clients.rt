// A cluster for one client on the caller's own thread.
ghost use Rattle.std.specs.{
  Prelude.{◌≡◌, ◌⊎◌, [], ◌∷◌, IfOk, IfErr, IsErrOf},
  declared.marker.Brand.{Brand as BrandParts},
};
ghost use Rattle.dy_dots.specs.declared.faults.Fault.{Fault as FaultParts};
ghost use Rattle.dy_book.specs.Limits.{AreLimits, IsQuorum};
ghost use Rattle.dy_shares.specs.Shares.{SessionPart};
ghost use Rattle.dy_cluster.specs.{
  Ends.{IsClosed},
  Named.{NamesBook},
  Refusals.{IsOpenRefusal},
  Settings.{Setting, setting},
  Stores.{TellsStores},
  Tellings.{IsUntold},
};
ghost use Rattle.dy_clients.specs.Refusals.{IsRunRefusal};

use crate::accesses::Access;
use dy_book::Options;
use dy_cluster::{Closed, Cluster, Opened};
use dy_dots::Fault;
use dy_ring::Ring;
use dy_shares::{Naming, SessionShare};
use dy_transport::Transport;
use std::alloc::Global;
use std::marker::Brand;
use std::sync::Wait;

/// What the only client of a cluster does, on the caller's own thread, with its connection.
pub trait LoneClient {
    // What it says of itself before and after it ran on a cluster of this setting, and of its
    // session's list. If it is left out, it says nothing.
    ghost told: { Setting → Self → Self → SessionPart → Type 0 } = { λ _ _ _ _. Unit {0} };

    // What it says of itself before and after it, where it is refused for this fault. If it is left
    // out, it says nothing.
    ghost refused: { Setting → Self → Self → FaultParts → Type 0 } = { λ _ _ _ _. Unit {0} };

    /// The session's list is empty before, and puts name as many homes as the cluster's options.
    fn run<J: Naming, T: Transport<J>, R: Wait>(
        &mut self,
        lent: &mut Access<'_, J, T, R>,
    ) -> Result<(), Fault>
        requires untold { IsUntold lent.old.connection.session }
        requires w { lent.old.connection.w ≡ lent.old.connection.cluster.now.options.w }
        ensures told { IfOk result (λ _.
            told (setting J J.ring J.n J.r lent.old.connection.cluster.now.options) self.old
            self.new lent.new.connection.session) }
        ensures refused { IfErr result
            (refused (setting J J.ring J.n J.r lent.old.connection.cluster.now.options) self.old
            self.new) };
}

/// Opens a cluster on the ring, runs the client, and closes the cluster. The client asks the nodes
/// on the caller's own thread. Its refusal is given after the close. May wait for locks, and for
/// what the client waits for.
pub fn with_client<C: LoneClient, R: Wait>(
    rt: &R,
    alloc: Global,
    ring: Ring,
    options: Options,
    client: &mut C,
) -> Result<Closed, Fault>
    ensures stores { IfOk result (TellsStores ring options.n) }
    ensures closed { IfOk result (λ closed. (telling : SessionPart)
        × IsClosed ring options.n options.r (telling ∷ []) closed
        × C.told (setting BrandParts ring options.n options.r options) client.old client.new
        telling) }
    ensures options { IfOk result (λ closed. closed.options ≡ options) }
    ensures too_many { ¬ (AreLimits options) → IsErrOf result Fault.TooMany }
    ensures bad_quorum { AreLimits options → ¬ (IsQuorum options ring.nodes) →
        IsErrOf result Fault.BadQuorum }
    ensures only { IfErr result (λ fault. IsOpenRefusal options ring.nodes fault
        ⊎ IsRunRefusal fault
        ⊎ C.refused (setting BrandParts ring options.n options.r options) client.old client.new
        fault) }
{
    let opened = Opened::new(alloc, ring, options)?;
    run_lone::<Brand, C, R>(rt, alloc, opened, client)
}

// The same, under the name that was picked.
fn run_lone<J: Naming, C: LoneClient, R: Wait>(
    rt: &R,
    alloc: Global,
    opened: Opened,
    client: &mut C,
) -> Result<Closed, Fault>
    requires named { NamesBook J.book J.table J.ring J.n J.r opened }
    ensures stores { IfOk result (TellsStores opened.ring opened.options.n) }
    ensures closed { IfOk result (λ closed. (telling : SessionPart)
        × IsClosed opened.ring opened.options.n opened.options.r (telling ∷ []) closed
        × C.told (setting J opened.ring opened.options.n opened.options.r opened.options)
        client.old client.new telling) }
    ensures options { IfOk result (λ closed. closed.options ≡ opened.options) }
    ensures only { IfErr result (λ fault. IsRunRefusal fault
        ⊎ C.refused (setting J opened.ring opened.options.n opened.options.r opened.options)
        client.old client.new fault) }
{
    let cluster = Cluster::<J>::open(alloc, opened)?;
    let mut sessions = Vec::new(alloc);
    let done = run_seated(rt, alloc, &cluster, &mut sessions, client);
    let closed = cluster.end(sessions)?;
    done?;
    Ok(closed)
}

// Runs the client over a connection, and adds its session to the list.
fn run_seated<J: Naming, C: LoneClient, R: Wait>(
    rt: &R,
    alloc: Global,
    cluster: &Cluster<J>,
    sessions: &mut Vec<SessionShare<J>>,
    client: &mut C,
) -> Result<(), Fault>
    requires none { sessions.old.items ≡ [] }
    ensures told { IfOk result (λ _. (telling : SessionPart)
        × (sessions.new.items ≡ telling ∷ [])
        × C.told (setting J J.ring J.n J.r cluster.now.options) client.old client.new telling) }
    ensures only { IfErr result (λ fault. IsRunRefusal fault
        ⊎ C.refused (setting J J.ring J.n J.r cluster.now.options) client.old client.new fault) }
{
    sessions.reserve(1)?;
    let connection = cluster.connect(rt)?;
    let mut lent = Access {
        rt,
        alloc,
        connection,
    };
    let done = client.run(&mut lent);
    let session = lent.into_session();
    sessions.push_reserved(session);
    done
}
