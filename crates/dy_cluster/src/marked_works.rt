// A cluster that is opened for a work that reads its steps.
ghost use Rattle.std.specs.{
  Prelude.{◌≡◌, ◌⊎◌, [], List, IfOk, IfErr, IsErrOf},
  declared.marker.Brand.{Brand as BrandParts},
};
ghost use Rattle.dy_dots.specs.declared.faults.Fault.{Fault as FaultParts};
ghost use Rattle.dy_book.specs.Limits.{AreLimits, IsQuorum};
ghost use Rattle.dy_shares.specs.{Shares.{SessionPart}, declared.entries.Entry.{Entry}};
ghost use Rattle.dy_cluster.specs.{
  Marks.{IsClosedBehind},
  Named.{NamesBook},
  Refusals.{IsOpenRefusal},
  Settings.{Setting, setting},
};

use crate::clusters::Cluster;
use crate::marks::Mark;
use crate::open_clusters::OpenCluster;
use crate::openings::Opened;
use crate::resting::{Closed, check_options};
use dy_book::Options;
use dy_dots::Fault;
use dy_ring::Ring;
use dy_shares::{Naming, SessionShare};
use std::alloc::Global;
use std::marker::Brand;
use std::sync::Wait;

/// What a program does with a cluster while it is open, whatever the name of its book, where it
/// reads the steps by a mark.
pub trait MarkedWork {
    // What a work on a cluster of this setting says of itself before and after it, of its sessions'
    // lists, and of the beginning of the log that was read.
    ghost told: { Setting → Self → Self → List SessionPart → List Entry → Type 0 };

    // What it says of itself before and after it, where it is refused for this fault. If it is left
    // out, it says nothing.
    ghost refused: { Setting → Self → Self → FaultParts → Type 0 } = { λ _ _ _ _. Unit {0} };

    /// When the cluster closes, the sessions in its list are handed in. Its log then begins with
    /// what the mark says.
    fn run<J: Naming, R: Wait>(
        &mut self,
        lent: &mut OpenCluster<'_, J, R>,
        mark: &mut Mark<J>,
    ) -> Result<(), Fault>
        requires none { lent.old.sessions.items ≡ [] }
        ensures told { IfOk result (λ _.
            told (setting J J.ring J.n J.r lent.old.cluster.now.options) self.old self.new
            lent.new.sessions.items mark.new) }
        ensures refused { IfErr result
            (refused (setting J J.ring J.n J.r lent.old.cluster.now.options) self.old self.new) };
}

/// Opens a cluster on the ring, runs the work, and closes the cluster, whose log begins with what
/// the work read. A refusal of the work is given after the close. May wait for locks, and for what
/// the work waits for.
pub fn with_marked_cluster<W: MarkedWork, R: Wait>(
    rt: &R,
    alloc: Global,
    ring: Ring,
    options: Options,
    work: &mut W,
) -> Result<Closed, Fault>
    ensures closed { IfOk result (λ closed. (tellings : List SessionPart) × (read : List Entry)
        × IsClosedBehind ring options.n options.r tellings read closed
        × W.told (setting BrandParts ring options.n options.r options) work.old work.new tellings
        read) }
    ensures options { IfOk result (λ closed. closed.options ≡ options) }
    ensures too_many { ¬ (AreLimits options) → IsErrOf result Fault.TooMany }
    ensures bad_quorum { AreLimits options → ¬ (IsQuorum options ring.nodes) →
        IsErrOf result Fault.BadQuorum }
    ensures only { IfErr result (λ fault. IsOpenRefusal options ring.nodes fault
        ⊎ (fault ≡ Fault.SharesMissing)
        ⊎ W.refused (setting BrandParts ring options.n options.r options) work.old work.new fault) }
{
    let opened = Opened::new(alloc, ring, options)?;
    run_marked::<Brand, W, R>(rt, alloc, opened, work)
}

// The same, under the name that was picked.
fn run_marked<J: Naming, W: MarkedWork, R: Wait>(
    rt: &R,
    alloc: Global,
    opened: Opened,
    work: &mut W,
) -> Result<Closed, Fault>
    requires named { NamesBook J.book J.table J.ring J.n J.r opened }
    ensures closed { IfOk result (λ closed. (tellings : List SessionPart) × (read : List Entry)
        × IsClosedBehind opened.ring opened.options.n opened.options.r tellings read closed
        × W.told (setting J opened.ring opened.options.n opened.options.r opened.options)
        work.old work.new tellings read) }
    ensures options { IfOk result (λ closed. closed.options ≡ opened.options) }
    ensures only { IfErr result (λ fault. (fault ≡ Fault.OutOfMemory)
        ⊎ (fault ≡ Fault.SharesMissing)
        ⊎ W.refused (setting J opened.ring opened.options.n opened.options.r opened.options)
        work.old work.new fault) }
{
    let cluster = Cluster::<J>::open(alloc, opened)?;
    let mut lent = OpenCluster {
        rt,
        alloc,
        cluster: &cluster,
        sessions: Vec::new(alloc),
    };
    let mut mark = Mark::new();
    let done = work.run(&mut lent, &mut mark);
    let sessions = lent.into_sessions();
    let closed = close_behind(cluster, sessions, &mark)?;
    done?;
    Ok(closed)
}

// Closes the cluster, if each of its sessions is handed in.
fn close_behind<J: Naming>(
    cluster: Cluster<J>,
    sessions: Vec<SessionShare<J>>,
    mark: &Mark<J>,
) -> Result<Closed, Fault>
    ensures closed { IfOk result (λ closed.
        IsClosedBehind J.ring J.n J.r sessions.items mark.now closed) }
    ensures options { IfOk result (λ closed. closed.options ≡ cluster.options) }
    ensures only { IfErr result (λ fault. (fault ≡ Fault.OutOfMemory)
        ⊎ (fault ≡ Fault.SharesMissing)) }
{
    let options = cluster.options;
    let mut resting = cluster.rest();
    resting.learn(mark);
    match resting.close(sessions) {
        Ok(closed) => {
            check_options(closed.options, options)?;
            Ok(closed)
        }
        Err(refused) => Err(refused.abandon()),
    }
}
