ghost use Rattle.std.specs.Prelude.{◌≡◌, ◌≤◌, ◌⊎◌, ◌↔◌, ◌++◌, ◌∷◌, [], length, vec_len};
ghost use Rattle.std.specs.Prelude.{vec_capacity, IfOk, IfErr, OnErr, IsOkUnless};
ghost use Rattle.dy_dots.specs.declared.nodes.TheConstants.{MAX_NODES};
ghost use Rattle.dy_cluster.specs.{
  Ends.{IsClosed, IsOpenAudit},
  Named.{NamesBook},
  Stores.{TellsStores},
};
ghost use Rattle.dy_shares.specs.Shares.{IsMissing, SessionPart};
ghost use Rattle.dy_book.specs.Limits.{IsQuorum};
ghost use Rattle.dy_transport.specs.Told.{nothing_told};

use crate::books::{OpenBook, audit_of, open_book};
use crate::locks::{lock_all, rejoin_all, retire_all};
use crate::openings::Opened;
use crate::resting::{Closed, ClusterRefused, Resting, check_options};
use dy_book::{Audit, Book, Options};
use dy_dots::{Fault, MAX_NODES};
use dy_node::{Node, Rest};
use dy_ring::Ring;
use dy_shares::{Naming, NodeShare, SessionShare};
use dy_transport::Direct;
use std::alloc::Global;
use std::sync::{Mutex, Wait};

/// Nodes and a book, each under a lock of its own. It must be closed or abandoned.
pub struct Cluster<J: Naming> {
    pub(crate) alloc: Global,
    pub(crate) ring: Ring,
    pub(crate) options: Options,
    pub(crate) nodes: Vec<Mutex<Node<J>>>,
    pub(crate) book: Mutex<Book<J>>,
    // In a lock, since only one thread at a time may have shares. Nobody takes this lock before the
    // end.
    spare: Mutex<Spare<J>>,
    ghost ring_is: { ring ≡ J.ring },
    ghost n_is: { options.n ≡ J.n },
    ghost r_is: { options.r ≡ J.r },
    ghost quorum: { IsQuorum options ring.nodes },
    ghost count: { vec_len nodes ≡ J.ring.nodes },
}

// Room for each node's share and rest, so that `rest` takes no memory.
struct Spare<J: Naming> {
    shares: Vec<NodeShare<J>>,
    rests: Vec<Rest>,
    ghost no_shares: { shares.items ≡ [] },
    ghost no_rests: { rests.items ≡ [] },
    ghost shares_room: { J.ring.nodes ≤ vec_capacity shares },
    ghost rests_room: { J.ring.nodes ≤ vec_capacity rests },
}

impl<J: Naming> Cluster<J> {
    /// Opens a cluster whose book has the name of what was opened. Every node is up and keeps
    /// nothing, and the log is empty.
    pub fn open(alloc: Global, opened: Opened) -> Result<Cluster<J>, Fault>
        requires named { NamesBook J.book J.table J.ring J.n J.r opened }
        ensures options { IfOk result (λ cluster. cluster.options ≡ opened.options) }
        ensures memory { IsOkUnless result Fault.OutOfMemory }
    {
        let count = usize::from(opened.ring.nodes());
        let rests = Vec::with_capacity(alloc, count)?;
        let mut nodes = Vec::with_capacity(alloc, count)?;
        let OpenBook {
            book,
            mut shares,
            ring,
            options,
        } = match open_book::<J>(alloc, opened) {
            Ok(made) => made,
            Err(fault) => {
                nodes.destroy_empty();
                return Err(fault);
            }
        };
        lock_all(alloc, &mut shares, &mut nodes);
        Ok(Cluster {
            alloc,
            ring,
            options,
            nodes,
            book: Mutex::new(book),
            spare: Mutex::new(Spare { shares, rests }),
        })
    }

    /// Opens a session, whose list is empty. May wait for a lock.
    pub fn session(&self, rt: &impl Wait) -> Result<SessionShare<J>, Fault>
        ensures acks { IfOk result (λ session. session.acks ≡ []) }
        ensures gets { IfOk result (λ session. session.gets ≡ []) }
        ensures only { IfErr result (λ fault. (fault ≡ Fault.OutOfMemory)
            ⊎ (fault ≡ Fault.TooMany)) }
    {
        self.book.lock(rt).session()
    }

    /// How many steps the book's log has. May wait for a lock.
    pub fn steps(&self, rt: &impl Wait) -> usize {
        self.book.lock(rt).steps()
    }

    /// What the book lists now, with these sessions, in an audit without a history. The cluster
    /// stays open. May wait for a lock.
    pub fn audit(&self, rt: &impl Wait, sessions: &mut [SessionShare<J>]) -> Result<Audit, Fault>
        ensures ok { IfOk result (IsOpenAudit J.ring J.n J.r sessions.old) }
        ensures sessions { sessions.new ≡ sessions.old }
        ensures memory { IsOkUnless result Fault.OutOfMemory }
    {
        let mut open = self.book.lock(rt);
        audit_of(&mut open, sessions)
    }

    /// Opens a session, adds it to the end of the list, and gives its index there. May wait for a
    /// lock.
    pub fn seat(&self, rt: &impl Wait, sessions: &mut Vec<SessionShare<J>>) -> Result<usize, Fault>
        ensures place { IfOk result (λ place. place ≡ length sessions.old.items) }
        ensures seated { IfOk result (λ _. (session : SessionPart)
            × (sessions.new.items ≡ sessions.old.items ++ session ∷ [])
            × (session.acks ≡ []) × (session.gets ≡ [])) }
        ensures err { OnErr result (sessions.new.items ≡ sessions.old.items) }
        ensures only { IfErr result (λ fault. (fault ≡ Fault.OutOfMemory)
            ⊎ (fault ≡ Fault.TooMany)) }
    {
        sessions.reserve(1)?;
        let session = self.session(rt)?;
        sessions.push_reserved(session);
        Ok(sessions.len() - 1)
    }

    /// A transport on the caller's own thread, for one call. Renew it before each further one.
    pub fn direct(&self) -> Result<Direct<'_, J>, Fault>
        ensures ok { IfOk result (λ direct. direct ≡ nothing_told MAX_NODES) }
        ensures memory { IsOkUnless result Fault.OutOfMemory }
    {
        Direct::new(
            self.alloc,
            self.nodes.as_slice(),
            &self.book,
            MAX_NODES as usize,
        )
    }

    /// Takes the cluster out of its locks. Waits for nobody, and takes no memory.
    pub fn rest(self) -> Resting<J>
        ensures options { result.options ≡ self.options }
    {
        let Cluster {
            alloc,
            ring,
            options,
            nodes: mut locks,
            book,
            spare,
        } = self;
        let Spare {
            mut shares,
            mut rests,
        } = spare.into_inner();
        retire_all(&mut locks, &mut shares, &mut rests);
        Resting {
            alloc,
            ring,
            options,
            book: book.into_inner(),
            shares,
            rests,
            locks,
        }
    }

    /// Puts a cluster at rest into its locks again. Takes no memory.
    pub fn wake(resting: Resting<J>) -> Cluster<J>
        ensures options { result.options ≡ resting.options }
    {
        let Resting {
            alloc,
            ring,
            options,
            book,
            mut shares,
            mut rests,
            mut locks,
        } = resting;
        rejoin_all(&mut locks, &mut shares, &mut rests);
        Cluster {
            alloc,
            ring,
            options,
            nodes: locks,
            book: Mutex::new(book),
            spare: Mutex::new(Spare { shares, rests }),
        }
    }

    /// Closes the cluster, if each of its sessions is handed in. Otherwise cluster and sessions
    /// come back. A caller that may lack a session uses `rest` and `Resting::lacks`.
    pub fn close(self, sessions: Vec<SessionShare<J>>) -> Result<Closed, ClusterRefused<J>>
        ensures stores { IfOk result (TellsStores J.ring J.n) }
        ensures closed { IfOk result (λ closed. IsClosed J.ring J.n J.r sessions.items closed) }
        ensures shares_missing { IfErr result (λ refused. (refused.fault ≡ Fault.SharesMissing)
            ↔ IsMissing J.ring.nodes refused.cluster.book.sessions refused.cluster.parts
            sessions.items) }
        ensures only { IfErr result (λ refused. (refused.fault ≡ Fault.SharesMissing)
            ⊎ (refused.fault ≡ Fault.OutOfMemory)) }
        ensures sessions_back { IfErr result (λ refused. refused.sessions.items ≡ sessions.items) }
    {
        match self.rest().close(sessions) {
            Ok(closed) => Ok(closed),
            Err(refused) => Err(refused),
        }
    }

    /// Closes the cluster, and abandons it where that is refused: for want of memory, or for a
    /// session that was not handed in.
    pub fn end(self, sessions: Vec<SessionShare<J>>) -> Result<Closed, Fault>
        ensures stores { IfOk result (TellsStores J.ring J.n) }
        ensures closed { IfOk result (λ closed. IsClosed J.ring J.n J.r sessions.items closed) }
        ensures options { IfOk result (λ closed. closed.options ≡ self.options) }
        ensures only { IfErr result (λ fault. (fault ≡ Fault.OutOfMemory)
            ⊎ (fault ≡ Fault.SharesMissing)) }
    {
        let options = self.options;
        match self.close(sessions) {
            Ok(closed) => {
                check_options(closed.options, options)?;
                Ok(closed)
            }
            Err(refused) => Err(refused.abandon()),
        }
    }

    /// Ends the cluster with the sessions that are there, and gives no audit. Takes no memory.
    pub fn abandon(self, sessions: Vec<SessionShare<J>>) {
        self.rest().abandon(sessions);
    }
}
