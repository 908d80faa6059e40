ghost use Rattle.std.specs.Prelude.{◌≡◌, ◌≤◌, ◌⊎◌, ◌↔◌, length, vec_len, vec_capacity};
ghost use Rattle.std.specs.Prelude.{IfOk, IfErr, OnOk, IsErr, IsOkUnless, MatchBool};
ghost use mathlib.Core.List.{IsPrefix};
ghost use Rattle.dy_shares.specs.Shares.{HasAll, IsMissing};
ghost use Rattle.dy_book.specs.Limits.{IsQuorum};
ghost use Rattle.dy_cluster.specs.Ends.{IsEndOf};

use crate::marks::Mark;
use dy_book::{Audit, Book, CloseRefused, Options};
use dy_dots::Fault;
use dy_node::{Node, Rest};
use dy_ring::Ring;
use dy_shares::{Naming, NodeShare, SessionShare};
use std::alloc::Global;
use std::marker::Model;
use std::sync::Mutex;

/// A cluster at rest: out of its locks, so that each of its parts is known.
pub struct Resting<J: Naming> {
    pub(crate) alloc: Global,
    pub(crate) ring: Ring,
    pub(crate) options: Options,
    pub(crate) book: Book<J>,
    pub(crate) shares: Vec<NodeShare<J>>,
    pub(crate) rests: Vec<Rest>,
    // Where the nodes' locks go again: an empty list, with room for each.
    pub(crate) locks: Vec<Mutex<Node<J>>>,
    pub(crate) ghost ring_is: { ring ≡ J.ring },
    pub(crate) ghost n_is: { options.n ≡ J.n },
    pub(crate) ghost r_is: { options.r ≡ J.r },
    pub(crate) ghost quorum: { IsQuorum options ring.nodes },
    pub(crate) ghost count: { length shares.items ≡ J.ring.nodes },
    pub(crate) ghost emptied: { vec_len locks ≡ 0 },
    pub(crate) ghost locks_room: { J.ring.nodes ≤ vec_capacity locks },
    pub(crate) ghost shares_room: { J.ring.nodes ≤ vec_capacity shares },
    pub(crate) ghost rests_room: { J.ring.nodes ≤ vec_capacity rests },
}

impl<J: Naming> Model for Resting<J> {
    ghost use Rattle.dy_cluster.specs.Ends.{AtRest, GoTogether, at_rest_code};

    ghost Value = { AtRest };

    ghost coded = { at_rest_code };

    ghost view = { λ c. record {
      options = c.options;
      book = c.book;
      parts = c.shares.items;
      rests = c.rests.items;
    } };

    ghost invariant = { λ c. GoTogether J.ring J.n c.shares.items c.rests.items };
}

/// The audit of a cluster that was closed, what its nodes kept, and the options of its book.
#[derive(Drop)]
pub struct Closed {
    pub audit: Audit,
    pub rests: Vec<Rest>,
    pub options: Options,
}

// Refuses options of another cluster. They never are: nobody changes a book's options. But of a
// book that lay under its lock no clause says so.
pub(crate) fn check_options(own: Options, given: Options) -> Result<(), Fault>
    ensures same { OnOk result (own ≡ given) }
    ensures only { IsOkUnless result Fault.SharesMissing }
{
    if own == given {
        Ok(())
    } else {
        Err(Fault::SharesMissing)
    }
}

/// Why a cluster wasn't closed. The cluster, at rest, and the sessions come back.
pub struct ClusterRefused<J: Naming> {
    pub fault: Fault,
    pub cluster: Resting<J>,
    pub sessions: Vec<SessionShare<J>>,
}

impl<J: Naming> ClusterRefused<J> {
    /// Ends the cluster without an audit. Takes no memory.
    pub fn abandon(self) -> Fault
        ensures { result ≡ self.fault }
    {
        let ClusterRefused {
            fault,
            cluster,
            sessions,
        } = self;
        cluster.abandon(sessions);
        fault
    }
}

impl<J: Naming> Resting<J> {
    /// Closes the cluster, if each of its sessions is handed in. Otherwise cluster and sessions
    /// come back.
    pub fn close(self, sessions: Vec<SessionShare<J>>) -> Result<Closed, ClusterRefused<J>>
        ensures exact { IfOk result
            (λ closed. IsEndOf J.ring J.n J.r self sessions.items closed) }
        ensures shares_missing { IfErr result (λ refused. (refused.fault ≡ Fault.SharesMissing)
            ↔ IsMissing J.ring.nodes self.book.sessions self.parts sessions.items) }
        ensures missing { IsMissing J.ring.nodes self.book.sessions self.parts sessions.items →
            IsErr result }
        ensures only { IfErr result (λ refused. (refused.fault ≡ Fault.SharesMissing)
            ⊎ (refused.fault ≡ Fault.OutOfMemory)) }
        ensures cluster_back { IfErr result (λ refused. refused.cluster ≡ self) }
        ensures sessions_back { IfErr result (λ refused. refused.sessions.items ≡ sessions.items) }
    {
        let Resting {
            alloc,
            ring,
            options,
            book,
            shares,
            rests,
            locks,
        } = self;
        book.log_is_legal();
        let own = book.options();
        match book.close(shares, sessions) {
            Ok(audit) => {
                locks.destroy_empty();
                Ok(Closed {
                    audit,
                    rests,
                    options: own,
                })
            }
            Err(refused) => {
                let CloseRefused {
                    fault,
                    book,
                    nodes,
                    sessions,
                } = refused;
                Err(ClusterRefused {
                    fault,
                    cluster: Resting {
                        alloc,
                        ring,
                        options,
                        book,
                        shares: nodes,
                        rests,
                        locks,
                    },
                    sessions,
                })
            }
        }
    }

    // The log of the cluster begins with what was read.
    pub(crate) fn learn(&mut self, mark: &Mark<J>)
        ensures cluster { self.new ≡ self.old }
        ensures begins { IsPrefix mark.now self.old.book.log }
    {
        mark.learn(&mut self.book);
    }

    /// Whether a session of the cluster is not among these. Takes no memory.
    pub fn lacks(&self, sessions: &[SessionShare<J>]) -> bool
        ensures { MatchBool result
            (IsMissing J.ring.nodes self.now.book.sessions self.now.parts sessions.now)
            (HasAll J.ring.nodes self.now.book.sessions self.now.parts sessions.now) }
    {
        self.book.lacks(self.shares.as_slice(), sessions)
    }

    /// Ends the cluster with the sessions that are there, and gives no audit. Takes no memory.
    pub fn abandon(self, sessions: Vec<SessionShare<J>>) {
        let Resting {
            alloc: _,
            ring: _,
            options: _,
            book,
            shares,
            rests: _,
            locks,
        } = self;
        locks.destroy_empty();
        book.abandon(shares, sessions);
    }
}
