// How a book ends.
ghost use Rattle.std.specs.{
  Prelude.{◌≡◌, ◌↔◌, ◌⊎◌, [], map, IfOk, IfErr, IsErr, IsOkUnless},
  List.{All},
};
ghost use Rattle.dy_core.specs.Listings.{ListsCovers, ListsHoldings, ListsSettled};
ghost use Rattle.dy_shares.specs.Shares.{IsMissing};
ghost use Rattle.dy_book.specs.{
  Audits.{AreTold, HasNoStep, IsAuditOf, ListsCovered, TellsNow, count_acks, count_gets},
  Books.{world_of},
};

use crate::audits::{AckedAt, Audit};
use crate::books::Book;
use crate::histories::History;
use dy_core::{Acked, Holding, Place};
use dy_dots::{Dot, Fault};
use dy_shares::laws::shares_say_all;
use dy_shares::{EndRefused, Naming, NodeShare, SessionShare, StepNumbers};
use dy_siblings::Key;
use std::alloc::Global;

/// Why a book was not closed: a share is missing, or memory is. The book and all shares come back,
/// each list in its order.
pub struct CloseRefused<J: Naming> {
    pub fault: Fault,
    pub book: Book<J>,
    pub nodes: Vec<NodeShare<J>>,
    pub sessions: Vec<SessionShare<J>>,
}

impl<J: Naming> CloseRefused<J> {
    /// Ends the book with the shares that came back, and gives no audit. Takes no memory.
    pub fn abandon(self) {
        let CloseRefused {
            fault: _,
            book,
            nodes,
            sessions,
        } = self;
        book.abandon(nodes, sessions);
    }
}

// Copies of the acks.
fn copied(alloc: Global, acks: &[Acked]) -> Result<Vec<Acked>, Fault>
    ensures ok { IfOk result (λ copies. copies.items ≡ acks.now) }
    ensures memory { IsOkUnless result Fault.OutOfMemory }
{
    let mut copies = Vec::with_capacity(alloc, acks.len())?;
    for ack in acks {
        copies.push(Acked {
            key: ack.key.try_clone(alloc)?,
            dot: ack.dot,
            w: ack.w,
        })?;
    }
    Ok(copies)
}

// How many acks the sessions have.
fn acks_told<J: Naming>(sessions: &[SessionShare<J>]) -> u128
    ensures { result ≡ count_acks sessions.now }
{
    let mut acks: u128 = 0;
    for session in sessions {
        acks += session.acks() as u128;
    }
    acks
}

// How many gets the sessions have.
fn gets_of<J: Naming>(sessions: &[SessionShare<J>]) -> u128
    ensures { result ≡ count_gets sessions.now }
{
    let mut gets: u128 = 0;
    for session in sessions {
        gets += session.gets() as u128;
    }
    gets
}

// The step numbers of each session's acks and answers.
fn numbers_told<J: Naming>(
    alloc: Global,
    sessions: &[SessionShare<J>],
) -> Result<Vec<StepNumbers>, Fault>
    ensures ok { IfOk result (λ told. AreTold told.items sessions.now) }
    ensures memory { IsOkUnless result Fault.OutOfMemory }
{
    let mut told = Vec::with_capacity(alloc, sessions.len())?;
    for session in sessions {
        let numbers = session.numbers().try_clone(alloc)?;
        told.push(numbers)?;
    }
    Ok(told)
}

impl<J: Naming> Book<J> {
    /// All places that cover the dot, by home and holder.
    pub fn covers(&self, key: &Key, dot: Dot) -> Result<Vec<Place>, Fault>
        ensures ok { IfOk result
            (λ places. ListsCovers (world_of self.now) key.now dot places.items) }
        ensures memory { IsOkUnless result Fault.OutOfMemory }
    {
        let places = dy_index::covering(self.alloc, self.part(key), key, dot)?;
        Ok(places)
    }

    // What is held, by holder, home and the bytes of the key.
    fn held(&self) -> Result<Vec<Holding>, Fault>
        ensures ok { IfOk result (λ held. ListsHoldings (world_of self.now) held.items) }
        ensures memory { IsOkUnless result Fault.OutOfMemory }
    {
        let held = dy_index::held(self.alloc, &self.keys)?;
        Ok(held)
    }

    // Each of the acks with all places that cover it.
    fn with_places(&self, acks: Vec<Acked>) -> Result<Vec<AckedAt>, Fault>
        ensures acks { IfOk result (λ acked. map (λ x. x.ack) acked.items ≡ acks.items) }
        ensures places { IfOk result (λ acked. All (λ x.
            ListsCovers (world_of self.now) x.ack.key x.ack.dot x.places.items) acked.items) }
        ensures memory { IsOkUnless result Fault.OutOfMemory }
    {
        let mut acked = Vec::with_capacity(self.alloc, acks.len())?;
        for ack in acks {
            let places = self.covers(&ack.key, ack.dot)?;
            acked.push(AckedAt { ack, places })?;
        }
        Ok(acked)
    }

    // The acks, by the bytes of the key, dot and w, each with all places that cover it.
    fn acked(&self) -> Result<Vec<AckedAt>, Fault>
        ensures ok { IfOk result (λ acked. ListsCovered (world_of self.now) acked.items) }
        ensures memory { IsOkUnless result Fault.OutOfMemory }
    {
        let told = copied(self.alloc, self.ledger.acked())?;
        let acks = dy_index::ordered(told)?;
        let acked = self.with_places(acks)?;
        Ok(acked)
    }

    // The settled keys of which a version was made, by their bytes.
    fn settled(&self) -> Result<Vec<Key>, Fault>
        ensures ok { IfOk result (λ keys. ListsSettled (world_of self.now) keys.items) }
        ensures memory { IsOkUnless result Fault.OutOfMemory }
    {
        let settled = dy_index::settled(self.alloc, &self.keys)?;
        Ok(settled)
    }

    /// What the book lists now, with these sessions: the audit of an open book, whose history is
    /// empty.
    pub fn audit(&self, sessions: &[SessionShare<J>]) -> Result<Audit, Fault>
        ensures ok { IfOk result (TellsNow self.now sessions.now) }
        ensures none { IfOk result (λ audit. HasNoStep audit.history) }
        ensures memory { IsOkUnless result Fault.OutOfMemory }
    {
        let held = self.held()?;
        let acked = self.acked()?;
        let settled = self.settled()?;
        let told = numbers_told(self.alloc, sessions)?;
        let acks = acks_told(sessions);
        let gets = gets_of(sessions);
        let steps = self.ledger.steps();
        Ok(Audit {
            held,
            acked,
            acks,
            gets,
            steps,
            settled,
            history: History::new(self.alloc),
            told,
        })
    }

    /// Closes the book, if each of its shares is handed in, and gives its audit.
    pub fn close(
        self,
        nodes: Vec<NodeShare<J>>,
        sessions: Vec<SessionShare<J>>,
    ) -> Result<Audit, CloseRefused<J>>
        ensures exact { IfOk result
            (λ audit. IsAuditOf J.ring J.n J.r self nodes.items sessions.items audit) }
        ensures shares_missing { IfErr result (λ refused. (refused.fault ≡ Fault.SharesMissing)
            ↔ IsMissing J.ring.nodes self.sessions nodes.items sessions.items) }
        ensures missing { IsMissing J.ring.nodes self.sessions nodes.items sessions.items →
            IsErr result }
        ensures only { IfErr result (λ refused. (refused.fault ≡ Fault.SharesMissing)
            ⊎ (refused.fault ≡ Fault.OutOfMemory)) }
        ensures book_back { IfErr result (λ refused. refused.book ≡ self) }
        ensures nodes_back { IfErr result (λ refused. refused.nodes.items ≡ nodes.items) }
        ensures sessions_back { IfErr result (λ refused. refused.sessions.items ≡ sessions.items) }
    {
        if self.ledger.lacks(nodes.as_slice(), sessions.as_slice()) {
            return Err(CloseRefused {
                fault: Fault::SharesMissing,
                book: self,
                nodes,
                sessions,
            });
        }
        match self.audit(sessions.as_slice()) {
            Ok(audit) => self.end_with(audit, nodes, sessions),
            Err(fault) => Err(CloseRefused {
                fault,
                book: self,
                nodes,
                sessions,
            }),
        }
    }

    // Ends the ledger, and adds its history to the audit.
    fn end_with(
        self,
        mut audit: Audit,
        nodes: Vec<NodeShare<J>>,
        sessions: Vec<SessionShare<J>>,
    ) -> Result<Audit, CloseRefused<J>>
        requires tells { TellsNow self sessions.items audit }
        ensures exact { IfOk result
            (λ audit. IsAuditOf J.ring J.n J.r self nodes.items sessions.items audit) }
        ensures shares_missing { IfErr result (λ refused. (refused.fault ≡ Fault.SharesMissing)
            × IsMissing J.ring.nodes self.sessions nodes.items sessions.items) }
        ensures book_back { IfErr result (λ refused. refused.book ≡ self) }
        ensures nodes_back { IfErr result (λ refused. refused.nodes.items ≡ nodes.items) }
        ensures sessions_back { IfErr result (λ refused. refused.sessions.items ≡ sessions.items) }
    {
        let Book {
            alloc,
            options,
            ledger,
            versions,
            keys,
        } = self;
        match ledger.end(nodes, sessions) {
            Ok(trail) => {
                shares_say_all();
                audit.history = History { trail, keys };
                Ok(audit)
            }
            Err(
                EndRefused {
                    ledger,
                    nodes,
                    sessions,
                },
            ) => Err(CloseRefused {
                fault: Fault::SharesMissing,
                book: Book {
                    alloc,
                    options,
                    ledger,
                    versions,
                    keys,
                },
                nodes,
                sessions,
            }),
        }
    }
}
