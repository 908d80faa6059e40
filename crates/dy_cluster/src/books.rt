// The book of a cluster: how it opens, and what it lists.
ghost use Rattle.std.specs.Prelude.{◌≡◌, length, IfOk, IsOkUnless};
ghost use Rattle.dy_cluster.specs.{Ends.{IsOpenAudit}, Firsts.{AreFirstFrom}, Named.{NamesBook}};

use crate::openings::Opened;
use dy_book::{Audit, Book, Options};
use dy_dots::Fault;
use dy_ring::Ring;
use dy_shares::{Naming, NodeShare, SessionShare};
use std::alloc::Global;

// A book that was just opened, the shares of its nodes, and what it was opened with.
pub(crate) struct OpenBook<J: Naming> {
    pub book: Book<J>,
    pub shares: Vec<NodeShare<J>>,
    pub ring: Ring,
    pub options: Options,
}

// Opens the book of what was opened, with its ring and its options.
pub(crate) fn open_book<J: Naming>(alloc: Global, opened: Opened) -> Result<OpenBook<J>, Fault>
    requires named { NamesBook J.book J.table J.ring J.n J.r opened }
    ensures book { IfOk result (λ made. made.book.options ≡ opened.options) }
    ensures options { IfOk result (λ made. made.options ≡ opened.options) }
    ensures ring { IfOk result (λ made. made.ring ≡ opened.ring) }
    ensures first { IfOk result (λ made. AreFirstFrom 0 made.shares.items) }
    ensures count { IfOk result (λ made. length made.shares.items ≡ opened.ring.nodes) }
    ensures memory { IsOkUnless result Fault.OutOfMemory }
{
    let Opened {
        blank,
        ring,
        options,
    } = opened;
    let again = ring.try_clone(alloc)?;
    match Book::<J>::open(alloc, blank, again, options) {
        Ok((book, shares)) => Ok(OpenBook {
            book,
            shares,
            ring,
            options,
        }),
        Err(fault) => Err(fault),
    }
}

// What the book lists now, with these sessions, which belong to its log.
pub(crate) fn audit_of<J: Naming>(
    book: &mut Book<J>,
    sessions: &mut [SessionShare<J>],
) -> Result<Audit, Fault>
    ensures ok { IfOk result (IsOpenAudit J.ring J.n J.r sessions.old) }
    ensures book { book.new ≡ book.old }
    ensures sessions { sessions.new ≡ sessions.old }
    ensures memory { IsOkUnless result Fault.OutOfMemory }
{
    for session in sessions.iter_mut() {
        book.agree_session(session);
    }
    // Brings the clause that the log is legal.
    book.log_is_legal();
    book.audit(sessions)
}
