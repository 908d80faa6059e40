ghost use Rattle.std.specs.{
  Prelude.{◌≡◌, ◌↔◌, ◌+◌, ◌<◌, ◌≤◌, [], length, IfOk, OnOk, OnErr, IsErrOf, IsOkUnless, MatchBool},
  Prelude.{MatchOption, false},
  Option.{option_copied},
  List.{Contains},
};
ghost use Rattle.dy_dots.specs.declared.dots.TheConstants.{MAX_COUNTER};
ghost use Rattle.dy_core.specs.{
  Worlds.{is_issued, layout_of},
  Logs.{IsAnswer, IsLegal},
  Covers.{AcksAreCovered},
};
ghost use Rattle.dy_index.specs.Indexes.{IsPartAfter};
ghost use Rattle.dy_shares.specs.{
  declared.ledgers.TheConstants.{MAX_SESSIONS},
  Shares.{BelongsTo, HasAll, IsMissing, IsReceipt, SessionBelongsTo, first_parts, first_session},
  Shares.{steps_of},
};
ghost use Rattle.dy_book.specs.{Limits.{AreLimits, IsQuorum}, Books.{with_session, world_of}};

use crate::options::Options;
use dy_dots::{Dot, Fault, NodeId};
use dy_index::KeyPart;
use dy_ring::Ring;
use dy_shares::{Blank, Ledger, Naming, NodeShare, Receipt, Seen, SessionShare, Since};
use dy_siblings::{Key, Version};
use std::alloc::Global;
use std::collections::HashMap;
use std::marker::Model;

/// The custody book: the log of steps, the book's part of each share, and by key what the world
/// after the log has. It can't be dropped: it ends with its shares.
pub struct Book<J: Naming> {
    pub(crate) alloc: Global,
    pub(crate) options: Options,
    pub(crate) ledger: Ledger<J>,
    pub(crate) versions: usize,
    pub(crate) keys: HashMap<Key, KeyPart>,
}

impl<J: Naming> Model for Book<J> {
    ghost use Rattle.dy_book.specs.{Books.{BookParts, book_code}, inside.Kept.{IsBook}};

    ghost Value = { BookParts };

    ghost coded = { book_code };

    ghost view = { λ b.
        record { log = b.ledger.log; sessions = b.ledger.sessions; options = b.options } };

    ghost invariant = { λ b.
        IsBook J.ring J.n J.r b.ledger.log b.options b.versions b.keys.entries };
}

impl<J: Naming> Book<J> {
    /// Opens a book of the ring with an empty log. Gives the shares of its nodes too, in their
    /// order.
    pub fn open(
        alloc: Global,
        blank: Blank,
        ring: Ring,
        options: Options,
    ) -> Result<(Book<J>, Vec<NodeShare<J>>), Fault>
        requires named { blank ≡ record { book = J.book; table = J.table } }
        requires ring { ring ≡ J.ring }
        requires n { options.n ≡ J.n }
        requires r { options.r ≡ J.r }
        ensures book { IfOk result
            (λ p. p.0 ≡ record { log = []; sessions = 0; options = options }) }
        ensures shares { IfOk result (λ p. p.1.items ≡ first_parts J.ring.nodes) }
        ensures too_many { IsErrOf result Fault.TooMany ↔ ¬ (AreLimits options) }
        ensures bad_quorum { IsErrOf result Fault.BadQuorum
            ↔ (AreLimits options × ¬ (IsQuorum options J.ring.nodes)) }
        ensures memory { AreLimits options → IsQuorum options J.ring.nodes →
            IsOkUnless result Fault.OutOfMemory }
    {
        if !options.has_limits() {
            return Err(Fault::TooMany);
        }
        if !options.is_quorum(ring.nodes()) {
            return Err(Fault::BadQuorum);
        }
        let (ledger, shares) = match Ledger::open(alloc, blank, ring.nodes()) {
            Ok(opened) => opened,
            Err(fault) => return Err(fault),
        };
        let book = Book {
            alloc,
            options,
            ledger,
            versions: 0,
            keys: HashMap::new(alloc),
        };
        Ok((book, shares))
    }

    /// Opens one more session, whose list is empty. Takes no memory.
    pub fn session(&mut self) -> Result<SessionShare<J>, Fault>
        ensures book { OnOk result (self.new ≡ with_session self.old) }
        ensures share { IfOk result (λ s. s ≡ first_session self.old.sessions) }
        ensures too_many { IsErrOf result Fault.TooMany ↔ (MAX_SESSIONS ≤ self.old.sessions) }
        ensures err { OnErr result (self.new ≡ self.old) }
        ensures only { IsOkUnless result Fault.TooMany }
    {
        let share = self.ledger.session()?;
        Ok(share)
    }

    /// The share lent is the node's part of the log, and the log is legal. Takes no memory.
    pub fn agree(&mut self, share: &mut NodeShare<J>)
        ensures book { self.new ≡ self.old }
        ensures share { share.new ≡ share.old }
        ensures belongs { BelongsTo (steps_of self.old.log) share.old }
        ensures legal { IsLegal (layout_of J.ring J.n) (steps_of self.old.log) }
    {
        self.ledger.agree(share);
    }

    /// The share lent is the session's part of the log. Takes no memory.
    pub fn agree_session(&mut self, share: &mut SessionShare<J>)
        ensures book { self.new ≡ self.old }
        ensures share { share.new ≡ share.old }
        ensures belongs { SessionBelongsTo self.old.log J.r share.old }
    {
        self.ledger.agree_session(share);
    }

    /// The receipt holds as the log stands now, whatever came between. Takes no memory.
    pub fn learn_receipt(&mut self, receipt: &Receipt<J>)
        ensures book { self.new ≡ self.old }
        ensures holds { IsReceipt (steps_of self.old.log) receipt.now }
    {
        self.ledger.learn_receipt(receipt);
    }

    /// The log has the answer at its number, whatever came between. Takes no memory.
    pub fn learn_seen(&mut self, seen: &Seen<J>)
        ensures book { self.new ≡ self.old }
        ensures is { IsAnswer (steps_of self.old.log) seen.now }
    {
        self.ledger.learn_seen(seen);
    }

    /// How many steps the log has. Takes no memory.
    pub fn since(&self) -> Since<J>
        ensures { result ≡ length self.now.log }
    {
        self.ledger.since()
    }

    /// The greatest counter that a node may use. Takes no memory.
    pub fn counter_limit(&self) -> u32
        ensures value { result ≡ self.now.options.counter_limit }
        ensures few { result ≤ MAX_COUNTER }
    {
        self.options.counter_limit
    }

    /// The options of the book. Takes no memory.
    pub fn options(&self) -> Options
        ensures value { result ≡ self.now.options }
        ensures n { result.n ≡ J.n }
        ensures r { result.r ≡ J.r }
        ensures limits { AreLimits result }
        ensures quorum { IsQuorum result J.ring.nodes }
    {
        self.options
    }

    /// Whenever the book's lock is free, the w distinct homes of each acknowledged put are covered,
    /// on as many distinct nodes. They are by its version, or by one that causally follows it.
    /// Takes no memory.
    pub fn acks_are_covered(&self)
        ensures { AcksAreCovered (layout_of J.ring J.n) (world_of self.now) }
    {
        self.log_is_legal();
    }

    /// Whenever the book's lock is free, its log is legal. Takes no memory.
    pub fn log_is_legal(&self)
        ensures { IsLegal (layout_of J.ring J.n) (steps_of self.now.log) }
    {
        // What the type keeps is known once a field is read.
        let _alloc = &self.alloc;
    }

    /// Whether the share of a node or of a session is not among these. Takes no memory.
    pub fn lacks(&self, nodes: &[NodeShare<J>], sessions: &[SessionShare<J>]) -> bool
        ensures { MatchBool result
            (IsMissing J.ring.nodes self.now.sessions nodes.now sessions.now)
            (HasAll J.ring.nodes self.now.sessions nodes.now sessions.now) }
    {
        self.ledger.lacks(nodes, sessions)
    }

    // The key's part, if the book knows the key.
    pub(crate) fn part(&self, key: &Key) -> Option<&KeyPart>
        ensures { IsPartAfter (steps_of self.now.log) key.now (option_copied result) }
    {
        self.log_is_legal();
        self.keys.get(key)
    }

    /// The greatest counter that the node used for the key, 0 where there is none. Takes no memory.
    pub fn last(&self, node: NodeId, key: &Key) -> usize
        ensures { result ≡ (world_of self.now).counters node key.now }
    {
        dy_index::last(self.part(key), node)
    }

    /// The version of this key and dot, where one was issued. Takes no memory.
    pub fn version(&self, key: &Key, dot: Dot) -> Option<&Version>
        ensures { MatchOption result (is_issued (world_of self.now).versions key.now dot ≡ false)
            (λ v. Contains (world_of self.now).versions v.now
            × (v.now.key ≡ key.now) × (v.now.dot ≡ dot)) }
    {
        dy_index::version(self.part(key), dot)
    }

    // How many more steps the limit leaves.
    pub(crate) fn steps_left(&self) -> usize
        ensures { result + length self.now.log ≡ self.now.options.steps_limit }
    {
        self.options.steps_limit - self.ledger.steps()
    }

    /// Ends the book with the shares that are there, and gives no audit. Takes no memory.
    pub fn abandon(self, nodes: Vec<NodeShare<J>>, sessions: Vec<SessionShare<J>>) {
        let Book {
            alloc: _,
            options: _,
            ledger,
            versions: _,
            keys: _,
        } = self;
        ledger.abandon(nodes, sessions);
    }
}
