ghost use Rattle.std.specs.{
  Prelude.{◌≡◌, ◌≢◌, ℕ, ◌+◌, ◌<◌, ◌≤◌, ◌∷◌, ◌↔◌, Option, Some, None, [], vec_len, vec_capacity},
  Prelude.{map, length, IfOk, IfErr, OnOk, OnErr, IsErrOf, IsOkUnless, MatchBool, MatchOption},
  List.{All},
};
ghost use mathlib.Core.List.{IsPrefix};
ghost use Rattle.dy_dots.specs.declared.nodes.TheConstants.{MAX_NODES};
ghost use Rattle.dy_core.specs.{
  Worlds.{layout_of},
  Logs.{IsAnswer, IsLegal},
  declared.steps.Step.TheVariants.{Ack, Fetch},
};
ghost use Rattle.dy_shares.specs.{
  inside.Parts.{AreOf, IsPartOf, entries_of, with_done},
  Shares.{AreAll, AreOwned, AreSpendable, BelongsTo, HasAll, IsMissing, IsReceipt, MayFollow},
  Shares.{NodeStays, SessionBelongsTo, SessionStays, acks_of, answer_of, empty_account},
  Shares.{first_parts, first_session, node_of, receipt_parts, steps_of, told_to, untold, with_ack},
  Shares.{with_entries, with_session, with_steps},
  Trails.{AreKept},
  declared.ledgers.TheConstants.{MAX_SESSIONS},
};

use crate::chronicles::Chronicle;
use crate::endings::{
    EndRefused, drop_nodes, drop_sessions, end_nodes, end_sessions, lacks_node, lacks_session,
};
use crate::entries::Batch;
use crate::kept_steps::KeptStep;
use crate::names::{Blank, Naming};
use crate::node_shares::{NodeShare, open_nodes};
use crate::parts::{Roll, Share};
use crate::receipts::Receipt;
use crate::session_shares::{SessionShare, Spent};
use crate::step_refs::StepRef;
use crate::trails::write;
use dy_core::{Acked, Place};
use dy_dots::{Dot, Fault, NodeId};
use dy_siblings::Key;
use std::alloc::Global;
use std::marker::Model;

/// How many sessions a ledger opens at most.
pub const MAX_SESSIONS: usize = 1_024;

/// The log of a book, and the book's part of each share. It is the one source of shares and
/// witnesses, and can't be dropped: it ends with its shares.
pub struct Ledger<J: Naming> {
    alloc: Global,
    nodes: u8,
    sessions: usize,
    // How many steps the log has, its acks, and each step as it is kept.
    pub(crate) steps: usize,
    pub(crate) acks: Vec<Acked>,
    pub(crate) trail: Vec<KeptStep>,
    pub(crate) chronicle: Chronicle<J>,
    roll: Roll<J>,
}

impl<J: Naming> Model for Ledger<J> {
    ghost use Rattle.std.specs.Prelude.{◌≡◌};
    ghost use Rattle.dy_core.specs.Worlds.{layout_of};
    ghost use Rattle.dy_shares.specs.{
      inside.Parts.{IsLedger},
      Shares.{Account, steps_of},
      Trails.{AreKept},
      Codes.{account_code},
    };

    ghost Value = { Account };

    ghost coded = { account_code };

    ghost view = { λ l. record { log = l.chronicle; sessions = l.sessions } };

    ghost invariant = { λ l.
        ((l.nodes ≡ J.ring.nodes) × AreKept l.trail.items (steps_of l.chronicle))
        × IsLedger J.ring.nodes (layout_of J.ring J.n) l.steps l.acks.items l.sessions l.chronicle
        l.roll };
}

impl<J: Naming> Ledger<J> {
    /// The ledger of a book whose log is empty, and the shares of its nodes in their order.
    pub fn open(
        alloc: Global,
        blank: Blank,
        nodes: u8,
    ) -> Result<(Ledger<J>, Vec<NodeShare<J>>), Fault>
        requires named { blank ≡ record { book = J.book; table = J.table } }
        requires nodes { nodes ≡ J.ring.nodes }
        requires small { nodes ≤ MAX_NODES }
        ensures log { IfOk result (λ p. p.0 ≡ empty_account) }
        ensures shares { IfOk result (λ p. p.1.items ≡ first_parts J.ring.nodes) }
        ensures memory { IsOkUnless result Fault.OutOfMemory }
    {
        let mut shares = Vec::with_capacity(alloc, nodes as usize)?;
        let Blank { chronicle, roll } = blank;
        let mut roll = roll.named();
        open_nodes(&mut roll, &mut shares, nodes as usize);
        let ledger = Ledger {
            alloc,
            nodes,
            sessions: 0,
            steps: 0,
            acks: Vec::new(alloc),
            trail: Vec::new(alloc),
            chronicle: chronicle.named(),
            roll,
        };
        Ok((ledger, shares))
    }

    /// One more session, which was told nothing yet. Takes no memory.
    pub fn session(&mut self) -> Result<SessionShare<J>, Fault>
        ensures log { OnOk result (self.new ≡ with_session self.old) }
        ensures share { IfOk result (λ s. s ≡ first_session self.old.sessions) }
        ensures too_many { IsErrOf result Fault.TooMany ↔ (MAX_SESSIONS ≤ self.old.sessions) }
        ensures err { OnErr result (self.new ≡ self.old) }
        ensures only { IsOkUnless result Fault.TooMany }
    {
        if self.sessions >= MAX_SESSIONS {
            return Err(Fault::TooMany);
        }
        let number = self.sessions;
        let share = self.roll.open(self.nodes as usize + number);
        self.sessions += 1;
        Ok(SessionShare::new(self.alloc, number, share, self.chronicle.front()))
    }

    /// The share lent is the node's part of the log. Takes no memory.
    pub fn agree(&mut self, share: &mut NodeShare<J>)
        ensures log { self.new ≡ self.old }
        ensures share { share.new ≡ share.old }
        ensures belongs { BelongsTo (steps_of self.old.log) share.old }
    {
        self.roll.compare(&mut share.share);
    }

    /// The share lent is the session's part of the log. Takes no memory.
    pub fn agree_session(&mut self, share: &mut SessionShare<J>)
        ensures log { self.new ≡ self.old }
        ensures share { share.new ≡ share.old }
        ensures belongs { SessionBelongsTo self.old.log J.r share.old }
    {
        self.chronicle.learn(share.front());
        self.roll.compare(&mut share.share);
    }

    /// Adds steps of one node to the log, all or none, and to the node's share.
    pub fn node_steps(
        &mut self,
        share: &mut NodeShare<J>,
        steps: &[StepRef<'_>],
    ) -> Result<(), Fault>
        requires own { All (λ s. node_of s ≡ Some share.old.node) steps.now }
        requires allowed { MayFollow J.ring J.n self.old.log steps.now }
        ensures log { OnOk result (self.new ≡ with_entries self.old (map untold steps.now)) }
        ensures share { OnOk result (share.new ≡ with_steps share.old steps.now) }
        ensures err { OnErr result ((self.new ≡ self.old) × (share.new ≡ share.old)) }
        ensures memory { IsOkUnless result Fault.OutOfMemory }
        ensures belongs { BelongsTo (steps_of self.old.log) share.old }
        ensures nodes { (node : ℕ) → node ≢ share.old.node →
            NodeStays self.old.log self.new.log node }
        ensures sessions { (session : ℕ) → SessionStays self.old.log self.new.log session }
    {
        self.append(&mut share.share, None, steps, None)?;
        Ok(())
    }

    /// Adds an ack to the log, which these receipts make, and tells it the session whose share is
    /// lent.
    pub fn ack_step(
        &mut self,
        share: &mut SessionShare<J>,
        key: &Key,
        dot: Dot,
        w: u8,
        receipts: &Vec<Receipt<J>>,
    ) -> Result<(), Fault>
        requires ack { AreSpendable key.now dot w receipts.now.items }
        requires hold { All (IsReceipt (steps_of self.old.log)) receipts.now.items }
        requires allowed { MayFollow J.ring J.n self.old.log (Ack key.now dot w ∷ []) }
        ensures log { OnOk result (self.new ≡
            with_entries self.old (told_to share.old.session (Ack key.now dot w) ∷ [])) }
        ensures share { OnOk result (share.new ≡
            with_ack share.old (length self.old.log + 1) (Ack key.now dot w) receipts.now.items) }
        ensures err { OnErr result ((self.new ≡ self.old) × (share.new ≡ share.old)) }
        ensures memory { IsOkUnless result Fault.OutOfMemory }
        ensures belongs { SessionBelongsTo self.old.log J.r share.old }
        ensures nodes { (node : ℕ) → NodeStays self.old.log self.new.log node }
        ensures sessions { (session : ℕ) → session ≢ share.old.session →
            SessionStays self.old.log self.new.log session }
    {
        self.agree_session(share);
        self.chronicle.learn(&share.front);
        let numbers = &mut share.numbers.acks;
        let ack = match new_ack(self.alloc, &mut share.spent, numbers, key, dot, w) {
            Ok(ack) => ack,
            Err(fault) => return Err(fault),
        };
        let steps = [StepRef::ack(key, dot, w)];
        let session = share.number;
        match self.append(&mut share.share, Some(session), &steps, Some(ack)) {
            Ok(()) => {}
            Err(fault) => return Err(fault),
        }
        share.spent.push_reserved(Spent::of(receipts));
        share.numbers.acks.push_reserved(self.steps);
        share.since = share.since.max(self.steps);
        share.front.join(&self.chronicle.front());
        Ok(())
    }

    /// Adds a fetch to the log, which changes no share.
    pub fn fetch_step(&mut self, place: Place, key: &Key) -> Result<(), Fault>
        ensures log { OnOk result
            (self.new ≡ with_entries self.old (untold (Fetch place key.now) ∷ [])) }
        ensures err { OnErr result (self.new ≡ self.old) }
        ensures memory { IsOkUnless result Fault.OutOfMemory }
        ensures nodes { (node : ℕ) → NodeStays self.old.log self.new.log node }
        ensures sessions { (session : ℕ) → SessionStays self.old.log self.new.log session }
    {
        let steps = [StepRef::fetch(place, key)];
        let batch = Batch {
            told: None,
            steps: &steps,
        };
        let before = self.steps;
        match write(
            self.alloc,
            &mut self.trail,
            &mut self.chronicle,
            before,
            &batch,
        ) {
            Ok(count) => {
                self.steps = count;
                Ok(())
            }
            Err(fault) => Err(fault),
        }
    }

    // Adds steps of one seat of the roll to the log, all or none, and to its share. The ack is the
    // one among them, where there is one.
    fn append(
        &mut self,
        share: &mut Share<J>,
        told: Option<usize>,
        steps: &[StepRef<'_>],
        ack: Option<Acked>,
    ) -> Result<(), Fault>
        requires ack { MatchOption ack (acks_of steps.now ≡ []) (λ a. acks_of steps.now ≡ a ∷ []) }
        requires seat { AreOf J.ring.nodes (Some share.old.index) (entries_of told steps.now) }
        requires owned { share.old.index < J.ring.nodes + self.old.sessions →
            AreOwned J.ring.nodes self.old.sessions (entries_of told steps.now) }
        requires allowed { MayFollow J.ring J.n self.old.log steps.now }
        ensures log { OnOk result (self.new ≡ with_entries self.old (entries_of told steps.now)) }
        ensures share { OnOk result
            (share.new ≡ with_done share.old (length self.old.log + 1) steps.now) }
        ensures err { OnErr result ((self.new ≡ self.old) × (share.new ≡ share.old)) }
        ensures memory { IsOkUnless result Fault.OutOfMemory }
        ensures belongs { IsPartOf J.ring.nodes (layout_of J.ring J.n) self.old share.old }
    {
        self.roll.compare(share);
        self.acks.reserve(ack.is_some() as usize)?;
        let batch = Batch { told, steps };
        let before = self.steps;
        let total = match write(
            self.alloc,
            &mut self.trail,
            &mut self.chronicle,
            before,
            &batch,
        ) {
            Ok(total) => total,
            Err(fault) => return Err(fault),
        };
        let added = self.chronicle.added(before);
        self.roll.grow(share, &added);
        if let Some(ack) = ack {
            self.acks.push_reserved(ack);
        }
        self.steps = total;
        Ok(())
    }

    /// Whether the share of a node or of a session is missing among these. Takes no memory.
    pub fn lacks(&self, nodes: &[NodeShare<J>], sessions: &[SessionShare<J>]) -> bool
        ensures { MatchBool result
            (IsMissing J.ring.nodes self.now.sessions nodes.now sessions.now)
            (HasAll J.ring.nodes self.now.sessions nodes.now sessions.now) }
    {
        lacks_node(nodes, self.nodes as usize) || lacks_session(sessions, self.sessions)
    }

    /// Ends the ledger, where each of its shares is handed in, and gives its trail; otherwise the
    /// ledger and the shares come back, each list in its order. Takes no memory.
    pub fn end(
        self,
        nodes: Vec<NodeShare<J>>,
        sessions: Vec<SessionShare<J>>,
    ) -> Result<Vec<KeptStep>, EndRefused<J>>
        ensures exact { IfOk result (λ _. AreAll J.ring.nodes J.r self nodes.items sessions.items) }
        ensures trail { IfOk result (λ trail. AreKept trail.items (steps_of self.log)) }
        ensures shares_missing { IfErr result (λ _.
            IsMissing J.ring.nodes self.sessions nodes.items sessions.items) }
        ensures ledger_back { IfErr result (λ refused. refused.ledger ≡ self) }
        ensures nodes_back { IfErr result (λ refused. refused.nodes.items ≡ nodes.items) }
        ensures sessions_back { IfErr result (λ refused. refused.sessions.items ≡ sessions.items) }
    {
        if self.lacks(nodes.as_slice(), sessions.as_slice()) {
            return Err(EndRefused {
                ledger: self,
                nodes,
                sessions,
            });
        }
        let Ledger {
            alloc: _,
            nodes: _,
            sessions: _,
            steps: _,
            acks: _,
            trail,
            mut chronicle,
            mut roll,
        } = self;
        end_nodes(&mut roll, nodes);
        end_sessions(&mut roll, &mut chronicle, sessions);
        Ok(trail)
    }

    /// Ends the ledger with whatever shares are there, and gives nothing.
    pub fn abandon(self, nodes: Vec<NodeShare<J>>, sessions: Vec<SessionShare<J>>) {
        let Ledger {
            alloc: _,
            nodes: _,
            sessions: _,
            steps: _,
            acks: _,
            trail: _,
            chronicle: _,
            roll: _,
        } = self;
        drop_nodes(nodes);
        drop_sessions(sessions);
    }
}

// The ack of these, with room for what was spent for it, and for its number.
fn new_ack<J: Naming>(
    alloc: Global,
    spent: &mut Vec<Spent<J>>,
    numbers: &mut Vec<usize>,
    key: &Key,
    dot: Dot,
    w: u8,
) -> Result<Acked, Fault>
    ensures ok { IfOk result (λ ack. ack ≡ record { key = key.now; dot = dot; w = w }) }
    ensures spent { spent.new.items ≡ spent.old.items }
    ensures numbers { numbers.new.items ≡ numbers.old.items }
    ensures spent_room { OnOk result (vec_len spent.new < vec_capacity spent.new) }
    ensures numbers_room { OnOk result (vec_len numbers.new < vec_capacity numbers.new) }
    ensures memory { IsOkUnless result Fault.OutOfMemory }
{
    spent.reserve(1)?;
    numbers.reserve(1)?;
    let key = key.try_clone(alloc)?;
    Ok(Acked { key, dot, w })
}
