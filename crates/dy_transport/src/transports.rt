ghost use Rattle.std.specs.{
  Prelude.{◌≡◌, ◌<◌, ◌≤◌, ◌+◌, ◌*◌, ℕ, ◌∷◌, [], List, length, map, nat_eq, IsTrue, IfOk, IfErr},
  Prelude.{OnOk, OnErr, IfNone, IfSome, IsOkUnless},
  List.{All, IsDistinct},
};
ghost use Rattle.dy_dots.specs.declared.dots.Dot.{Dot as DotParts};
ghost use Rattle.dy_preference.specs.Preferences.{homes_of, may_hold};
ghost use Rattle.dy_core.specs.Worlds.{layout_of};
ghost use Rattle.dy_book.specs.Books.{AreOf};
ghost use Rattle.dy_node.specs.{Answers.{MayAsk}, Nodes.{AreForHomes, AreForOthers}};
ghost use Rattle.dy_transport.specs.{
  Snapshots.{snapshot_of},
  Asking.{IsBegun, IsSeenAt},
  Refusals.{IsOfBegin, IsOfNode, IsOfOffer, IsOfStep},
  Told.{Told, with_try, with_noted, with_ask, with_none, nothing_told, with_reply, Answers},
  Told.{AllAnswered, IsAwaited},
  Tellings.{IsAckTold},
  declared.tries.Try.TheVariants.{Begin, Look, Offer, Record, Settle},
  declared.transports.TheConstants.{SPARE_TRIES},
};

use crate::locks::lock_soon;
use crate::reaches::Reach;
use crate::snapshots::show;
use crate::tries::Try;
use dy_core::Place;
use dy_dots::{Context, Fault, NodeId};
use dy_node::{Answer, Ask, Begun, RowFor};
use dy_shares::{Naming, Receipt, Seen, SessionShare, Since};
use dy_siblings::{Key, Value};
use std::sync::Wait;

/// For how many tries there is room beyond those for asks.
pub const SPARE_TRIES: usize = 32;

/// What carries the messages of one put, get, repair or pass (Dynamo, section 4.5). It reaches the
/// nodes and the book, and keeps a trace of what was tried, asked and answered. The trait makes
/// tries and acks. A transport carries asks and answers.
pub trait Transport<J: Naming> {
    ghost told: { Self → Told J };

    /// For how many asks, with two answers each, it has room. Takes no memory.
    fn room(&self) -> usize
        ensures { result ≡ (told self.now).room };

    /// The nodes and the book at which tries and acks are made. Takes no memory.
    fn reach(&self) -> &Reach<'_, J>;

    /// Takes out the try, and adds it to the trace. Takes no memory.
    fn note_try(&mut self, tried: &mut Option<Try<J>>)
        requires { length (told self.old).tries < (told self.old).room + SPARE_TRIES }
        ensures { told self.new ≡ with_noted (told self.old) tried.old };

    /// Begins a put at a node for a home. May wait for locks.
    fn begin<R: Wait>(
        &mut self,
        rt: &R,
        node: NodeId,
        home: NodeId,
        key: &Key,
        context: &Context,
        value: &Option<Value>,
    ) -> Result<Begun<J>, Fault>
        requires room { length (told self.old).tries < (told self.old).room + SPARE_TRIES }
        requires may_hold { IsTrue (may_hold (homes_of J.ring J.n key.now) node home) }
        ensures begun { IfOk result (λ b.
            IsBegun (layout_of J.ring J.n) node home key.now context.now value.now b) }
        ensures refused { IfErr result IsOfBegin }
        ensures told { told self.new ≡ with_try (told self.old)
            (Begin node home (snapshot_of key.now) (snapshot_of context.now)
            (snapshot_of value.now) (snapshot_of result)) }
    {
        let place = Place { holder: node, home };
        let gave = self.reach().begin_at(rt, place, key, context, value);
        self.note_try(&mut Some(Try::Begin {
            node,
            home,
            key: show(key),
            context: show(context),
            value: show(value),
            gave: show(&gave),
        }));
        gave
    }

    /// Fetches at a node what it keeps of the key for a home. May wait for locks.
    fn look<R: Wait>(
        &mut self,
        rt: &R,
        node: NodeId,
        home: NodeId,
        key: &Key,
        since: &Since<J>,
    ) -> Result<Seen<J>, Fault>
        requires { length (told self.old).tries < (told self.old).room + SPARE_TRIES }
        ensures seen { IfOk result (λ s. IsSeenAt node home key.now since.now s) }
        ensures refused { IfErr result IsOfNode }
        ensures told { told self.new ≡ with_try (told self.old)
            (Look node home (snapshot_of key.now) since.now (snapshot_of result)) }
    {
        let place = Place { holder: node, home };
        let gave = self.reach().look_at(rt, place, key, since);
        self.note_try(&mut Some(Try::Look {
            node,
            home,
            key: show(key),
            since: since.at(),
            gave: show(&gave),
        }));
        gave
    }

    /// Lists the hints of a node, each with the home that it is for. May wait for locks.
    fn offer<R: Wait>(&mut self, rt: &R, node: NodeId) -> Result<Vec<RowFor>, Fault>
        requires { length (told self.old).tries < (told self.old).room + SPARE_TRIES }
        ensures for_homes { IfOk result (λ hints. AreForHomes J.ring J.n hints.items) }
        ensures for_others { IfOk result (λ hints. AreForOthers node hints.items) }
        ensures refused { IfErr result IsOfOffer }
        ensures told { told self.new ≡ with_try (told self.old) (Offer node (snapshot_of result)) }
    {
        let gave = self.reach().offer_at(rt, node);
        let shown = show(&gave);
        self.note_try(&mut Some(Try::Offer { node, gave: shown }));
        gave
    }

    /// Has a node release the dots that these receipts of homes name, and gives how many. May wait
    /// for locks.
    fn settle<R: Wait>(
        &mut self,
        rt: &R,
        node: NodeId,
        receipts: &Vec<Receipt<J>>,
    ) -> Result<usize, Fault>
        requires room { length (told self.old).tries < (told self.old).room + SPARE_TRIES }
        requires homes { All (λ r. r.holder ≡ r.home) receipts.now.items }
        ensures refused { IfErr result IsOfNode }
        ensures told { told self.new ≡ with_try (told self.old)
            (Settle node (snapshot_of receipts.now) (snapshot_of result)) }
    {
        let gave = self.reach().settle_at(rt, node, receipts.as_slice());
        self.note_try(&mut Some(Try::Settle {
            node,
            receipts: show(receipts),
            gave: show(&gave),
        }));
        gave
    }

    /// Asks a node. An ask that cannot be sent is answered too. May wait for locks.
    fn ask<R: Wait>(&mut self, rt: &R, to: NodeId, ask: &Ask<'_, J>)
        requires room { length (told self.old).asks < (told self.old).room }
        requires may_ask { MayAsk J.ring J.n to ask.now }
        ensures { told self.new ≡ with_ask (told self.old) to ask.now };

    /// The next answer, with the place that was asked. None where each ask is answered. May wait
    /// for an answer. Takes no memory.
    fn next_reply<R: Wait>(&mut self, rt: &R) -> Option<(Place, Answer<J>)>
        ensures none { IfNone result
            ((told self.new ≡ with_none (told self.old)) × AllAnswered (told self.new)) }
        ensures some { IfSome result (λ r. (number : ℕ)
            × (told self.new ≡ with_reply (told self.old) number r.0.holder r.0.home r.1)
            × Answers (told self.old).asks number r.0.holder r.0.home r.1
            × IsAwaited (told self.old).replies number) }
        ensures within { IfSome result
            (λ _. length (told self.old).replies < 2 * length (told self.old).asks) };

    /// Acknowledges the dot of these receipts to the session, with the w that the put named. The
    /// step is later than all that the session's list had before. May wait for a lock.
    fn record<R: Wait>(
        &mut self,
        rt: &R,
        session: &mut SessionShare<J>,
        w: u8,
        receipts: &Vec<Receipt<J>>,
    ) -> Result<(), Fault>
        requires room { length (told self.old).tries < (told self.old).room + SPARE_TRIES }
        requires some { 1 ≤ w }
        requires few { w ≤ J.n }
        requires count { length receipts.now.items ≡ w }
        requires one_dot { (key : List ℕ) × (d : DotParts) × AreOf key d receipts.now.items }
        requires homes { IsDistinct nat_eq (map (λ r. r.home) receipts.now.items) }
        requires holders { IsDistinct nat_eq (map (λ r. r.holder) receipts.now.items) }
        ensures told { told self.new ≡ with_try (told self.old)
            (Record w (snapshot_of receipts.now) (snapshot_of result)) }
        ensures ok { (key : List ℕ) (d : DotParts) → AreOf key d receipts.now.items →
            OnOk result (IsAckTold session.old session.new key d w receipts.now.items) }
        ensures err { OnErr result (session.new ≡ session.old) }
        ensures refused { IfErr result IsOfStep }
    {
        let gave = lock_soon(rt, self.reach().book).ack(session, w, receipts);
        self.note_try(&mut Some(Try::Record {
            w,
            receipts: show(receipts),
            gave: show(&gave),
        }));
        gave
    }

    /// Empties the trace, so that one transport serves a client call after call. No later call
    /// reads an unread answer of this one.
    fn renew<R: Wait>(&mut self, rt: &R) -> Result<(), Fault>
        ensures ok { OnOk result (told self.new ≡ nothing_told (told self.old).room) }
        ensures err { OnErr result (told self.new ≡ told self.old) }
        ensures memory { IsOkUnless result Fault.OutOfMemory };
}
