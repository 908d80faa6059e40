ghost use Rattle.std.specs.Prelude.{◌≡◌, ◌≤◌, [], IfOk, IfErr, OnErr, IsOkUnless};
ghost use Rattle.dy_coord.specs.{
  Gets.{IsGetRefused, IsGot},
  PutDones.{IsPutDone},
  PutEnds.{PutEnds},
};
ghost use Rattle.dy_dots.specs.declared.nodes.TheConstants.{MAX_NODES};
ghost use Rattle.dy_shares.specs.Shares.{since_of, with_get};
ghost use Rattle.dy_transport.specs.Told.{nothing_told};
ghost use Rattle.dy_reads.specs.Lists.{homes_in};
ghost use Rattle.dy_quorum.specs.Gatherings.{first_answers};
ghost use Rattle.dy_repair.specs.Stales.{AreCurrent};
ghost use Rattle.dy_cluster.specs.{Connections.{IsMended}, Lists.{list_of}};

use crate::clusters::Cluster;
use crate::kept_lists::KeptLists;
use crate::put_calls::PutCall;
use dy_coord::{GetDone, GetFault, PutDone, PutFault};
use dy_dots::{Context, Fault};
use dy_shares::{Naming, SessionShare};
use dy_siblings::{Key, Value};
use dy_transport::{Direct, Transport};
use std::marker::Model;
use std::sync::Wait;

/// What one thread calls a cluster by, in whichever session: a transport on that thread, and the
/// preference lists of keys that it named. Renew it before each call but the first.
#[derive(Drop)]
pub struct DirectCalls<'a, J: Naming> {
    direct: Direct<'a, J>,
    lists: KeptLists<J>,
}

impl<'a, J: Naming> Model for DirectCalls<'a, J> {
    ghost use Rattle.std.specs.Coded.{codes};
    ghost use Rattle.dy_dots.specs.Dots.{dot_set_code};
    ghost use Rattle.dy_transport.specs.Told.{Told};
    ghost use Rattle.dy_siblings.specs.Siblings.{siblings_code};
    ghost use Rattle.dy_shares.specs.Codes.{answer_code, receipt_parts_code as receipt_code};

    ghost Value = { Told J };

    ghost coded = { Prim.hlevel (codes, dot_set_code, siblings_code, receipt_code, answer_code) };

    ghost view = { λ calls. calls.direct };
}

impl<J: Naming> Cluster<J> {
    /// Calls on the caller's own thread, which keep no list yet.
    pub fn direct_calls(&self) -> Result<DirectCalls<'_, J>, Fault>
        ensures ok { IfOk result (λ calls. calls ≡ nothing_told MAX_NODES) }
        ensures memory { IsOkUnless result Fault.OutOfMemory }
    {
        let direct = self.direct()?;
        Ok(DirectCalls {
            direct,
            lists: KeptLists::new(self.alloc),
        })
    }
}

impl<'a, J: Naming> DirectCalls<'a, J> {
    /// Lets the transport tell nothing of the call before. Takes no memory.
    pub fn renew<R: Wait>(&mut self, rt: &R)
        ensures { self.new ≡ nothing_told self.old.room }
    {
        match self.direct.renew(rt) {
            Ok(()) => {}
            Err(_fault) => unreachable!(),
        }
    }

    /// A put of the key at w homes of this cluster. May wait for locks.
    pub fn put<R: Wait>(
        &mut self,
        rt: &R,
        cluster: &Cluster<J>,
        w: u8,
        session: &mut SessionShare<J>,
        key: &Key,
        context: &Context,
        value: Option<Value>,
    ) -> Result<PutDone<J>, PutFault>
        requires fresh_tries { self.old.tries ≡ [] }
        requires fresh_asks { self.old.asks ≡ [] }
        requires fresh_replies { self.old.replies ≡ [] }
        requires room { MAX_NODES ≤ self.old.room }
        ensures ends { PutEnds {J = J} (list_of J.ring J.n key.now) w key.now context.now value
            session.old session.new self.old self.new result }
        ensures ok { IfOk result (IsPutDone session.old session.new key.now w) }
        ensures err { OnErr result (session.new ≡ session.old) }
        ensures room { self.new.room ≡ self.old.room }
    {
        let call = PutCall {
            key,
            context,
            value,
            w,
        };
        cluster.put_kept(rt, call, &mut self.direct, session, &mut self.lists)
    }

    /// A get of the key. May wait for locks.
    pub fn get<R: Wait>(
        &mut self,
        rt: &R,
        cluster: &Cluster<J>,
        session: &mut SessionShare<J>,
        key: &Key,
    ) -> Result<GetDone<J>, GetFault>
        requires fresh_tries { self.old.tries ≡ [] }
        requires fresh_asks { self.old.asks ≡ [] }
        requires fresh_replies { self.old.replies ≡ [] }
        requires room { MAX_NODES ≤ self.old.room }
        ensures ok { IfOk result (λ done. IsGot (list_of J.ring J.n key.now) key.now J.r
            (since_of session.old) self.new done) }
        ensures told { IfOk result (λ done. session.new ≡
            with_get session.old (since_of session.old) (first_answers done.seen.items)) }
        ensures err { OnErr result (session.new ≡ session.old) }
        ensures room { self.new.room ≡ self.old.room }
        ensures refused { IfErr result (λ e. IsGetRefused (list_of J.ring J.n key.now) key.now J.r
            (since_of session.old) self.new e) }
    {
        cluster.get_kept(rt, &mut self.direct, &mut self.lists, session, key)
    }

    /// Renews, and asks each home that gave the get a stale answer to store the merged row (Dynamo,
    /// section 5). Takes no memory where none did. May wait for locks.
    pub fn mend<R: Wait>(
        &mut self,
        rt: &R,
        cluster: &Cluster<J>,
        done: &GetDone<J>,
    ) -> Result<(), Fault>
        requires room { MAX_NODES ≤ self.old.room }
        ensures ok { IfOk result (λ _. IsMended
            (homes_in (list_of J.ring J.n done.now.row.key)) done.now.row done.now.seen.items
            self.old self.new) }
        ensures stale { IfErr result (λ _.
            AreCurrent done.now.row done.now.seen.items → ⊥) }
        ensures memory { IsOkUnless result Fault.OutOfMemory }
        ensures room { self.new.room ≡ self.old.room }
    {
        cluster.mend_kept(rt, &mut self.direct, &self.lists, done)
    }
}
