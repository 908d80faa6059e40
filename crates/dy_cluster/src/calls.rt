// The calls of a cluster over a transport, each with its key's own list.
ghost use Rattle.std.specs.Prelude.{◌≡◌, ◌≤◌, [], None, IfOk, IfErr, OnErr, IsOkUnless};
ghost use Rattle.dy_dots.specs.declared.nodes.TheConstants.{MAX_NODES};
ghost use Rattle.dy_shares.specs.Shares.{since_of, with_get};
ghost use Rattle.dy_reads.specs.Lists.{homes_in};
ghost use Rattle.dy_quorum.specs.Gatherings.{first_answers};
ghost use Rattle.dy_coord.specs.{
  Calls.{IsFresh},
  Gets.{IsGetRefused, IsGot},
  PutDones.{IsPutDone},
  PutEnds.{PutEnds},
};
ghost use Rattle.dy_repair.specs.{Repairs.{IsRepaired}, Stales.{AreCurrent}};
ghost use Rattle.dy_cluster.specs.{
  Connections.{IsMended},
  Lists.{list_of},
  inside.Calls.{GetsBy, IsUnasked, KeepsTries, PutsBy},
};

use crate::clusters::Cluster;
use crate::kept_lists::KeptLists;
use crate::put_calls::PutCall;
use dy_coord::{GetDone, GetFault, PutDone, PutFault};
use dy_dots::{Context, Fault};
use dy_preference::{Preference, preference};
use dy_repair::are_current;
use dy_shares::{Naming, Seen, SessionShare};
use dy_siblings::{Key, Row, Value};
use dy_transport::Transport;
use std::sync::Wait;

impl<J: Naming> Cluster<J> {
    // The key's list.
    fn list(&self, key: &Key) -> Preference
        ensures { result ≡ list_of J.ring J.n key.now }
    {
        preference(&self.ring, key, self.options.n)
    }

    /// A put of the key at w homes, over a transport of this cluster. May wait for answers and
    /// locks.
    pub fn put<T: Transport<J>, R: Wait>(
        &self,
        rt: &R,
        transport: &mut T,
        w: u8,
        session: &mut SessionShare<J>,
        key: &Key,
        context: &Context,
        value: Option<Value>,
    ) -> Result<PutDone<J>, PutFault>
        requires fresh { IsFresh (T.told transport.old) }
        ensures ends { PutEnds {J = J} (list_of J.ring J.n key.now) w key.now context.now value
            session.old session.new (T.told transport.old) (T.told transport.new) result }
        ensures ok { IfOk result (IsPutDone session.old session.new key.now w) }
        ensures err { OnErr result (session.new ≡ session.old) }
        ensures room { (T.told transport.new).room ≡ (T.told transport.old).room }
    {
        let list = self.list(key);
        let call = PutCall {
            key,
            context,
            value,
            w,
        };
        self.put_listed(rt, call, transport, session, &list)
    }

    // The same, by the list that is kept of the key, or by one that is kept then.
    #[inline(always)]
    pub(crate) fn put_kept<T: Transport<J>, R: Wait>(
        &self,
        rt: &R,
        call: PutCall<'_>,
        transport: &mut T,
        session: &mut SessionShare<J>,
        lists: &mut KeptLists<J>,
    ) -> Result<PutDone<J>, PutFault>
        requires fresh { IsFresh (T.told transport.old) }
        ensures { PutsBy {J = J} (list_of J.ring J.n call.entry.key.now) call.entry.w
            call.entry.key.now call.entry.context.now call.entry.value session.old session.new
            (T.told transport.old) (T.told transport.new) result }
    {
        let key = call.key;
        match lists.find(key) {
            Some(list) => self.put_listed(rt, call, transport, session, list),
            None => self.put_unlisted(rt, call, transport, session, lists),
        }
    }

    // The same of a key whose list is not kept: it is made, and kept then. It is a call of its own,
    // since few calls make a list.
    #[inline(never)]
    fn put_unlisted<T: Transport<J>, R: Wait>(
        &self,
        rt: &R,
        call: PutCall<'_>,
        transport: &mut T,
        session: &mut SessionShare<J>,
        lists: &mut KeptLists<J>,
    ) -> Result<PutDone<J>, PutFault>
        requires fresh { IsFresh (T.told transport.old) }
        ensures { PutsBy {J = J} (list_of J.ring J.n call.entry.key.now) call.entry.w
            call.entry.key.now call.entry.context.now call.entry.value session.old session.new
            (T.told transport.old) (T.told transport.new) result }
    {
        let key = call.key;
        let list = self.list(key);
        let done = self.put_listed(rt, call, transport, session, &list);
        lists.keep(self.alloc, key, list);
        done
    }

    // The same, by the key's list.
    #[inline(always)]
    fn put_listed<T: Transport<J>, R: Wait>(
        &self,
        rt: &R,
        call: PutCall<'_>,
        transport: &mut T,
        session: &mut SessionShare<J>,
        list: &Preference,
    ) -> Result<PutDone<J>, PutFault>
        requires list { list.now ≡ list_of J.ring J.n call.key.now }
        requires fresh { IsFresh (T.told transport.old) }
        ensures { PutsBy {J = J} (list_of J.ring J.n call.entry.key.now) call.entry.w
            call.entry.key.now call.entry.context.now call.entry.value session.old session.new
            (T.told transport.old) (T.told transport.new) result }
    {
        let PutCall {
            key,
            context,
            value,
            w,
        } = call;
        dy_coord::put(
            rt, self.alloc, transport, list, w, session, key, context, value,
        )
    }

    /// A put that marks the key as deleted. May wait for answers and locks.
    pub fn delete<T: Transport<J>, R: Wait>(
        &self,
        rt: &R,
        transport: &mut T,
        w: u8,
        session: &mut SessionShare<J>,
        key: &Key,
        context: &Context,
    ) -> Result<PutDone<J>, PutFault>
        requires fresh { IsFresh (T.told transport.old) }
        ensures ends { PutEnds {J = J} (list_of J.ring J.n key.now) w key.now context.now None
            session.old session.new (T.told transport.old) (T.told transport.new) result }
        ensures ok { IfOk result (IsPutDone session.old session.new key.now w) }
        ensures err { OnErr result (session.new ≡ session.old) }
        ensures room { (T.told transport.new).room ≡ (T.told transport.old).room }
    {
        self.put(rt, transport, w, session, key, context, None)
    }

    /// A get of the key, over a transport of this cluster. May wait for answers and locks.
    pub fn get<T: Transport<J>, R: Wait>(
        &self,
        rt: &R,
        transport: &mut T,
        session: &mut SessionShare<J>,
        key: &Key,
    ) -> Result<GetDone<J>, GetFault>
        requires fresh { IsFresh (T.told transport.old) }
        ensures ok { IfOk result (λ done. IsGot (list_of J.ring J.n key.now) key.now J.r
            (since_of session.old) (T.told transport.new) done) }
        ensures told { IfOk result (λ done. session.new ≡
            with_get session.old (since_of session.old) (first_answers done.seen.items)) }
        ensures err { OnErr result (session.new ≡ session.old) }
        ensures room { (T.told transport.new).room ≡ (T.told transport.old).room }
        ensures refused { IfErr result (λ e. IsGetRefused (list_of J.ring J.n key.now) key.now J.r
            (since_of session.old) (T.told transport.new) e) }
    {
        let list = self.list(key);
        self.get_listed(rt, transport, &list, session, key)
    }

    // The same, by the list that is kept of the key, or by one that is kept then.
    #[inline(always)]
    pub(crate) fn get_kept<T: Transport<J>, R: Wait>(
        &self,
        rt: &R,
        transport: &mut T,
        lists: &mut KeptLists<J>,
        session: &mut SessionShare<J>,
        key: &Key,
    ) -> Result<GetDone<J>, GetFault>
        requires fresh { IsFresh (T.told transport.old) }
        ensures { GetsBy {J = J} (list_of J.ring J.n key.now) key.now J.r session.old session.new
            (T.told transport.old) (T.told transport.new) result }
    {
        match lists.find(key) {
            Some(list) => self.get_listed(rt, transport, list, session, key),
            None => self.get_unlisted(rt, transport, lists, session, key),
        }
    }

    // The same of a key whose list is not kept: it is made, and kept then. It is a call of its own,
    // since few calls make a list.
    #[inline(never)]
    fn get_unlisted<T: Transport<J>, R: Wait>(
        &self,
        rt: &R,
        transport: &mut T,
        lists: &mut KeptLists<J>,
        session: &mut SessionShare<J>,
        key: &Key,
    ) -> Result<GetDone<J>, GetFault>
        requires fresh { IsFresh (T.told transport.old) }
        ensures { GetsBy {J = J} (list_of J.ring J.n key.now) key.now J.r session.old session.new
            (T.told transport.old) (T.told transport.new) result }
    {
        let list = self.list(key);
        let done = self.get_listed(rt, transport, &list, session, key);
        lists.keep(self.alloc, key, list);
        done
    }

    // The same, by the key's list.
    #[inline(always)]
    fn get_listed<T: Transport<J>, R: Wait>(
        &self,
        rt: &R,
        transport: &mut T,
        list: &Preference,
        session: &mut SessionShare<J>,
        key: &Key,
    ) -> Result<GetDone<J>, GetFault>
        requires list { list.now ≡ list_of J.ring J.n key.now }
        requires fresh { IsFresh (T.told transport.old) }
        ensures { GetsBy {J = J} (list_of J.ring J.n key.now) key.now J.r session.old session.new
            (T.told transport.old) (T.told transport.new) result }
    {
        let r = self.options.r;
        dy_coord::get(rt, self.alloc, transport, list, r, session, key)
    }

    /// Repairs: asks each home that gave a stale answer to store this row, over a transport of this
    /// cluster. May wait for answers and locks.
    pub fn repair<T: Transport<J>, R: Wait>(
        &self,
        rt: &R,
        transport: &mut T,
        seens: &[Seen<J>],
        row: &Row,
    ) -> Result<(), Fault>
        requires fresh_asks { (T.told transport.old).asks ≡ [] }
        requires fresh_replies { (T.told transport.old).replies ≡ [] }
        requires room { MAX_NODES ≤ (T.told transport.old).room }
        ensures ok { IfOk result (λ _. IsRepaired (homes_in (list_of J.ring J.n row.now.key))
            row.now seens.now (T.told transport.new)) }
        ensures err { IfErr result (λ _. T.told transport.new ≡ T.told transport.old) }
        ensures memory { IsOkUnless result Fault.OutOfMemory }
        ensures tries { (T.told transport.new).tries ≡ (T.told transport.old).tries }
        ensures room { (T.told transport.new).room ≡ (T.told transport.old).room }
    {
        let list = self.list(row.key());
        dy_repair::repair(rt, self.alloc, transport, seens, row, &list)
    }

    // The same, by the list that is kept of the key. What a get found stale is repaired behind it,
    // so its list is mostly kept, and else none is kept.
    pub(crate) fn repair_kept<T: Transport<J>, R: Wait>(
        &self,
        rt: &R,
        transport: &mut T,
        lists: &KeptLists<J>,
        seens: &[Seen<J>],
        row: &Row,
    ) -> Result<(), Fault>
        requires unasked { IsUnasked (T.told transport.old) }
        ensures ok { IfOk result (λ _. IsRepaired (homes_in (list_of J.ring J.n row.now.key))
            row.now seens.now (T.told transport.new)) }
        ensures err { IfErr result (λ _. T.told transport.new ≡ T.told transport.old) }
        ensures memory { IsOkUnless result Fault.OutOfMemory }
        ensures stays { KeepsTries (T.told transport.old) (T.told transport.new) }
    {
        match lists.find(row.key()) {
            Some(list) => dy_repair::repair(rt, self.alloc, transport, seens, row, list),
            None => self.repair(rt, transport, seens, row),
        }
    }

    // Renews the transport, and asks each home that gave the get a stale answer to store the merged
    // row. Where none did, nobody is asked, and the transport stays.
    pub(crate) fn mend_kept<T: Transport<J>, R: Wait>(
        &self,
        rt: &R,
        transport: &mut T,
        lists: &KeptLists<J>,
        done: &GetDone<J>,
    ) -> Result<(), Fault>
        requires room { MAX_NODES ≤ (T.told transport.old).room }
        ensures ok { IfOk result (λ _. IsMended
            (homes_in (list_of J.ring J.n done.now.row.key)) done.now.row done.now.seen.items
            (T.told transport.old) (T.told transport.new)) }
        ensures stale { IfErr result (λ _.
            AreCurrent done.now.row done.now.seen.items → ⊥) }
        ensures memory { IsOkUnless result Fault.OutOfMemory }
        ensures room { (T.told transport.new).room ≡ (T.told transport.old).room }
    {
        if are_current(done.seen.as_slice(), &done.row) {
            return Ok(());
        }
        transport.renew(rt)?;
        self.repair_kept(rt, transport, lists, done.seen.as_slice(), &done.row)
    }
}
