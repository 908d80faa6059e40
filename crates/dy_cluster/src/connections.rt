ghost use Rattle.std.specs.Prelude.{◌≡◌, ◌≤◌, ◌⊎◌, Some, None, IsTrue};
ghost use Rattle.std.specs.Prelude.{IfOk, IfErr, OnErr, IsOkUnless};
ghost use Rattle.dy_dots.specs.declared.nodes.TheConstants.{MAX_NODES};
ghost use Rattle.dy_shares.specs.Shares.{since_of, with_get};
ghost use Rattle.dy_transport.specs.Told.{Told};
ghost use Rattle.dy_reads.specs.Lists.{homes_in};
ghost use Rattle.dy_quorum.specs.Gatherings.{first_answers};
ghost use Rattle.dy_coord.specs.{Gets.{IsGot}, PutDones.{IsPutDone}};
ghost use Rattle.dy_repair.specs.Stales.{AreCurrent};
ghost use Rattle.dy_cluster.specs.{
  Connections.{IsMended, IsRefusedAnew, PutEndsAnew},
  Lists.{list_of},
  Tellings.{IsUntold},
};

use crate::clusters::Cluster;
use crate::kept_lists::KeptLists;
use crate::mending_gets::MendingGet;
use crate::put_calls::PutCall;
use dy_coord::{GetDone, GetFault, PutDone, PutFault};
use dy_dots::{Context, Fault};
use dy_mailboxes::{Mailboxes, Post};
use dy_shares::{Naming, SessionShare};
use dy_siblings::{Key, Value};
use dy_transport::{Direct, Transport};
use std::sync::Wait;

/// What a client calls a cluster by: its session, its transport, and the number of homes that its
/// puts name. The session must be handed in when the cluster closes.
pub struct Connection<'a, J: Naming, T: Transport<J>> {
    pub session: SessionShare<J>,
    pub transport: T,
    pub w: u8,
    cluster: &'a Cluster<J>,
    // Of the keys that it named.
    lists: KeptLists<J>,
    ghost room: { MAX_NODES ≤ (T.told transport).room },
}

impl<J: Naming> Cluster<J> {
    /// A connection on the caller's own thread, with a new session. May wait for a lock.
    pub fn connect<R: Wait>(&self, rt: &R) -> Result<Connection<'_, J, Direct<'_, J>>, Fault>
        ensures untold { IfOk result (λ connection. IsUntold connection.session) }
        ensures w { IfOk result (λ connection. connection.w ≡ self.now.options.w) }
        ensures cluster { IfOk result (λ connection. connection.cluster.now ≡ self.now) }
        ensures only { IfErr result (λ fault. (fault ≡ Fault.OutOfMemory)
            ⊎ (fault ≡ Fault.TooMany)) }
    {
        let direct = self.direct()?;
        let session = self.session(rt)?;
        Ok(Connection::new(self, session, direct))
    }

    /// A connection over the nodes' workers, with a new session. May wait for a lock.
    pub fn connect_by_post<R: Wait>(
        &self,
        rt: &R,
        mut post: Post<J>,
    ) -> Result<Connection<'_, J, Mailboxes<'_, J>>, Fault>
        ensures untold { IfOk result (λ connection. IsUntold connection.session) }
        ensures w { IfOk result (λ connection. connection.w ≡ self.now.options.w) }
        ensures cluster { IfOk result (λ connection. connection.cluster.now ≡ self.now) }
        ensures only { IfErr result (λ fault. (fault ≡ Fault.OutOfMemory)
            ⊎ (fault ≡ Fault.TooMany)) }
    {
        let mailboxes = self.mailboxes(&mut post)?;
        let session = self.session(rt)?;
        Ok(Connection::new(self, session, mailboxes))
    }
}

impl<'a, J: Naming, T: Transport<J>> Connection<'a, J, T> {
    /// A connection of this session over this transport of the cluster. Its puts name as many homes
    /// as the cluster's options. Takes no memory.
    pub fn new(
        cluster: &'a Cluster<J>,
        session: SessionShare<J>,
        transport: T,
    ) -> Connection<'a, J, T>
        requires room { MAX_NODES ≤ (T.told transport).room }
        ensures session { result.session ≡ session }
        ensures transport { result.transport ≡ transport }
        ensures w { result.w ≡ cluster.now.options.w }
        ensures cluster { result.cluster.now ≡ cluster.now }
    {
        Connection {
            session,
            transport,
            w: cluster.options.w,
            cluster,
            lists: KeptLists::new(cluster.alloc),
        }
    }

    /// The cluster that it calls.
    pub fn cluster(&self) -> &'a Cluster<J> {
        self.cluster
    }

    /// The session, to be handed in, and the transport. Takes no memory.
    pub fn into_parts(self) -> (SessionShare<J>, T)
        ensures session { result.0 ≡ self.entry.session }
        ensures transport { result.1 ≡ self.entry.transport }
    {
        let Connection {
            session,
            transport,
            w: _,
            cluster: _,
            lists: _,
        } = self;
        (session, transport)
    }

    /// Puts the value with this context, at the connection's w homes. May wait for answers and
    /// locks.
    pub fn put<R: Wait>(
        &mut self,
        rt: &R,
        key: &Key,
        context: &Context,
        value: Value,
    ) -> Result<PutDone<J>, PutFault>
        ensures ends { PutEndsAnew {J = J} (list_of J.ring J.n key.now) self.old.w key.now
            context.now (Some value) self.old.session self.new.session
            (T.told self.old.transport) (T.told self.new.transport) result }
        ensures ok { IfOk result
            (IsPutDone self.old.session self.new.session key.now self.old.w) }
        ensures err { OnErr result (self.new.session ≡ self.old.session) }
        ensures w { self.new.w ≡ self.old.w }
    {
        self.put_to(rt, self.w, key, context, value)
    }

    /// The same at w homes. May wait for answers and locks.
    pub fn put_to<R: Wait>(
        &mut self,
        rt: &R,
        w: u8,
        key: &Key,
        context: &Context,
        value: Value,
    ) -> Result<PutDone<J>, PutFault>
        ensures ends { PutEndsAnew {J = J} (list_of J.ring J.n key.now) w key.now
            context.now (Some value) self.old.session self.new.session
            (T.told self.old.transport) (T.told self.new.transport) result }
        ensures ok { IfOk result (IsPutDone self.old.session self.new.session key.now w) }
        ensures err { OnErr result (self.new.session ≡ self.old.session) }
        ensures w { self.new.w ≡ self.old.w }
    {
        let call = PutCall {
            key,
            context,
            value: Some(value),
            w,
        };
        self.write(rt, call)
    }

    /// Deletes the key with this context, at the connection's w homes. May wait for answers and
    /// locks.
    pub fn delete<R: Wait>(
        &mut self,
        rt: &R,
        key: &Key,
        context: &Context,
    ) -> Result<PutDone<J>, PutFault>
        ensures ends { PutEndsAnew {J = J} (list_of J.ring J.n key.now) self.old.w key.now
            context.now None self.old.session self.new.session
            (T.told self.old.transport) (T.told self.new.transport) result }
        ensures ok { IfOk result
            (IsPutDone self.old.session self.new.session key.now self.old.w) }
        ensures err { OnErr result (self.new.session ≡ self.old.session) }
        ensures w { self.new.w ≡ self.old.w }
    {
        let call = PutCall {
            key,
            context,
            value: None,
            w: self.w,
        };
        self.write(rt, call)
    }

    // Puts a value, or none.
    fn write<R: Wait>(&mut self, rt: &R, call: PutCall<'_>) -> Result<PutDone<J>, PutFault>
        ensures ends { PutEndsAnew {J = J} (list_of J.ring J.n call.entry.key.now) call.entry.w
            call.entry.key.now call.entry.context.now call.entry.value self.old.session
            self.new.session (T.told self.old.transport) (T.told self.new.transport) result }
        ensures ok { IfOk result
            (IsPutDone self.old.session self.new.session call.entry.key.now call.entry.w) }
        ensures err { OnErr result (self.new.session ≡ self.old.session) }
        ensures w { self.new.w ≡ self.old.w }
    {
        if let Err(fault) = self.transport.renew(rt) {
            return Err(PutFault::early(self.cluster.alloc, fault));
        }
        self.cluster.put_kept(
            rt,
            call,
            &mut self.transport,
            &mut self.session,
            &mut self.lists,
        )
    }

    /// Gets the key, and asks each home that gave a stale answer to store the merged row. Where
    /// memory is wanting for that, a later get does it. May wait for answers and locks.
    pub fn get<R: Wait>(&mut self, rt: &R, key: &Key) -> Result<MendingGet<J>, GetFault>
        ensures ok { IfOk result (λ got. (told : Told J) × IsGot (list_of J.ring J.n key.now)
            key.now J.r (since_of self.old.session) told got.done
            × (IsTrue got.is_mended → IsMended (homes_in (list_of J.ring J.n got.done.row.key))
            got.done.row got.done.seen.items told (T.told self.new.transport))) }
        ensures told { IfOk result (λ got. self.new.session ≡ with_get self.old.session
            (since_of self.old.session) (first_answers got.done.seen.items)) }
        ensures err { OnErr result (self.new.session ≡ self.old.session) }
        ensures refused { IfErr result (IsRefusedAnew (list_of J.ring J.n key.now) key.now J.r
            (since_of self.old.session) (T.told self.old.transport)
            (T.told self.new.transport)) }
        ensures w { self.new.w ≡ self.old.w }
        ensures current { IfOk result (λ got.
            AreCurrent got.done.row got.done.seen.items → IsTrue got.is_mended) }
    {
        let done = self.get_unrepaired(rt, key)?;
        let is_mended = self.mend(rt, &done).is_ok();
        Ok(MendingGet { done, is_mended })
    }

    /// Gets the key, and repairs nothing. May wait for answers and locks.
    pub fn get_unrepaired<R: Wait>(&mut self, rt: &R, key: &Key) -> Result<GetDone<J>, GetFault>
        ensures ok { IfOk result (IsGot (list_of J.ring J.n key.now) key.now J.r
            (since_of self.old.session) (T.told self.new.transport)) }
        ensures told { IfOk result (λ done. self.new.session ≡ with_get self.old.session
            (since_of self.old.session) (first_answers done.seen.items)) }
        ensures err { OnErr result (self.new.session ≡ self.old.session) }
        ensures refused { IfErr result (IsRefusedAnew (list_of J.ring J.n key.now) key.now J.r
            (since_of self.old.session) (T.told self.old.transport)
            (T.told self.new.transport)) }
        ensures w { self.new.w ≡ self.old.w }
    {
        if let Err(fault) = self.transport.renew(rt) {
            return Err(GetFault::without_answers(self.cluster.alloc, fault));
        }
        self.cluster.get_kept(
            rt,
            &mut self.transport,
            &mut self.lists,
            &mut self.session,
            key,
        )
    }

    /// Asks each home that gave the get a stale answer to store the merged row (Dynamo, section 5).
    /// Takes no memory where none did. May wait for answers and locks.
    pub fn mend<R: Wait>(&mut self, rt: &R, done: &GetDone<J>) -> Result<(), Fault>
        ensures ok { IfOk result (λ _. IsMended
            (homes_in (list_of J.ring J.n done.now.row.key)) done.now.row done.now.seen.items
            (T.told self.old.transport) (T.told self.new.transport)) }
        ensures stale { IfErr result (λ _.
            AreCurrent done.now.row done.now.seen.items → ⊥) }
        ensures memory { IsOkUnless result Fault.OutOfMemory }
        ensures session { self.new.session ≡ self.old.session }
        ensures w { self.new.w ≡ self.old.w }
    {
        self.cluster
            .mend_kept(rt, &mut self.transport, &self.lists, done)
    }
}
