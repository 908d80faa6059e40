ghost use Rattle.std.specs.declared.marker.Brand.{Brand as BrandParts};
ghost use Rattle.dy_cluster.specs.Settings.{setting};
ghost use Rattle.dy_clients.specs.Runs.{EndsRun};

use crate::clients::Client;
use crate::clients_done::ClientsDone;
use crate::staffing::run_opened;
use dy_book::Options;
use dy_cluster::Cluster;
use dy_dots::Fault;
use dy_mailboxes::{Gate, Post};
use dy_ring::Ring;
use dy_shares::Naming;
use std::alloc::Global;
use std::sync::Wait;
use std::thread::Threads;

/// What an operator is lent: the cluster, a post to the nodes' workers, what waits for it, and the
/// allocator.
#[derive(Drop)]
pub struct Controls<'a, J: Naming, R: Wait> {
    pub rt: &'a R,
    pub alloc: Global,
    pub cluster: &'a Cluster<J>,
    pub post: Post<J>,
}

/// What one more thread does beside the clients: it takes nodes down and up, and makes passes.
pub trait Operator {
    /// Called once, in a thread of its own, before the first client begins. It is not called if a
    /// thread for a worker, or for it, can't be had. It may wait for clients until `end` is called.
    fn run<J: Naming, R: Wait>(&self, lent: &mut Controls<'_, J, R>);

    /// Called once, from another thread, when every client has ended or none will begin. After it
    /// `run` must not wait for a client.
    fn end<R: Wait>(&self, rt: &R);
}

// Stands in for an operator where there is none.
pub(crate) struct Nobody;

impl Operator for Nobody {
    fn run<J: Naming, R: Wait>(&self, _lent: &mut Controls<'_, J, R>) {}

    fn end<R: Wait>(&self, _rt: &R) {}
}

/// What runs beside the clients: the gate that the workers pass with each ask, and an operator.
#[derive(Drop)]
pub struct Staff<'a, G, O> {
    pub gate: &'a G,
    pub operator: &'a O,
}

/// The same as `with_workers`, beside an operator in one more thread. If that thread can't be had,
/// no client runs, and the answer is `OutOfMemory`.
pub fn with_operator<
    C: Client + Sync,
    G: Gate + Sync,
    O: Operator + Sync,
    R: Threads + Wait + Sync,
>(
    rt: &R,
    alloc: Global,
    ring: Ring,
    options: Options,
    staff: &Staff<'_, G, O>,
    clients: u8,
    client: &C,
) -> Result<ClientsDone, Fault>
    ensures { EndsRun ring options clients
        (C.told (setting BrandParts ring options.n options.r options) client.now) result }
{
    let (gate, operator) = (Some(staff.gate), Some(staff.operator));
    run_opened::<C, G, O, R>(rt, alloc, ring, options, gate, operator, clients, client)
}
