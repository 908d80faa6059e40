ghost use Rattle.std.specs.{
  Prelude.{◌+◌, ◌%◌, ◌^◌, IfOk, IfErr, IsOkUnless},
  List.{All},
  declared.marker.Brand.{Brand as BrandParts},
};
ghost use Rattle.dy_ring.specs.{Rings.{Tokens}, Lists.{IsRingOf}};
ghost use Rattle.dy_node.specs.Nodes.{IsRestored};
ghost use Rattle.dy_cluster.specs.Settings.{setting};
ghost use Rattle.dy_clients.specs.{Refusals.{IsRunRefusal}, Runs.{HaveRun}};
ghost use Rattle.dy_storm.specs.{
  Clusters.{five_tokens, storm_options},
  Ends.{IsStormed},
  Seeds.{generator_of},
  Turns.{AreTurns},
};

use crate::clients::Clients;
use crate::counts::Counts;
use crate::rings::{five_nodes, options};
use dy_clients::{ClientsDone, Closed, Fault, Ring, Staff, with_operator, with_workers};
use dy_mailboxes::Open;
use dy_plans::Storm;
use std::alloc::Global;
use std::sync::Wait;
use std::thread::Threads;

/// A storm that is over: what came of its gets and puts, what the cluster told as it closed, and
/// how many versions its passes handed over.
#[derive(Drop)]
pub struct StormDone {
    pub counts: Counts,
    pub closed: Closed,
    pub handed_over: usize,
}

/// Opens a cluster of five nodes with workers in threads of their own, runs the clients beside each
/// other, each in a thread too, and with faults one more thread for these, and closes it. Where a
/// thread can't be made, the storm is refused for want of memory.
pub fn storm<R: Threads + Wait + Sync>(
    rt: &R,
    alloc: Global,
    plan: Storm,
) -> Result<StormDone, Fault>
    ensures stormed { IfOk result (λ done. (ring : Tokens) × IsRingOf five_tokens ring
        × IsStormed BrandParts ring 3 2 plan done) }
    ensures only { IfErr result IsRunRefusal }
{
    let ring = five_nodes(alloc)?;
    storm_on(rt, alloc, ring, plan)
}

/// The same on this ring.
pub(crate) fn storm_on<R: Threads + Wait + Sync>(
    rt: &R,
    alloc: Global,
    ring: Ring,
    plan: Storm,
) -> Result<StormDone, Fault>
    requires nodes { IsRingOf five_tokens ring }
    ensures stormed { IfOk result (IsStormed BrandParts ring 3 2 plan) }
    ensures only { IfErr result IsRunRefusal }
{
    let clients = Clients::new(plan);
    let closed = run(rt, alloc, ring, &clients)?.closed;
    check_restored(&closed)?;
    let counts = Counts::of(plan, &closed.audit);
    Ok(StormDone {
        counts,
        closed,
        handed_over: clients.outages.handed_over(),
    })
}

// Each node is up and plain, as the faults leave it. Otherwise the storm would be refused as one
// that lacks a share.
fn check_restored(closed: &Closed) -> Result<(), Fault>
    ensures ok { IfOk result (λ _. All IsRestored closed.now.rests.items) }
    ensures only { IsOkUnless result Fault.SharesMissing }
{
    let rests = closed.rests.as_slice();
    for rest in rests {
        if !rest.is_restored() {
            return Err(Fault::SharesMissing);
        }
    }
    Ok(())
}

// Opens a cluster on the ring, runs the clients, with faults where there are to be some, and closes
// it.
fn run<R: Threads + Wait + Sync>(
    rt: &R,
    alloc: Global,
    ring: Ring,
    clients: &Clients,
) -> Result<ClientsDone, Fault>
    requires nodes { IsRingOf five_tokens ring }
    ensures run { IfOk result (HaveRun ring storm_options clients.now.plan.threads
        (λ number answer telling. AreTurns (setting BrandParts ring 3 2 storm_options)
        (generator_of ((clients.now.plan.seed + number) % 2 ^ 64)) number clients.now.plan.puts
        telling)) }
    ensures only { IfErr result IsRunRefusal }
{
    let threads = clients.plan.threads;
    if !clients.plan.faults {
        return with_workers(rt, alloc, ring, options(), &Open, threads, clients);
    }
    let staff = Staff {
        gate: &Open,
        operator: &clients.outages,
    };
    with_operator(rt, alloc, ring, options(), &staff, threads, clients)
}
