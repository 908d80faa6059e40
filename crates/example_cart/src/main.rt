//! A shop: carts, logins and the states of devices, while nodes go down and come back.
#![tactic(auto)]

ghost use Rattle.std.specs.{Prelude.{IfOk, List}, List.{All, Contains}};
ghost use Rattle.dy_cluster.specs.{
  Ends.{IsClosed},
  Guarantees.{GivesNothingDeleted, ReadsOwnWrites},
  Stores.{AreCovering},
};
ghost use Rattle.dy_core.specs.declared.acks.Acked.{Acked};
ghost use Rattle.dy_shares.specs.Shares.{SessionPart};
ghost use Rattle.dy_book.specs.Audits.{ListsAck};

mod carts;
mod shoppers;
mod shops;
mod states;

use crate::carts::text_at;
use crate::shops::Shop;
use dy_clients::{
    ClientsDone, Fault, Open, Options, Ring, session_guarantees, with_clients, with_workers,
};
use std::alloc::Global;
use std::sync::Wait;
use std::sync::atomic::{AtomicUsize, Ordering};
use std::thread::Threads;

fn main(rt: HostRuntime) -> std::io::Result<()> {
    for by_workers in [false, true] {
        let (gone, found) = (AtomicUsize::new(0), AtomicUsize::new(0));
        let shop = Shop { gone, found };
        match open(&rt, rt.alloc(), by_workers, &shop) {
            Ok(done) => tell(&rt, &shop, &done)?,
            Err(fault) => println!(rt; "refused: {fault}")?,
        }
    }
    Ok(())
}

/// Prints which clients were refused, what the last client found, and of each key that its homes
/// alone hold what they have.
fn tell(rt: &HostRuntime, shop: &Shop, done: &ClientsDone) -> std::io::Result<()> {
    for (number, answer) in done.answers.iter().enumerate() {
        if let Err(fault) = answer {
            println!(rt; "client {number}: {fault}")?;
        }
    }
    let closed = &done.closed;
    let (puts, gets) = (closed.audit.acks, closed.audit.gets);
    let found = shop.found.load(Ordering::SeqCst);
    println!(rt;
        "{puts} puts acknowledged, {gets} gets answered, {found} found by the last client"
    )?;
    for key in &closed.audit.settled {
        let name = std::str::from_utf8(key.as_bytes()).unwrap_or("?");
        match text_at(rt.alloc(), closed, key) {
            Ok(text) => println!(rt; "{name}: [{text}]")?,
            Err(fault) => println!(rt; "{name}: {fault}")?,
        }
    }
    Ok(())
}

/// A cluster of five nodes, with three homes a key.
fn open<R: Threads + Wait + Sync>(
    rt: &R,
    alloc: Global,
    by_workers: bool,
    shop: &Shop,
) -> Result<ClientsDone, Fault> {
    let ring = Ring::derived(alloc, 5, 8)?;
    run(rt, alloc, ring, Options::of(3, 2, 2), by_workers, shop)
}

/// Runs the clients, over the nodes' workers or without, and closes the cluster: what was
/// acknowledged is in the nodes' stores at the end, at as many of its homes as its put named; each
/// client's gets had what the client put before, where homes enough answered themselves; and no get
/// that had a deletion gave what was deleted.
fn run<R: Threads + Wait + Sync>(
    rt: &R,
    alloc: Global,
    ring: Ring,
    options: Options,
    by_workers: bool,
    shop: &Shop,
) -> Result<ClientsDone, Fault>
    ensures covered { IfOk result (λ done. (x : Acked) → ListsAck done.closed.audit x →
        AreCovering ring options.n done.closed.rests.items x.key x.dot x.w) }
    ensures own_writes { IfOk result (λ done. (tellings : List SessionPart)
        × IsClosed ring options.n options.r tellings done.closed
        × All (ReadsOwnWrites ring options.n options.r) tellings) }
    ensures deleted { IfOk result (λ done. (tellings : List SessionPart)
        × IsClosed ring options.n options.r tellings done.closed
        × ((other : SessionPart) → Contains tellings other →
        All (GivesNothingDeleted other) tellings)) }
{
    session_guarantees();
    if by_workers {
        return with_workers(rt, alloc, ring, options, &Open, 5, shop);
    }
    with_clients(rt, alloc, ring, options, 5, shop)
}
