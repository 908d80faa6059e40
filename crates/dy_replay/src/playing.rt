ghost use Rattle.std.specs.Prelude.{◌≡◌, ◌≤◌, List, IfOk, IsOkUnless};
ghost use Rattle.dy_core.specs.{Worlds.{layout_of}, Logs.{IsLegal}, declared.steps.Step.{Step}};
ghost use Rattle.dy_book.specs.Audits.{IsHistoryOf};

use dy_book::History;
use dy_core::World;
use dy_dots::Fault;
use dy_ring::Ring;
use std::alloc::Global;

// The world after each step of the history, from the first to the last.
pub(crate) fn play(alloc: Global, ring: Ring, n: u8, history: &History) -> Result<World, Fault>
    requires some { 1 ≤ n }
    requires enough { n ≤ ring.nodes }
    requires legal { (steps : List Step) × IsHistoryOf history.now steps
        × IsLegal (layout_of ring n) steps }
    ensures log { (steps : List Step) → IsHistoryOf history.now steps →
        IfOk result (λ world. world ≡ record { ring = ring; n = n; steps = steps }) }
    ensures memory { IsOkUnless result Fault.OutOfMemory }
{
    let mut world = World::new(alloc, ring, n)?;
    for at in 0..history.len() {
        let step = history.step(alloc, at + 1)?;
        let _row = world.apply(alloc, step)?;
    }
    Ok(world)
}
