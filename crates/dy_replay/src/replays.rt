ghost use Rattle.std.specs.Prelude.{◌≡◌, ◌≤◌, ℕ, List, IfOk, IsOkUnless};
ghost use Rattle.dy_shares.specs.Shares.{SessionPart};
ghost use Rattle.dy_cluster.specs.Ends.{AtRest, IsClosed, IsEndOf};
ghost use Rattle.dy_replay.specs.Replays.{log_of};

use crate::playing::play;
use dy_cluster::Closed;
use dy_core::World;
use dy_dots::Fault;
use dy_ring::Ring;
use std::alloc::Global;

/// Plays each step of a cluster that was closed, from the first to the last, on an empty world of
/// its ring, with n homes a key. It is slow: a step looks through lists of all that the world has.
pub fn replay(alloc: Global, ring: Ring, n: u8, closed: &Closed) -> Result<World, Fault>
    requires some { 1 ≤ n }
    requires enough { n ≤ ring.nodes }
    requires ended { (r : ℕ) × (tellings : List SessionPart)
        × IsClosed ring n r tellings closed.now }
    ensures world { (r : ℕ) (c : AtRest) (tellings : List SessionPart) →
        IsEndOf ring n r c tellings closed.now →
        IfOk result (λ world. world ≡ log_of ring n c) }
    ensures memory { IsOkUnless result Fault.OutOfMemory }
{
    let world = play(alloc, ring, n, &closed.audit.history)?;
    Ok(world)
}
