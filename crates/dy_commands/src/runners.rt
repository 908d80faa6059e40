ghost use Rattle.std.specs.Prelude.{◌≡◌, [], false, IfOk, IsOkUnless};
ghost use Rattle.dy_dots.specs.declared.nodes.TheConstants.{MAX_NODES};

use crate::seats::Seats;
use dy_cluster::{Cluster, DirectCalls};
use dy_dots::Fault;
use dy_shares::Naming;
use std::alloc::Global;

/// What runs the commands of a script: the calls of one transport, and which session is which.
#[derive(Drop)]
pub struct Runner<'a, J: Naming> {
    pub(crate) direct: DirectCalls<'a, J>,
    pub seats: Seats,
    ghost room: { direct.room ≡ MAX_NODES },
}

impl<'a, J: Naming> Runner<'a, J> {
    /// No session of the script is opened yet.
    pub fn new(alloc: Global, cluster: &'a Cluster<J>) -> Result<Runner<'a, J>, Fault>
        ensures none { IfOk result (λ runner. runner.seats.numbers.items ≡ []) }
        ensures asked { IfOk result (λ runner. runner.seats.refused ≡ false) }
        ensures memory { IsOkUnless result Fault.OutOfMemory }
    {
        let direct = cluster.direct_calls()?;
        let seats = Seats::new(alloc);
        Ok(Runner { direct, seats })
    }
}
