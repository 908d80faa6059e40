ghost use Rattle.std.specs.Prelude.{◌≡◌, ◌↔◌, ◌⊎◌, IfOk, IfErr, IsErrOf, IsOkUnless};
ghost use Rattle.dy_book.specs.Limits.{AreLimits, IsQuorum};

use dy_book::Options;
use dy_dots::Fault;
use dy_ring::Ring;
use dy_shares::Blank;
use std::alloc::Global;

/// What a cluster is opened with: a ring, options that fit it, and an empty log. The cluster's book
/// is named after this log.
#[derive(Drop)]
pub struct Opened {
    pub blank: Blank,
    pub ring: Ring,
    pub options: Options,
    pub ghost limits: { AreLimits options },
    pub ghost quorum: { IsQuorum options ring.nodes },
}

impl Opened {
    /// Refuses limits that are out of range, and then numbers of homes and answers that don't fit
    /// the ring.
    pub fn new(alloc: Global, ring: Ring, options: Options) -> Result<Opened, Fault>
        ensures ring { IfOk result (λ opened. opened.ring ≡ ring) }
        ensures options { IfOk result (λ opened. opened.options ≡ options) }
        ensures too_many { IsErrOf result Fault.TooMany ↔ ¬ (AreLimits options) }
        ensures bad_quorum { IsErrOf result Fault.BadQuorum
            ↔ (AreLimits options × ¬ (IsQuorum options ring.nodes)) }
        ensures memory { AreLimits options → IsQuorum options ring.nodes →
            IsOkUnless result Fault.OutOfMemory }
        ensures only { IfErr result (λ fault. (fault ≡ Fault.TooMany)
            ⊎ (fault ≡ Fault.BadQuorum) ⊎ (fault ≡ Fault.OutOfMemory)) }
    {
        if !options.has_limits() {
            return Err(Fault::TooMany);
        }
        if !options.is_quorum(ring.nodes()) {
            return Err(Fault::BadQuorum);
        }
        match Blank::new(alloc) {
            Ok(blank) => Ok(Opened {
                blank,
                ring,
                options,
            }),
            Err(_fault) => Err(Fault::OutOfMemory),
        }
    }
}
