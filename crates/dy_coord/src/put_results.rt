ghost use Rattle.std.specs.Prelude.{◌≡◌, [], None, length};
ghost use Rattle.dy_shares.specs.Shares.{own_homes};

use dy_core::AnswerVec;
use dy_dots::{Dot, Fault};
use dy_shares::{Naming, Receipt};
use std::alloc::Global;

/// A put that was acknowledged: its dot, the number of the ack's step, and the receipts that were
/// spent for it. It lists every answer that was read, the coordinator's own first.
#[derive(Drop)]
pub struct PutDone<J: Naming> {
    pub dot: Dot,
    pub at: usize,
    pub spent: Vec<Receipt<J>>,
    pub answers: AnswerVec,
}

impl<J: Naming> PutDone<J> {
    /// How many of the homes that it was acknowledged for hold the version themselves, not by a
    /// stand-in. Takes no memory.
    pub fn homes_themselves(&self) -> usize
        ensures { result ≡ length (own_homes self.now.spent.items) }
    {
        let mut count = 0;
        for receipt in self.spent.as_slice() {
            if receipt.holder() == receipt.home() {
                count += 1;
            }
        }
        count
    }
}

/// A put that was refused, with its dot if a version was made. Where too few homes have the version
/// it lists every answer that was read, the coordinator's own first; any other refusal lists none.
#[derive(Debug, Drop)]
pub struct PutFault {
    pub fault: Fault,
    pub dot: Option<Dot>,
    pub answers: AnswerVec,
}

impl From<PutFault> for Fault {
    ghost from_gives = { λ refused fault. fault ≡ refused.fault };

    fn from(refused: PutFault) -> Fault {
        refused.fault
    }
}

impl PutFault {
    /// Refused before a version was made, so with no answer to list. Takes no memory.
    pub fn early(alloc: Global, fault: Fault) -> PutFault
        ensures fault { result.fault ≡ fault }
        ensures dot { result.dot ≡ None }
        ensures answers { result.answers.items ≡ [] }
    {
        PutFault {
            fault,
            dot: None,
            answers: AnswerVec::new(alloc),
        }
    }
}
