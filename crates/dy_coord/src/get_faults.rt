ghost use Rattle.std.specs.Prelude.{◌≡◌, []};

use dy_core::AnswerVec;
use dy_dots::Fault;
use std::alloc::Global;

/// A get that was refused. Where too few homes answered it lists every answer that was read; any
/// other refusal lists none.
#[derive(Debug, Drop)]
pub struct GetFault {
    pub fault: Fault,
    pub answers: AnswerVec,
}

impl From<GetFault> for Fault {
    ghost from_gives = { λ refused fault. fault ≡ refused.fault };

    fn from(refused: GetFault) -> Fault {
        refused.fault
    }
}

impl GetFault {
    /// A refusal that lists no answers. Takes no memory.
    pub fn without_answers(alloc: Global, fault: Fault) -> GetFault
        ensures fault { result.fault ≡ fault }
        ensures answers { result.answers.items ≡ [] }
    {
        GetFault {
            fault,
            answers: AnswerVec::new(alloc),
        }
    }
}
