ghost use Rattle.std.specs.Prelude.{◌≡◌};
ghost use Rattle.dy_transport.specs.Kinds.{fault_number, kind_of};

use dy_core::AnswerKind;
use dy_dots::Fault;
use dy_node::Answer;
use dy_shares::Naming;

/// The kind of an answer. Takes no memory.
pub fn kind_of<J: Naming>(answer: &Answer<J>) -> AnswerKind
    ensures { result ≡ kind_of answer.now }
{
    match answer {
        Answer::Stored(_) => AnswerKind::Stored,
        Answer::Rows(_) => AnswerKind::Rows,
        Answer::Down => AnswerKind::Down,
        Answer::NoAnswer => AnswerKind::NoAnswer,
        Answer::Refused(fault) => AnswerKind::Refused(number_of(*fault)),
    }
}

// The number that the text of a refusal begins with.
fn number_of(fault: Fault) -> u8
    ensures { result ≡ fault_number fault }
{
    match fault {
        Fault::OutOfMemory => 0,
        Fault::ContextSyntax => 1,
        Fault::KeySize => 2,
        Fault::ValueSize => 3,
        Fault::TokenClash { position: _ } => 4,
        Fault::NodeWithoutToken { node: _ } => 5,
        Fault::TooMany => 6,
        Fault::CounterFull => 7,
        Fault::ContextUnknown { dot: _ } => 8,
        Fault::VersionsFull => 9,
        Fault::NotIssued { dot: _ } => 10,
        Fault::SharesMissing => 11,
        Fault::StepsFull => 12,
        Fault::Down => 13,
        Fault::NoNode => 14,
        Fault::NotEnough => 15,
        Fault::BadQuorum => 16,
        Fault::ScriptSyntax { command: _ } => 17,
        Fault::UnknownCommand { command: _ } => 18,
    }
}
