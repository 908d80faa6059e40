use crate::printed::Position;
use dy_dots::Fault;
use std::fmt;

/// A refusal that prints as its number, its name, and what it tells.
#[derive(Clone, Copy, Debug, PartialEq, Eq)]
pub struct Refusal(pub Fault);

impl fmt::Display for Refusal {
    ghost use Rattle.std.specs.Prelude.{Some};
    ghost use Rattle.dy_lines.specs.Refusals.{refusal_text};

    ghost output = { λ refusal. Some (refusal_text refusal.0) };

    fn fmt<W: fmt::Write>(&self, f: &mut fmt::Formatter<W>) -> fmt::Result {
        match self.0 {
            Fault::OutOfMemory => f.write_str("E0 OutOfMemory"),
            Fault::ContextSyntax => f.write_str("E1 ContextSyntax"),
            Fault::KeySize => f.write_str("E2 KeySize"),
            Fault::ValueSize => f.write_str("E3 ValueSize"),
            Fault::TokenClash { position } => write!(f, "E4 TokenClash {}", Position(position)),
            Fault::NodeWithoutToken { node } => write!(f, "E5 NodeWithoutToken {node}"),
            Fault::TooMany => f.write_str("E6 TooMany"),
            Fault::CounterFull => f.write_str("E7 CounterFull"),
            Fault::ContextUnknown { dot } => write!(f, "E8 ContextUnknown {dot}"),
            Fault::VersionsFull => f.write_str("E9 VersionsFull"),
            Fault::NotIssued { dot } => write!(f, "E10 NotIssued {dot}"),
            Fault::SharesMissing => f.write_str("E11 SharesMissing"),
            Fault::StepsFull => f.write_str("E12 StepsFull"),
            Fault::Down => f.write_str("E13 Down"),
            Fault::NoNode => f.write_str("E14 NoNode"),
            Fault::NotEnough => f.write_str("E15 NotEnough"),
            Fault::BadQuorum => f.write_str("E16 BadQuorum"),
            Fault::ScriptSyntax { command } => write!(f, "E17 ScriptSyntax {command}"),
            Fault::UnknownCommand { command } => write!(f, "E18 UnknownCommand {command}"),
        }
    }
}
