// The lines that only a store that serves lines prints.
use crate::refusals::Refusal;
use dy_dots::Fault;
use std::fmt;

/// A line with the number of its command.
#[derive(Clone, Copy, Debug, PartialEq, Eq)]
pub enum ServedLine {
    /// The command could not be read.
    Refused { number: u32, fault: Fault },
    /// A renewal carried over so many values.
    Renewed { number: u32, carried: usize },
}

impl fmt::Display for ServedLine {
    ghost use Rattle.std.specs.Prelude.{Some};
    ghost use Rattle.dy_lines.specs.Served.{served_text};

    ghost output = { λ line. Some (served_text line) };

    fn fmt<W: fmt::Write>(&self, f: &mut fmt::Formatter<W>) -> fmt::Result {
        match self {
            ServedLine::Refused { number, fault } => write!(f, "{number} {}", Refusal(*fault)),
            ServedLine::Renewed { number, carried } => write!(f, "{number} {}", Carried(*carried)),
        }
    }
}

// How many values a renewal carried over.
#[derive(Clone, Copy)]
struct Carried(usize);

impl fmt::Display for Carried {
    ghost use Rattle.std.specs.Prelude.{Some};
    ghost use Rattle.dy_lines.specs.Served.{carried_text};

    ghost output = { λ carried. Some (carried_text carried.0) };

    fn fmt<W: fmt::Write>(&self, f: &mut fmt::Formatter<W>) -> fmt::Result {
        write!(f, "renew ok carried {}", self.0)
    }
}
