ghost use Rattle.std.specs.Prelude.{◌≡◌};
ghost use Rattle.dy_lines.specs.declared.stops.Stopped.{Stopped};

use crate::refusals::Refusal;
use dy_dots::Fault;
use std::error::Error;
use std::{fmt, io};

/// Why a run, or the printing of a ring, ended before its last line.
#[derive(Debug, Drop)]
pub enum Stopped {
    /// The script, its ring, a limit or its quorum was refused, or memory ran out.
    Refused(Fault),
    /// The output could not be written.
    Output(io::Error),
}

impl fmt::Display for Stopped {
    ghost use Rattle.dy_lines.specs.Stops.{stopped_text};

    ghost output = { λ stopped. stopped_text stopped };

    fn fmt<W: fmt::Write>(&self, f: &mut fmt::Formatter<W>) -> fmt::Result {
        match self {
            Stopped::Refused(refused) => write!(f, "{}", Refusal(*refused)),
            Stopped::Output(error) => write!(f, "{error}"),
        }
    }
}

impl Error for Stopped {}

impl From<Fault> for Stopped {
    ghost from_gives = { λ fault stopped. stopped ≡ Stopped.Refused fault };

    fn from(fault: Fault) -> Stopped {
        Stopped::Refused(fault)
    }
}

impl From<io::Error> for Stopped {
    ghost from_gives = { λ error stopped. stopped ≡ Stopped.Output error };

    fn from(error: io::Error) -> Stopped {
        Stopped::Output(error)
    }
}
