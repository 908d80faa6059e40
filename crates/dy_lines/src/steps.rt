use crate::listed::Listed;
use crate::places::At;
use crate::printed::Hex;
use dy_shares::KeptStep;
use dy_siblings::Value;
use std::fmt;

// What a version stores prints as `value`, and its bytes behind a blank where there are some. A
// deletion prints as `deleted`.
#[derive(Clone, Copy)]
struct Written<'a>(Option<&'a Value>);

impl fmt::Display for Written<'_> {
    ghost use Rattle.std.specs.Prelude.{Some, option_copied};
    ghost use Rattle.dy_lines.specs.Steps.{written_text};

    ghost output = { λ written. Some (written_text (option_copied written.0)) };

    fn fmt<W: fmt::Write>(&self, f: &mut fmt::Formatter<W>) -> fmt::Result {
        match self.0 {
            Some(value) if value.as_bytes().is_empty() => f.write_str("value"),
            Some(value) => write!(f, "value {}", Hex(value.as_bytes())),
            None => f.write_str("deleted"),
        }
    }
}

// What is kept of a step prints as the kind of the step and its parts.
#[derive(Clone, Copy)]
struct StepText<'a> {
    step: &'a KeptStep,
    session: usize,
}

impl fmt::Display for StepText<'_> {
    ghost use Rattle.std.specs.Prelude.{Some};
    ghost use Rattle.dy_lines.specs.Steps.{kept_text};

    ghost output = { λ text. Some (kept_text text.session text.step.now) };

    fn fmt<W: fmt::Write>(&self, f: &mut fmt::Formatter<W>) -> fmt::Result {
        match self.step {
            KeptStep::Issued { version } => {
                let dot = version.dot();
                let key = Hex(version.key().as_bytes());
                let past = version.past();
                let written = Written(version.value());
                let node = dot.node();
                write!(f, "issue {node} {key} {dot} behind {past} {written}")
            }
            KeptStep::Held { place, run, key } => {
                let (key, node) = (Hex(key.as_bytes()), run.node);
                write!(f, "hold {} {key} n{node}:{run}", At(*place))
            }
            KeptStep::HeldRuns { place, key, dots } => {
                write!(f, "hold {} {} {dots}", At(*place), Hex(key.as_bytes()))
            }
            KeptStep::Released { place, dot, key } => {
                write!(f, "release {} {} {dot}", At(*place), Hex(key.as_bytes()))
            }
            KeptStep::Fetched { place, key } => {
                write!(f, "fetch {} {}", At(*place), Hex(key.as_bytes()))
            }
            KeptStep::Acked { w, dot, key } => {
                let (key, session) = (Hex(key.as_bytes()), self.session);
                write!(f, "ack {key} {dot} w {w} session {session}")
            }
        }
    }
}

/// The line of a step: its number, from 1, what is kept of it, and, of an ack, the number of the
/// session that was told of it.
#[derive(Clone, Copy, Debug)]
pub struct StepLine<'a> {
    pub number: usize,
    pub step: &'a KeptStep,
    pub session: usize,
}

impl fmt::Display for StepLine<'_> {
    ghost use Rattle.std.specs.Prelude.{Some};
    ghost use Rattle.dy_lines.specs.Steps.{step_text};

    ghost output = { λ line. Some (step_text line.number line.session line.step.now) };

    fn fmt<W: fmt::Write>(&self, f: &mut fmt::Formatter<W>) -> fmt::Result {
        let (step, session) = (self.step, self.session);
        write!(f, "step {} {}", self.number, StepText { step, session })
    }
}

/// The line of an answered get: the numbers of the fetches that it used, and the number of the
/// session that was told their rows.
#[derive(Clone, Copy, Debug)]
pub struct ToldLine<'a> {
    pub fetches: &'a [usize],
    pub session: usize,
}

impl fmt::Display for ToldLine<'_> {
    ghost use Rattle.std.specs.Prelude.{Some};
    ghost use Rattle.dy_lines.specs.Steps.{told_text};

    ghost output = { λ line. Some (told_text line.fetches.now line.session) };

    fn fmt<W: fmt::Write>(&self, f: &mut fmt::Formatter<W>) -> fmt::Result {
        write!(f, "told{} session {}", Listed(self.fetches), self.session)
    }
}
