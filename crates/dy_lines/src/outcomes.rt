ghost use Rattle.std.specs.{Prelude.{◌≡◌}, List.{list_any}};
ghost use Rattle.dy_lines.specs.Outcomes.{is_present};

use crate::keeping::{AllKept, Kept};
use crate::listed::Listed;
use crate::printed::Hex;
use crate::refusals::Refusal;
use dy_core::{AnswerVec, PlaceVec};
use dy_dots::{Context, Dot, Fault, NodeId};
use dy_siblings::{Row, Version};
use std::fmt;

/// The word that a command's line begins with.
#[derive(Clone, Copy, Debug, PartialEq, Eq)]
pub enum Word {
    Put,
    Delete,
    Get,
    Down,
    Up,
    SetMode,
    Deliver,
    Handoff,
    Show,
}

impl fmt::Display for Word {
    ghost use Rattle.std.specs.Prelude.{Some};
    ghost use Rattle.dy_lines.specs.Outcomes.{word_text};

    ghost output = { λ word. Some (word_text word) };

    fn fmt<W: fmt::Write>(&self, f: &mut fmt::Formatter<W>) -> fmt::Result {
        match self {
            Word::Put => f.write_str("put"),
            Word::Delete => f.write_str("delete"),
            Word::Get => f.write_str("get"),
            Word::Down => f.write_str("down"),
            Word::Up => f.write_str("up"),
            Word::SetMode => f.write_str("fault"),
            Word::Deliver => f.write_str("deliver"),
            Word::Handoff => f.write_str("handoff"),
            Word::Show => f.write_str("show"),
        }
    }
}

/// Versions that print as their present values, each behind a blank with its dot, or as `none`
/// where none is present.
#[derive(Clone, Copy, Debug)]
pub struct Values<'a>(pub &'a [Version]);

impl fmt::Display for Values<'_> {
    ghost use Rattle.std.specs.Prelude.{Some};
    ghost use Rattle.dy_lines.specs.Outcomes.{values_text};

    ghost output = { λ values. Some (values_text values.0.now) };

    fn fmt<W: fmt::Write>(&self, f: &mut fmt::Formatter<W>) -> fmt::Result {
        if !has_values(self.0) {
            return f.write_str(" none");
        }
        for version in self.0 {
            if let Some(value) = version.value() {
                f.write_str(" ")?;
                fmt::Display::fmt(&version.dot(), f)?;
                f.write_str("=")?;
                fmt::Display::fmt(&Hex(value.as_bytes()), f)?;
            }
        }
        Ok(())
    }
}

/// Whether one of the versions stores a value, and is no deletion.
fn has_values(versions: &[Version]) -> bool
    ensures { result ≡ list_any is_present versions.now }
{
    versions.iter().any(|version| version.value().is_some())
}

/// What came of a command, as its line tells it.
#[derive(Debug, Drop)]
pub enum Outcome {
    /// A put or a delete was acknowledged: its dot, and every answer that was read.
    Stored {
        word: Word,
        dot: Dot,
        answers: AnswerVec,
    },
    /// A get was answered: its context, whose rows were used, and the merged row.
    Read {
        context: Context,
        from: PlaceVec,
        row: Row,
    },
    /// Too few homes answered: the dot of a put or a delete, and every answer that was read.
    Lacking {
        word: Word,
        dot: Option<Dot>,
        answers: AnswerVec,
    },
    /// The command was refused, a put or a delete maybe after its version was made.
    Refused {
        word: Word,
        fault: Fault,
        after: Option<Dot>,
    },
    /// The command was done, and there is nothing more to tell.
    Done {
        word: Word,
    },
    /// So many kept messages were stored.
    Delivered {
        count: usize,
    },
    /// A pass made so many offers; receipts came for so many of them, and so many dots left hints.
    HandedOver {
        offers: usize,
        stored: usize,
        released: usize,
    },
    /// What the node keeps of a key.
    Shown {
        node: NodeId,
        kept: Vec<Kept>,
    },
}

impl fmt::Display for Outcome {
    ghost use Rattle.std.specs.Prelude.{Some};
    ghost use Rattle.dy_lines.specs.Outcomes.{outcome_text};

    ghost output = { λ outcome. Some (outcome_text outcome) };

    fn fmt<W: fmt::Write>(&self, f: &mut fmt::Formatter<W>) -> fmt::Result {
        match self {
            Outcome::Stored { word, dot, answers } => {
                write!(f, "{word} ok {dot} answers{}", Listed(answers.as_slice()))
            }
            Outcome::Read { context, from, row } => {
                let from = Listed(from.as_slice());
                let values = Values(row.versions());
                write!(f, "get ok context {context} from{from} values{values}")
            }
            Outcome::Lacking { word, dot, answers } => {
                let answers = Listed(answers.as_slice());
                let refusal = Refusal(Fault::NotEnough);
                let told = DotBehind {
                    words: " ",
                    dot: *dot,
                };
                write!(f, "{word} {refusal}{told} answers{answers}")
            }
            Outcome::Refused { word, fault, after } => {
                let after = DotBehind {
                    words: " after ",
                    dot: *after,
                };
                write!(f, "{word} {}{after}", Refusal(*fault))
            }
            Outcome::Done { word } => write!(f, "{word} ok"),
            Outcome::Delivered { count } => write!(f, "deliver ok {count}"),
            Outcome::HandedOver {
                offers,
                stored,
                released,
            } => write!(
                f,
                "handoff ok offers {offers} stored {stored} released {released}"
            ),
            Outcome::Shown { node, kept } => {
                let kept = AllKept {
                    node: *node,
                    kept: kept.as_slice(),
                };
                write!(f, "show {node} own {kept}")
            }
        }
    }
}

// A dot that prints behind these words, where there is one.
#[derive(Clone, Copy)]
struct DotBehind<'a> {
    words: &'a str,
    dot: Option<Dot>,
}

impl fmt::Display for DotBehind<'_> {
    ghost use Rattle.std.specs.Prelude.{Some};
    ghost use Rattle.dy_lines.specs.Outcomes.{dot_behind};

    ghost output = { λ behind. Some (dot_behind behind.words.now behind.dot) };

    fn fmt<W: fmt::Write>(&self, f: &mut fmt::Formatter<W>) -> fmt::Result {
        match self.dot {
            Some(dot) => write!(f, "{}{dot}", self.words),
            None => Ok(()),
        }
    }
}

/// The line of a command: its number, from 1, and what came of it.
#[derive(Clone, Copy, Debug)]
pub struct CommandLine<'a> {
    pub number: usize,
    pub outcome: &'a Outcome,
}

impl fmt::Display for CommandLine<'_> {
    ghost use Rattle.std.specs.Prelude.{Some};
    ghost use Rattle.dy_lines.specs.Outcomes.{command_text};

    ghost output = { λ line. Some (command_text line.number line.outcome.now) };

    fn fmt<W: fmt::Write>(&self, f: &mut fmt::Formatter<W>) -> fmt::Result {
        write!(f, "{} {}", self.number, self.outcome)
    }
}
