use crate::places::Place;
use smallvec::SmallVec;
use std::fmt;

/// The kind of an answer, without its content. It prints as `stored`, `rows`, `down` or `noanswer`,
/// or as the number of the refusal, as `E12`.
#[derive(Clone, Copy, Debug, Default, PartialEq, Eq)]
pub enum AnswerKind {
    Stored,
    Rows,
    Down,
    #[default]
    NoAnswer,
    Refused(u8),
}

impl fmt::Display for AnswerKind {
    ghost use Rattle.std.specs.Prelude.{Some};
    ghost use Rattle.dy_core.specs.Answers.{kind_text};

    ghost output = { λ kind. Some (kind_text kind) };

    fn fmt<W: fmt::Write>(&self, f: &mut fmt::Formatter<W>) -> fmt::Result {
        let word = match self {
            AnswerKind::Stored => "stored",
            AnswerKind::Rows => "rows",
            AnswerKind::Down => "down",
            AnswerKind::NoAnswer => "noanswer",
            AnswerKind::Refused(number) => return write!(f, "E{number}"),
        };
        f.write_str(word)
    }
}

/// An answer as a call lists it: its node, its home and its kind.
#[derive(Clone, Copy, Debug, Default, PartialEq, Eq)]
pub struct AnswerRead {
    pub place: Place,
    pub kind: AnswerKind,
}

/// The answers of a call. Up to twelve lie in the value itself: two of each of six nodes.
pub type AnswerVec = SmallVec<AnswerRead, 12>;
