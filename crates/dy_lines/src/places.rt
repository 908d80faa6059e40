ghost use Rattle.std.specs.Prelude.{◌≡◌, IfSome, Some};
ghost use Rattle.dy_core.specs.Steps.{place_for};
ghost use Rattle.dy_lines.specs.Places.{answer_text, place_text};

use crate::listed::Item;
use dy_core::{AnswerRead, Place};
use dy_dots::NodeId;
use std::fmt;

/// A place that prints as its holder, a stroke, and its home: the one type that prints the two.
#[derive(Clone, Copy, Debug)]
pub struct At(pub Place);

impl fmt::Display for At {
    ghost output = { λ at. Some (place_text at.0) };

    fn fmt<W: fmt::Write>(&self, f: &mut fmt::Formatter<W>) -> fmt::Result {
        let Place { holder, home } = self.0;
        if holder == home {
            if let Some(text) = own(home) {
                return f.write_str(text);
            }
        }
        fmt::Display::fmt(&holder, f)?;
        f.write_str("/")?;
        fmt::Display::fmt(&home, f)
    }
}

// The text of the node's own place, where its number has one digit.
fn own(node: NodeId) -> Option<&'static str>
    ensures { IfSome result (λ text. text.now ≡ place_text (place_for node node)) }
{
    match node.number() {
        0 => Some("0/0"),
        1 => Some("1/1"),
        2 => Some("2/2"),
        3 => Some("3/3"),
        4 => Some("4/4"),
        5 => Some("5/5"),
        6 => Some("6/6"),
        7 => Some("7/7"),
        8 => Some("8/8"),
        9 => Some("9/9"),
        _ => None,
    }
}

impl Item for Place {
    ghost text = { place_text };

    fn write<W: fmt::Write>(&self, f: &mut fmt::Formatter<W>) -> fmt::Result {
        fmt::Display::fmt(&At(*self), f)
    }
}

impl Item for AnswerRead {
    ghost text = { answer_text };

    fn write<W: fmt::Write>(&self, f: &mut fmt::Formatter<W>) -> fmt::Result {
        fmt::Display::fmt(&At(self.place), f)?;
        f.write_str("=")?;
        fmt::Display::fmt(&self.kind, f)
    }
}
