ghost use Rattle.std.specs.{Prelude.{List, Some, decimal, ℕ}, Fmt.{DisplaysOnOk}};
ghost use Rattle.dy_lines.specs.Texts.{listed_text};

use dy_dots::NodeId;
use std::fmt;

/// What a line may list.
pub trait Item {
    // Its text.
    ghost text: { Self → List ℕ };

    /// Writes its text.
    fn write<W: fmt::Write>(&self, f: &mut fmt::Formatter<W>) -> fmt::Result
        ensures { DisplaysOnOk W.write_str_gives f.old result (Some (text self.now)) f.new };
}

impl Item for NodeId {
    ghost text = { λ node. decimal node };

    fn write<W: fmt::Write>(&self, f: &mut fmt::Formatter<W>) -> fmt::Result {
        fmt::Display::fmt(&self.number(), f)
    }
}

impl Item for usize {
    ghost text = { λ number. decimal number };

    fn write<W: fmt::Write>(&self, f: &mut fmt::Formatter<W>) -> fmt::Result {
        fmt::Display::fmt(self, f)
    }
}

/// Items that print each behind a blank.
#[derive(Clone, Copy, Debug)]
pub struct Listed<'a, T>(pub &'a [T]);

impl<T: Item> fmt::Display for Listed<'_, T> {
    ghost output = { λ listed. Some (listed_text T.text listed.0.now) };

    fn fmt<W: fmt::Write>(&self, f: &mut fmt::Formatter<W>) -> fmt::Result {
        for item in self.0 {
            f.write_str(" ")?;
            item.write(f)?;
        }
        Ok(())
    }
}
