ghost use Rattle.std.specs.{Prelude.{◌≡◌, Some}, Fmt.{DisplaysOnOk}, List.{list_any}};
ghost use Rattle.dy_lines.specs.Keeping.{is_for, own_text};

use dy_dots::{Context, NodeId};
use std::fmt;

/// What a node keeps of a key for a home: the dots of the versions.
#[derive(Debug)]
pub struct Kept {
    pub home: NodeId,
    pub dots: Context,
}

impl Drop for Kept {
    fn drop(self) {
        let Kept { home: _, dots: _ } = self;
    }
}

/// What prints as the dots that the node keeps for itself, and behind them those for each other
/// home.
#[derive(Clone, Copy)]
pub(crate) struct AllKept<'a> {
    pub node: NodeId,
    pub kept: &'a [Kept],
}

impl fmt::Display for AllKept<'_> {
    ghost use Rattle.dy_lines.specs.Keeping.{all_kept_text};

    ghost output = { λ all. Some (all_kept_text all.node all.kept.now) };

    fn fmt<W: fmt::Write>(&self, f: &mut fmt::Formatter<W>) -> fmt::Result {
        self.write_own(f)?;
        for hint in self.kept {
            if hint.home != self.node {
                write!(f, " for {} {}", hint.home, hint.dots)?;
            }
        }
        Ok(())
    }
}

impl AllKept<'_> {
    // Writes the dots that the node keeps for itself.
    fn write_own<W: fmt::Write>(&self, f: &mut fmt::Formatter<W>) -> fmt::Result
        ensures { DisplaysOnOk W.write_str_gives f.old result
            (Some (own_text self.now.node self.now.kept.now)) f.new }
    {
        if !has_own(self.kept, self.node) {
            return f.write_str("-");
        }
        for own in self.kept {
            if own.home == self.node {
                write!(f, "{}", own.dots)?;
            }
        }
        Ok(())
    }
}

// Whether something is kept for this home.
fn has_own(kept: &[Kept], home: NodeId) -> bool
    ensures { result ≡ list_any (is_for home) kept.now }
{
    kept.iter().any(|one| one.home == home)
}
