ghost use Rattle.std.specs.Prelude.{◌≡◌, ◌+◌, ◌≤◌, IsTrue, MatchOption};
ghost use Rattle.std.specs.FinSet as set;
ghost use Rattle.dy_core.specs.{
  Worlds.{is_issued},
  inside.Meanings.{AreIssuedBelow, IsFirstUnissued},
  Listings.{IsLeastUnknown},
};
ghost use Rattle.dy_dots.specs.{
  declared.dots.Dot.{Dot as DotParts},
  declared.dots.TheConstants.{MAX_COUNTER},
};

use crate::issuing;
use dy_dots::{Context, Dot, Run};
use dy_siblings::{Key, Version};

// The least dot of the run that is of none of these versions of the key.
fn first_in(versions: &[Version], key: &Key, run: &Run) -> Option<Dot>
    requires low { 1 ≤ run.now.first }
    requires high { run.now.last ≤ MAX_COUNTER }
    ensures { MatchOption result (AreIssuedBelow versions.now key.now run.now (run.now.last + 1))
        (IsFirstUnissued versions.now key.now run.now) }
{
    for counter in run.first..run.last + 1 {
        let dot = Dot::new(run.node, counter).unwrap();
        if !issuing::is_among(versions, key, dot) {
            return Some(dot);
        }
    }
    None
}

/// The least dot of the context that is of none of these versions of the key. Takes no memory.
pub(crate) fn least(versions: &[Version], key: &Key, context: &Context) -> Option<Dot>
    ensures { MatchOption result
        ((d : DotParts) → IsTrue (set.contains context.now d) →
        IsTrue (is_issued versions.now key.now d))
        (IsLeastUnknown versions.now key.now context.now) }
{
    let runs = context.runs();
    for run in runs {
        match first_in(versions, key, run) {
            Some(dot) => return Some(dot),
            None => {}
        }
    }
    None
}
