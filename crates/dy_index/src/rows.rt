// The versions of a key that have these dots.
ghost use Rattle.std.specs.{
  Prelude.{◌≡◌, ◌≤◌, ◌++◌, ℕ, IfOk, OnOk, IsOkUnless},
  List.{filter},
  Option.{option_copied},
};
ghost use Rattle.dy_dots.specs.{Dots.{AreDots, DotSet}, Runs.{AreRunsOf, in_run}};
ghost use Rattle.dy_index.specs.{
  Indexes.{made_in},
  Lists.{AreCounted, list_at},
  Readings.{AreOfDots},
};

use crate::parts::KeyPart;
use dy_dots::{Fault, Run};
use dy_siblings::Version;
use std::alloc::Global;

// Adds the versions of the part that the run names.
fn add_run(
    alloc: Global,
    part: &KeyPart,
    run: &Run,
    versions: &mut Vec<Version>,
) -> Result<(), Fault>
    requires low { 1 ≤ run.now.first }
    requires counted { AreCounted run.now.node 0 (list_at part.now.made.items run.now.node) }
    ensures ok { OnOk result (versions.new.items ≡ versions.old.items
        ++ filter (λ v. in_run run.now v.dot) (list_at part.now.made.items run.now.node)) }
    ensures memory { IsOkUnless result Fault.OutOfMemory }
{
    let made = part.versions_by(run.node);
    let end = made.len().min(run.last as usize);
    let mut at = run.first as usize - 1;
    while at < end {
        versions.push(made[at].try_clone(alloc)?)?;
        at += 1;
    }
    Ok(())
}

/// The versions of the part that the runs name, in the order of their dots.
pub fn versions_of(
    alloc: Global,
    part: Option<&KeyPart>,
    runs: &[Run],
) -> Result<Vec<Version>, Fault>
    requires counted { (node : ℕ) → AreCounted node 0 (made_in (option_copied part) node) }
    requires of_dots { (dots : DotSet) × AreRunsOf runs.now dots × AreDots dots }
    ensures ok { (dots : DotSet) → AreRunsOf runs.now dots → IfOk result
        (λ versions. AreOfDots (made_in (option_copied part.entry)) dots versions.items) }
    ensures memory { IsOkUnless result Fault.OutOfMemory }
{
    let mut versions = Vec::new(alloc);
    let Some(known) = part else {
        return Ok(versions);
    };
    for run in runs {
        add_run(alloc, known, run, &mut versions)?;
    }
    Ok(versions)
}
