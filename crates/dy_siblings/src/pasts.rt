ghost use Rattle.std.specs.Prelude.{◌≡◌, IfOk, OnOk, IsOkUnless};
ghost use Rattle.std.specs.FinSet as set;
ghost use Rattle.dy_siblings.specs.{Siblings.{is_past}, inside.Merging.{both_pasts, with_pasts}};

use crate::versions::Version;
use dy_dots::{Context, Dot, Fault};
use std::alloc::Global;
use std::marker::Model;

// How many versions are asked one by one, which takes no memory.
const FEW: usize = 4;

// The dots that the versions of two lists follow.
#[derive(Drop)]
pub(crate) struct Pasts<'a> {
    a: &'a [Version],
    b: &'a [Version],
    // All of them in one set, where the versions are more than a few.
    united: Option<Context>,
}

impl<'a> Model for Pasts<'a> {
    ghost use Rattle.std.specs.Prelude.{◌≡◌, IfSome};
    ghost use Rattle.dy_dots.specs.Dots.{DotSet, dot_set_code};
    ghost use Rattle.dy_siblings.specs.inside.Merging.{both_pasts};

    ghost Value = { DotSet };

    ghost coded = { dot_set_code };

    ghost view = { λ p. both_pasts p.a.now p.b.now };

    ghost invariant = { λ p. IfSome p.united (λ all. all ≡ both_pasts p.a.now p.b.now) };
}

impl<'a> Pasts<'a> {
    /// The dots that these versions follow. Takes no memory where they are a few.
    pub(crate) fn of(alloc: Global, a: &'a [Version], b: &'a [Version]) -> Result<Pasts<'a>, Fault>
        ensures ok { IfOk result (λ pasts. pasts ≡ both_pasts a.now b.now) }
        ensures memory { IsOkUnless result Fault.OutOfMemory }
    {
        if a.len().saturating_add(b.len()) <= FEW {
            return Ok(Pasts { a, b, united: None });
        }
        let mut all = Context::new(alloc);
        add_pasts(alloc, &mut all, a)?;
        add_pasts(alloc, &mut all, b)?;
        Ok(Pasts {
            a,
            b,
            united: Some(all),
        })
    }

    /// Whether a version follows the dot. Takes no memory.
    pub(crate) fn contains(&self, dot: Dot) -> bool
        ensures { result ≡ set.contains self.now dot }
    {
        match &self.united {
            Some(all) => all.contains(dot),
            None => is_past(self.a, dot) || is_past(self.b, dot),
        }
    }
}

// Whether the dot lies in the past of one of the versions.
fn is_past(versions: &[Version], dot: Dot) -> bool
    ensures { result ≡ is_past versions.now dot }
{
    versions.iter().any(|version| version.past().contains(dot))
}

// Adds the versions' pasts.
fn add_pasts(alloc: Global, past: &mut Context, versions: &[Version]) -> Result<(), Fault>
    ensures ok { OnOk result (past.new ≡ with_pasts past.old versions.now) }
    ensures memory { IsOkUnless result Fault.OutOfMemory }
{
    for version in versions {
        add_past(alloc, past, version)?;
    }
    Ok(())
}

/// Adds the version's past.
pub(crate) fn add_past(alloc: Global, past: &mut Context, version: &Version) -> Result<(), Fault>
    ensures ok { OnOk result (past.new ≡ set.union past.old version.now.past) }
    ensures memory { IsOkUnless result Fault.OutOfMemory }
{
    if version.past().is_empty() {
        return Ok(());
    }
    past.union(alloc, version.past())?;
    Ok(())
}
