ghost use Rattle.std.specs.Prelude.{◌≡◌, map, IfOk, IsOkUnless};
ghost use Rattle.dy_sheets.specs.Kept.{dots_in};

use dy_dots::{Dot, Fault};
use dy_siblings::Version;
use std::alloc::Global;

/// Dots in a list, which takes memory of its own from the second one on.
#[derive(Drop)]
pub enum DotList {
    Few(Option<Dot>),
    Many(Vec<Dot>),
}

impl DotList {
    /// The dots of the versions, in their order.
    #[inline(always)]
    pub fn of(alloc: Global, versions: &[Version]) -> Result<DotList, Fault>
        ensures value { IfOk result (λ dots. dots_in dots ≡ map (λ v. v.dot) versions.now) }
        ensures memory { IsOkUnless result Fault.OutOfMemory }
    {
        if versions.len() > 1 {
            return Ok(DotList::Many(many_of(alloc, versions)?));
        }
        Ok(DotList::Few(versions.first().map(|version| version.dot())))
    }

    /// The dots, in their order. Takes no memory.
    pub fn as_slice(&self) -> &[Dot]
        ensures { result.now ≡ dots_in self.now }
    {
        match self {
            DotList::Few(one) => one.as_slice(),
            DotList::Many(many) => many.as_slice(),
        }
    }
}

// The dots of several versions. It is a call of its own, since most rows have one.
#[inline(never)]
fn many_of(alloc: Global, versions: &[Version]) -> Result<Vec<Dot>, Fault>
    ensures value { IfOk result (λ dots. dots.items ≡ map (λ v. v.dot) versions.now) }
    ensures memory { IsOkUnless result Fault.OutOfMemory }
{
    let dots = versions.iter().map(|version| version.dot()).collect(alloc)?;
    Ok(dots)
}
