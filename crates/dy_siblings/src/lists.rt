ghost use Rattle.std.specs.Prelude.{◌≡◌, ◌≤◌, length, insert, option_to_list, IfOk, OnOk, OnErr};
ghost use Rattle.std.specs.Prelude.{IsOkUnless};
ghost use Rattle.dy_siblings.specs.{Siblings.{without}, inside.Lists.{items_of}};

use crate::merging;
use crate::versions::Version;
use dy_dots::{Dot, Fault};
use std::alloc::Global;

// Versions in a list, which takes memory of its own from the second one on.
#[derive(Debug, Drop)]
pub(crate) enum Versions {
    Few(Option<Version>),
    Many(Vec<Version>),
}

impl Versions {
    /// The versions, in their order.
    pub(crate) fn as_slice(&self) -> &[Version]
        ensures { result.now ≡ items_of self.now }
    {
        match self {
            Versions::Few(one) => one.as_slice(),
            Versions::Many(many) => many.as_slice(),
        }
    }

    /// These versions. One takes no memory for a list.
    pub(crate) fn of(mut many: Vec<Version>) -> Versions
        ensures { items_of result ≡ many.items }
    {
        if many.len() > 1 {
            return Versions::Many(many);
        }
        Versions::Few(many.pop())
    }

    /// A copy.
    pub(crate) fn try_clone(&self, alloc: Global) -> Result<Versions, Fault>
        ensures value { IfOk result (λ copy. items_of copy ≡ items_of self.now) }
        ensures memory { IsOkUnless result Fault.OutOfMemory }
    {
        match self {
            Versions::Few(Some(one)) => Ok(Versions::Few(Some(one.try_clone(alloc)?))),
            Versions::Few(None) => Ok(Versions::Few(None)),
            Versions::Many(many) => merging::copied(alloc, many.as_slice()),
        }
    }

    /// Puts the version at this place among the others.
    pub(crate) fn insert(&mut self, alloc: Global, at: usize, version: Version) -> Result<(), Fault>
        requires { at ≤ length (items_of self.old) }
        ensures ok { OnOk result
            (items_of self.new ≡ insert (items_of self.old) at version) }
        ensures err { OnErr result (items_of self.new ≡ items_of self.old) }
        ensures memory { IsOkUnless result Fault.OutOfMemory }
    {
        match self {
            Versions::Few(one) => {
                let many = pair(alloc, one, at, version)?;
                *self = Versions::Many(many);
            }
            Versions::Many(many) => many.insert(at, version)?,
        }
        Ok(())
    }

    /// Drops the version of the dot, where there is one. Takes no memory.
    pub(crate) fn remove(&mut self, dot: Dot)
        ensures { items_of self.new ≡ without (items_of self.old) dot }
    {
        match self {
            Versions::Few(one) => {
                if one.as_ref().is_some_and(|version| version.has_dot(dot)) {
                    *one = None;
                }
            }
            Versions::Many(many) => many.retain(|version| !version.has_dot(dot)),
        }
    }
}

// A list of both versions, or of the second alone where there is no first, which is taken out.
fn pair(
    alloc: Global,
    one: &mut Option<Version>,
    at: usize,
    version: Version,
) -> Result<Vec<Version>, Fault>
    requires { at ≤ length (option_to_list one.old) }
    ensures ok { IfOk result (λ many. many.items ≡ insert (option_to_list one.old) at version) }
    ensures err { OnErr result (one.new ≡ one.old) }
    ensures memory { IsOkUnless result Fault.OutOfMemory }
{
    let mut many = Vec::with_capacity(alloc, 2)?;
    match one.take() {
        Some(first) if at > 0 => {
            many.push_reserved(first);
            many.push_reserved(version);
        }
        Some(first) => {
            many.push_reserved(version);
            many.push_reserved(first);
        }
        None => many.push_reserved(version),
    }
    Ok(many)
}
