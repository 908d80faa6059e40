ghost use Rattle.std.specs.{
  Prelude.{◌≡◌, ◌++◌, map, IfOk, IfSome, IfNone, IsOkUnless, [], ◌∷◌, ◌↔◌, IsTrue, false},
  List.{All},
};
ghost use Rattle.std.specs.FinSet as set;
ghost use Rattle.dy_siblings.specs.{
  inside.Lists.{items_of},
  inside.Merging.{do_lists_conflict, AreAmong, IsMerge, IsNextVersion, IsUnionOutside, with_dots},
  inside.Merging.{with_histories},
  Siblings.{AreOneByDot, Rise, is_past, present_values},
  Versions.{VersionParts},
};

use crate::lists::Versions;
use crate::pasts;
use crate::pasts::Pasts;
use crate::values::Value;
use crate::versions::Version;
use dy_dots::{Context, Dot, Fault};
use std::alloc::Global;

/// The version whose dot comes first of the first ones of two lists, and what is left of both.
fn split_next<'a>(
    a: &'a [Version],
    b: &'a [Version],
) -> Option<(&'a Version, &'a [Version], &'a [Version])>
    ensures some { IfSome result (λ p. IsNextVersion a.now b.now p.0.now p.1.now p.2.now) }
    ensures none { IfNone result ((a.now ≡ []) × (b.now ≡ [])) }
{
    match (a.split_first(), b.split_first()) {
        (None, None) => None,
        (Some((version, rest)), None) => Some((version, rest, b)),
        (None, Some((version, rest))) => Some((version, a, rest)),
        (Some((version, rest)), Some((other, others))) => {
            if version.comes_before(other) {
                Some((version, rest, b))
            } else if other.comes_before(version) {
                Some((other, a, others))
            } else {
                Some((version, rest, others))
            }
        }
    }
}

/// Copies of the versions of both lists whose dot the set lacks, in the order of their dots.
fn union_outside(
    alloc: Global,
    past: &Pasts<'_>,
    a: &[Version],
    b: &[Version],
) -> Result<Versions, Fault>
    requires a_rises { Rise a.now }
    requires b_rises { Rise b.now }
    requires agree { AreOneByDot (a.now ++ b.now) }
    ensures ok { IfOk result (λ kept. IsUnionOutside past.now a.now b.now (items_of kept)) }
    ensures memory { IsOkUnless result Fault.OutOfMemory }
{
    let Some(room) = a.len().checked_add(b.len()) else {
        return Err(Fault::OutOfMemory);
    };
    let mut kept = Vec::with_capacity(alloc, room)?;
    let mut left = a;
    let mut right = b;
    while let Some((next, left_rest, right_rest)) = split_next(left, right) {
        left = left_rest;
        right = right_rest;
        if !past.contains(next.dot()) {
            kept.push_reserved(next.try_clone(alloc)?);
        }
    }
    Ok(Versions::of(kept))
}

/// Whether a version of the one list conflicts with one of the other, in one pass over both.
pub(crate) fn lists_conflict(a: &[Version], b: &[Version]) -> bool
    requires a_rises { Rise a.now }
    requires b_rises { Rise b.now }
    ensures { result ≡ do_lists_conflict a.now b.now }
{
    let mut left = a;
    let mut right = b;
    while let Some((mine, rest)) = left.split_first() {
        let Some((theirs, others)) = right.split_first() else {
            return false;
        };
        if mine.comes_before(theirs) {
            left = rest;
        } else if theirs.comes_before(mine) {
            right = others;
        } else if mine.conflicts(theirs) {
            return true;
        } else {
            left = rest;
            right = others;
        }
    }
    false
}

/// The version of a list that has no other.
pub(crate) fn only(versions: &[Version]) -> Option<&Version>
    ensures some { IfSome result (λ version. versions.now ≡ version.now ∷ []) }
    ensures none { IfNone result ((v : VersionParts) → versions.now ≡ v ∷ [] → ⊥) }
{
    match versions.split_first() {
        Some((version, rest)) if rest.is_empty() => Some(version),
        _ => None,
    }
}

/// The one of two versions that their merge is, where it is one.
fn newer<'a>(mine: &'a Version, theirs: &'a Version) -> Option<&'a Version>
    requires { AreOneByDot (mine.now ∷ theirs.now ∷ []) }
    ensures { IfSome result (λ version.
        IsMerge (mine.now ∷ []) (theirs.now ∷ []) (version.now ∷ [])) }
{
    if mine.dot() == theirs.dot() {
        return Some(mine);
    }
    match (mine.precedes(theirs), theirs.precedes(mine)) {
        (true, false) => Some(theirs),
        (false, true) => Some(mine),
        _ => None,
    }
}

/// Whether each list is one version, and both versions are one: what most homes answer to a get.
pub(crate) fn are_one(a: &[Version], b: &[Version]) -> bool
    requires { AreOneByDot (a.now ++ b.now) }
    ensures { IsTrue result → IsMerge a.now b.now a.now }
{
    match (only(a), only(b)) {
        (Some(mine), Some(theirs)) => mine.dot() == theirs.dot(),
        _ => false,
    }
}

/// Whether each version of the one list has its dot among those of the other, in one pass over
/// both.
fn are_among(a: &[Version], b: &[Version]) -> bool
    ensures { IsTrue result → AreAmong a.now b.now }
{
    let mut left = a;
    let mut right = b;
    while let Some((mine, rest)) = left.split_first() {
        let Some((theirs, others)) = right.split_first() else {
            return false;
        };
        if mine.dot() == theirs.dot() {
            left = rest;
        } else if mine.comes_before(theirs) {
            return false;
        }
        right = others;
    }
    true
}

/// Copies of the versions of both lists whose dot lies in the past of none, in the order of their
/// dots.
pub(crate) fn merged(alloc: Global, a: &[Version], b: &[Version]) -> Result<Versions, Fault>
    requires a_rises { Rise a.now }
    requires b_rises { Rise b.now }
    requires b_siblings { All (λ v. is_past b.now v.dot ≡ false) b.now }
    requires agree { AreOneByDot (a.now ++ b.now) }
    ensures ok { IfOk result (λ kept. IsMerge a.now b.now (items_of kept)) }
    ensures memory { IsOkUnless result Fault.OutOfMemory }
{
    if let (Some(mine), Some(theirs)) = (only(a), only(b)) {
        if let Some(version) = newer(mine, theirs) {
            return Ok(Versions::Few(Some(version.try_clone(alloc)?)));
        }
    }
    if a.len() <= b.len() && are_among(a, b) {
        return copied(alloc, b);
    }
    let past = Pasts::of(alloc, a, b)?;
    union_outside(alloc, &past, a, b)
}

/// Whether the lists have the same versions in the same order.
pub(crate) fn are_same(a: &[Version], b: &[Version]) -> bool
    ensures { IsTrue result ↔ (a.now ≡ b.now) }
{
    if a.len() != b.len() {
        return false;
    }
    let mut left = a;
    let mut right = b;
    while let (Some((mine, rest)), Some((theirs, others))) = (
        left.split_first(),
        right.split_first(),
    ) {
        if !mine.is_same(theirs) {
            return false;
        }
        left = rest;
        right = others;
    }
    true
}

/// Copies of the versions.
pub(crate) fn copied(alloc: Global, versions: &[Version]) -> Result<Versions, Fault>
    ensures ok { IfOk result (λ copies. items_of copies ≡ versions.now) }
    ensures memory { IsOkUnless result Fault.OutOfMemory }
{
    if let Some(version) = only(versions) {
        return Ok(Versions::Few(Some(version.try_clone(alloc)?)));
    }
    let mut copies = Vec::with_capacity(alloc, versions.len())?;
    for version in versions {
        copies.push_reserved(version.try_clone(alloc)?);
    }
    Ok(Versions::of(copies))
}

/// The union of the versions' histories.
pub(crate) fn context_of(alloc: Global, versions: &[Version]) -> Result<Context, Fault>
    ensures ok { IfOk result (λ context. context ≡ with_histories set.empty versions.now) }
    ensures memory { IsOkUnless result Fault.OutOfMemory }
{
    let mut context = Context::new(alloc);
    for version in versions {
        pasts::add_past(alloc, &mut context, version)?;
        context.insert(version.dot())?;
    }
    Ok(context)
}

/// The versions' own dots.
pub(crate) fn own_dots(alloc: Global, versions: &[Version]) -> Result<Context, Fault>
    ensures ok { IfOk result (λ dots. dots ≡ with_dots set.empty versions.now) }
    ensures memory { IsOkUnless result Fault.OutOfMemory }
{
    let mut dots = Context::new(alloc);
    for version in versions {
        dots.insert(version.dot())?;
    }
    Ok(dots)
}

/// The values that are present, each with its dot, in the order of the versions.
pub(crate) fn present_values(
    alloc: Global,
    versions: &[Version],
) -> Result<Vec<(Dot, &Value)>, Fault>
    ensures ok { IfOk result (λ values.
        map (λ p. (p.0, p.1.now)) values.items ≡ present_values versions.now) }
    ensures memory { IsOkUnless result Fault.OutOfMemory }
{
    let mut values = Vec::new(alloc);
    for version in versions {
        if let Some(value) = version.value() {
            if values.push((version.dot(), value)).is_err() {
                return Err(Fault::OutOfMemory);
            }
        }
    }
    Ok(values)
}
