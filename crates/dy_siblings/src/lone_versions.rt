// The one version that a row has more than another, side by side with all of that.
ghost use Rattle.std.specs.{
  Prelude.{◌≡◌, ◌↔◌, ◌||◌, IfSome, IfNone, true, false},
  List.{Contains, list_any},
};
ghost use Rattle.dy_dots.specs.Dots.{IsDotBefore};
ghost use Rattle.dy_siblings.specs.{
  Siblings.{IsBeside, IsFollower, IsLone, Rise},
  Versions.{VersionParts, precedes},
  inside.Lists.{FollowNothing},
  inside.Merging.{IsPlaceOf},
};

use crate::merging;
use crate::versions::Version;

/// The one version of the second list whose dot none of the first has, and its place among those
/// of the first, in one pass over both.
fn lone<'a>(a: &[Version], b: &'a [Version]) -> Option<(usize, &'a Version)>
    requires a_rises { Rise a.now }
    requires b_rises { Rise b.now }
    ensures some { IfSome result (λ p. IsLone a.now b.now p.1.now) }
    ensures place { IfSome result (λ p. IsPlaceOf a.now p.1.now.dot p.0) }
    ensures none { IfNone result ((v : VersionParts) → IsLone a.now b.now v → ⊥) }
{
    // Mostly both begin alike.
    let both = a.len().min(b.len());
    let mut same = 0;
    while same < both && a[same].dot() == b[same].dot() {
        same += 1;
    }
    let mut left = &a[same..];
    let mut right = &b[same..];
    let mut found = None;
    while let Some((theirs, others)) = right.split_first() {
        match left.split_first() {
            Some((mine, rest)) if mine.dot() == theirs.dot() => {
                left = rest;
                right = others;
            }
            Some((mine, rest)) if mine.comes_before(theirs) => {
                left = rest;
            }
            _ => {
                if found.is_some() {
                    return None;
                }
                found = Some((a.len() - left.len(), theirs));
                right = others;
            }
        }
    }
    found
}

// Whether all of the versions come before the other.
fn are_before(versions: &[Version], other: &Version) -> bool
    requires { Rise versions.now }
    ensures { result ≡ true → ((v : VersionParts) →
        Contains versions.now v → IsDotBefore v.dot other.now.dot) }
{
    match versions.split_last() {
        Some((last, _)) => last.comes_before(other),
        None => true,
    }
}

// The same, without a pass where the second list is one version that comes last, as a put mostly
// makes it.
fn last_or_lone<'a>(a: &[Version], b: &'a [Version]) -> Option<(usize, &'a Version)>
    requires a_rises { Rise a.now }
    requires b_rises { Rise b.now }
    ensures some { IfSome result (λ p. IsLone a.now b.now p.1.now) }
    ensures place { IfSome result (λ p. IsPlaceOf a.now p.1.now.dot p.0) }
    ensures none { IfNone result ((v : VersionParts) → IsLone a.now b.now v → ⊥) }
{
    if let Some(theirs) = merging::only(b) {
        if are_before(a, theirs) {
            return Some((a.len(), theirs));
        }
    }
    lone(a, b)
}

/// Whether one of the versions follows any dot at all.
pub(crate) fn follow_any(versions: &[Version]) -> bool
    ensures { (result ≡ false) ↔ FollowNothing versions.now }
{
    for version in versions {
        if !version.past().is_empty() {
            return true;
        }
    }
    false
}

// Whether this one follows one of the versions. Most follow none.
fn follows_one(version: &Version, versions: &[Version]) -> bool
    ensures { result ≡ list_any (λ u. precedes u version.now) versions.now }
{
    !version.past().is_empty() && versions.iter().any(|other| other.precedes(version))
}

// Whether one of the versions follows this one.
fn is_followed(version: &Version, versions: &[Version]) -> bool
    ensures { result ≡ list_any (λ u. precedes version.now u) versions.now }
{
    versions.iter().any(|other| version.precedes(other))
}

// Whether one of the versions follows this one, or is followed by it. Where none may follow any,
// none is asked.
fn is_related(versions: &[Version], may_follow: bool, version: &Version) -> bool
    requires { may_follow ≡ false → FollowNothing versions.now }
    ensures { result ≡
        list_any (λ u. precedes u version.now || precedes version.now u) versions.now }
{
    follows_one(version, versions) || (may_follow && is_followed(version, versions))
}

/// The version of the second list, where each list is one version, and that of the second follows
/// that of the first.
pub(crate) fn follower<'a>(a: &[Version], b: &'a [Version]) -> Option<&'a Version>
    ensures some { IfSome result (λ v. IsFollower a.now b.now v.now) }
    ensures none { IfNone result ((v : VersionParts) → IsFollower a.now b.now v → ⊥) }
{
    let (mine, theirs) = (merging::only(a)?, merging::only(b)?);
    if mine.precedes(theirs) && !theirs.precedes(mine) {
        Some(theirs)
    } else {
        None
    }
}

/// The one version that the second list has more, side by side with all of the first, and its
/// place among those.
pub(crate) fn beside<'a>(
    a: &[Version],
    may_follow: bool,
    b: &'a [Version],
) -> Option<(usize, &'a Version)>
    requires pastless { may_follow ≡ false → FollowNothing a.now }
    requires a_rises { Rise a.now }
    requires b_rises { Rise b.now }
    ensures some { IfSome result (λ p. IsBeside a.now b.now p.1.now) }
    ensures place { IfSome result (λ p. IsPlaceOf a.now p.1.now.dot p.0) }
    ensures none { IfNone result ((v : VersionParts) → IsBeside a.now b.now v → ⊥) }
{
    let (at, version) = last_or_lone(a, b)?;
    if is_related(a, may_follow, version) {
        return None;
    }
    Some((at, version))
}
