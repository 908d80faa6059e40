ghost use Rattle.std.specs.{
  Prelude.{◌≡◌, ◌+◌, ◌<◌, IfOk, IsOkUnless, MatchOption, false},
  List.{Contains},
};
ghost use Rattle.std.specs.FinSet as set;
ghost use Rattle.dy_dots.specs.{
  declared.dots.Dot.{Dot as DotParts},
  declared.dots.TheConstants.{MAX_COUNTER},
};
ghost use Rattle.dy_core.specs.{
  Worlds.{is_issued},
  inside.Meanings.{is_by, is_named, last_in, named_in},
};

use crate::steps;
use dy_dots::{Context, Dot, Fault, NodeId};
use dy_siblings::{Key, Value, Version};
use std::alloc::Global;

/// Whether one of the versions is of the key and has the dot as its own. Takes no memory.
pub(crate) fn is_among(versions: &[Version], key: &Key, dot: Dot) -> bool
    ensures { result ≡ is_issued versions.now key.now dot }
{
    versions
        .iter()
        .any(|version| version.key() == key && version.dot() == dot)
}

/// The version of the key and the dot, where there is one. Takes no memory.
pub(crate) fn find<'a>(versions: &'a [Version], key: &Key, dot: Dot) -> Option<&'a Version>
    ensures { MatchOption result (is_issued versions.now key.now dot ≡ false)
        (λ v. Contains versions.now v.now × (v.now.key ≡ key.now) × (v.now.dot ≡ dot)) }
{
    for version in versions {
        if version.key() == key && version.dot() == dot {
            return Some(version);
        }
    }
    None
}

// Whether the version is of the key and the context names it.
fn is_in_context(version: &Version, key: &Key, context: &Context) -> bool
    ensures { result ≡ is_named version.now key.now context.now }
{
    version.key() == key && context.contains(version.dot())
}

// Whether the node made this version of the key.
fn is_made_by(version: &Version, node: NodeId, key: &Key) -> bool
    ensures { result ≡ is_by version.now node key.now }
{
    version.dot().node() == node && version.key() == key
}

/// The greatest counter that the node used for the key, 0 where there is none. Takes no memory.
pub(crate) fn last_counter(versions: &[Version], node: NodeId, key: &Key) -> u32
    ensures { result ≡ last_in versions.now node key.now }
{
    let mut last = 0;
    for version in versions {
        if is_made_by(version, node, key) {
            last = last.max(version.dot().counter());
        }
    }
    last
}

// The histories, together, of the versions of the key that the context names.
fn past_of_context(
    alloc: Global,
    versions: &[Version],
    key: &Key,
    context: &Context,
) -> Result<Context, Fault>
    ensures ok { IfOk result (λ past. (d : DotParts) → set.contains past d ≡
        named_in versions.now key.now context.now d) }
    ensures memory { IsOkUnless result Fault.OutOfMemory }
{
    let mut past = Context::new(alloc);
    for version in versions {
        if is_in_context(version, key, context) {
            past.union(alloc, version.past())?;
            past.insert(version.dot())?;
        }
    }
    Ok(past)
}

/// The version that the node makes next.
pub(crate) fn next_version(
    alloc: Global,
    versions: &[Version],
    node: NodeId,
    key: &Key,
    context: &Context,
    value: &Option<Value>,
) -> Result<Version, Fault>
    requires room { last_in versions.now node key.now < MAX_COUNTER }
    requires fresh { named_in versions.now key.now context.now
        (record { node = node; counter = last_in versions.now node key.now + 1 }) ≡ false }
    ensures key { IfOk result (λ version. version.key ≡ key.now) }
    ensures node { IfOk result (λ version. version.dot.node ≡ node) }
    ensures counter { IfOk result
        (λ version. version.dot.counter ≡ last_in versions.now node key.now + 1) }
    ensures past { IfOk result (λ version. (d : DotParts) → set.contains version.past d ≡
        named_in versions.now key.now context.now d) }
    ensures value { IfOk result (λ version. version.value ≡ value.now) }
    ensures memory { IsOkUnless result Fault.OutOfMemory }
{
    let counter = last_counter(versions, node, key) + 1;
    let dot = Dot::new(node, counter).unwrap();
    let past = past_of_context(alloc, versions, key, context)?;
    let copy = steps::copy_of(alloc, value)?;
    Version::new(alloc, key.try_clone(alloc)?, dot, past, copy)
}
