// Which versions of an incoming row are the issued ones.
ghost use Rattle.std.specs.{
  Prelude.{◌≡◌, ◌↔◌, IsTrue, List, MatchOption},
  List.{Contains},
  Option.{option_copied},
};
ghost use Rattle.dy_core.specs.{Worlds.{AreMadeOf}, Logs.{world_after}, declared.steps.Step.{Step}};
ghost use Rattle.dy_index.specs.{Indexes.{IsPartAfter, made_in}, Readings.{IsLeastNotIssued}};

use crate::parts::{KeyPart, version_of};
use dy_dots::{Dot, NodeId};
use dy_siblings::{Row, Version};

// The versions that the node made, by the key's part.
fn made_by<'a>(part: Option<&'a KeyPart>, node: NodeId) -> &'a [Version]
    ensures { result.now ≡ made_in (option_copied part.entry) node }
{
    match part {
        Some(part) => part.versions_by(node),
        None => &[],
    }
}

// The versions that the maker made: these, which the node made, if it is the same one.
fn made_next<'a>(
    part: Option<&'a KeyPart>,
    node: NodeId,
    made: &'a [Version],
    maker: NodeId,
) -> &'a [Version]
    requires { made.now ≡ made_in (option_copied part) node }
    ensures { result.now ≡ made_in (option_copied part.entry) maker }
{
    if maker == node {
        made
    } else {
        made_by(part, maker)
    }
}

// Whether the version is the issued one of its key and dot, by those that its node made.
fn is_issued_as(_part: Option<&KeyPart>, made: &[Version], version: &Version) -> bool
    requires known { (steps : List Step) ×
        IsPartAfter steps version.now.key (option_copied _part) }
    requires made { made.now ≡ made_in (option_copied _part) version.now.dot.node }
    ensures { (steps : List Step) →
        IsPartAfter steps version.now.key (option_copied _part.entry) →
        IsTrue result ↔ Contains (world_after steps).versions version.now }
{
    let dot = version.dot();
    let _counter = dot.counter();
    match version_of(made, dot) {
        Some(issued) => issued.agrees(version),
        None => false,
    }
}

/// The least dot of the row's versions that is not of the issued version. Takes no memory.
pub fn first_not_issued(part: Option<&KeyPart>, row: &Row) -> Option<Dot>
    requires { (steps : List Step) × IsPartAfter steps row.now.key (option_copied part) }
    ensures { (steps : List Step) → IsPartAfter steps row.now.key (option_copied part.entry) →
        MatchOption result (AreMadeOf (world_after steps) row.now.key row.now.versions)
        (IsLeastNotIssued (world_after steps).versions row.now.versions) }
{
    let versions = row.versions();
    let mut node = NodeId::nth(0);
    // A row has the versions of one node side by side, so those that it made are found once.
    let mut made = made_by(part, node);
    for version in versions {
        let maker = version.dot().node();
        made = made_next(part, node, made, maker);
        node = maker;
        if !is_issued_as(part, made, version) {
            return Some(version.dot());
        }
    }
    None
}
