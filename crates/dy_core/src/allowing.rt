ghost use Rattle.std.specs.{
  Prelude.{◌≡◌, ◌≢◌, ◌↔◌, ◌<◌, ◌≤◌, IsTrue, IfOk, IsOkUnless},
  List.{All, Contains},
};
ghost use Rattle.dy_dots.specs.declared.dots.TheConstants.{MAX_COUNTER};
ghost use Rattle.dy_siblings.specs.Siblings.{has_dot};
ghost use Rattle.dy_preference.specs.Preferences.{homes_of, may_hold};
ghost use Rattle.dy_core.specs.{
  Worlds.{AreMadeOf, layout_of},
  Covers.{CoversAt, HasCover},
  Steps.{IsAllowed, IsKnown},
  Logs.{world_after},
  inside.Meanings.{CanChoose, apart_from},
};

use crate::holdings;
use crate::places::Place;
use crate::steps::Step;
use crate::worlds::World;
use dy_dots::{Context, Dot, Fault, MAX_COUNTER, NodeId};
use dy_preference::preference;
use dy_siblings::{Key, Row, Version};
use std::alloc::Global;

impl World {
    /// Whether the step is allowed now. Before a no to an ack of w it tries all choices of up to w
    /// of the places that cover.
    pub fn allows(&self, alloc: Global, step: &Step) -> Result<bool, Fault>
        ensures ok { IfOk result (λ yes. IsTrue yes ↔
            IsAllowed (layout_of self.now.ring self.now.n) (world_after self.now.steps) step.now) }
        ensures memory { IsOkUnless result Fault.OutOfMemory }
    {
        match step {
            Step::Issue {
                node,
                key,
                context,
                ..
            } => Ok(self.may_issue(*node, key, context)),
            Step::Hold { place, row } => Ok(self.may_hold(place.holder, place.home, row)),
            Step::Release { place, key, dot } => {
                Ok(self.may_release(place.holder, place.home, key, *dot))
            }
            Step::Fetch { .. } => Ok(true),
            Step::Ack { key, dot, w } => {
                let yes = self.may_ack(alloc, key, *dot, *w)?;
                Ok(yes)
            }
        }
    }

    // Whether the node may make a version of the key with this context.
    fn may_issue(&self, node: NodeId, key: &Key, context: &Context) -> bool
        ensures { IsTrue result ↔ (IsKnown (world_after self.now.steps) key.now context.now
            × ((world_after self.now.steps).counters node key.now < MAX_COUNTER)) }
    {
        self.unknown(key, context).is_none() && self.last(node, key) < MAX_COUNTER
    }

    // Whether the holder may hold the row for the home.
    fn may_hold(&self, holder: NodeId, home: NodeId, row: &Row) -> bool
        ensures { IsTrue result ↔
            (IsTrue (may_hold (homes_of self.now.ring self.now.n row.now.key) holder home)
            × AreMadeOf (world_after self.now.steps) row.now.key row.now.versions) }
    {
        let list = preference(&self.ring, row.key(), self.n);
        if !list.may_hold(holder, home) {
            return false;
        }
        are_among(self.versions.as_slice(), row.versions())
    }

    // Whether the holder may give up the dot for the home.
    fn may_release(&self, holder: NodeId, home: NodeId, key: &Key, dot: Dot) -> bool
        ensures { IsTrue result ↔ ((holder ≢ home)
            × IsTrue ((world_after self.now.steps).holdings holder home key.now dot)
            × CoversAt (world_after self.now.steps) key.now dot home home) }
    {
        holder != home
            && self.holds(holder, home, key, dot)
            && self.place_covers(Place::own(home), key, dot)
    }

    // Whether the holder holds the dot for the home.
    fn holds(&self, holder: NodeId, home: NodeId, key: &Key, dot: Dot) -> bool
        ensures { result ≡ (world_after self.now.steps).holdings holder home key.now dot }
    {
        match holdings::find(self.held.as_slice(), holder, home, key) {
            Some(row) => is_own(row.versions(), dot),
            None => false,
        }
    }

    // Whether the dot has a cover of w places, and a key has so many homes.
    fn may_ack(&self, alloc: Global, key: &Key, dot: Dot, w: u8) -> Result<bool, Fault>
        ensures ok { IfOk result (λ yes. IsTrue yes ↔
            ((1 ≤ w) × (w ≤ self.now.n) × HasCover (layout_of self.now.ring self.now.n)
            (world_after self.now.steps) key.now dot w)) }
        ensures memory { IsOkUnless result Fault.OutOfMemory }
    {
        if w < 1 {
            return Ok(false);
        }
        if w > self.n {
            return Ok(false);
        }
        let places = self.covers(alloc, key, dot)?;
        let yes = can_choose(alloc, places.as_slice(), w)?;
        Ok(yes)
    }
}

// Whether one of the versions has this dot as its own.
fn is_own(versions: &[Version], dot: Dot) -> bool
    ensures { result ≡ has_dot versions.now dot }
{
    versions.iter().any(|version| version.dot() == dot)
}

// Whether the version is one of these.
fn is_one_of(versions: &[Version], version: &Version) -> bool
    ensures { IsTrue result ↔ Contains versions.now version.now }
{
    for other in versions {
        if other.is_same(version) {
            return true;
        }
    }
    false
}

// Whether each of the row's versions is one of these.
fn are_among(versions: &[Version], row: &[Version]) -> bool
    ensures { IsTrue result ↔ All (λ v. Contains versions.now v) row.now }
{
    for version in row {
        if !is_one_of(versions, version) {
            return false;
        }
    }
    true
}

// Those of the places that have neither the home nor the holder of this one.
fn apart_from(alloc: Global, places: &[Place], place: &Place) -> Result<Vec<Place>, Fault>
    ensures ok { IfOk result (λ apart. apart.items ≡ apart_from place.now places.now) }
    ensures memory { IsOkUnless result Fault.OutOfMemory }
{
    let mut apart = Vec::new(alloc);
    for other in places {
        if !place.clashes(*other) {
            apart.push(*other)?;
        }
    }
    Ok(apart)
}

// Whether so many of the places have distinct homes and distinct holders. It tries each place with
// those behind it that stand apart from it.
fn can_choose(alloc: Global, places: &[Place], count: u8) -> Result<bool, Fault>
    ensures ok { IfOk result (λ yes. IsTrue yes ↔ CanChoose places.now count) }
    ensures memory { IsOkUnless result Fault.OutOfMemory }
{
    if count < 1 {
        return Ok(true);
    }
    let mut left = places;
    while let Some((first, rest)) = left.split_first() {
        let apart = apart_from(alloc, rest, first)?;
        if can_choose(alloc, apart.as_slice(), count - 1)? {
            return Ok(true);
        }
        left = rest;
    }
    Ok(false)
}
