ghost use Rattle.std.specs.{
  Prelude.{◌≡◌, ◌↔◌, ◌<◌, length, IsTrue, IfOk, IsOkUnless, MatchOption, false},
  List.{All, Contains},
};
ghost use Rattle.dy_siblings.specs.{
  Siblings.{IsSameRow},
  declared.versions.Version.{Version as VersionParts},
};
ghost use Rattle.dy_preference.specs.Preferences.{homes_of, is_home};
ghost use Rattle.dy_core.specs.{
  Worlds.{IsSettled, is_issued, row_at},
  Covers.{covers_at},
  Steps.{IsKnown},
  Logs.{world_after},
  Listings.{IsLeastUnknown, ListsCovers, ListsSettled},
};

use crate::places::Place;
use crate::worlds::World;
use crate::{holdings, issuing, placed, unknowns};
use dy_dots::{Context, Dot, Fault, NodeId};
use dy_siblings::{Key, Row, Version};
use std::alloc::Global;

impl World {
    /// The greatest counter that the node used for the key, 0 where there is none. Takes no memory.
    pub fn last(&self, node: NodeId, key: &Key) -> u32
        ensures { result ≡ (world_after self.now.steps).counters node key.now }
    {
        issuing::last_counter(self.versions.as_slice(), node, key)
    }

    /// The version of this key and dot, where one was made. Takes no memory.
    pub fn version(&self, key: &Key, dot: Dot) -> Option<&Version>
        ensures { MatchOption result
            (is_issued (world_after self.now.steps).versions key.now dot ≡ false)
            (λ v. Contains (world_after self.now.steps).versions v.now
            × (v.now.key ≡ key.now) × (v.now.dot ≡ dot)) }
    {
        issuing::find(self.versions.as_slice(), key, dot)
    }

    /// The least dot of the context that is of no version of the key, where there is one. Takes no
    /// memory.
    pub fn unknown(&self, key: &Key, context: &Context) -> Option<Dot>
        ensures { MatchOption result (IsKnown (world_after self.now.steps) key.now context.now)
            (IsLeastUnknown (world_after self.now.steps).versions key.now context.now) }
    {
        unknowns::least(self.versions.as_slice(), key, context)
    }

    /// The row of the key at the place, where it has a version. Takes no memory.
    pub fn row(&self, place: Place, key: &Key) -> Option<&Row>
        ensures none { MatchOption result ((v : VersionParts) →
            Contains (row_at (world_after self.now.steps) place.holder place.home key.now) v → ⊥)
            (λ row. 0 < length row.now.versions) }
        ensures key { MatchOption result ((v : VersionParts) →
            Contains (row_at (world_after self.now.steps) place.holder place.home key.now) v → ⊥)
            (λ row. row.now.key ≡ key.now) }
        ensures row { MatchOption result ((v : VersionParts) →
            Contains (row_at (world_after self.now.steps) place.holder place.home key.now) v → ⊥)
            (λ row. IsSameRow row.now.versions
            (row_at (world_after self.now.steps) place.holder place.home key.now)) }
    {
        holdings::find(self.held.as_slice(), place.holder, place.home, key)
    }

    /// Whether the place covers the dot. Takes no memory.
    pub fn place_covers(&self, place: Place, key: &Key, dot: Dot) -> bool
        ensures { result ≡
            covers_at (world_after self.now.steps) key.now dot place.holder place.home }
    {
        match holdings::find(self.held.as_slice(), place.holder, place.home, key) {
            Some(row) => row.covers(dot),
            None => false,
        }
    }

    /// All places that cover the dot, by home and holder. Each is of a home of the key.
    pub fn covers(&self, alloc: Global, key: &Key, dot: Dot) -> Result<Vec<Place>, Fault>
        ensures ok { IfOk result
            (λ places. ListsCovers (world_after self.now.steps) key.now dot places.items) }
        ensures homes { IfOk result (λ places. All (λ p. IsTrue
            (is_home (homes_of self.now.ring self.now.n key.now) p.home)) places.items) }
        ensures memory { IsOkUnless result Fault.OutOfMemory }
    {
        let places = placed::covering(alloc, self.held.as_slice(), key, dot)?;
        Ok(places)
    }

    /// Whether each holder of the key is the home that it holds for. Takes no memory.
    pub fn is_settled(&self, key: &Key) -> bool
        ensures { IsTrue result ↔ IsSettled (world_after self.now.steps) key.now }
    {
        holdings::are_settled(self.held.as_slice(), key)
    }

    /// The settled keys of which a version was made, by their bytes.
    pub fn settled(&self, alloc: Global) -> Result<Vec<Key>, Fault>
        ensures ok { IfOk result (λ keys. ListsSettled (world_after self.now.steps) keys.items) }
        ensures memory { IsOkUnless result Fault.OutOfMemory }
    {
        let keys = holdings::settled_of(alloc, self.held.as_slice(), self.versions.as_slice())?;
        Ok(keys)
    }
}
