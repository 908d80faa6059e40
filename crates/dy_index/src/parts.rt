// What the book knows of one key.
ghost use Rattle.std.specs.{
  Prelude.{List, ◌≡◌, ◌<◌, ◌-◌, ◌++◌, ◌∷◌, ◌≢◌, ℕ, length, [], None, Some, OnOk, OnErr, IsOkUnless},
  Prelude.{slice_get, ◌&&◌, not},
  List.{list_any},
  Option.{option_copied},
};
ghost use Rattle.dy_dots.specs.declared.nodes.TheConstants.{MAX_NODES};
ghost use Rattle.dy_siblings.specs.Versions.{VersionParts};
ghost use Rattle.dy_index.specs.{
  Lists.{HaveSameMade, list_at},
  inside.Held.{has_some, is_hint_here},
};

use crate::custodies::{self, Custody};
use dy_dots::{Dot, Fault, NodeId};
use dy_siblings::Version;
use std::alloc::Global;
use std::marker::Model;

// All versions that one node made, in the order of their counters.
#[derive(Debug, Drop)]
pub struct Made {
    versions: Vec<Version>,
}

impl Model for Made {
    ghost use Rattle.std.specs.{Prelude.{List}, Coded.{coded_list}};
    ghost use Rattle.dy_siblings.specs.Versions.{VersionParts, version_code};

    ghost Value = { List VersionParts };

    ghost coded = { coded_list version_code };

    ghost view = { λ m. m.versions.items };
}

impl Made {
    ghost use Rattle.dy_index.specs.inside.Held.{has_some};

    fn new(alloc: Global) -> Made
        ensures { result ≡ [] }
    {
        Made {
            versions: Vec::new(alloc),
        }
    }

    fn len(&self) -> usize
        ensures { result ≡ length self.now }
    {
        self.versions.len()
    }

    // Whether there is a version.
    fn is_some(&self) -> bool
        ensures { result ≡ has_some self.now }
    {
        !self.versions.is_empty()
    }

    // The version at this place, from 0.
    fn get(&self, place: usize) -> Option<&Version>
        ensures { option_copied result ≡ slice_get self.now place }
    {
        self.versions.get(place)
    }

    fn as_slice(&self) -> &[Version]
        ensures { result.now ≡ self.now }
    {
        self.versions.as_slice()
    }

    fn add(&mut self, version: Version) -> Result<(), Fault>
        ensures ok { OnOk result (self.new ≡ self.old ++ version ∷ []) }
        ensures err { OnErr result (self.new ≡ self.old) }
        ensures memory { IsOkUnless result Fault.OutOfMemory }
    {
        self.versions.push(version)?;
        Ok(())
    }

    // Takes the last version out.
    fn remove_last(&mut self)
        ensures { (vs : List VersionParts) (v : VersionParts) →
            self.old ≡ vs ++ v ∷ [] → self.new ≡ vs }
    {
        self.versions.pop();
    }
}

/// What is known of one key: the versions by node, and what is held.
#[derive(Debug)]
pub struct KeyPart {
    made: Vec<Made>,
    pub(crate) places: Vec<Custody>,
}

impl Drop for KeyPart {
    fn drop(self) {
        let KeyPart { made: _, places: _ } = self;
    }
}

impl KeyPart {
    /// Nothing is known of the key.
    pub fn new(alloc: Global) -> KeyPart
        ensures made { result.made.items ≡ [] }
        ensures places { result.places.items ≡ [] }
    {
        KeyPart {
            made: Vec::new(alloc),
            places: Vec::new(alloc),
        }
    }

    // How many versions the node made.
    pub(crate) fn count(&self, node: NodeId) -> usize
        ensures { result ≡ length (list_at self.now.made.items node) }
    {
        match self.made.get(node.number() as usize) {
            Some(made) => made.len(),
            None => 0,
        }
    }

    // The versions that the node made, in the order of their counters.
    pub(crate) fn versions_by(&self, node: NodeId) -> &[Version]
        ensures { result.now ≡ list_at self.now.made.items node }
    {
        match self.made.get(node.number() as usize) {
            Some(made) => made.as_slice(),
            None => &[],
        }
    }

    // The node's version of this counter.
    pub(crate) fn version(&self, dot: Dot) -> Option<&Version>
        ensures { option_copied result ≡
            slice_get (list_at self.now.made.items dot.node) (dot.counter - 1) }
    {
        match self.made.get(dot.node().number() as usize) {
            Some(made) => made.get(dot.counter() as usize - 1),
            None => None,
        }
    }

    // Whether a version was made.
    fn has_version(&self) -> bool
        ensures { result ≡ list_any has_some self.now.made.items }
    {
        self.made.iter().any(|made| made.is_some())
    }

    // Whether a version was made, and what is held is held by its homes alone.
    pub(crate) fn is_settled(&self) -> bool
        ensures { result ≡ (list_any has_some self.now.made.items
            && not (list_any is_hint_here self.now.places.items)) }
    {
        self.has_version() && !custodies::have_hint(self.places.as_slice())
    }

    /// Adds a version to those of its node.
    pub fn add(&mut self, alloc: Global, version: Version) -> Result<(), Fault>
        ensures own { OnOk result (list_at self.new.made.items version.dot.node
            ≡ list_at self.old.made.items version.dot.node ++ version ∷ []) }
        ensures others { (node : ℕ) → node ≢ version.dot.node →
            list_at self.new.made.items node ≡ list_at self.old.made.items node }
        ensures err { OnErr result (HaveSameMade self.new.made.items self.old.made.items) }
        ensures places { self.new.places ≡ self.old.places }
        ensures memory { IsOkUnless result Fault.OutOfMemory }
    {
        let at = version.dot().node().number() as usize;
        make_room(alloc, &mut self.made, at)?;
        self.made[at].add(version)?;
        Ok(())
    }

    /// Takes the last version of the node out. Takes no memory.
    pub fn remove_last(&mut self, node: NodeId)
        ensures own { (vs : List VersionParts) (v : VersionParts) →
            list_at self.old.made.items node ≡ vs ++ v ∷ [] →
            list_at self.new.made.items node ≡ vs }
        ensures others { (other : ℕ) → other ≢ node →
            list_at self.new.made.items other ≡ list_at self.old.made.items other }
        ensures places { self.new.places ≡ self.old.places }
    {
        let at = node.number() as usize;
        if at < self.made.len() {
            self.made[at].remove_last();
        }
    }
}

// The version of this dot, of those that its node made.
pub(crate) fn version_of(made: &[Version], dot: Dot) -> Option<&Version>
    ensures { option_copied result ≡ slice_get made.now (dot.counter - 1) }
{
    made.get(dot.counter() as usize - 1)
}

// Adds empty lists, until there is one for the node.
fn make_room(alloc: Global, made: &mut Vec<Made>, node: usize) -> Result<(), Fault>
    requires { node < MAX_NODES }
    ensures room { OnOk result (node < length made.new.items) }
    ensures same { HaveSameMade made.new.items made.old.items }
    ensures memory { IsOkUnless result Fault.OutOfMemory }
{
    while made.len() <= node {
        made.push(Made::new(alloc))?;
    }
    Ok(())
}
