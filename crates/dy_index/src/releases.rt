// How what is held of a key is given up.
ghost use Rattle.dy_core.specs.{Worlds.{World}, Steps.{after_release}};
ghost use Rattle.dy_index.specs.Indexes.{IsIndex};

use crate::custodies;
use crate::parts::KeyPart;
use dy_dots::{Dot, NodeId};
use dy_siblings::Key;
use std::collections::HashMap;

/// The dot leaves what the holder holds for the home. Takes no memory.
pub fn give_up(keys: &mut HashMap<Key, KeyPart>, holder: NodeId, home: NodeId, key: &Key, dot: Dot)
    ensures { (w : World) → IsIndex w keys.old.entries →
        IsIndex (after_release w holder home key.now dot) keys.new.entries }
{
    match keys.get_mut(key) {
        Some(part) => custodies::give_up(part.places.as_mut_slice(), holder, home, key, dot),
        None => {}
    }
}
