// The preference lists that one caller keeps.
ghost use Rattle.std.specs.Prelude.{◌≡◌, IfSome};
ghost use Rattle.dy_cluster.specs.Lists.{list_of};

use dy_preference::Preference;
use dy_shares::Naming;
use dy_siblings::Key;
use std::alloc::{AllocError, Global};
use std::marker::PhantomData;

// How many slots there are at first, and how many there may be.
const FIRST_SLOTS: usize = 64;

const MAX_SLOTS: usize = 4096;

/// The preference lists of keys that one caller of a cluster named, so that the list of a key is
/// made once and not once a call. Each key has one slot, which it shares with others; so there are
/// never more lists than slots.
#[derive(Drop)]
pub(crate) struct KeptLists<J: Naming> {
    // None before the first list, and then a power of two.
    slots: Vec<Option<KeptList<J>>>,
    // How many lists made way for that of another key, since there are so many slots.
    displaced: usize,
}

// The list of a key.
#[derive(Drop)]
struct KeptList<J: Naming> {
    key: Key,
    list: Preference,
    of: PhantomData<J>,
    ghost of_key: { list ≡ list_of J.ring J.n key },
}

impl<J: Naming> KeptLists<J> {
    /// No list is kept yet. Takes no memory.
    pub(crate) fn new(alloc: Global) -> KeptLists<J> {
        KeptLists {
            slots: Vec::new(alloc),
            displaced: 0,
        }
    }

    /// The key's list, where it is kept. Takes no memory.
    pub(crate) fn find(&self, key: &Key) -> Option<&Preference>
        ensures { IfSome result (λ list. list.now ≡ list_of J.ring J.n key.now) }
    {
        match self.slots.get(self.place_of(key)) {
            Some(Some(kept)) => {
                if kept.key == *key {
                    Some(&kept.list)
                } else {
                    None
                }
            }
            _ => None,
        }
    }

    /// Keeps the key's list, and lets that of another key go where both have one slot. Where memory
    /// is wanting nothing is kept.
    pub(crate) fn keep(&mut self, alloc: Global, key: &Key, list: Preference)
        requires { list ≡ list_of J.ring J.n key.now }
    {
        let Ok(key) = key.try_clone(alloc) else {
            return;
        };
        self.make_slots(alloc);
        let place = self.place_of(&key);
        let Some(slot) = self.slots.get_mut(place) else {
            return;
        };
        if slot.is_some() {
            self.displaced = self.displaced.saturating_add(1);
        }
        *slot = Some(KeptList {
            key,
            list,
            of: PhantomData,
        });
    }

    // The place of the key's slot, by all of its bytes.
    fn place_of(&self, key: &Key) -> usize {
        let mut number: usize = 0;
        for byte in key.as_bytes() {
            number = number.wrapping_mul(31).wrapping_add(usize::from(*byte));
        }
        number & self.slots.len().wrapping_sub(1)
    }

    // Makes the first slots; or four times as many, once a quarter as many lists as there are slots
    // made way for others. They are empty. Where memory is wanting the slots stay.
    fn make_slots(&mut self, alloc: Global) {
        let count = self.slots.len();
        if count >= MAX_SLOTS || self.displaced < count / 4 {
            return;
        }
        self.displaced = 0;
        let wanted = if count == 0 { FIRST_SLOTS } else { count * 4 };
        if let Ok(slots) = empty_slots(alloc, wanted) {
            self.slots = slots;
        }
    }
}

// This many slots without a list.
fn empty_slots<J: Naming>(
    alloc: Global,
    count: usize,
) -> Result<Vec<Option<KeptList<J>>>, AllocError> {
    let mut slots = Vec::with_capacity(alloc, count)?;
    for _ in 0..count {
        slots.push(None)?;
    }
    Ok(slots)
}
