ghost use Rattle.std.specs.{
  Prelude.{◌≡◌, ◌<◌, ◌≤◌, ◌==◌, ◌⊎◌, ◌↔◌, ℕ, List, length, IfOk, IfErr, IfSome, IfNone, IsErrOf},
  Prelude.{IsOk, IsOkUnless, IsSome},
  Cmp.{partial_order_from_own_ties},
  Cmp.Lexicographic.{bytes_decides, pointwise, slice_cmp},
  Cmp.Rules.{comparing},
  Hash.{same_Alike},
  Ordering.{nat_cmp, as_partial_cmp},
};
ghost use Rattle.std.proofs.Common.{rules};
ghost use Rattle.dy_siblings.specs.{
  Sizes.{IsKey},
  inside.Hashed.{hashed},
  inside.Leads.{AreBytes, IsKeyOf, bytes_of, front_of},
  declared.keys.TheConstants.{MAX_KEY_BYTES, SHORT_KEY_BYTES},
};

use crate::fronts::Front;
use crate::key_bytes::KeyBytes;
use crate::{fronts, long_keys};
use dy_dots::Fault;
use std::alloc::Global;
use std::cmp::Ordering;
use std::hash::{Hash, Hasher};
use std::marker::Model;
use std::sync::Arc;

/// How many bytes a key has at most.
pub const MAX_KEY_BYTES: usize = 64;

/// How many bytes of a key lie in place, at most.
pub const SHORT_KEY_BYTES: usize = 14;

/// A key: 1 to 64 bytes. It takes sixteen: up to fourteen lie in place, and of a longer one the
/// copies share the bytes.
#[derive(Debug)]
pub struct Key {
    bytes: KeyBytes,
}

impl Drop for Key {
    fn drop(self) {
        let Key { bytes: _ } = self;
    }
}

impl Model for Key {
    ghost Value = { List ℕ };

    ghost view = { λ key. bytes_of key.bytes };

    ghost invariant = { λ key. IsKeyOf key.bytes (bytes_of key.bytes) };
}

impl Key {
    /// A key of these bytes; KeySize where they are none or more than 64. Up to fourteen take no
    /// memory.
    pub fn new(alloc: Global, bytes: &[u8]) -> Result<Key, Fault>
        ensures size { IsErrOf result Fault.KeySize ↔
            ((length bytes.now ≡ 0) ⊎ (MAX_KEY_BYTES < length bytes.now)) }
        ensures value { IfOk result (λ key. key ≡ bytes.now) }
        ensures errors { IfErr result (λ fault.
            (fault ≡ Fault.KeySize) ⊎ (fault ≡ Fault.OutOfMemory)) }
        ensures spared { 0 < length bytes.now → length bytes.now ≤ SHORT_KEY_BYTES → IsOk result }
    {
        if bytes.is_empty() || bytes.len() > MAX_KEY_BYTES {
            return Err(Fault::KeySize);
        }
        let all = long_keys::filled(bytes);
        if bytes.len() <= SHORT_KEY_BYTES {
            let front = fronts::front_of(&all, bytes.len());
            return Ok(Key {
                bytes: KeyBytes::Short { front },
            });
        }
        let whole = Arc::new(alloc, all)?;
        Ok(Key {
            bytes: KeyBytes::Long {
                count: bytes.len() as u8,
                whole,
            },
        })
    }

    /// The bytes. Takes no memory.
    pub fn as_bytes(&self) -> &[u8]
        ensures value { result.now ≡ self.now }
        ensures size { IsKey self.now }
    {
        match &self.bytes {
            KeyBytes::Short { front } => &front[..front[SHORT_KEY_BYTES] as usize],
            KeyBytes::Long { count, whole } => &whole.as_ref()[..*count as usize],
        }
    }

    /// A copy, where the bytes lie in place. Takes no memory.
    pub fn short(&self) -> Option<Key>
        ensures value { IfSome result (λ key. key ≡ self.now) }
        ensures which { IsSome result ↔ (length self.now ≤ SHORT_KEY_BYTES) }
    {
        match &self.bytes {
            KeyBytes::Short { front } => Some(Key {
                bytes: KeyBytes::Short { front: *front },
            }),
            KeyBytes::Long { .. } => None,
        }
    }

    // Its bytes in place, where it is short.
    #[inline(always)]
    fn front(&self) -> Option<&Front>
        ensures short { IfSome result (λ front. front.now ≡ front_of self.now) }
        ensures few { IfSome result (λ _. length self.now ≤ SHORT_KEY_BYTES) }
        ensures many { IfNone result (SHORT_KEY_BYTES < length self.now) }
        ensures small { AreBytes self.now }
        ensures size { IsKey self.now }
    {
        match &self.bytes {
            KeyBytes::Short { front } => Some(front),
            KeyBytes::Long { .. } => None,
        }
    }

    // How it stands to another, whatever bytes they have. It is a call, so that a look-up has the
    // order of short keys in itself.
    #[inline(never)]
    fn order_by_all(&self, other: &Key) -> Ordering
        ensures { result ≡ slice_cmp nat_cmp self.now other.now }
    {
        match (&self.bytes, &other.bytes) {
            (
                KeyBytes::Long { count, whole },
                KeyBytes::Long {
                    count: others,
                    whole: theirs,
                },
            ) => long_keys::order_of_words(whole.as_ref(), theirs.as_ref()).then(count.cmp(others)),
            _ => self.as_bytes().cmp(other.as_bytes()),
        }
    }

    // Whether the other has the same bytes, whatever they are.
    #[inline(never)]
    fn has_bytes_of(&self, other: &Key) -> bool
        ensures { result ≡ pointwise ◌==◌ self.now other.now }
    {
        match (&self.bytes, &other.bytes) {
            (
                KeyBytes::Long { count, whole },
                KeyBytes::Long {
                    count: others,
                    whole: theirs,
                },
            ) => count == others && long_keys::are_same(whole.as_ref(), theirs.as_ref()),
            _ => self.as_bytes() == other.as_bytes(),
        }
    }

    /// A copy. Where the bytes lie in place it takes no memory, and else it shares them.
    pub fn try_clone(&self, _alloc: Global) -> Result<Key, Fault>
        ensures value { IfOk result (λ key. key ≡ self.now) }
        ensures spared { length self.now ≤ SHORT_KEY_BYTES → IsOk result }
        ensures memory { IsOkUnless result Fault.OutOfMemory }
    {
        let bytes = match &self.bytes {
            KeyBytes::Short { front } => KeyBytes::Short { front: *front },
            KeyBytes::Long { count, whole } => KeyBytes::Long {
                count: *count,
                whole: whole.clone()?,
            },
        };
        Ok(Key { bytes })
    }
}

impl PartialEq for Key {
    ghost eq = { pointwise ◌==◌ };

    ghost laws = { Prim.search (comparing, rules) };

    #[inline(always)]
    fn eq(&self, other: &Key) -> bool {
        match (self.front(), other.front()) {
            (Some(mine), Some(theirs)) => fronts::are_same(mine, theirs),
            _ => self.has_bytes_of(other),
        }
    }
}

impl Eq for Key {
    ghost laws = { Prim.search (comparing, rules) };
}

// A hasher takes sixteen bytes at a time, so that a short key is one step of it.
impl Hash for Key {
    ghost hash_input = { hashed };

    ghost respects_eq = { (same_Alike hashed bytes_decides).fed };

    #[inline(always)]
    fn hash<H: Hasher>(&self, state: &mut H) {
        match self.front() {
            Some(front) => state.write(&front[..]),
            None => state.write(self.as_bytes()),
        }
    }
}

impl Ord for Key {
    ghost cmp = { slice_cmp nat_cmp };

    ghost total = { Prim.search (comparing, rules) };

    ghost matches_partial_cmp = { Prim.search (comparing, rules) };

    ghost matches_eq = { Prim.search (comparing, rules) };

    #[inline(always)]
    fn cmp(&self, other: &Key) -> Ordering {
        match (self.front(), other.front()) {
            (Some(mine), Some(theirs)) => fronts::order(mine, theirs),
            _ => self.order_by_all(other),
        }
    }
}

impl PartialOrd for Key {
    ghost partial_cmp = { as_partial_cmp (slice_cmp nat_cmp) };

    ghost laws = { partial_order_from_own_ties
        (Prim.search (comparing, rules)) (Prim.search (comparing, rules)) };

    fn partial_cmp(&self, other: &Key) -> Option<Ordering> {
        Some(self.cmp(other))
    }
}
