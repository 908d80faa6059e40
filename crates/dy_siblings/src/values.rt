ghost use Rattle.std.specs.{
  Prelude.{◌≡◌, ◌<◌, ◌≤◌, ◌==◌, ◌⊎◌, ◌↔◌, ℕ, List, length, IfOk, IfErr, IsErrOf, IsOk, IsOkUnless},
  Cmp.Lexicographic.{pointwise},
  Cmp.Rules.{comparing},
};
ghost use Rattle.std.proofs.Common.{rules};
ghost use Rattle.dy_siblings.specs.{
  Sizes.{IsValue},
  inside.Values.{AreMany, bytes_in},
  declared.keys.TheConstants.{SHORT_KEY_BYTES},
  declared.values.TheConstants.{MAX_VALUE_BYTES},
};

use crate::keys::{Key, MAX_KEY_BYTES};
use dy_dots::Fault;
use std::alloc::Global;
use std::marker::Model;
use std::sync::ArcSlice;

/// How many bytes a value has at most.
pub const MAX_VALUE_BYTES: usize = 4_096;

// Bytes, of which so many as a key may have are kept as those of a key: up to fourteen lie in
// place. Copies share more.
#[derive(Debug, Drop)]
pub enum Bytes {
    Nothing,
    Few(Key),
    Many(ArcSlice<u8>),
}

/// What a version stores: up to 4,096 bytes.
#[derive(Debug)]
pub struct Value {
    bytes: Bytes,
}

impl Drop for Value {
    fn drop(self) {
        let Value { bytes: _ } = self;
    }
}

impl Model for Value {
    ghost Value = { List ℕ };

    ghost view = { λ value. bytes_in value.bytes };

    ghost invariant = { λ value. IsValue (bytes_in value.bytes) × AreMany value.bytes };
}

impl Bytes {
    // These bytes.
    fn of(alloc: Global, bytes: &[u8]) -> Result<Bytes, Fault>
        ensures value { IfOk result (λ kept. bytes_in kept ≡ bytes.now) }
        ensures many { IfOk result (λ kept. AreMany kept) }
        ensures spared { length bytes.now ≤ SHORT_KEY_BYTES → IsOk result }
        ensures memory { IsOkUnless result Fault.OutOfMemory }
    {
        if bytes.is_empty() {
            return Ok(Bytes::Nothing);
        }
        if bytes.len() <= MAX_KEY_BYTES {
            let few = Key::new(alloc, bytes)?;
            return Ok(Bytes::Few(few));
        }
        Ok(Bytes::Many(ArcSlice::from_slice(alloc, bytes)?))
    }

    // The bytes, lent.
    fn as_slice(&self) -> &[u8]
        ensures { result.now ≡ bytes_in self.now }
    {
        match self {
            Bytes::Nothing => &[],
            Bytes::Few(few) => few.as_bytes(),
            Bytes::Many(many) => many.as_slice(),
        }
    }

    // A copy.
    fn try_clone(&self, alloc: Global) -> Result<Bytes, Fault>
        requires { AreMany self.now }
        ensures value { IfOk result (λ copy. bytes_in copy ≡ bytes_in self.now) }
        ensures many { IfOk result (λ copy. AreMany copy) }
        ensures spared { length (bytes_in self.now) ≤ SHORT_KEY_BYTES → IsOk result }
        ensures memory { IsOkUnless result Fault.OutOfMemory }
    {
        match self {
            Bytes::Nothing => Ok(Bytes::Nothing),
            Bytes::Few(few) => Ok(Bytes::Few(few.try_clone(alloc)?)),
            Bytes::Many(many) => Ok(Bytes::Many(many.clone()?)),
        }
    }
}

impl Value {
    /// A value of these bytes; ValueSize where they are more than 4,096. Up to fourteen take no
    /// memory.
    pub fn new(alloc: Global, bytes: &[u8]) -> Result<Value, Fault>
        ensures size { IsErrOf result Fault.ValueSize ↔ (MAX_VALUE_BYTES < length bytes.now) }
        ensures value { IfOk result (λ value. value ≡ bytes.now) }
        ensures errors { IfErr result (λ fault.
            (fault ≡ Fault.ValueSize) ⊎ (fault ≡ Fault.OutOfMemory)) }
        ensures spared { length bytes.now ≤ SHORT_KEY_BYTES → IsOk result }
    {
        if bytes.len() > MAX_VALUE_BYTES {
            return Err(Fault::ValueSize);
        }
        Ok(Value {
            bytes: Bytes::of(alloc, bytes)?,
        })
    }

    /// The bytes. Takes no memory.
    pub fn as_bytes(&self) -> &[u8]
        ensures value { result.now ≡ self.now }
        ensures size { IsValue self.now }
    {
        self.bytes.as_slice()
    }

    /// A copy. Where the bytes are more than fourteen it shares them, and else it takes no memory.
    pub fn try_clone(&self, alloc: Global) -> Result<Value, Fault>
        ensures value { IfOk result (λ value. value ≡ self.now) }
        ensures spared { length self.now ≤ SHORT_KEY_BYTES → IsOk result }
        ensures memory { IsOkUnless result Fault.OutOfMemory }
    {
        Ok(Value {
            bytes: self.bytes.try_clone(alloc)?,
        })
    }
}

impl PartialEq for Value {
    ghost eq = { pointwise ◌==◌ };

    ghost laws = { Prim.search (comparing, rules) };

    fn eq(&self, other: &Value) -> bool {
        if let (Bytes::Few(few), Bytes::Few(others)) = (&self.bytes, &other.bytes) {
            return few == others;
        }
        self.bytes.as_slice() == other.bytes.as_slice()
    }
}

impl Eq for Value {
    ghost laws = { Prim.search (comparing, rules) };
}
