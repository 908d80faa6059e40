ghost use Rattle.std.specs.Prelude.{◌≡◌, ◌⊎◌, ◌↔◌, ◌&&◌, IsTrue, IfOk, IsOkUnless, option_copied};
ghost use Rattle.std.specs.Prelude.{true, false};
ghost use Rattle.dy_dots.specs.Dots.{IsDotBefore, same_dot};
ghost use Rattle.std.specs.FinSet as set;

use crate::keys::Key;
use crate::values::Value;
use dy_dots::{Context, Dot, Fault};
use std::alloc::Global;
use std::marker::Model;
use std::sync::Arc;

// What a version says besides its dot.
#[derive(Debug, Drop)]
struct Parts {
    key: Key,
    past: Context,
    value: Option<Value>,
}

/// One write of a key: the dot that names it, the dots that it causally follows, and what it
/// stores (Preguiça et al., dotted version vectors, section 4, with an exact set for the vector).
/// A deletion stores no value, which is told apart from an empty one. Copies share what they say,
/// and each has the dot in itself: most passes over a row ask for nothing else.
#[derive(Debug)]
pub struct Version {
    dot: Dot,
    parts: Arc<Parts>,
}

impl Drop for Version {
    fn drop(self) {
        let Version { dot: _, parts: _ } = self;
    }
}

impl Model for Version {
    ghost use Rattle.std.specs.Arc.{arc_value};
    ghost use Rattle.dy_siblings.specs.Versions.{VersionParts, version_code, IsVersion};

    ghost Value = { VersionParts };

    ghost coded = { version_code };

    ghost view = { λ v. record {
      key = (arc_value v.parts).key;
      dot = v.dot;
      past = (arc_value v.parts).past;
      value = (arc_value v.parts).value;
    } };

    ghost invariant = { λ v. IsVersion (record {
      key = (arc_value v.parts).key;
      dot = v.dot;
      past = (arc_value v.parts).past;
      value = (arc_value v.parts).value;
    }) };
}

impl Version {
    ghost use Rattle.dy_siblings.specs.{
      Versions.{IsVersion, in_history, precedes, are_concurrent},
      inside.Conflicts.{same_version, same_rest, do_conflict},
    };

    /// The version of these parts.
    pub fn new(
        alloc: Global,
        key: Key,
        dot: Dot,
        past: Context,
        value: Option<Value>,
    ) -> Result<Version, Fault>
        requires { set.contains past dot ≡ false }
        ensures value { IfOk result (λ version. version ≡
            record { key = key; dot = dot; past = past; value = value }) }
        ensures memory { IsOkUnless result Fault.OutOfMemory }
    {
        let parts = Parts { key, past, value };
        Ok(Version {
            dot,
            parts: Arc::new(alloc, parts)?,
        })
    }

    /// The key that it is a version of. Takes no memory.
    pub fn key(&self) -> &Key
        ensures value { result.now ≡ self.now.key }
        ensures valid { IsVersion self.now }
    {
        &self.parts.key
    }

    /// The dot that names it. Takes no memory.
    pub fn dot(&self) -> Dot
        ensures value { result ≡ self.now.dot }
        ensures valid { IsVersion self.now }
    {
        self.dot
    }

    /// The dots that it causally follows; its own is not among them. Takes no memory.
    pub fn past(&self) -> &Context
        ensures value { result.now ≡ self.now.past }
        ensures valid { IsVersion self.now }
    {
        &self.parts.past
    }

    /// What it stores; a deletion stores nothing. Takes no memory.
    pub fn value(&self) -> Option<&Value>
        ensures { option_copied result ≡ self.now.value }
    {
        self.parts.value.as_ref()
    }

    /// Whether the dot is its own or one that it follows. Takes no memory.
    pub fn covers(&self, dot: Dot) -> bool
        ensures { result ≡ in_history self.now dot }
    {
        self.dot == dot || self.parts.past.contains(dot)
    }

    /// Whether the other causally follows this one. Takes no memory.
    pub fn precedes(&self, other: &Version) -> bool
        ensures { result ≡ precedes self.now other.now }
    {
        other.parts.past.contains(self.dot)
    }

    /// Whether neither follows the other, and they are two. Takes no memory.
    pub fn is_concurrent(&self, other: &Version) -> bool
        ensures { result ≡ are_concurrent self.now other.now }
    {
        !self.covers(other.dot) && !other.covers(self.dot)
    }

    /// Whether the other is the same in all that it says. Takes no memory.
    pub fn is_same(&self, other: &Version) -> bool
        ensures { IsTrue result ↔ (self.now ≡ other.now) }
    {
        self.says_same(other)
    }

    /// Whether the other, which has its key and its dot, is the same. Takes no memory.
    pub fn agrees(&self, other: &Version) -> bool
        requires one_key { self.now.key ≡ other.now.key }
        requires one_dot { self.now.dot ≡ other.now.dot }
        ensures { IsTrue result ↔ (self.now ≡ other.now) }
    {
        self.has_rest_of(other)
    }

    // Whether the other has its key, dot, past and value.
    fn says_same(&self, other: &Version) -> bool
        ensures { result ≡ same_version self.now other.now }
    {
        self.dot == other.dot && self.parts.key == other.parts.key && self.has_rest_of(other)
    }

    // Whether the other has its past and value.
    fn has_rest_of(&self, other: &Version) -> bool
        ensures { result ≡ same_rest self.now other.now }
    {
        self.has_past_of(other) && self.parts.value == other.parts.value
    }

    // Whether the other follows the same dots. A set has one list of runs.
    fn has_past_of(&self, other: &Version) -> bool
        ensures { result ≡ (set.is_subset self.now.past other.now.past
            && set.is_subset other.now.past self.now.past) }
    {
        let (past, others) = (&self.parts.past, &other.parts.past);
        past.runs() == others.runs()
    }

    // Whether the other has its dot, and is not the same.
    pub(crate) fn conflicts(&self, other: &Version) -> bool
        ensures { result ≡ do_conflict self.now other.now }
    {
        self.dot == other.dot && !self.says_same(other)
    }

    // Whether this is its dot.
    pub(crate) fn has_dot(&self, dot: Dot) -> bool
        ensures { result ≡ same_dot self.now.dot dot }
    {
        self.dot == dot
    }

    // Whether its dot comes before that of the other.
    pub(crate) fn comes_before(&self, other: &Version) -> bool
        ensures yes { result ≡ true → IsDotBefore self.now.dot other.now.dot }
        ensures no { result ≡ false →
            IsDotBefore other.now.dot self.now.dot ⊎ (other.now.dot ≡ self.now.dot) }
    {
        let (dot, later) = (self.dot, other.dot);
        dot.node() < later.node() || dot.node() == later.node() && dot.counter() < later.counter()
    }

    /// A copy, which shares what the version says.
    pub fn try_clone(&self, _alloc: Global) -> Result<Version, Fault>
        ensures value { IfOk result (λ version. version ≡ self.now) }
        ensures memory { IsOkUnless result Fault.OutOfMemory }
    {
        Ok(Version {
            dot: self.dot,
            parts: self.parts.clone()?,
        })
    }
}
