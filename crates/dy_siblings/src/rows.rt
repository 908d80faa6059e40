ghost use Rattle.std.specs.{
  Prelude.{◌≡◌, ◌++◌, ◌↔◌, map, [], ◌∷◌, IfOk, OnOk, OnErr, IsOkUnless, IsTrue, IsOk, IfSome},
  Prelude.{IfNone, insert, length, ◌≤◌},
  Slice.Iter.{iter_rest},
};

use crate::keys::Key;
use crate::lists::Versions;
use crate::values::Value;
use crate::versions::Version;
use crate::{lone_versions, merging};
use dy_dots::{Context, Dot, Fault};
use std::alloc::Global;
use std::marker::Model;
use std::slice;

/// The versions of one key of which none follows another, in the order of their dots: what nodes
/// hold, messages carry and gets answer.
#[derive(Debug)]
pub struct Row {
    key: Key,
    versions: Versions,
    // Where it is false, no version follows another. Rows of blind puts need not look for it then.
    may_follow: bool,
}

impl Drop for Row {
    fn drop(self) {
        let Row {
            key: _,
            versions: _,
            may_follow: _,
        } = self;
    }
}

impl Model for Row {
    ghost use Rattle.dy_siblings.specs.{
      Siblings.{Siblings, siblings_code},
      inside.Lists.{items_of, IsRow},
    };

    ghost Value = { Siblings };

    ghost coded = { siblings_code };

    ghost view = { λ row. record { key = row.key; versions = items_of row.versions } };

    ghost invariant = { λ row. IsRow row.key (items_of row.versions) row.may_follow };
}

impl Row {
    ghost use Rattle.dy_siblings.specs.{
      Siblings.{AreOneByDot, IsSameRow, IsSiblingSet, covers, merge, context_of, own_dots, without},
      Siblings.{IsBeside, IsFollower, present_values},
      Versions.{VersionParts},
    };

    /// The row of the key that has no version. Takes no memory.
    pub fn new(_alloc: Global, key: Key) -> Row
        ensures { result ≡ record { key = key; versions = [] } }
    {
        Row {
            key,
            versions: Versions::Few(None),
            may_follow: false,
        }
    }

    /// The row of the version's key that has this version alone.
    #[inline(always)]
    pub fn of(alloc: Global, version: Version) -> Result<Row, Fault>
        ensures ok { IfOk result (λ row.
            row ≡ record { key = version.key; versions = version ∷ [] }) }
        ensures memory { IsOkUnless result Fault.OutOfMemory }
    {
        let key = version.key().try_clone(alloc)?;
        let may_follow = !version.past().is_empty();
        Ok(Row {
            key,
            versions: Versions::Few(Some(version)),
            may_follow,
        })
    }

    /// The row of these versions. Takes no memory.
    pub fn from_versions(key: Key, versions: Vec<Version>) -> Row
        requires { IsSiblingSet key versions.items }
        ensures { result ≡ record { key = key; versions = versions.items } }
    {
        let may_follow = lone_versions::follow_any(versions.as_slice());
        Row {
            key,
            versions: Versions::of(versions),
            may_follow,
        }
    }

    /// The key. Takes no memory.
    pub fn key(&self) -> &Key
        ensures { result.now ≡ self.now.key }
    {
        &self.key
    }

    /// The versions, in the order of their dots. Takes no memory.
    pub fn versions(&self) -> &[Version]
        ensures value { result.now ≡ self.now.versions }
        ensures valid { IsSiblingSet self.now.key self.now.versions }
    {
        self.versions.as_slice()
    }

    /// Whether there is no version. Takes no memory.
    pub fn is_empty(&self) -> bool
        ensures { IsTrue result ↔ (self.now.versions ≡ []) }
    {
        self.versions().is_empty()
    }

    /// Whether a version's history has the dot. Takes no memory.
    pub fn covers(&self, dot: Dot) -> bool
        ensures { result ≡ covers self.now.versions dot }
    {
        let versions = self.versions();
        // Of what was put and not followed yet, the dot is there, and is found by halves.
        let at = versions.partition_point(|version| version.dot() < dot);
        versions.get(at).is_some_and(|version| version.covers(dot))
            || versions.iter().any(|version| version.covers(dot))
    }

    /// Whether the rows are of one key, and versions of both with one dot are one version, in one
    /// pass over both. Takes no memory.
    pub fn agrees(&self, other: &Row) -> bool
        ensures { IsTrue result ↔ ((self.now.key ≡ other.now.key) ×
            AreOneByDot (self.now.versions ++ other.now.versions)) }
    {
        self.key == other.key
            && !merging::lists_conflict(self.versions.as_slice(), other.versions.as_slice())
    }

    /// Whether the other row has the same key and the same versions, in one pass over both. Takes
    /// no memory.
    pub fn is_same(&self, other: &Row) -> bool
        ensures { IsTrue result ↔ (self.now ≡ other.now) }
    {
        self.key == other.key
            && merging::are_same(self.versions.as_slice(), other.versions.as_slice())
    }

    /// The merge of both rows, as a row of its own.
    pub fn merged(&self, alloc: Global, other: &Row) -> Result<Row, Fault>
        requires one_key { self.now.key ≡ other.now.key }
        requires agree { AreOneByDot (self.now.versions ++ other.now.versions) }
        ensures ok { IfOk result (λ row.
            IsSameRow row.versions (merge self.now.versions other.now.versions)) }
        ensures key { IfOk result (λ row. row.key ≡ self.now.key) }
        ensures valid { IfOk result (λ row. IsSiblingSet row.key row.versions) }
        ensures memory { IsOkUnless result Fault.OutOfMemory }
    {
        let key = self.key.try_clone(alloc)?;
        let versions = merging::merged(alloc, self.versions.as_slice(), other.versions.as_slice())?;
        Ok(Row {
            key,
            versions,
            may_follow: self.may_follow | other.may_follow,
        })
    }

    /// Keeps of the versions of both rows those whose dot lies in the past of none of them. Takes
    /// no memory where the other has no version.
    pub fn merge(&mut self, alloc: Global, other: &Row) -> Result<(), Fault>
        requires one_key { self.old.key ≡ other.now.key }
        requires agree { AreOneByDot (self.old.versions ++ other.now.versions) }
        ensures ok { OnOk result
            (IsSameRow self.new.versions (merge self.old.versions other.now.versions)) }
        ensures valid { IsSiblingSet self.new.key self.new.versions }
        ensures key { self.new.key ≡ self.old.key }
        ensures err { OnErr result (self.new ≡ self.old) }
        ensures spared { other.now.versions ≡ [] → IsOk result }
        ensures memory { IsOkUnless result Fault.OutOfMemory }
    {
        let mine = self.versions.as_slice();
        if other.is_empty() {
            return Ok(());
        }
        if merging::are_one(mine, other.versions.as_slice()) {
            return Ok(());
        }
        self.versions = merging::merged(alloc, mine, other.versions.as_slice())?;
        self.may_follow = self.may_follow | other.may_follow;
        Ok(())
    }

    /// The other row's version, where each row has one, and it follows this one's: then the merge
    /// of both is that version alone. Takes no memory.
    pub fn follower<'a>(&self, other: &'a Row) -> Option<&'a Version>
        ensures some { IfSome result (λ v.
            IsFollower self.now.versions other.now.versions v.now) }
        ensures none { IfNone result
            ((v : VersionParts) → IsFollower self.now.versions other.now.versions v → ⊥) }
        ensures merge { IfSome result (λ v.
            IsSameRow (v.now ∷ []) (merge self.now.versions other.now.versions)) }
        ensures key { IfSome result (λ v. v.now.key ≡ other.now.key) }
    {
        let version = lone_versions::follower(self.versions.as_slice(), other.versions.as_slice())?;
        Some(version)
    }

    /// Puts the version, which is one of the row's key, in place of all others. Takes no memory.
    pub fn put_alone(&mut self, version: Version)
        requires { version.key ≡ self.old.key }
        ensures { self.new ≡ record { key = self.old.key; versions = version ∷ [] } }
    {
        self.may_follow = !version.past().is_empty();
        self.versions = Versions::Few(Some(version));
    }

    /// Where the other row has one version more than this one, side by side with all of this one's:
    /// puts it in, which makes the merge of both, and gives its place and its dot, whose removal
    /// takes it back.
    pub fn put_beside(&mut self, alloc: Global, other: &Row) -> Result<Option<(usize, Dot)>, Fault>
        requires one_key { self.old.key ≡ other.now.key }
        requires agree { AreOneByDot (self.old.versions ++ other.now.versions) }
        ensures merge { IfOk result (λ put. IfSome put (λ p.
            IsSameRow self.new.versions (merge self.old.versions other.now.versions))) }
        ensures back { IfOk result (λ put. IfSome put (λ p.
            without self.new.versions p.1 ≡ self.old.versions)) }
        ensures place { IfOk result (λ put. IfSome put (λ p. (v : VersionParts)
            × (v.dot ≡ p.1) × (self.new.versions ≡ insert self.old.versions p.0 v))) }
        ensures beside { IfOk result (λ put. IfSome put (λ p. (v : VersionParts)
            × (v.dot ≡ p.1) × IsBeside self.old.versions other.now.versions v)) }
        ensures bound { IfOk result (λ put. IfSome put (λ p.
            p.0 ≤ length self.old.versions)) }
        ensures none { IfOk result (λ put. IfNone put
            ((v : VersionParts) → IsBeside self.old.versions other.now.versions v → ⊥)) }
        ensures same { IfOk result (λ put. IfNone put (self.new ≡ self.old)) }
        ensures key { self.new.key ≡ self.old.key }
        ensures valid { IsSiblingSet self.new.key self.new.versions }
        ensures err { OnErr result (self.new ≡ self.old) }
        ensures memory { IsOkUnless result Fault.OutOfMemory }
    {
        let own = self.versions.as_slice();
        match lone_versions::beside(own, self.may_follow, other.versions.as_slice()) {
            Some((at, version)) => {
                let copy = version.try_clone(alloc)?;
                self.versions.insert(alloc, at, copy)?;
                self.may_follow = self.may_follow | !version.past().is_empty();
                Ok(Some((at, version.dot())))
            }
            None => Ok(None),
        }
    }

    /// The union of the versions' histories.
    pub fn context(&self, alloc: Global) -> Result<Context, Fault>
        ensures ok { IfOk result (λ context. context ≡ context_of self.now.versions) }
        ensures memory { IsOkUnless result Fault.OutOfMemory }
    {
        merging::context_of(alloc, self.versions.as_slice())
    }

    /// The versions' own dots.
    pub fn dots(&self, alloc: Global) -> Result<Context, Fault>
        ensures ok { IfOk result (λ dots. dots ≡ own_dots self.now.versions) }
        ensures memory { IsOkUnless result Fault.OutOfMemory }
    {
        merging::own_dots(alloc, self.versions.as_slice())
    }

    /// Drops the version of the dot, where there is one. Takes no memory.
    pub fn remove(&mut self, dot: Dot)
        ensures key { self.new.key ≡ self.old.key }
        ensures versions { self.new.versions ≡ without self.old.versions dot }
    {
        self.versions.remove(dot);
    }

    /// The values that are present, each with its dot, in the order of the dots.
    pub fn values(&self, alloc: Global) -> Result<Vec<(Dot, &Value)>, Fault>
        ensures ok { IfOk result (λ values.
            map (λ p. (p.0, p.1.now)) values.items ≡ present_values self.now.versions) }
        ensures memory { IsOkUnless result Fault.OutOfMemory }
    {
        merging::present_values(alloc, self.versions.as_slice())
    }

    /// A copy.
    #[inline(always)]
    pub fn try_clone(&self, alloc: Global) -> Result<Row, Fault>
        ensures ok { IfOk result (λ row. row ≡ self.now) }
        ensures valid { IfOk result (λ row. IsSiblingSet row.key row.versions) }
        ensures memory { IsOkUnless result Fault.OutOfMemory }
    {
        Ok(Row {
            key: self.key.try_clone(alloc)?,
            versions: self.versions.try_clone(alloc)?,
            may_follow: self.may_follow,
        })
    }
}

/// Goes over the versions, in the order of their dots.
impl<'a> IntoIterator for &'a Row {
    type Item = &'a Version;

    type IntoIter = slice::Iter<'a, Version>;

    ghost into_iter_gives = { λ row it. iter_rest it ≡ row.now.versions };

    fn into_iter(self) -> Self::IntoIter {
        self.versions().iter()
    }
}
