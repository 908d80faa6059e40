// The entries of the index by the bytes of their keys.
ghost use Rattle.std.specs.{
  Prelude.{◌≡◌, IfOk, OnOk, IsOkUnless, Some},
  List.{All},
  HashMap.{IsUnique},
};
ghost use Rattle.dy_siblings.specs.Siblings.{same_key};
ghost use Rattle.dy_index.specs.{Indexes.{part_at}, inside.Entries.{AreByKey}};

use crate::lists;
use crate::parts::KeyPart;
use dy_core::Ranked;
use dy_dots::Fault;
use dy_siblings::Key;
use std::alloc::Global;
use std::cmp::Ordering;
use std::collections::HashMap;
use std::marker::Model;

// An entry of the index, lent.
#[derive(Drop)]
pub struct Entry<'a> {
    pub(crate) key: &'a Key,
    pub(crate) part: &'a KeyPart,
}

impl<'a> Model for Entry<'a> {
    ghost use Rattle.std.specs.Prelude.{ℕ, List};
    ghost use Rattle.dy_index.specs.{
      declared.parts.KeyPart.{KeyPart as Part},
      inside.Entries.{entry_code},
    };

    ghost Value = { List ℕ × Part };

    ghost coded = { entry_code };

    ghost view = { λ e. (e.key.now, e.part.now) };
}

impl<'a> Ranked for Entry<'a> {
    ghost use Rattle.dy_index.specs.inside.Entries.{entry_cmp};

    ghost ranked = { entry_cmp };

    fn rank(&self, other: &Entry<'a>) -> Ordering {
        self.key.cmp(other.key)
    }
}

// The entries, as the map has them.
fn entries_of<'a>(alloc: Global, keys: &'a HashMap<Key, KeyPart>) -> Result<Vec<Entry<'a>>, Fault>
    ensures ok { IfOk result (λ entries. entries.items ≡ keys.now.entries) }
    ensures found { OnOk result
        (All (λ e. part_at keys.now.entries e.0 ≡ Some e.1) keys.now.entries) }
    ensures unique { IsUnique same_key keys.now }
    ensures memory { IsOkUnless result Fault.OutOfMemory }
{
    let mut entries = Vec::with_capacity(alloc, keys.len())?;
    for (key, part) in keys.iter() {
        entries.push(Entry { key, part })?;
    }
    Ok(entries)
}

// The entries by the bytes of their keys.
pub(crate) fn by_key<'a>(
    alloc: Global,
    keys: &'a HashMap<Key, KeyPart>,
) -> Result<Vec<Entry<'a>>, Fault>
    ensures ok { IfOk result (λ entries. AreByKey keys.now.entries entries.items) }
    ensures memory { IsOkUnless result Fault.OutOfMemory }
{
    let entries = entries_of(alloc, keys)?;
    let sorted = lists::ordered(entries)?;
    Ok(sorted)
}
