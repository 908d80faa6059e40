ghost use Rattle.std.specs.{
  Prelude.{◌≡◌, ◌≢◌, ◌<◌, ◌++◌, [], None, Some, length, map, IsSome, IfSome, IfOk, OnOk, OnErr},
  Prelude.{IsOk, IsOkUnless},
  Cmp.Lexicographic.{slice_cmp},
  Option.{option_copied},
  Ordering.{nat_cmp},
  List.{All, IsDistinct},
  List.Sorted.{IsPermutation, IsSortedByKey},
  Map.{keys_of, values_of},
};
ghost use Rattle.std.specs.FinMap as maps;
ghost use Rattle.dy_siblings.specs.Siblings.{AreOneByDot, same_key};
ghost use Rattle.dy_node_store.specs.{
  Rows.{with_versions, versions_of, without_dots, IsRowOf, IsKeptRow},
  Absorbing.{IsAbsorbed},
};

use crate::placed::Placed;
use dy_dots::{Dot, Fault};
use dy_siblings::{Key, Row};
use std::alloc::Global;
use std::cmp::Ordering;
use std::collections::HashMap;
use std::marker::Model;
use std::mem;

/// Rows by key. A row that has no version is none: it is not kept.
#[derive(Drop)]
pub struct RowMap {
    alloc: Global,
    rows: HashMap<Key, Row>,
}

impl Model for RowMap {
    ghost use Rattle.std.specs.FinMap as maps;
    ghost use Rattle.dy_node_store.specs.{Rows.{Rows, rows_code}, inside.Entries.{AreRows}};

    ghost Value = { Rows };

    ghost coded = { rows_code };

    ghost view = { λ map. maps.from_entries map.rows.entries };

    ghost invariant = { λ map. AreRows map.rows.entries };
}

impl RowMap {
    /// No rows. Takes no memory.
    pub fn new(alloc: Global) -> RowMap
        ensures { result ≡ maps.empty }
    {
        RowMap {
            alloc,
            rows: HashMap::new(alloc),
        }
    }

    /// How many rows there are. Takes no memory.
    pub fn len(&self) -> usize
        ensures { result ≡ length (maps.entries self.now) }
    {
        self.rows.len()
    }

    /// The row of the key. Takes no memory.
    pub fn row(&self, key: &Key) -> Option<&Row>
        ensures value { option_copied result ≡ maps.get self.now key.now }
        ensures valid { IfSome result (λ row. IsRowOf key.now row.now) }
    {
        self.rows.get(key)
    }

    // Puts the row at its key, which has none.
    fn put_new(&mut self, row: Row) -> Result<(), Fault>
        requires absent { maps.get self.old row.key ≡ None }
        requires filled { 0 < length row.versions }
        ensures ok { OnOk result (self.new ≡ with_versions self.old row.key row.versions) }
        ensures err { OnErr result (self.new ≡ self.old) }
        ensures memory { IsOkUnless result Fault.OutOfMemory }
    {
        let key = row.key().try_clone(self.alloc)?;
        self.rows.insert(key, row)?;
        Ok(())
    }

    /// Puts the row in the place of its key's, or where it has no version, leaves the key without a
    /// row.
    pub fn put_row(&mut self, row: Row) -> Result<(), Fault>
        ensures ok { OnOk result (self.new ≡ with_versions self.old row.key row.versions) }
        ensures err { OnErr result (self.new ≡ self.old) }
        ensures spared { IsSome (maps.get self.old row.key) → IsOk result }
        ensures emptied { row.versions ≡ [] → IsOk result }
        ensures memory { IsOkUnless result Fault.OutOfMemory }
    {
        if row.is_empty() {
            let _before = self.remove_row(row.key());
            return Ok(());
        }
        if self.rows.contains_key(row.key()) {
            let _before = self.replace_row(row);
            return Ok(());
        }
        self.put_new(row)?;
        Ok(())
    }

    /// Merges the row into what is kept of its key, in the place of that, and tells what was there.
    /// Takes no memory where the row is kept as it is.
    pub fn absorb(&mut self, row: &Row) -> Result<Placed, Fault>
        requires { AreOneByDot (versions_of self.old row.now.key ++ row.now.versions) }
        ensures ok { IfOk result
            (IsAbsorbed self.old self.new (with_versions self.old row.now.key)
            (maps.get self.old row.now.key) row.now) }
        ensures err { OnErr result (self.new ≡ self.old) }
        ensures spared { maps.get self.old row.now.key ≡ Some row.now → IsOk result }
        ensures memory { IsOkUnless result Fault.OutOfMemory }
    {
        match self.rows.get_mut(row.key()) {
            Some(kept) => merge_into(self.alloc, kept, row),
            None => self.absorb_new(row),
        }
    }

    // Keeps a copy of the row, where it has a version. Its key has none yet. It is a call of its
    // own, since most keys have one.
    #[inline(never)]
    fn absorb_new(&mut self, row: &Row) -> Result<Placed, Fault>
        requires absent { maps.get self.old row.now.key ≡ None }
        ensures ok { IfOk result
            (IsAbsorbed self.old self.new (with_versions self.old row.now.key) None row.now) }
        ensures err { OnErr result (self.new ≡ self.old) }
        ensures memory { IsOkUnless result Fault.OutOfMemory }
    {
        if row.is_empty() {
            return Ok(Placed::Nothing);
        }
        let copy = row.try_clone(self.alloc)?;
        self.put_new(copy)?;
        Ok(Placed::New)
    }

    /// Puts the row in the place of its key's, and gives that back. Takes no memory.
    pub fn replace_row(&mut self, row: Row) -> Row
        requires present { IsSome (maps.get self.old row.key) }
        requires filled { 0 < length row.versions }
        ensures value { maps.get self.old row.key ≡ Some result }
        ensures rows { self.new ≡ with_versions self.old row.key row.versions }
    {
        match self.rows.get_mut(row.key()) {
            Some(kept) => mem::replace(kept, row),
            None => unreachable!(),
        }
    }

    /// Takes the key's row out. Takes no memory.
    pub fn remove_row(&mut self, key: &Key) -> Option<Row>
        ensures value { result ≡ maps.get self.old key.now }
        ensures rows { self.new ≡ maps.remove self.old key.now }
    {
        self.rows.remove(key)
    }

    /// Drops the versions of these dots from the key's row, where there are any. Takes no memory.
    pub fn remove_dots(&mut self, key: &Key, dots: &[Dot])
        ensures { self.new ≡
            with_versions self.old key.now (without_dots (versions_of self.old key.now) dots.now) }
    {
        let Some(row) = self.rows.get_mut(key) else {
            return;
        };
        drop_dots(row, dots);
        if !row.is_empty() {
            return;
        }
        let _emptied = self.rows.remove(key);
    }

    /// The rows, in the order of their keys' bytes.
    pub fn list(&self, alloc: Global) -> Result<Vec<&Row>, Fault>
        ensures value { IfOk result
            (λ rows. map (λ row. row.now) rows.items ≡ maps.values self.now) }
        ensures kept { IfOk result (λ rows. All (λ row. IsKeptRow self.now row.now) rows.items) }
        ensures memory { IsOkUnless result Fault.OutOfMemory }
    {
        let mut rows = rows_of(alloc, &self.rows)?;
        sort(&mut rows);
        Ok(rows)
    }
}

// The rows of the entries, as these lie.
fn rows_of<'a>(alloc: Global, entries: &'a HashMap<Key, Row>) -> Result<Vec<&'a Row>, Fault>
    ensures rows { IfOk result
        (λ rows. map (λ row. row.now) rows.items ≡ values_of entries.now.entries) }
    ensures unique { IsDistinct same_key (keys_of entries.now.entries) }
    ensures memory { IsOkUnless result Fault.OutOfMemory }
{
    let mut rows = Vec::with_capacity(alloc, entries.len())?;
    for row in entries.values() {
        rows.push(row)?;
    }
    Ok(rows)
}

// How a row's key stands to another's.
fn compare(row: &Row, other: &Row) -> Ordering
    ensures { result ≡ slice_cmp nat_cmp row.now.key other.now.key }
{
    row.key().cmp(other.key())
}

// Puts the rows in the order of their keys' bytes. Takes no memory.
fn sort(rows: &mut Vec<&Row>)
    ensures moved { IsPermutation rows.old.items rows.new.items }
    ensures sorted { IsSortedByKey (λ row. row.now.key) (slice_cmp nat_cmp) rows.new.items }
{
    rows.sort_unstable_by(|row, other| compare(*row, *other));
}

// Merges the row into the first, where they differ, and a version is left. One version that follows
// the one that is there takes its place. One that comes beside those that are there is put in among
// them. No other is copied then.
fn merge_into(alloc: Global, kept: &mut Row, row: &Row) -> Result<Placed, Fault>
    requires of_key { IsRowOf row.now.key kept.old }
    requires agree { AreOneByDot (kept.old.versions ++ row.now.versions) }
    ensures ok { IfOk result
        (IsAbsorbed kept.old kept.new (λ vs. record { key = row.now.key; versions = vs })
        (Some kept.old) row.now) }
    ensures err { OnErr result (kept.new ≡ kept.old) }
    ensures spared { kept.old ≡ row.now → IsOk result }
    ensures memory { IsOkUnless result Fault.OutOfMemory }
{
    // Most puts have the context of a get.
    if let Some(version) = kept.follower(row) {
        let copy = version.try_clone(alloc)?;
        let follower = Row::of(alloc, copy)?;
        let before = mem::replace(kept, follower);
        return Ok(Placed::Over(before));
    }
    if kept.is_same(row) {
        return Ok(Placed::Nothing);
    }
    match kept.put_beside(alloc, row)? {
        Some(put) => Ok(Placed::Beside(put.1)),
        None => merge_over(alloc, kept, row),
    }
}

// Puts the merge of both rows in the place of the first, and gives that back, where a version is
// left.
fn merge_over(alloc: Global, kept: &mut Row, row: &Row) -> Result<Placed, Fault>
    requires of_key { IsRowOf row.now.key kept.old }
    requires agree { AreOneByDot (kept.old.versions ++ row.now.versions) }
    requires differ { kept.old ≢ row.now }
    ensures ok { IfOk result
        (IsAbsorbed kept.old kept.new (λ vs. record { key = row.now.key; versions = vs })
        (Some kept.old) row.now) }
    ensures err { OnErr result (kept.new ≡ kept.old) }
    ensures memory { IsOkUnless result Fault.OutOfMemory }
{
    let merged = kept.merged(alloc, row)?;
    if merged.is_empty() {
        return Ok(Placed::Nothing);
    }
    let before = mem::replace(kept, merged);
    Ok(Placed::Over(before))
}

fn drop_dots(row: &mut Row, dots: &[Dot])
    ensures key { row.new.key ≡ row.old.key }
    ensures versions { row.new.versions ≡ without_dots row.old.versions dots.now }
{
    for dot in dots {
        row.remove(*dot);
    }
}
