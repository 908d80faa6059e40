ghost use Rattle.std.specs.{
  Prelude.{◌≡◌, ◌<◌, ◌-◌, ◌^◌, ◌++◌, [], None, Some, length, map, min, IsSome, IfSome, IfOk, OnErr},
  Prelude.{OnOk, IsOk, IsOkUnless},
  Option.{option_copied},
  List.{All},
};
ghost use Rattle.std.specs.FinMap as maps;
ghost use Rattle.dy_siblings.specs.Siblings.{AreOneByDot};
ghost use Rattle.dy_node_store.specs.{Rows.{without_dots, IsRowOf}, Absorbing.{IsAbsorbed}};
ghost use Rattle.dy_hint_store.specs.Hints.{versions_for, with_versions_for, home_and_row, shown};
ghost use Rattle.dy_hint_store.specs.Hints.{IsHint};

use crate::homes;
use dy_dots::{Dot, Fault, NodeId};
use dy_node_store::{Placed, RowMap};
use dy_siblings::{Key, Row};
use std::alloc::Global;
use std::marker::Model;

/// A home, and the row that is held for it, borrowed.
pub type RowRefFor<'a> = (NodeId, &'a Row);

/// The rows that a node holds for other nodes, by home and key. A row that has no version is none:
/// it is not kept.
pub struct HintStore {
    alloc: Global,
    homes: Vec<RowMap>,
}

impl Drop for HintStore {
    fn drop(self) {
        let HintStore { alloc: _, homes: _ } = self;
    }
}

impl Model for HintStore {
    ghost use Rattle.std.specs.Prelude.{◌≤◌, length};
    ghost use Rattle.std.specs.FinMap as maps;
    ghost use Rattle.dy_dots.specs.declared.nodes.TheConstants.{MAX_NODES};
    ghost use Rattle.dy_hint_store.specs.{Hints.{Hints, hints_code}, inside.Homes.{entries_from}};

    ghost Value = { Hints };

    ghost coded = { hints_code };

    ghost view = { λ store. maps.from_entries (entries_from 0 store.homes.items) };

    ghost invariant = { λ store. length store.homes.items ≤ MAX_NODES };
}

impl HintStore {
    /// No hints. Takes no memory.
    pub fn new(alloc: Global) -> HintStore
        ensures { result ≡ maps.empty }
    {
        HintStore {
            alloc,
            homes: Vec::new(alloc),
        }
    }

    /// How many hints there are, as far as a count reaches. Takes no memory.
    pub fn len(&self) -> usize
        ensures { result ≡ min (length (maps.entries self.now)) (2 ^ 64 - 1) }
    {
        let mut count = 0usize;
        for number in 0..self.homes.len() {
            count = count.saturating_add(self.homes[number].len());
        }
        count
    }

    /// The row of the key for the home. Takes no memory.
    pub fn row(&self, home: NodeId, key: &Key) -> Option<&Row>
        ensures value { option_copied result ≡ maps.get self.now (home, key.now) }
        ensures valid { IfSome result (λ row. IsRowOf key.now row.now) }
    {
        match self.homes.get(home.number() as usize) {
            Some(rows) => rows.row(key),
            None => None,
        }
    }

    /// Puts the row in the place of its key's for the home, or where it has no version, leaves the
    /// key without a row for the home.
    pub fn put_row(&mut self, home: NodeId, row: Row) -> Result<(), Fault>
        ensures ok { OnOk result
            (self.new ≡ with_versions_for self.old home row.key row.versions) }
        ensures err { OnErr result (self.new ≡ self.old) }
        ensures spared { IsSome (maps.get self.old (home, row.key)) → IsOk result }
        ensures emptied { row.versions ≡ [] → IsOk result }
        ensures memory { IsOkUnless result Fault.OutOfMemory }
    {
        if row.is_empty() {
            let _before = self.remove_row(home, row.key());
            return Ok(());
        }
        let at = home.number() as usize;
        homes::make_room(self.alloc, &mut self.homes, at)?;
        self.homes[at].put_row(row)?;
        Ok(())
    }

    /// Merges the row into what is kept of its key for the home, in the place of that, and tells
    /// what was there. Takes no memory where the row is kept as it is.
    pub fn absorb(&mut self, home: NodeId, row: &Row) -> Result<Placed, Fault>
        requires { AreOneByDot (versions_for self.old home row.now.key ++ row.now.versions) }
        ensures ok { IfOk result
            (IsAbsorbed self.old self.new (with_versions_for self.old home row.now.key)
            (maps.get self.old (home, row.now.key)) row.now) }
        ensures err { OnErr result (self.new ≡ self.old) }
        ensures spared { maps.get self.old (home, row.now.key) ≡ Some row.now → IsOk result }
        ensures memory { IsOkUnless result Fault.OutOfMemory }
    {
        let at = home.number() as usize;
        homes::make_room(self.alloc, &mut self.homes, at)?;
        self.homes[at].absorb(row)
    }

    /// Puts the row in the place of its key's for the home, and gives that back. Takes no memory.
    pub fn replace_row(&mut self, home: NodeId, row: Row) -> Row
        requires present { IsSome (maps.get self.old (home, row.key)) }
        requires filled { 0 < length row.versions }
        ensures value { maps.get self.old (home, row.key) ≡ Some result }
        ensures hints { self.new ≡ with_versions_for self.old home row.key row.versions }
    {
        self.homes[home.number() as usize].replace_row(row)
    }

    /// Takes the key's row for the home out. Takes no memory.
    pub fn remove_row(&mut self, home: NodeId, key: &Key) -> Option<Row>
        ensures value { result ≡ maps.get self.old (home, key.now) }
        ensures hints { self.new ≡ maps.remove self.old (home, key.now) }
    {
        let at = home.number() as usize;
        if self.homes.len() <= at {
            return None;
        }
        self.homes[at].remove_row(key)
    }

    /// Drops the versions of these dots from the key's row for the home, where there are any. Takes
    /// no memory.
    pub fn remove_dots(&mut self, home: NodeId, key: &Key, dots: &[Dot])
        ensures { self.new ≡
            with_versions_for self.old home key.now
            (without_dots (versions_for self.old home key.now) dots.now) }
    {
        let at = home.number() as usize;
        if self.homes.len() <= at {
            return;
        }
        self.homes[at].remove_dots(key, dots);
    }

    /// The rows with their homes, in the order of the homes' numbers, and of their keys' bytes for
    /// each.
    pub fn list(&self, alloc: Global) -> Result<Vec<RowRefFor<'_>>, Fault>
        ensures value { IfOk result
            (λ hints. map shown hints.items ≡ map home_and_row (maps.entries self.now)) }
        ensures kept { IfOk result
            (λ hints. All (λ hint. IsHint self.now (shown hint)) hints.items) }
        ensures memory { IsOkUnless result Fault.OutOfMemory }
    {
        let mut hints = Vec::new(alloc);
        for number in 0..self.homes.len() {
            let rows = self.homes[number].list(alloc)?;
            homes::add_hints(&mut hints, NodeId::nth(number), rows.as_slice())?;
        }
        Ok(hints)
    }
}
