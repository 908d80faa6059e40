ghost use Rattle.std.specs.{
  Prelude.{◌≡◌, ◌<◌, ◌≤◌, ◌+◌, ◌++◌, ℕ, List, [], None, Some, length, map, IsSome, IfSome, IfOk},
  Prelude.{IfErr, OnOk, OnErr, IsOk, IsOkUnless},
  Option.{option_copied},
  Result.{OkIff},
  List.{All},
};
ghost use Rattle.std.specs.FinMap as maps;
ghost use Rattle.dy_siblings.specs.Siblings.{AreOneByDot};
ghost use Rattle.dy_node_store.specs.{
  Rows.{with_versions, versions_of, without_dots, IsKeptRow, IsRowOf},
  Counters.{greatest_used, with_used},
  Absorbing.{IsAbsorbed},
};

use crate::placed::Placed;
use crate::row_maps::RowMap;
use dy_dots::{Dot, Fault};
use dy_siblings::{Key, Row};
use std::alloc::Global;
use std::collections::HashMap;
use std::marker::Model;

/// A node's own rows, and apart from them the greatest counter that it has used of each key. What
/// becomes of the rows leaves the counters as they are, so no counter is used twice.
pub struct NodeStore {
    alloc: Global,
    rows: RowMap,
    counters: HashMap<Key, u32>,
}

impl Drop for NodeStore {
    fn drop(self) {
        let NodeStore {
            alloc: _,
            rows: _,
            counters: _,
        } = self;
    }
}

impl Model for NodeStore {
    ghost use Rattle.std.specs.FinMap as maps;
    ghost use Rattle.dy_node_store.specs.Kept.{Kept, kept_code};

    ghost Value = { Kept };

    ghost coded = { kept_code };

    ghost view = { λ store.
        record { rows = store.rows; counters = maps.from_entries store.counters.entries } };
}

impl NodeStore {
    /// No rows, and no counters used. Takes no memory.
    pub fn new(alloc: Global) -> NodeStore
        ensures { result ≡ record { rows = maps.empty; counters = maps.empty } }
    {
        NodeStore {
            alloc,
            rows: RowMap::new(alloc),
            counters: HashMap::new(alloc),
        }
    }

    /// The key's row. Takes no memory.
    pub fn row(&self, key: &Key) -> Option<&Row>
        ensures value { option_copied result ≡ maps.get self.now.rows key.now }
        ensures valid { IfSome result (λ row. IsRowOf key.now row.now) }
    {
        self.rows.row(key)
    }

    /// Puts the row in the place of its key's, or where it has no version, leaves the key without a
    /// row. Takes memory only where the key had none.
    pub fn put_row(&mut self, row: Row) -> Result<(), Fault>
        ensures ok { OnOk result (self.new ≡
            record self.old { rows = with_versions self.old.rows row.key row.versions }) }
        ensures err { OnErr result (self.new ≡ self.old) }
        ensures spared { IsSome (maps.get self.old.rows row.key) → IsOk result }
        ensures emptied { row.versions ≡ [] → IsOk result }
        ensures memory { IsOkUnless result Fault.OutOfMemory }
    {
        self.rows.put_row(row)?;
        Ok(())
    }

    /// Merges the row into what is kept of its key, in the place of that, and tells what was there.
    /// Takes no memory where the row is kept as it is.
    #[inline(always)]
    pub fn absorb(&mut self, row: &Row) -> Result<Placed, Fault>
        requires { AreOneByDot (versions_of self.old.rows row.now.key ++ row.now.versions) }
        ensures ok { IfOk result (IsAbsorbed self.old self.new
            (λ vs. record self.old { rows = with_versions self.old.rows row.now.key vs })
            (maps.get self.old.rows row.now.key) row.now) }
        ensures err { OnErr result (self.new ≡ self.old) }
        ensures spared { maps.get self.old.rows row.now.key ≡ Some row.now → IsOk result }
        ensures memory { IsOkUnless result Fault.OutOfMemory }
    {
        self.rows.absorb(row)
    }

    /// Puts the row in the place of its key's, and gives that back. Takes no memory.
    pub fn replace_row(&mut self, row: Row) -> Row
        requires present { IsSome (maps.get self.old.rows row.key) }
        requires filled { 0 < length row.versions }
        ensures value { maps.get self.old.rows row.key ≡ Some result }
        ensures rows { self.new ≡
            record self.old { rows = with_versions self.old.rows row.key row.versions } }
    {
        self.rows.replace_row(row)
    }

    /// Takes the key's row out. Takes no memory.
    pub fn remove_row(&mut self, key: &Key) -> Option<Row>
        ensures value { result ≡ maps.get self.old.rows key.now }
        ensures rows { self.new ≡ record self.old { rows = maps.remove self.old.rows key.now } }
    {
        self.rows.remove_row(key)
    }

    /// Drops the versions of these dots from the key's row, where there are any. Takes no memory.
    pub fn remove_dots(&mut self, key: &Key, dots: &[Dot])
        ensures { self.new ≡ record self.old {
          rows = with_versions self.old.rows key.now
              (without_dots (versions_of self.old.rows key.now) dots.now);
        } }
    {
        self.rows.remove_dots(key, dots);
    }

    /// The rows, in the order of their keys' bytes.
    pub fn list(&self, alloc: Global) -> Result<Vec<&Row>, Fault>
        ensures value { IfOk result
            (λ rows. map (λ row. row.now) rows.items ≡ maps.values self.now.rows) }
        ensures kept { IfOk result
            (λ rows. All (λ row. IsKeptRow self.now.rows row.now) rows.items) }
        ensures memory { IsOkUnless result Fault.OutOfMemory }
    {
        self.rows.list(alloc)
    }

    /// The counter after the greatest that was used of the key. Takes no memory.
    pub fn next_counter(&self, key: &Key, limit: u32) -> Result<u32, Fault>
        ensures ok { OkIff result (greatest_used self.now.counters key.now < limit)
            (greatest_used self.now.counters key.now + 1) }
        ensures fresh { IfOk result (λ counter. greatest_used self.now.counters key.now < counter) }
        ensures counter_full { IfErr result (λ fault. fault ≡ Fault.CounterFull) }
    {
        let used = self.counters.get(key).copied().unwrap_or(0);
        if used < limit {
            Ok(used + 1)
        } else {
            Err(Fault::CounterFull)
        }
    }

    /// Uses the counter. Takes memory only at the key's first, so that to use 0 makes room for
    /// those that follow.
    pub fn use_counter(&mut self, key: &Key, counter: u32) -> Result<(), Fault>
        ensures ok { OnOk result (self.new ≡
            record self.old { counters = with_used self.old.counters key.now counter }) }
        ensures err { OnErr result (self.new ≡ self.old) }
        ensures used { OnOk result (counter ≤ greatest_used self.new.counters key.now) }
        ensures not_lower { (q : List ℕ) →
            greatest_used self.old.counters q ≤ greatest_used self.new.counters q }
        ensures absent { OnErr result (maps.get self.old.counters key.now ≡ None) }
        ensures memory { IsOkUnless result Fault.OutOfMemory }
    {
        match self.counters.get_mut(key) {
            Some(used) => {
                *used = (*used).max(counter);
                Ok(())
            }
            None => {
                let key = key.try_clone(self.alloc)?;
                self.counters.insert(key, counter)?;
                Ok(())
            }
        }
    }
}
