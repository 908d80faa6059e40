// What a node keeps, apart from books and shares.
ghost use Rattle.std.specs.{
  Prelude.{◌≡◌, ◌≢◌, ◌<◌, ◌+◌, ◌++◌, ◌∷◌, [], None, Some, map, ◌-◌, ◌^◌, length, min, IsSome},
  Prelude.{IfSome, IfOk, IfErr, OnOk, OnErr, IsOk, IsOkUnless},
  Option.{option_copied},
  Result.{OkIff},
  List.{All},
};
ghost use Rattle.std.specs.FinMap as maps;
ghost use Rattle.dy_siblings.specs.Siblings.{AreOneByDot, has_dot};
ghost use Rattle.dy_node_store.specs.{
  Rows.{IsRowOf, without_dots},
  Counters.{greatest_used, with_used},
};
ghost use Rattle.dy_hint_store.specs.Hints.{home_and_row, shown};
ghost use Rattle.dy_node.specs.{
  Stored.{empty_rooms, kept_rows, stands, versions_at, with_row},
  inside.Placing.{FitsBack, IsAdded, IsHintOf, row_kept, taken_back},
};

use dy_dots::{Dot, Fault, NodeId};
use dy_hint_store::{HintStore, RowRefFor};
use dy_node_store::{NodeStore, Placed};
use dy_siblings::{Key, Row, Version};
use std::alloc::Global;
use std::marker::Model;

/// What a node keeps: its own rows and counters, and the rows that it keeps for others.
#[derive(Drop)]
pub(crate) struct Stores {
    node: NodeId,
    own: NodeStore,
    hints: HintStore,
}

impl Model for Stores {
    ghost use Rattle.std.specs.Prelude.{◌≡◌, ℕ, List, None};
    ghost use Rattle.std.specs.FinMap as maps;
    ghost use Rattle.dy_node.specs.Stored.{Stored, stored_code};

    ghost Value = { Stored };

    ghost coded = { stored_code };

    ghost view = { λ s. record {
      rooms = record { node = s.node; rows = s.own.rows; hints = s.hints };
      counters = s.own.counters;
    } };

    ghost invariant = { λ s. (key : List ℕ) → maps.get s.hints (s.node, key) ≡ None };
}

impl Stores {
    /// Nothing is kept. Takes no memory.
    pub(crate) fn new(alloc: Global, node: NodeId) -> Stores
        ensures { result ≡ record { rooms = empty_rooms node; counters = maps.empty } }
    {
        Stores {
            node,
            own: NodeStore::new(alloc),
            hints: HintStore::new(alloc),
        }
    }

    /// The row that is kept of the key for the home. Takes no memory.
    pub(crate) fn row(&self, home: NodeId, key: &Key) -> Option<&Row>
        ensures value { option_copied result ≡ row_kept self.now.rooms home key.now }
        ensures valid { IfSome result (λ row. IsRowOf key.now row.now) }
    {
        if home == self.node {
            self.own.row(key)
        } else {
            self.hints.row(home, key)
        }
    }

    /// The counter after the greatest that was used of the key. Takes no memory.
    pub(crate) fn next_counter(&self, key: &Key, limit: u32) -> Result<u32, Fault>
        ensures ok { OkIff result (greatest_used self.now.counters key.now < limit)
            (greatest_used self.now.counters key.now + 1) }
        ensures counter_full { IfErr result (λ fault. fault ≡ Fault.CounterFull) }
    {
        self.own.next_counter(key, limit)
    }

    /// Makes room for the key's counter, if the next one is the first.
    pub(crate) fn make_counter(&mut self, key: &Key, next: u32) -> Result<(), Fault>
        requires { next ≡ greatest_used self.old.counters key.now + 1 }
        ensures ok { OnOk result (self.new ≡
            record self.old { counters = with_used self.old.counters key.now 0 }) }
        ensures err { OnErr result (self.new ≡ self.old) }
        ensures memory { IsOkUnless result Fault.OutOfMemory }
    {
        if next > 1 {
            return Ok(());
        }
        self.own.use_counter(key, 0)?;
        Ok(())
    }

    /// Uses the counter, for which there is room. Takes no memory.
    pub(crate) fn use_made(&mut self, key: &Key, counter: u32)
        requires { maps.get self.old.counters key.now ≢ None }
        ensures { self.new ≡
            record self.old { counters = with_used self.old.counters key.now counter } }
    {
        match self.own.use_counter(key, counter) {
            Ok(()) => {}
            Err(_fault) => unreachable!(),
        }
    }

    // Replaces the key's row for the home, and gives the old one.
    fn replace(&mut self, home: NodeId, row: Row) -> Row
        requires present { IsSome (row_kept self.old.rooms home row.key) }
        requires filled { 0 < length row.versions }
        ensures value { row_kept self.old.rooms home row.key ≡ Some result }
        ensures rooms { self.new ≡
            record self.old { rooms = with_row self.old.rooms home row.key row.versions } }
    {
        if home == self.node {
            self.own.replace_row(row)
        } else {
            self.hints.replace_row(home, row)
        }
    }

    // Takes the row out.
    fn remove(&mut self, home: NodeId, key: &Key)
        ensures { self.new ≡ record self.old { rooms = with_row self.old.rooms home key.now [] } }
    {
        if home == self.node {
            drop(self.own.remove_row(key));
        } else {
            drop(self.hints.remove_row(home, key));
        }
    }

    /// A copy of what is kept of the key for the home.
    pub(crate) fn copied(&self, alloc: Global, home: NodeId, key: &Key) -> Result<Row, Fault>
        ensures ok { IfOk result (λ row. row ≡
            record { key = key.now; versions = versions_at self.now.rooms home key.now }) }
        ensures memory { IsOkUnless result Fault.OutOfMemory }
    {
        match self.row(home, key) {
            Some(row) => row.try_clone(alloc),
            None => Ok(Row::new(alloc, key.try_clone(alloc)?)),
        }
    }

    /// Merges the row into what is kept for the home, and says how to undo that. Takes no memory
    /// where this very row is kept already.
    #[inline(always)]
    pub(crate) fn add(&mut self, home: NodeId, row: &Row) -> Result<Placed, Fault>
        requires { AreOneByDot
            (versions_at self.old.rooms home row.now.key ++ row.now.versions) }
        ensures added { IfOk result (IsAdded self.old.rooms self.new.rooms home row.now) }
        ensures counters { OnOk result (self.new.counters ≡ self.old.counters) }
        ensures err { OnErr result (self.new ≡ self.old) }
        ensures spared { row_kept self.old.rooms home row.now.key ≡ Some row.now → IsOk result }
        ensures memory { IsOkUnless result Fault.OutOfMemory }
    {
        // They are the versions of a row: none of them lies in another's past.
        let _versions = row.versions();
        if home == self.node {
            self.own.absorb(row)
        } else {
            self.hints.absorb(home, row)
        }
    }

    /// Undoes what was put. Takes no memory.
    pub(crate) fn take_back(&mut self, home: NodeId, key: &Key, placed: Placed)
        requires { FitsBack self.old.rooms home key.now placed }
        ensures { self.new ≡
            record self.old { rooms = taken_back self.old.rooms home key.now placed } }
    {
        match placed {
            Placed::Nothing => {}
            Placed::New => self.remove(home, key),
            Placed::Over(before) => {
                let _row = self.replace(home, before);
            }
            Placed::Beside(dot) => self.drop_dot(home, key, dot),
        }
    }

    /// Drops one dot from the key's row for the home. Takes no memory.
    pub(crate) fn drop_dot(&mut self, home: NodeId, key: &Key, dot: Dot)
        ensures { self.new ≡ record self.old {
          rooms = with_row self.old.rooms home key.now
              (without_dots (versions_at self.old.rooms home key.now) (dot ∷ []));
        } }
    {
        if home == self.node {
            self.own.remove_dots(key, &[dot]);
        } else {
            self.hints.remove_dots(home, key, &[dot]);
        }
    }

    /// Whether the dot stands in a row that is kept for another home. Takes no memory.
    pub(crate) fn has_hint(&self, home: NodeId, key: &Key, dot: Dot) -> bool
        ensures { result ≡ stands self.now.rooms home key.now dot }
    {
        if home == self.node {
            return false;
        }
        match self.hints.row(home, key) {
            Some(row) => has_version(row.versions(), dot),
            None => false,
        }
    }

    /// What is kept of the key: the node's own row, and the hints in the order of their homes.
    pub(crate) fn list_key(&self, alloc: Global, key: &Key) -> Result<Vec<RowRefFor<'_>>, Fault>
        ensures value { IfOk result
            (λ rows. map shown rows.items ≡ kept_rows self.now.rooms key.now) }
        ensures of_key { IfOk result
            (λ rows. All (λ row. IsRowOf key.now row.1) (map shown rows.items)) }
        ensures memory { IsOkUnless result Fault.OutOfMemory }
    {
        let mut rows = Vec::new(alloc);
        if let Some(row) = self.own.row(key) {
            add_row(&mut rows, self.node, row)?;
        }
        for number in 0..32 {
            let home = NodeId::nth(number);
            if let Some(row) = self.hints.row(home, key) {
                add_row(&mut rows, home, row)?;
            }
        }
        Ok(rows)
    }

    /// How many rows are kept for other homes, up to the greatest `usize`. Takes no memory.
    pub(crate) fn hint_count(&self) -> usize
        ensures { result ≡ min (length (maps.entries self.now.rooms.hints)) (2 ^ 64 - 1) }
    {
        self.hints.len()
    }

    /// The rows that are kept for other homes.
    pub(crate) fn list(&self, alloc: Global) -> Result<Vec<RowRefFor<'_>>, Fault>
        ensures value { IfOk result (λ hints.
            map shown hints.items ≡ map home_and_row (maps.entries self.now.rooms.hints)) }
        ensures kept { IfOk result
            (λ hints. All (IsHintOf self.now.rooms) (map shown hints.items)) }
        ensures memory { IsOkUnless result Fault.OutOfMemory }
    {
        let hints = self.hints.list(alloc)?;
        Ok(hints)
    }
}

// Whether one of the versions has this dot as its own.
fn has_version(versions: &[Version], dot: Dot) -> bool
    ensures { result ≡ has_dot versions.now dot }
{
    versions.iter().any(|version| version.dot() == dot)
}

// Adds the row with its home.
fn add_row<'a>(rows: &mut Vec<RowRefFor<'a>>, home: NodeId, row: &'a Row) -> Result<(), Fault>
    ensures ok { OnOk result
        (map shown rows.new.items ≡ map shown rows.old.items ++ (home, row.now) ∷ []) }
    ensures memory { IsOkUnless result Fault.OutOfMemory }
{
    if rows.push((home, row)).is_err() {
        return Err(Fault::OutOfMemory);
    }
    Ok(())
}
