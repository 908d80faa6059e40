// For each key, all that its versions follow.
ghost use Rattle.std.specs.Prelude.{◌≡◌, OnOk, IfOk, IsOkUnless};
ghost use Rattle.std.specs.FinMap as maps;
ghost use Rattle.std.specs.FinSet as set;
ghost use Rattle.dy_cluster.specs.inside.Pasts.{past_at, with_all_pasts, with_past, with_row_pasts};

use dy_core::Holding;
use dy_dots::{Context, Dot, Fault};
use dy_siblings::{Key, Row};
use std::alloc::Global;
use std::collections::HashMap;
use std::marker::Model;

// Pasts by key.
#[derive(Drop)]
pub(crate) struct Pasts {
    keys: HashMap<Key, Context>,
}

impl Model for Pasts {
    ghost use Rattle.std.specs.FinMap as maps;
    ghost use Rattle.dy_cluster.specs.inside.Pasts.{KeyPasts, key_pasts_code};

    ghost Value = { KeyPasts };

    ghost coded = { key_pasts_code };

    ghost view = { λ pasts. maps.from_entries pasts.keys.entries };
}

impl Pasts {
    // None yet.
    fn new(alloc: Global) -> Pasts
        ensures { result ≡ maps.empty }
    {
        Pasts {
            keys: HashMap::new(alloc),
        }
    }

    // Adds a past to the key's.
    fn add(&mut self, alloc: Global, key: &Key, past: &Context) -> Result<(), Fault>
        ensures ok { OnOk result (self.new ≡ with_past self.old key.now past.now) }
        ensures memory { IsOkUnless result Fault.OutOfMemory }
    {
        match self.keys.get_mut(key) {
            Some(known) => {
                known.union(alloc, past)?;
                Ok(())
            }
            None => {
                let mut known = Context::new(alloc);
                known.union(alloc, past)?;
                let key = key.try_clone(alloc)?;
                self.keys.insert(key, known)?;
                Ok(())
            }
        }
    }

    // Adds what the versions of the row follow.
    fn add_row(&mut self, alloc: Global, row: &Row) -> Result<(), Fault>
        ensures ok { OnOk result (self.new ≡ with_row_pasts self.old row.now.key row.now.versions) }
        ensures memory { IsOkUnless result Fault.OutOfMemory }
    {
        for version in row.versions() {
            self.add(alloc, row.key(), version.past())?;
        }
        Ok(())
    }

    // Whether the dot lies in the key's.
    pub(crate) fn has(&self, key: &Key, dot: Dot) -> bool
        ensures { result ≡ set.contains (past_at self.now key.now) dot }
    {
        match self.keys.get(key) {
            Some(past) => past.contains(dot),
            None => false,
        }
    }
}

// For each key, all that its held versions follow.
pub(crate) fn pasts_of(alloc: Global, held: &[Holding]) -> Result<Pasts, Fault>
    ensures ok { IfOk result (λ pasts. pasts ≡ with_all_pasts maps.empty held.now) }
    ensures memory { IsOkUnless result Fault.OutOfMemory }
{
    let mut pasts = Pasts::new(alloc);
    for holding in held {
        pasts.add_row(alloc, &holding.row)?;
    }
    Ok(pasts)
}
