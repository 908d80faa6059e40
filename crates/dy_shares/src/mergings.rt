ghost use Rattle.std.specs.Prelude.{◌≡◌, ◌++◌, ◌∷◌, [], List, IfOk, OnOk, OnErr, IsOk, IsOkUnless};
ghost use Rattle.dy_siblings.specs.Siblings.{IsSameRow, IsSiblingSet, newest};
ghost use Rattle.dy_core.specs.{Worlds.{layout_of}, Logs.{Answer, rows_of}};
ghost use Rattle.dy_shares.specs.Merged.{IsMergeOf};

use crate::chronicles::Front;
use crate::names::Naming;
use crate::seen::Seen;
use dy_dots::Fault;
use dy_siblings::{Key, Row};
use std::alloc::Global;
use std::marker::Model;

/// The merge of the answers to one get, made one answer at a time (Dynamo, section 4.5). Answers of
/// one book agree, so merging them needs no test.
#[derive(Drop)]
pub struct Merging<J: Naming> {
    row: Row,
    front: Front<J>,
}

impl<J: Naming> Model for Merging<J> {
    ghost use Rattle.dy_core.specs.Worlds.{layout_of};
    ghost use Rattle.dy_shares.specs.Merged.{AreOfLog, Merged, merged_code};

    ghost Value = { Merged };

    ghost coded = { merged_code };

    ghost view = { λ m.
        record { key = m.row.key; versions = m.row.versions; front = m.front } };

    ghost invariant = { λ m.
        AreOfLog (layout_of J.ring J.n) m.front m.row.key m.row.versions };
}

impl<J: Naming> Merging<J> {
    /// The merge of this answer alone.
    pub fn of(alloc: Global, seen: &Seen<J>) -> Result<Merging<J>, Fault>
        ensures merged { IfOk result
            (λ merging. IsMergeOf (layout_of J.ring J.n) merging (seen.now ∷ [])) }
        ensures key { IfOk result (λ merging. merging.key ≡ seen.now.key) }
        ensures memory { IsOkUnless result Fault.OutOfMemory }
    {
        Ok(Merging {
            row: seen.row().try_clone(alloc)?,
            front: seen.front().copied(),
        })
    }

    /// Merges one answer more.
    pub fn add(&mut self, alloc: Global, seen: &Seen<J>) -> Result<(), Fault>
        requires { seen.now.key ≡ self.old.key }
        ensures merged { OnOk result ((answers : List Answer) →
            IsMergeOf (layout_of J.ring J.n) self.old answers →
            IsMergeOf (layout_of J.ring J.n) self.new (answers ++ seen.now ∷ [])) }
        ensures key { self.new.key ≡ self.old.key }
        ensures err { OnErr result (self.new ≡ self.old) }
        ensures memory { IsOkUnless result Fault.OutOfMemory }
    {
        let mut front = self.front.copied();
        front.join(seen.front());
        self.row.merge(alloc, seen.row())?;
        self.front = front;
        Ok(())
    }

    /// The row that the answers make together. Takes no memory.
    pub fn into_row(self) -> Row
        ensures key { result.key ≡ self.key }
        ensures versions { result.versions ≡ self.versions }
        ensures merged { (answers : List Answer) → IsMergeOf (layout_of J.ring J.n) self answers →
            IsSameRow result.versions (newest (rows_of answers)) }
    {
        let Merging { row, front: _ } = self;
        row
    }
}
