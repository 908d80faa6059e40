// What the book says is held.
ghost use Rattle.std.specs.Prelude.{◌≡◌, ◌+◌, ◌<◌, ◌↔◌, ◌⊎◌, ◌∷◌, ℕ, [], length, IfOk, IfErr};
ghost use Rattle.std.specs.Prelude.{OnOk, OnErr, IsErrOf, IsOkUnless};
ghost use Rattle.dy_siblings.specs.Siblings.{IsSameRow};
ghost use Rattle.dy_core.specs.{
  Worlds.{row_at},
  Steps.{place_for},
  declared.steps.Step.TheVariants.{Fetch},
};
ghost use Rattle.dy_index.specs.Readings.{ListsDots};
ghost use Rattle.dy_shares.specs.Shares.{NodeStays, SessionStays};
ghost use Rattle.dy_book.specs.Books.{HasRoom, LacksRoom, with_untold, world_of};

use crate::books::Book;
use dy_core::Place;
use dy_dots::{Dot, Fault, NodeId};
use dy_shares::{Naming, NodeShare, Seen, Since};
use dy_siblings::{Key, Row};

impl<J: Naming> Book<J> {
    // A copy of the row that the holder holds for the home.
    fn row_copy(&self, holder: NodeId, home: NodeId, key: &Key) -> Result<Row, Fault>
        ensures key { IfOk result (λ row. row.key ≡ key.now) }
        ensures row { IfOk result (λ row.
            IsSameRow row.versions (row_at (world_of self.now) holder home key.now)) }
        ensures memory { IsOkUnless result Fault.OutOfMemory }
    {
        dy_index::row_copy(self.alloc, self.part(key), holder, home, key)
    }

    /// Makes a fetch of the row that the share's node holds for the home. The number of its step is
    /// greater than the since.
    pub fn fetch_step(
        &mut self,
        share: &NodeShare<J>,
        home: NodeId,
        key: &Key,
        since: &Since<J>,
    ) -> Result<Seen<J>, Fault>
        ensures log { OnOk result
            (self.new ≡ with_untold self.old (Fetch (place_for share.now.node home) key.now ∷ [])) }
        ensures at { IfOk result (λ seen. seen.at ≡ length self.old.log + 1) }
        ensures later { IfOk result (λ seen. since.now < seen.at) }
        ensures holder { IfOk result (λ seen. seen.holder ≡ share.now.node) }
        ensures home { IfOk result (λ seen. seen.home ≡ home) }
        ensures key { IfOk result (λ seen. seen.key ≡ key.now) }
        ensures row { IfOk result (λ seen. IsSameRow seen.row
            (row_at (world_of self.old) share.now.node home key.now)) }
        ensures steps_full { IsErrOf result Fault.StepsFull ↔ LacksRoom self.old 1 }
        ensures only { IfErr result (λ fault.
            (fault ≡ Fault.StepsFull) ⊎ (fault ≡ Fault.OutOfMemory)) }
        ensures err { OnErr result (self.new ≡ self.old) }
        ensures nodes { (node : ℕ) → NodeStays self.old.log self.new.log node }
        ensures sessions { (session : ℕ) → SessionStays self.old.log self.new.log session }
    {
        self.ledger.learn_since(since);
        if self.steps_left() < 1 {
            return Err(Fault::StepsFull);
        }
        self.fetch_at(share.node(), home, key)
    }

    // The same, where a step is left.
    fn fetch_at(&mut self, holder: NodeId, home: NodeId, key: &Key) -> Result<Seen<J>, Fault>
        requires { HasRoom self.old 1 }
        ensures log { OnOk result
            (self.new ≡ with_untold self.old (Fetch (place_for holder home) key.now ∷ [])) }
        ensures at { IfOk result (λ seen. seen.at ≡ length self.old.log + 1) }
        ensures holder { IfOk result (λ seen. seen.holder ≡ holder) }
        ensures home { IfOk result (λ seen. seen.home ≡ home) }
        ensures key { IfOk result (λ seen. seen.key ≡ key.now) }
        ensures row { IfOk result (λ seen. IsSameRow seen.row
            (row_at (world_of self.old) holder home key.now)) }
        ensures memory { IsOkUnless result Fault.OutOfMemory }
        ensures err { OnErr result (self.new ≡ self.old) }
        ensures nodes { (node : ℕ) → NodeStays self.old.log self.new.log node }
        ensures sessions { (session : ℕ) → SessionStays self.old.log self.new.log session }
    {
        let row = self.row_copy(holder, home, key)?;
        self.ledger.fetch_step(Place { holder, home }, key)?;
        let at = self.ledger.steps();
        let place = Place { holder, home };
        Ok(self.ledger.seen(at, place, row))
    }

    /// The dots held there, rising. Takes no memory.
    pub fn held_dots(&self, place: Place, key: &Key) -> &[Dot]
        ensures { ListsDots (world_of self.now) place.holder place.home key.now result.now }
    {
        dy_index::held_dots(self.part(key), place, key)
    }
}
