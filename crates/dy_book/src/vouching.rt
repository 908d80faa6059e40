// Rows for which the book vouches, so that no version of them is compared again.
ghost use Rattle.std.specs.Prelude.{◌≡◌, ◌↔◌, ◌⊎◌, OnOk, IfErr, IsErrOf};
ghost use Rattle.dy_dots.specs.declared.dots.Dot.{Dot as DotParts};
ghost use Rattle.dy_core.specs.Worlds.{AreMadeOf};
ghost use Rattle.dy_core.specs.Logs.{world_after};
ghost use Rattle.dy_index.specs.Readings.{IsLeastNotIssued};
ghost use Rattle.dy_shares.specs.Shares.{steps_of};
ghost use Rattle.dy_book.specs.Books.{HasRoom, LacksRoom, world_of};

use crate::books::Book;
use crate::row_refs::RowRef;
use crate::vouched_rows::VouchedRow;
use dy_dots::Fault;
use dy_shares::{Front, Naming};
use dy_siblings::Row;

impl<J: Naming> Book<J> {
    /// The row with the book's word that its versions are the issued ones. Takes no memory.
    pub fn vouch(&self, row: Row) -> VouchedRow<J>
        requires { AreMadeOf (world_of self.now) row.key row.versions }
        ensures { result ≡ row }
    {
        VouchedRow::new(row, Some(self.front()))
    }

    // The versions that were issued as the log stood at the front are issued now.
    fn learn_issued(&mut self, front: &Front<J>, incoming: &RowRef<'_, J>)
        requires { AreMadeOf (world_after (steps_of front.now)) incoming.now.key
            incoming.now.versions }
        ensures book { self.new ≡ self.old }
        ensures issued { AreMadeOf (world_of self.old) incoming.now.key incoming.now.versions }
    {
        self.log_is_legal();
        self.learn(front);
    }

    /// `check_hold` of a row that is lent. Of one for which the book vouched nothing is compared.
    /// Takes no memory.
    pub fn check_lent(&mut self, incoming: &RowRef<'_, J>) -> Result<(), Fault>
        ensures book { self.new ≡ self.old }
        ensures ok { OnOk result
            (AreMadeOf (world_of self.old) incoming.now.key incoming.now.versions
            × HasRoom self.old 1) }
        ensures not_issued { (d : DotParts) → IsErrOf result (Fault.NotIssued d)
            ↔ IsLeastNotIssued (world_of self.old).versions incoming.now.versions d }
        ensures steps_full { IsErrOf result Fault.StepsFull
            ↔ (AreMadeOf (world_of self.old) incoming.now.key incoming.now.versions
            × LacksRoom self.old 1) }
        ensures only { IfErr result (λ fault.
            ((d : DotParts) × (fault ≡ Fault.NotIssued d)) ⊎ (fault ≡ Fault.StepsFull)) }
    {
        let Some(front) = incoming.front() else {
            return self.check_hold(incoming.row());
        };
        self.learn_issued(front, incoming);
        if self.steps_left() < 1 {
            return Err(Fault::StepsFull);
        }
        Ok(())
    }
}
