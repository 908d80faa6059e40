ghost use Rattle.std.specs.Prelude.{◌≡◌, IfOk, IfSome, IsOkUnless};
ghost use Rattle.dy_core.specs.Worlds.{AreMadeOf};
ghost use Rattle.dy_core.specs.Logs.{world_after};
ghost use Rattle.dy_shares.specs.Shares.{steps_of};
ghost use Rattle.dy_book.specs.inside.Vouching.{IsVouched};

use crate::vouched_rows::VouchedRow;
use dy_dots::Fault;
use dy_shares::{Front, Naming};
use dy_siblings::Row;
use std::alloc::Global;
use std::marker::Model;

/// A row that is lent. It may carry the word of the book that its versions are the issued ones,
/// which takes no bytes of its own.
pub struct RowRef<'a, J: Naming> {
    row: &'a Row,
    // By whose log they were issued, if the book vouched for them.
    front: Option<Front<J>>,
}

impl<'a, J: Naming> Drop for RowRef<'a, J> {
    fn drop(self) {
        let RowRef { row: _, front: _ } = self;
    }
}

impl<'a, J: Naming> Model for RowRef<'a, J> {
    ghost use Rattle.dy_siblings.specs.Siblings.{Siblings, siblings_code};
    ghost use Rattle.dy_book.specs.inside.Vouching.{IsVouched};

    ghost Value = { Siblings };

    ghost coded = { siblings_code };

    ghost view = { λ r. r.row.now };

    ghost invariant = { λ r. IsVouched r.front r.row.now };
}

impl<'a, J: Naming> RowRef<'a, J> {
    /// The row, for which nobody vouches. Takes no memory.
    pub fn new(row: &'a Row) -> RowRef<'a, J>
        ensures { result ≡ row.now }
    {
        RowRef { row, front: None }
    }

    // The row as it was vouched for.
    pub(crate) fn with_front(row: &'a Row, front: Option<Front<J>>) -> RowRef<'a, J>
        requires { IsVouched front row.now }
        ensures { result ≡ row.now }
    {
        RowRef { row, front }
    }

    /// The row. Takes no memory.
    pub fn row(&self) -> &'a Row
        ensures { result.now ≡ self.now }
    {
        self.row
    }

    // The front by whose log the versions were issued, if the book vouched for them.
    pub(crate) fn front(&self) -> Option<&Front<J>>
        ensures { IfSome result (λ front.
            AreMadeOf (world_after (steps_of front.now)) self.now.key self.now.versions) }
    {
        match &self.front {
            Some(front) => Some(front),
            None => None,
        }
    }

    /// A copy, which is vouched for as the row is.
    #[inline(always)]
    pub fn copied(&self, alloc: Global) -> Result<VouchedRow<J>, Fault>
        ensures value { IfOk result (λ copy. copy ≡ self.now) }
        ensures memory { IsOkUnless result Fault.OutOfMemory }
    {
        let row = self.row.try_clone(alloc)?;
        let front = match &self.front {
            Some(front) => Some(front.copied()),
            None => None,
        };
        Ok(VouchedRow::new(row, front))
    }
}
