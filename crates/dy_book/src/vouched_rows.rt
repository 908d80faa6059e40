ghost use Rattle.std.specs.Prelude.{◌≡◌};
ghost use Rattle.dy_siblings.specs.Siblings.{IsSiblingSet};
ghost use Rattle.dy_book.specs.inside.Vouching.{IsVouched};

use crate::row_refs::RowRef;
use dy_shares::{Front, Naming};
use dy_siblings::{Row, Version};
use std::marker::Model;

/// A row that may carry the word of the book that its versions are the issued ones. The word stays
/// true, whatever steps come.
pub struct VouchedRow<J: Naming> {
    row: Row,
    // By whose log they were issued, if the book vouched for them.
    front: Option<Front<J>>,
}

impl<J: Naming> Drop for VouchedRow<J> {
    fn drop(self) {
        let VouchedRow { row: _, front: _ } = self;
    }
}

impl<J: Naming> Model for VouchedRow<J> {
    ghost use Rattle.dy_siblings.specs.Siblings.{Siblings, siblings_code};
    ghost use Rattle.dy_book.specs.inside.Vouching.{IsVouched};

    ghost Value = { Siblings };

    ghost coded = { siblings_code };

    ghost view = { λ v. v.row };

    ghost invariant = { λ v. IsVouched v.front v.row };
}

impl<J: Naming> VouchedRow<J> {
    // The row with what vouches for it.
    pub(crate) fn new(row: Row, front: Option<Front<J>>) -> VouchedRow<J>
        requires { IsVouched front row }
        ensures { result ≡ row }
    {
        VouchedRow { row, front }
    }

    /// The versions, in the order of their dots. Takes no memory.
    pub fn versions(&self) -> &[Version]
        ensures value { result.now ≡ self.now.versions }
        ensures valid { IsSiblingSet self.now.key self.now.versions }
    {
        self.row.versions()
    }

    /// The row, lent with what vouches for it. Takes no memory.
    pub fn lend(&self) -> RowRef<'_, J>
        ensures { result ≡ self.now }
    {
        let front = match &self.front {
            Some(front) => Some(front.copied()),
            None => None,
        };
        RowRef::with_front(&self.row, front)
    }
}
