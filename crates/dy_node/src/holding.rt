// Rows that a node holds.
ghost use Rattle.std.specs.{Prelude.{◌≡◌, ◌∷◌, [], IsTrue, IfOk, OnOk, OnErr}, Result.{result_err}};
ghost use Rattle.dy_preference.specs.Preferences.{homes_of, may_hold};
ghost use Rattle.dy_core.specs.{Steps.{place_for}, declared.steps.Step.TheVariants.{Hold}};
ghost use Rattle.dy_shares.specs.Shares.{with_steps};
ghost use Rattle.dy_book.specs.Books.{receipts_of, with_untold};
ghost use Rattle.dy_node.specs.{Stored.{Shows}, Refusals.{HoldRefused, StoreRefused}};

use crate::nodes::Node;
use crate::stores::Stores;
use dy_book::{Book, RowRef};
use dy_dots::{Fault, NodeId};
use dy_shares::{Naming, NodeShare, Receipt};
use dy_siblings::Row;

// Merges the row into what is kept, and holds it for the home. A refusal changes nothing.
fn hold_lent<J: Naming>(
    stores: &mut Stores,
    share: &mut NodeShare<J>,
    book: &mut Book<J>,
    home: NodeId,
    lent: &RowRef<'_, J>,
) -> Result<Vec<Receipt<J>>, Fault>
    requires may_hold { IsTrue (may_hold (homes_of J.ring J.n lent.now.key) share.old.node home) }
    requires shown { Shows share.old stores.old }
    ensures shown { Shows share.new stores.new }
    ensures log { OnOk result
        (book.new ≡ with_untold book.old (Hold (place_for share.old.node home) lent.now ∷ [])) }
    ensures share { OnOk result
        (share.new ≡ with_steps share.old (Hold (place_for share.old.node home) lent.now ∷ [])) }
    ensures receipts { IfOk result (λ receipts.
        receipts.items ≡ receipts_of lent.now.versions share.old.node home) }
    ensures err { OnErr result
        ((stores.new ≡ stores.old) × (share.new ≡ share.old) × (book.new ≡ book.old)) }
    ensures refused { HoldRefused book.old lent.now (result_err result) }
{
    book.agree(share);
    match book.check_lent(lent) {
        Ok(()) => {}
        Err(fault) => return Err(fault),
    }
    let row = lent.row();
    let placed = match stores.add(home, row) {
        Ok(placed) => placed,
        Err(_fault) => return Err(Fault::OutOfMemory),
    };
    match book.hold_issued(share, home, row) {
        Ok(receipts) => {
            book.agree(share);
            Ok(receipts)
        }
        Err(fault) => {
            stores.take_back(home, row.key(), placed);
            Err(fault)
        }
    }
}

// The same of a row for which nobody vouches.
pub(crate) fn hold_row<J: Naming>(
    stores: &mut Stores,
    share: &mut NodeShare<J>,
    book: &mut Book<J>,
    home: NodeId,
    row: &Row,
) -> Result<Vec<Receipt<J>>, Fault>
    requires may_hold { IsTrue (may_hold (homes_of J.ring J.n row.now.key) share.old.node home) }
    requires shown { Shows share.old stores.old }
    ensures shown { Shows share.new stores.new }
    ensures log { OnOk result
        (book.new ≡ with_untold book.old (Hold (place_for share.old.node home) row.now ∷ [])) }
    ensures share { OnOk result
        (share.new ≡ with_steps share.old (Hold (place_for share.old.node home) row.now ∷ [])) }
    ensures receipts { IfOk result (λ receipts.
        receipts.items ≡ receipts_of row.now.versions share.old.node home) }
    ensures err { OnErr result
        ((stores.new ≡ stores.old) × (share.new ≡ share.old) × (book.new ≡ book.old)) }
    ensures refused { HoldRefused book.old row.now (result_err result) }
{
    let lent = RowRef::new(row);
    hold_lent(stores, share, book, home, &lent)
}

impl<J: Naming> Node<J> {
    /// Merges the row into what is kept for the home, and gives a receipt for each of its versions.
    /// The book is asked before any growth. A row that is kept already costs the node only the
    /// comparison.
    pub fn store(
        &mut self,
        book: &mut Book<J>,
        home: NodeId,
        row: &Row,
    ) -> Result<Vec<Receipt<J>>, Fault>
        requires may_hold { IsTrue
            (may_hold (homes_of J.ring J.n row.now.key) self.old.part.node home) }
        ensures log { OnOk result
            (book.new ≡ with_untold book.old
            (Hold (place_for self.old.part.node home) row.now ∷ [])) }
        ensures share { OnOk result
            (self.new.part ≡ with_steps self.old.part
            (Hold (place_for self.old.part.node home) row.now ∷ [])) }
        ensures receipts { IfOk result (λ receipts.
            receipts.items ≡ receipts_of row.now.versions self.old.part.node home) }
        ensures is_up { self.new.is_up ≡ self.old.is_up }
        ensures mode { self.new.mode ≡ self.old.mode }
        ensures waiting { self.new.waiting ≡ self.old.waiting }
        ensures refused { StoreRefused book.old self.old row.now (result_err result) }
        ensures err { OnErr result (self.new ≡ self.old) }
        ensures book { OnErr result (book.new ≡ book.old) }
    {
        let lent = RowRef::new(row);
        self.store_lent(book, home, &lent)
    }

    /// `store` of a row for which the book may have vouched: then it compares none of its versions.
    pub fn store_lent(
        &mut self,
        book: &mut Book<J>,
        home: NodeId,
        row: &RowRef<'_, J>,
    ) -> Result<Vec<Receipt<J>>, Fault>
        requires may_hold { IsTrue
            (may_hold (homes_of J.ring J.n row.now.key) self.old.part.node home) }
        ensures log { OnOk result
            (book.new ≡ with_untold book.old
            (Hold (place_for self.old.part.node home) row.now ∷ [])) }
        ensures share { OnOk result
            (self.new.part ≡ with_steps self.old.part
            (Hold (place_for self.old.part.node home) row.now ∷ [])) }
        ensures receipts { IfOk result (λ receipts.
            receipts.items ≡ receipts_of row.now.versions self.old.part.node home) }
        ensures is_up { self.new.is_up ≡ self.old.is_up }
        ensures mode { self.new.mode ≡ self.old.mode }
        ensures waiting { self.new.waiting ≡ self.old.waiting }
        ensures refused { StoreRefused book.old self.old row.now (result_err result) }
        ensures err { OnErr result (self.new ≡ self.old) }
        ensures book { OnErr result (book.new ≡ book.old) }
    {
        if !self.is_up {
            return Err(Fault::Down);
        }
        hold_lent(&mut self.stores, &mut self.share, book, home, row)
    }
}
