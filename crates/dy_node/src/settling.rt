// Hints that are given up by receipts.
ghost use Rattle.std.specs.{
  Prelude.{◌≡◌, ◌≢◌, ◌<◌, ◌∷◌, [], true, false, IfOk, OnOk, OnErr, IsOk, IsOkUnless},
  Result.{result_err},
  List.{All, list_any},
};
ghost use Rattle.dy_book.specs.Books.{HasRoom, LacksRoom};
ghost use Rattle.dy_node.specs.{
  Stored.{Shows},
  Settling.{AreReleased, IsSettlement, NoneStands, ReleaseRefused, SettleRefused, same_release},
  Settling.{without_all},
  inside.Chosen.{AreCounted, is_new, taken},
};

use crate::nodes::Node;
use crate::stores::Stores;
use dy_book::Book;
use dy_dots::Fault;
use dy_shares::{Naming, NodeShare, Receipt};
use std::alloc::Global;

// Whether the two are of one home, key and dot.
fn is_same<J: Naming>(a: &Receipt<J>, b: &Receipt<J>) -> bool
    ensures { result ≡ same_release a.now b.now }
{
    a.home() == b.home() && (a.key() == b.key() && a.dot() == b.dot())
}

// Whether one of these is of its home, key and dot.
fn is_among<J: Naming>(others: &[Receipt<J>], receipt: &Receipt<J>) -> bool
    ensures { result ≡ list_any (λ r. same_release r receipt.now) others.now }
{
    others.iter().any(|other| is_same(other, receipt))
}

// Whether the receipt's dot stands in the hint for its home, and none of the others is of it.
fn is_new<J: Naming>(stores: &Stores, others: &[Receipt<J>], receipt: &Receipt<J>) -> bool
    ensures { result ≡ is_new stores.now.rooms others.now receipt.now }
{
    let stands = stores.has_hint(receipt.home(), receipt.key(), receipt.dot());
    stands && !is_among(others, receipt)
}

// How many dots of the receipts stand in the hint for their home, each once. Takes no memory.
fn count_standing<J: Naming>(stores: &Stores, receipts: &[Receipt<J>]) -> usize
    ensures { AreCounted stores.now.rooms receipts.now result }
{
    let mut count = 0;
    for (at, receipt) in receipts.iter().enumerate() {
        if is_new(stores, &receipts[..at], receipt) {
            count += 1;
        }
    }
    count
}

// Whether so many steps are wanted, and the book has fewer left. Takes no memory.
fn lacks_steps<J: Naming>(book: &Book<J>, count: usize) -> bool
    ensures lacks { result ≡ true → (0 < count) × LacksRoom book.now count }
    ensures has { result ≡ false → 0 < count → HasRoom book.now count }
{
    let left = book.options().steps_limit.saturating_sub(book.since().at());
    left < count
}

// Adds a copy of the receipt to those chosen, if its dot stands in the hint for its home and none
// of them is of it.
fn take_in<J: Naming>(
    alloc: Global,
    stores: &Stores,
    chosen: &mut Vec<Receipt<J>>,
    receipt: &Receipt<J>,
) -> Result<(), Fault>
    ensures chosen { OnOk result
        (chosen.new.items ≡ taken stores.now.rooms chosen.old.items receipt.now) }
    ensures spared { NoneStands stores.now.rooms (receipt.now ∷ []) → IsOk result }
    ensures memory { IsOkUnless result Fault.OutOfMemory }
{
    if is_new(stores, chosen.as_slice(), receipt) {
        let copy = receipt.try_clone(alloc)?;
        if chosen.push(copy).is_err() {
            return Err(Fault::OutOfMemory);
        }
    }
    Ok(())
}

// The receipts whose dot stands in the hint for their home, each dot once.
fn choose<J: Naming>(
    alloc: Global,
    stores: &Stores,
    receipts: &[Receipt<J>],
) -> Result<Vec<Receipt<J>>, Fault>
    ensures chosen { IfOk result (λ chosen.
        AreReleased stores.now.rooms receipts.now chosen.items) }
    ensures spared { NoneStands stores.now.rooms receipts.now → IsOk result }
    ensures memory { IsOkUnless result Fault.OutOfMemory }
{
    let mut chosen = Vec::new(alloc);
    for receipt in receipts {
        take_in(alloc, stores, &mut chosen, receipt)?;
    }
    Ok(chosen)
}

// Drops the dot of each receipt from the hint for its home.
fn drop_all<J: Naming>(stores: &mut Stores, receipts: &[Receipt<J>])
    ensures rooms { stores.new.rooms ≡ without_all stores.old.rooms receipts.now }
    ensures counters { stores.new.counters ≡ stores.old.counters }
{
    for receipt in receipts {
        stores.drop_dot(receipt.home(), receipt.key(), receipt.dot());
    }
}

// Releases the dot of each receipt that stands in the hint for its home, all or none. It looks
// whether steps are wanting before it asks for memory.
fn settle_receipts<J: Naming>(
    alloc: Global,
    stores: &mut Stores,
    share: &mut NodeShare<J>,
    book: &mut Book<J>,
    receipts: &[Receipt<J>],
) -> Result<usize, Fault>
    requires own { All (λ r. r.holder ≡ r.home) receipts.now }
    requires shown { Shows share.old stores.old }
    ensures shown { Shows share.new stores.new }
    ensures ok { IfOk result (λ count. IsSettlement book.old share.old stores.old.rooms
        receipts.now count book.new share.new stores.new.rooms) }
    ensures stores { OnErr result (stores.new ≡ stores.old) }
    ensures share { OnErr result (share.new ≡ share.old) }
    ensures book { OnErr result (book.new ≡ book.old) }
    ensures spared { NoneStands stores.old.rooms receipts.now → IsOk result }
    ensures refused { ReleaseRefused book.old stores.old.rooms receipts.now (result_err result) }
{
    book.agree(share);
    let count = count_standing(stores, receipts);
    if lacks_steps(book, count) {
        return Err(Fault::StepsFull);
    }
    let chosen = match choose(alloc, stores, receipts) {
        Ok(chosen) => chosen,
        Err(_fault) => return Err(Fault::OutOfMemory),
    };
    match book.release(share, chosen.as_slice()) {
        Ok(()) => {
            drop_all(stores, chosen.as_slice());
            book.agree(share);
            Ok(chosen.len())
        }
        Err(fault) => Err(fault),
    }
}

impl<J: Naming> Node<J> {
    /// Releases each receipted dot that stands in the hint for the receipt's home, all or none, and
    /// gives how many. Where nothing stands it takes no memory.
    pub fn settle(&mut self, book: &mut Book<J>, receipts: &[Receipt<J>]) -> Result<usize, Fault>
        requires { All (λ r. r.holder ≡ r.home) receipts.now }
        ensures ok { IfOk result (λ count. IsSettlement book.old self.old.part self.old.rooms
            receipts.now count book.new self.new.part self.new.rooms) }
        ensures is_up { self.new.is_up ≡ self.old.is_up }
        ensures mode { self.new.mode ≡ self.old.mode }
        ensures waiting { self.new.waiting ≡ self.old.waiting }
        ensures spared { self.old.is_up ≡ true → NoneStands self.old.rooms receipts.now →
            IsOk result }
        ensures refused { SettleRefused book.old self.old receipts.now (result_err result) }
        ensures err { OnErr result (self.new ≡ self.old) }
        ensures book { OnErr result (book.new ≡ book.old) }
    {
        if !self.is_up {
            return Err(Fault::Down);
        }
        settle_receipts(
            self.alloc,
            &mut self.stores,
            &mut self.share,
            book,
            receipts,
        )
    }
}
