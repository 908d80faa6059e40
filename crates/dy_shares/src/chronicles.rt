// A log that one owner extends, and fronts of it that anybody may copy.
ghost use Rattle.std.specs.Prelude.{◌≡◌, ℕ, zero, suc, ◌+◌, ◌<◌, ◌^◌, ◌++◌, ◌∷◌, [], length, drop};
ghost use Rattle.std.specs.Prelude.{IfSome, MatchBool};
ghost use mathlib.Core.List.{IsPrefix};
ghost use Rattle.logbook.specs.Pages.{nib, may_write};
ghost use Rattle.dy_shares.specs.{
  inside.Growth.{head_of},
  inside.Parts.{entries_of, numbered},
  Shares.{steps_of},
};

use crate::entries::{Batch, Entry};
use crate::names::Naming;
use logbook::{Gain, Offer, Pen, Plain, Play, Rule, Seen, Start, Word};
use std::collections::LinkedList;
use std::marker::{Model, PhantomData};

// What one step adds: some entries, all or none. To a contract it is the list of them; no value of
// it is made.
type Entries = LinkedList<Entry>;

/// The rule of the book.
pub struct Law;

impl Rule<Entries, u64> for Law {
    ghost use Rattle.std.specs.Prelude.{[]};
    ghost use base.Fml.{ftrue};
    ghost use Rattle.dy_shares.specs.inside.Growth.{IsKept};

    ghost holds = { λ cells log. IsKept cells log };

    ghost first = { [] };

    ghost hinted = { λ n log. Unit {0} };

    ghost shows = { λ log. [] };

    ghost keeps = { λ names log. ftrue };

    ghost moves = { λ ask before after answer. Unit {0} };
}

/// Callers trade nothing.
pub struct Nothing;

impl Gain<Entries, u64> for Nothing {
    ghost use base.Fml.{ftrue};

    ghost after = { λ names about answer. ftrue };
}

/// A step that finds the log as it is.
pub struct Look;

impl Play<Entries, u64> for Look {
    ghost use Rattle.dy_shares.specs.inside.Growth.{Looks};

    ghost then = { Looks };
}

/// A step that makes the right to append once more.
pub struct Ready;

impl Play<Entries, u64> for Ready {
    ghost use Rattle.dy_shares.specs.inside.Growth.{Readies};

    ghost then = { Readies };
}

/// A step that spends this right and appends an entry.
pub struct Append;

impl Play<Entries, u64> for Append {
    ghost use Rattle.dy_shares.specs.inside.Growth.{Appends};

    ghost then = { Appends };
}

/// What a step asks for: the entries.
impl<'a> Plain<Batch<'a>, Entries, u64> for Append {
    ghost use Rattle.std.specs.Prelude.{None};
    ghost use Rattle.dy_shares.specs.inside.Parts.{entries_of};

    ghost ask = { λ batch. entries_of batch.told batch.steps.now };

    ghost state = { λ batch. None };
}

/// A step that adds nothing asks for no entry.
impl Plain<(), Entries, u64> for Look {
    ghost use Rattle.std.specs.Prelude.{None, []};

    ghost ask = { λ nothing. [] };

    ghost state = { λ nothing. None };
}

/// An empty log that has no name yet.
#[derive(Drop)]
pub struct BlankChronicle {
    head: Word<Entries, u64, Law>,
    pub(crate) seen: Seen<Entries, u64, Law>,
    baton: Pen,
    pub ghost empty: { seen.log ≡ [] },
    pub ghost head_is: { head ≡ head_of seen.book },
    pub ghost baton_of: { baton.book ≡ seen.book },
    pub ghost baton_is: { baton.nib ≡ nib may_write (suc (suc zero)) 0 },
}

// The right to append the entry of this number. It is there, unless somebody else has made it.
fn new_baton(
    head: &Word<Entries, u64, Law>,
    seen: &Seen<Entries, u64, Law>,
    number: usize,
) -> Option<Pen>
    requires head { head.now ≡ head_of seen.now.book }
    requires room { number < 2 ^ 63 }
    ensures book { IfSome result (λ pen. pen.book ≡ seen.now.book) }
    ensures nib { IfSome result (λ pen. pen.nib ≡ nib may_write (suc (suc number)) 0) }
{
    let mut seen = seen.again();
    let mut offer: Offer<Entries, u64, Law, Nothing> = seen.plain::<Nothing, (), Look>(&());
    let mut pen = seen.no_pen();
    let made = number as u64;
    let found = head.compare_exchange::<Ready, Nothing>(
        made,
        made + 1,
        &mut seen,
        &mut offer,
        &mut pen,
    );
    if found != made {
        return None;
    }
    let _word: Word<Entries, u64, Law> = Word::tracked(0, &mut pen);
    Some(pen)
}

impl BlankChronicle {
    pub(crate) fn new() -> Option<BlankChronicle> {
        let (seen, mut first, _second) = Seen::open(Start::alone(), 0, 0);
        let head = Word::tracked(0, &mut first);
        let baton = new_baton(&head, &seen, 0)?;
        Some(BlankChronicle { head, seen, baton })
    }

    pub(crate) fn named<J: Naming>(self) -> Chronicle<J>
        requires { self.seen.book ≡ J.book }
        ensures { result ≡ [] }
    {
        let BlankChronicle { head, seen, baton } = self;
        Chronicle {
            head,
            seen,
            baton,
            batches: 0,
            of: PhantomData,
        }
    }
}

/// The whole log, and the one right to extend it. To a contract it is its entries.
#[derive(Drop)]
pub struct Chronicle<J: Naming> {
    head: Word<Entries, u64, Law>,
    seen: Seen<Entries, u64, Law>,
    baton: Pen,
    batches: usize,
    of: PhantomData<J>,
}

impl<J: Naming> Model for Chronicle<J> {
    ghost use Rattle.std.specs.Prelude.{◌≡◌, suc, List, length};
    ghost use Rattle.logbook.specs.Pages.{nib, may_write};
    ghost use Rattle.dy_shares.specs.{
      inside.Growth.{head_of, joined},
      Codes.{entries_code},
      declared.entries.Entry.{Entry},
    };

    ghost Value = { List Entry };

    ghost coded = { entries_code };

    ghost view = { λ c. joined c.seen.log };

    ghost invariant = { λ c.
        (c.seen.book ≡ J.book) × (c.head ≡ head_of J.book) × (c.baton.book ≡ J.book)
        × (c.baton.nib ≡ nib may_write (suc (suc (length c.seen.log))) 0)
        × (c.batches ≡ length c.seen.log) };
}

/// A beginning of the log. It takes no bytes, and may be copied and dropped. To a contract it is
/// its entries.
pub struct Front<J: Naming> {
    seen: Seen<Entries, u64, Law>,
    of: PhantomData<J>,
}

impl<J: Naming> Drop for Front<J> {
    fn drop(self) {
        let Front { seen: _, of: _ } = self;
    }
}

impl<J: Naming> Model for Front<J> {
    ghost use Rattle.std.specs.Prelude.{◌≡◌, List};
    ghost use Rattle.dy_shares.specs.{
      inside.Growth.{joined},
      Codes.{entries_code},
      declared.entries.Entry.{Entry},
    };

    ghost Value = { List Entry };

    ghost coded = { entries_code };

    ghost view = { λ f. joined f.seen.log };

    ghost invariant = { λ f. f.seen.book ≡ J.book };
}

// What the log has behind so many steps, each with its number. It has no bytes but that number.
#[derive(Drop)]
pub struct Added {
    after: usize,
    seen: Seen<Entries, u64, Law>,
}

impl Model for Added {
    ghost use Rattle.std.specs.Prelude.{◌+◌, List, drop};
    ghost use Rattle.dy_shares.specs.{
      inside.Growth.{joined},
      Shares.{steps_of},
      inside.Parts.{numbered, part_code},
      declared.entries.Done.{Done},
    };

    ghost Value = { List Done };

    ghost coded = { part_code };

    ghost view = { λ a. numbered (a.after + 1) (steps_of (drop a.after (joined a.seen.log))) };
}

impl<J: Naming> Front<J> {
    /// The same front once more. Takes no memory.
    pub fn copied(&self) -> Front<J>
        ensures { result ≡ self.now }
    {
        Front {
            seen: self.seen.again(),
            of: PhantomData,
        }
    }

    // Afterwards it is a front that begins with both.
    pub(crate) fn join(&mut self, other: &Front<J>)
        ensures own { IsPrefix self.old self.new }
        ensures other { IsPrefix other.now self.new }
    {
        self.seen.learn(&other.seen);
    }
}

impl<J: Naming> Chronicle<J> {
    // The log as it stands.
    pub(crate) fn front(&self) -> Front<J>
        ensures { result ≡ self.now }
    {
        Front {
            seen: self.seen.again(),
            of: PhantomData,
        }
    }

    // What the log has behind so many steps.
    pub(crate) fn added(&self, after: usize) -> Added
        ensures { result ≡ numbered (after + 1) (steps_of (drop after self.now)) }
    {
        Added {
            after,
            seen: self.seen.again(),
        }
    }

    // The log begins with the front, whatever came between.
    pub(crate) fn learn(&mut self, front: &Front<J>)
        ensures same { self.new ≡ self.old }
        ensures begins { IsPrefix front.now self.old }
    {
        let mut both = self.seen.again();
        both.learn(&front.seen);
        let mut offer: Offer<Entries, u64, Law, Nothing> = both.plain::<Nothing, (), Look>(&());
        self.head
            .compare_exchange::<Look, Nothing>(0, 0, &mut both, &mut offer, &mut self.baton);
    }

    // Appends the entries, all or none, and says whether it did.
    pub(crate) fn append(&mut self, batch: &Batch<'_>) -> bool
        ensures { MatchBool result
            (self.new ≡ self.old ++ entries_of batch.now.told batch.now.steps.now)
            (self.new ≡ self.old) }
    {
        if self.batches >= 1 << 40 {
            return false;
        }
        let Some(next) = new_baton(&self.head, &self.seen, self.batches + 1) else {
            return false;
        };
        let mut offer: Offer<Entries, u64, Law, Nothing> = self
            .seen
            .plain::<Nothing, Batch<'_>, Append>(batch);
        self.head
            .compare_exchange::<Append, Nothing>(0, 0, &mut self.seen, &mut offer, &mut self.baton);
        self.baton = next;
        self.batches += 1;
        true
    }
}
