// A roll of shares, each of which agrees with its seat in the roll.
ghost use Rattle.std.specs.Prelude.{◌≡◌, ◌<◌, ◌++◌, ◌∷◌, [], length, slice_set};
ghost use mathlib.Core.Option.{some};
ghost use lib.ListN.{get_elem?};
ghost use Rattle.dy_shares.specs.{inside.Agreeing.{IsOut, knower, retired}, inside.Parts.{held}};

use crate::chronicles::Added;
use crate::entries::Done;
use crate::names::Naming;
use atomic_table::{Badge, Join, Play, Seat as Party, Split, Table, TableRule};
use std::alloc::{AllocError, Global};
use std::collections::LinkedList;
use std::marker::{Model, PhantomData};
use std::mem;

/// What a party knows: the keeper of the roll all parts, and a share its seat and its own part. No
/// value of it is made.
pub struct View {
    pub keeps: bool,
    pub parts: LinkedList<LinkedList<Done>>,
    pub shares: bool,
    pub index: u64,
    pub own: LinkedList<Done>,
}

/// The rule of the roll.
pub struct Agreement;

impl TableRule<Added, View, ()> for Agreement {
    ghost use Rattle.std.specs.Prelude.{[]};
    ghost use Rattle.dy_shares.specs.inside.Agreeing.{Agree, knower};

    ghost holds = { λ key s. Agree s.views };

    ghost first = { λ key. knower [] };
}

/// The keeper compares the share that it holds.
pub struct Compare;

impl Play<Added, View> for Compare {
    ghost use Rattle.dy_shares.specs.inside.Agreeing.{Compares};

    ghost then = { Compares };
}

/// The keeper changes the share that it holds, and its seat in the roll.
pub struct Grow;

impl Play<Added, View> for Grow {
    ghost use Rattle.dy_shares.specs.inside.Agreeing.{Grows};

    ghost then = { Grows };
}

/// The keeper takes the share that it holds for good, and marks its seat.
pub struct Retire;

impl Play<Added, View> for Retire {
    ghost use Rattle.dy_shares.specs.inside.Agreeing.{Retires};

    ghost then = { Retires };
}

/// A new seat, and its share.
pub struct Opens;

impl Split<View> for Opens {
    ghost use Rattle.dy_shares.specs.inside.Agreeing.{opened, newest_share};

    ghost left = { opened };

    ghost right = { newest_share };
}

/// The keeper takes a share in, and gives it out again.
pub struct Lends;

impl Split<View> for Lends {
    ghost use Rattle.dy_shares.specs.inside.Agreeing.{alone, lent};

    ghost left = { alone };

    ghost right = { lent };
}

impl Join<View> for Lends {
    ghost use Rattle.dy_shares.specs.inside.Agreeing.{holding, nobody};

    ghost both = { holding };

    ghost spent = { nobody };
}

type Desk = Table<Added, View, (), Agreement, Global>;

/// A roll with no seat, not named yet.
#[derive(Drop)]
pub struct BlankRoll {
    pub table: Desk,
    keeper: Party<Added, View>,
    pub ghost words: { 0 < table.shared.table_id.words },
    pub ghost fits: { keeper.table_id ≡ table.shared.table_id },
    pub ghost empty: { keeper.me ≡ (knower [], []) },
}

/// All parts. To a contract it is the list of them.
#[derive(Drop)]
pub struct Roll<J: Naming> {
    table: Desk,
    keeper: Party<Added, View>,
    of: PhantomData<J>,
}

impl<J: Naming> Model for Roll<J> {
    ghost use Rattle.std.specs.Prelude.{◌≡◌, ◌<◌, List, []};
    ghost use Rattle.dy_shares.specs.{
      inside.Agreeing.{knower},
      declared.entries.Done.{Done},
      inside.Parts.{parts_code},
    };

    ghost Value = { List (List Done) };

    ghost coded = { parts_code };

    ghost view = { λ r. r.keeper.me.0.parts };

    ghost invariant = { λ r.
        (r.table.shared.table_id ≡ J.table) × (r.keeper.table_id ≡ J.table)
        × (0 < r.table.shared.table_id.words) × (r.keeper.me ≡ (knower r.keeper.me.0.parts, [])) };
}

/// A share of one seat. It must be handed in. To a contract it is its index and its part.
pub struct Share<J: Naming> {
    index: usize,
    badge: Badge<View>,
    of: PhantomData<J>,
}

impl<J: Naming> Model for Share<J> {
    ghost use Rattle.std.specs.Prelude.{◌≡◌, [], ◌∷◌};
    ghost use Rattle.dy_shares.specs.{
      inside.Agreeing.{IsOut, share_of, part_of},
      inside.Parts.{Held, held, held_code},
    };

    ghost Value = { Held };

    ghost coded = { held_code };

    ghost view = { λ s. held s.index (part_of s.badge.views) };

    ghost invariant = { λ s.
        (s.badge.table_id ≡ J.table)
        × (s.badge.views ≡ share_of s.index (part_of s.badge.views) ∷ [])
        × IsOut (part_of s.badge.views) };
}

impl BlankRoll {
    pub(crate) fn new(alloc: Global) -> Result<BlankRoll, AllocError> {
        let (table, keeper) = Table::of_words(alloc, &[0], &())?;
        Ok(BlankRoll { table, keeper })
    }

    pub(crate) fn named<J: Naming>(self) -> Roll<J>
        requires { self.table.shared.table_id ≡ J.table }
        ensures { result ≡ [] }
    {
        let BlankRoll { table, keeper } = self;
        Roll {
            table,
            keeper,
            of: PhantomData,
        }
    }
}

impl<J: Naming> Share<J> {
    pub(crate) fn abandon(self) {
        let Share {
            index: _,
            badge: _,
            of: _,
        } = self;
    }
}

impl<J: Naming> Roll<J> {
    // A new seat at the end, and its share. `index` is how many there are.
    pub(crate) fn open(&mut self, index: usize) -> Share<J>
        requires { index ≡ length self.old }
        ensures roll { self.new ≡ self.old ++ [] ∷ [] }
        ensures share { result ≡ held index [] }
    {
        let table = &self.table;
        let party = table.shared.split_seat::<Opens>(&mut self.keeper);
        Share {
            index,
            badge: party.into_badge(),
            of: PhantomData,
        }
    }

    // The share agrees with its seat.
    pub(crate) fn compare(&mut self, share: &mut Share<J>)
        ensures same { (self.new ≡ self.old) × (share.new ≡ share.old) }
        ensures agree { get_elem? self.old share.old.index ≡ some share.old.part }
        ensures is_out { IsOut share.old.part }
    {
        let party = mem::replace(&mut share.badge, Badge::blank()).into_seat::<Added>();
        let table = &self.table;
        table.shared.join_seat::<Lends>(&mut self.keeper, party);
        table.shared.load::<Compare>(&mut self.keeper, 0);
        let party = table.shared.split_seat::<Lends>(&mut self.keeper);
        share.badge = party.into_badge();
    }

    // What came to the log goes to the share and to its seat.
    pub(crate) fn grow(&mut self, share: &mut Share<J>, added: &Added)
        requires { IsOut added.now }
        ensures roll { self.new ≡
            slice_set self.old share.old.index (share.old.part ++ added.now) }
        ensures share { share.new ≡ held share.old.index (share.old.part ++ added.now) }
    {
        let party = mem::replace(&mut share.badge, Badge::blank()).into_seat::<Added>();
        let table = &self.table;
        table.shared.join_seat::<Lends>(&mut self.keeper, party);
        table
            .shared
            .compare_exchange_with::<Grow>(&mut self.keeper, 0, 0, 0, added);
        let party = table.shared.split_seat::<Lends>(&mut self.keeper);
        share.badge = party.into_badge();
    }

    // The share comes back for good. Its seat is marked, so that none comes back twice.
    pub(crate) fn end(&mut self, share: Share<J>)
        ensures agree { get_elem? self.old share.index ≡ some share.part }
        ensures is_out { IsOut share.part }
        ensures roll { self.new ≡ slice_set self.old share.index (retired share.part) }
    {
        let Share {
            index: _,
            badge,
            of: _,
        } = share;
        let party = badge.into_seat::<Added>();
        let table = &self.table;
        table.shared.join_seat::<Lends>(&mut self.keeper, party);
        table.shared.load::<Retire>(&mut self.keeper, 0);
    }
}
