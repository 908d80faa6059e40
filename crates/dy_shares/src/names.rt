ghost use Rattle.std.specs.Prelude.{IsOkUnless};

use crate::chronicles::BlankChronicle;
use crate::parts::BlankRoll;
use dy_dots::Fault;
use std::alloc::Global;
use std::marker::{Brand, Model};

/// The name of a book: whatever belongs to the book has it, and no other book has. A program picks
/// it once, where it opens the book.
pub trait Naming {
    ghost use Rattle.std.specs.Prelude.{ℕ};
    ghost use Rattle.logbook.specs.Pages.{Book};
    ghost use Rattle.atomic_table.specs.Seated.{TableId};
    ghost use Rattle.dy_ring.specs.Rings.{Tokens};

    // The ring, and how many homes a key has and answers a get needs.
    ghost ring: { Tokens };

    ghost n: { ℕ };

    ghost r: { ℕ };

    // Its log, and its roll of shares.
    ghost book: { Book };

    ghost table: { TableId };
}

impl Naming for Brand {
    ghost use Rattle.std.specs.Prelude.{[]};
    ghost use Rattle.dy_shares.specs.inside.Agreeing.{no_table};

    ghost ring = { record { nodes = 0; tokens = [] } };

    ghost n = { 0 };

    ghost r = { 0 };

    ghost book = { record { number = 0; log_name = 0; cells_name = 0 } };

    ghost table = { no_table };
}

/// A log and a roll of shares that have no name yet. A program makes it first, and then picks the
/// name by it.
#[derive(Drop)]
pub struct Blank {
    pub(crate) chronicle: BlankChronicle,
    pub(crate) roll: BlankRoll,
}

impl Model for Blank {
    ghost use Rattle.dy_shares.specs.Shares.{BlankNames};

    ghost Value = { BlankNames };

    ghost view = { λ b.
        record { book = b.chronicle.seen.book; table = b.roll.table.shared.table_id } };
}

impl Blank {
    /// A log without a step, and a roll without a share.
    pub fn new(alloc: Global) -> Result<Blank, Fault>
        ensures memory { IsOkUnless result Fault.OutOfMemory }
    {
        let roll = BlankRoll::new(alloc)?;
        let Some(chronicle) = BlankChronicle::new() else {
            return Err(Fault::OutOfMemory);
        };
        Ok(Blank { chronicle, roll })
    }
}
