ghost use Rattle.std.specs.Prelude.{◌≡◌, ℕ, true, IfOk, IsOkUnless};
ghost use Rattle.dy_node.specs.Answers.{MayAsk};
ghost use Rattle.dy_mailboxes.specs.Parcels.{IsParcelOf, may_carry};

use crate::replies::ReplyTo;
use dy_dots::{Fault, NodeId};
use dy_node::{Answer, Ask, VouchedRow};
use dy_shares::{Naming, Since};
use dy_siblings::Key;
use std::alloc::Global;

/// What is asked, on its way: a copy of its own.
#[derive(Drop)]
pub enum Parcel<J: Naming> {
    /// To hold the row for the home.
    Store {
        home: NodeId,
        row: VouchedRow<J>,
    },
    /// What is kept of the key for the home.
    Fetch {
        home: NodeId,
        key: Key,
        since: Since<J>,
    },
}

impl<J: Naming> Parcel<J> {
    /// A copy of what is asked.
    #[inline(always)]
    pub fn new(alloc: Global, ask: &Ask<'_, J>) -> Result<Parcel<J>, Fault>
        ensures value { IfOk result (λ parcel. IsParcelOf ask.now parcel) }
        ensures memory { IsOkUnless result Fault.OutOfMemory }
    {
        match ask {
            Ask::Store { home, row } => Ok(Parcel::Store {
                home: *home,
                row: row.copied(alloc)?,
            }),
            Ask::Fetch { home, key, since } => Ok(Parcel::Fetch {
                home: *home,
                key: key.try_clone(alloc)?,
                since: since.copied(),
            }),
        }
    }

    /// What is asked. Takes no memory.
    pub fn ask(&self) -> Ask<'_, J>
        ensures value { IsParcelOf result self.now }
        ensures may_ask { (to : ℕ) → may_carry J.ring J.n to self.now ≡ true →
            MayAsk J.ring J.n to result }
    {
        match self {
            Parcel::Store { home, row } => Ask::Store {
                home: *home,
                row: row.lend(),
            },
            Parcel::Fetch { home, key, since } => Ask::Fetch {
                home: *home,
                key,
                since,
            },
        }
    }
}

/// An ask on its way to a node that may hold what it carries, and where its answers go.
#[derive(Drop)]
pub struct Posted<J: Naming> {
    pub(crate) to: NodeId,
    pub(crate) parcel: Parcel<J>,
    pub(crate) reply_to: ReplyTo<J>,
    ghost may_carry: { may_carry J.ring J.n to parcel ≡ true },
}
