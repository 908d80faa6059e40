ghost use Rattle.std.specs.Prelude.{◌≡◌, Some, IfOk, IsOkUnless};
ghost use Rattle.dy_transport.specs.Asking.{what_of};
ghost use Rattle.dy_sheets.specs.Kept.{IsKept};

use crate::dot_lists::DotList;
use dy_dots::Fault;
use dy_node::Ask;
use dy_shares::Naming;
use dy_siblings::Key;
use std::alloc::Global;

/// What the answers to an ask are held against.
#[derive(Drop)]
pub enum Kept {
    /// Of a row to hold: its key, and the dots of its versions, in their order.
    Store { key: Key, dots: DotList },
    /// Of a fetch: its key, and after how many steps it was asked.
    Fetch { key: Key, since: usize },
}

impl Kept {
    /// What is kept of an ask. A short key and one version take no memory.
    #[inline(always)]
    pub fn new<J: Naming>(alloc: Global, ask: &Ask<'_, J>) -> Result<Kept, Fault>
        ensures value { IfOk result (λ kept. IsKept (what_of ask.now) (Some kept)) }
        ensures memory { IsOkUnless result Fault.OutOfMemory }
    {
        match ask {
            Ask::Store { row, .. } => {
                let row = row.row();
                Ok(Kept::Store {
                    key: row.key().try_clone(alloc)?,
                    dots: DotList::of(alloc, row.versions())?,
                })
            }
            Ask::Fetch { key, since, .. } => Ok(Kept::Fetch {
                key: key.try_clone(alloc)?,
                since: since.at(),
            }),
        }
    }
}
