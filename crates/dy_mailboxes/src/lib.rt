//! A transport that sends what it asks to the nodes' workers, in threads of their own.
#![tactic(auto)]

mod gates;
mod parcels;
mod posts;
mod replies;
mod transports;
mod workers;

pub use gates::{Gate, Open};
pub use posts::{Inbox, MAILBOX_ROOM, Post};
pub use transports::Mailboxes;
pub use workers::serve;
