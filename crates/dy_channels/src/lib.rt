//! Channels of the kit whose sends take no memory, between a node's worker and those who ask it.
#![tactic(auto)]

mod boxes;
mod ends;
mod rules;

pub use boxes::{Outbox, mailbox};
pub use ends::{Receiver, Sender, channel};
pub use rules::{Apart, Counted};
