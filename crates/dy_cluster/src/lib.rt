//! The store as a program uses it: nodes and a book, each under a lock of its own.
#![tactic(auto)]

mod books;
mod calls;
mod carrying;
mod clusters;
mod connections;
mod direct_calls;
mod embedding;
mod handing;
mod handovers;
mod kept_lists;
mod laws;
mod locks;
mod marked_works;
mod marks;
mod mending_gets;
mod open_clusters;
mod openings;
mod outages;
mod pasts;
mod posting;
mod put_calls;
mod resting;
mod step_copies;
mod values;

pub use carrying::{CarryFault, carry_over};
pub use clusters::Cluster;
pub use connections::Connection;
pub use direct_calls::DirectCalls;
pub use embedding::{Work, with_cluster};
pub use handovers::Handover;
pub use laws::{
    audit_lists_what_was_told, gets_give_what_homes_took, session_guarantees, stores_cover_acks,
    what_is_held_is_kept, what_is_seen_is_there, what_was_acknowledged_is_present,
};
pub use marked_works::{MarkedWork, with_marked_cluster};
pub use marks::Mark;
pub use mending_gets::MendingGet;
pub use open_clusters::OpenCluster;
pub use openings::Opened;
pub use resting::{Closed, ClusterRefused, Resting};
pub use values::PresentValue;

// Types that a client needs besides, so that an embedding program names no other library for them.
pub use dy_book::{AckedAt, Audit, Options};
pub use dy_coord::{GetDone, GetFault, PutDone, PutFault};
pub use dy_core::{Acked, Holding, Place};
pub use dy_dots::{Context, Dot, Fault, NodeId};
pub use dy_mailboxes::{Gate, Post};
pub use dy_node::{Ask, Mode};
pub use dy_ring::Ring;
pub use dy_shares::Naming;
use dy_shares::SessionShare;
pub use dy_siblings::{Key, Row, Value, Version};
pub use dy_transport::Transport;

/// A client's session: the list of its acks and gets. It must be handed in when the cluster closes.
pub type Session<J> = SessionShare<J>;
