//! Clients of a cluster, each in a thread of its own, or one alone.
#![tactic(auto)]

mod accesses;
mod clients;
mod clients_done;
mod crews;
mod lone_clients;
mod operators;
mod seats;
mod staffing;

pub use accesses::Access;
pub use clients::{Client, with_clients};
pub use clients_done::ClientsDone;
pub use lone_clients::{LoneClient, with_client};
pub use operators::{Controls, Operator, Staff, with_operator};
pub use staffing::with_workers;

// What an embedding program needs besides, so that it names no other library for it.
pub use dy_cluster::{
    Acked, AckedAt, Ask, Audit, CarryFault, Closed, Cluster, ClusterRefused, Connection, Context,
    DirectCalls, Dot, Fault, Gate, GetDone, GetFault, Handover, Holding, Key, Mark, MarkedWork,
    MendingGet, Mode, Naming, NodeId, OpenCluster, Opened, Options, Place, Post, PresentValue,
    PutDone, PutFault, Resting, Ring, Row, Session, Transport, Value, Version, Work,
    audit_lists_what_was_told, carry_over, gets_give_what_homes_took, session_guarantees,
    stores_cover_acks, what_is_held_is_kept, what_is_seen_is_there,
    what_was_acknowledged_is_present, with_cluster, with_marked_cluster,
};
pub use dy_mailboxes::Open;
