//! The custody book: one log of steps, the shares of nodes and sessions, and an index by key.
#![tactic(auto)]

mod acks;
mod audits;
mod books;
mod closes;
mod fetches;
mod fronts;
mod histories;
mod holds;
mod issues;
mod options;
mod plans;
mod receipts;
mod releases;
mod row_refs;
mod steps;
mod vouched_rows;
mod vouching;

pub use audits::{AckedAt, Audit};
pub use books::Book;
pub use closes::CloseRefused;
pub use histories::History;
pub use options::{MAX_STEPS, MAX_VERSIONS, Options};
pub use row_refs::RowRef;
pub use vouched_rows::VouchedRow;
