//! One node: what it keeps, its share, whether it is up, and its answers.
#![tactic(auto)]

mod answering;
mod asks;
mod beginning;
mod begun;
mod deliveries;
mod fetching;
mod holding;
mod messages;
mod nodes;
mod offers;
mod rests;
mod settling;
mod stores;

pub use answering::{answer, answer_plainly};
pub use asks::{Answer, Ask};
pub use begun::Begun;
pub use dy_book::{RowRef, VouchedRow};
pub use dy_hint_store::RowRefFor;
pub use dy_modes::Mode;
pub use messages::Message;
pub use nodes::Node;
pub use offers::RowFor;
pub use rests::Rest;
