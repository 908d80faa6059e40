//! What may be said of one log across threads: shares that must be handed in, and witnesses that
//! stay true.
#![tactic(auto)]

mod chronicles;
mod endings;
mod entries;
mod kept_steps;
pub mod laws;
mod ledgers;
mod mergings;
mod names;
mod node_shares;
mod parts;
mod receipts;
mod said;
mod seen;
mod session_shares;
mod since;
mod step_numbers;
mod step_refs;
mod trails;
mod witnesses;

pub use chronicles::Front;
pub use endings::EndRefused;
pub use entries::Entry;
pub use kept_steps::KeptStep;
pub use ledgers::{Ledger, MAX_SESSIONS};
pub use mergings::Merging;
pub use names::{Blank, Naming};
pub use node_shares::NodeShare;
pub use receipts::Receipt;
pub use seen::Seen;
pub use session_shares::SessionShare;
pub use since::Since;
pub use step_numbers::StepNumbers;
pub use step_refs::StepRef;
