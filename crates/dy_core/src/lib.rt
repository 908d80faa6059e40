//! What a store does, as a list of steps, and the laws that hold after every legal list of them.
#![tactic(auto)]

mod acks;
mod allowing;
mod answers;
mod applying;
mod holdings;
mod issuing;
pub mod laws;
mod lists;
mod placed;
mod places;
mod readers;
mod steps;
mod unknowns;
mod worlds;

pub use acks::Acked;
pub use answers::{AnswerKind, AnswerRead, AnswerVec};
pub use applying::run_steps;
pub use holdings::Holding;
pub use lists::{Ranked, put, put_reserved};
pub use placed::{Placed, covering};
pub use places::{Place, PlaceVec};
pub use steps::Step;
pub use worlds::World;
