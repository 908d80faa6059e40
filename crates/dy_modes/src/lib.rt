//! What a node does with asks: its mode, and the word that a script has for it.
#![tactic(auto)]

mod modes;

pub use modes::Mode;
