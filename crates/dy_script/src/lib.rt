//! Scripts of commands, and their reader from JSON.
#![tactic(auto)]

mod buffers;
mod commands;
mod documents;
mod fields;
mod members;
mod numbers;
mod orders;
mod reading;
mod requests;
mod scripts;
mod sources;
mod streams;
mod tokens;

pub use buffers::Buffers;
pub use commands::{Command, Payload, Write};
pub use reading::read;
pub use requests::{Request, read_request};
pub use scripts::{Layout, Limits, MAX_COMMANDS, MAX_SCRIPT_SESSIONS, Script};
pub use tokens::token;
