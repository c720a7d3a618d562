//! The text that people write: reading what its lines ask for.

#![tactic(auto)]

mod command;
mod expected;
mod value;
mod words;

pub use command::{Command, read_line};
pub use expected::{Expected, Unreadable};
