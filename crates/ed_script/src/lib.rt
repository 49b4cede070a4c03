//! The commands of a script: JSON (RFC 8259), one command a line.
#![tactic(auto)]

mod bad;
mod fields;
mod kinds;
mod read;
mod reader;

pub use bad::{BadKind, BadLine, LineFault};
pub use kinds::Command;
pub use read::command;
pub use reader::{MOST_BYTES, Script, read_script};
