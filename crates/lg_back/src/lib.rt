//! Listings are read back: which target and which bytes a listing is of.
//!
//! The text of an instruction is never parsed: its bytes give the instruction, the printer of listings gives its line, and the line is compared.
#![tactic(auto)]

mod digits;
mod entry;
mod head;
mod instruction;
pub mod laws;
mod line_bytes;
mod reader;

pub use reader::{Back, read_back};
