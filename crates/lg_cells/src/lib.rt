//! The memory of the portable machine: bytes with marks for those that were never written.
#![tactic(auto)]

mod cell;
mod memory;
mod part;
mod word;

pub use cell::Cell;
pub use memory::CellMemory;
