//! The buffer into which code is assembled: bytes that are only appended to, labels, and fixes, which are the
//! fields of instructions that wait for a label's place. All memory is taken once, when it is made.
#![tactic(auto)]

mod buffer;
mod fixes;
mod patches;
mod region;
mod store;
mod words;

pub use buffer::{CodeBuf, Finished};
pub use fixes::{Fix, FixKind, Label32};
