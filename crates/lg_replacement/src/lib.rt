//! The replacement of macros in a list of pieces.
#![tactic(auto)]

mod expansion;
pub mod laws;

pub use expansion::{expand, step};
