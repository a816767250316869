//! The portable meaning of a text, as definitions: the state, its steps by the instruction table, why a step is undefined, and when a
//! state fits the shape of a text; and the laws that hold of them.
#![tactic(auto)]

pub mod laws;
pub mod reason;
