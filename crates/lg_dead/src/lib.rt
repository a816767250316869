//! Numbers that are known are put in the place of the registers that hold them, and of the nodes that make them; definitions that nothing needs are dropped;
//! and the four rewrites of a text's nodes, one after the other.
#![tactic(auto)]

mod dropping;
mod folding;
mod known;
pub mod laws;
mod list;
pub mod near_laws;
mod rewriting;
mod staying;

pub use dropping::{drop_dead, without_dead_definitions};
pub use list::fold;
pub use rewriting::rewrite;
