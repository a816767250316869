//! Which registers a node reads and writes, which are live before and after each node, and which are needed before each: those whose
//! words can reach a node that does more than to make words.
#![tactic(auto)]

mod chains;
pub mod definitions;
mod link;
pub mod live;
pub mod needs;
mod point;
mod points;
pub mod reg_set;
mod search;
pub mod sets;
pub mod uses;

pub use live::Live;
pub use reg_set::RegSet;
pub use uses::{reads, writes};
