//! The rewrites of a text's nodes: moves that do nothing and jumps to jumps are taken out; and when runs of rewritten nodes follow those
//! of the nodes that they were rewritten from.
#![tactic(auto)]

mod dropping;
mod drops;
mod hops;
pub mod labels;
pub mod laws;
pub mod moves;
pub mod rebuilding;
pub mod rewritten;
mod sources;
mod targets;
mod threading;

pub use dropping::{drop_moves, without_idle_moves};
pub use rewritten::Rewritten;
pub use threading::{thread, with_threaded_jumps};
