//! Counts of the outcomes of cases, and numbers by a fixed generator, for programs that try many.
#![tactic(auto)]

mod counts;
mod one_more;
mod random;

pub use counts::{Counts, Outcome};
pub use one_more::count;
pub use random::Random;
