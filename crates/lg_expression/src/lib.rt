//! A small language of expressions, as code that a runtime compiles: an expression is read into steps on a stack of values, and the steps become the nodes
//! of a unit, which reads the argument from the words of the run, works the expression out and prints its value.
#![tactic(auto)]

mod expression;
pub mod laws;
pub mod meaning_laws;
mod reading;
mod step;
mod unit;

pub use expression::Expression;
pub use reading::{ReadError, read};
pub use step::Step;
pub use unit::{put_expression, unit_of};
