//! The operands of instructions in a `.tst` text: what a word is at an operand's place, and where it may not be.
#![tactic(auto)]

mod operand;
mod registers;

pub use operand::{
    admitted, after_mark, argument_named, host_operand, local_named, local_size, misfit,
    register_operand, stays_apart,
};
pub use registers::is_float_register;
