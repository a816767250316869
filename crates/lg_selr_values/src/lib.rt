//! The RV64IM processor as the laws of lg_carry ask for one (processor), the items that a node's code is made of, and the code of
//! the nodes that compute values, with the laws that it carries them.
#![tactic(auto)]

mod binary;
mod carry;
mod emission;
pub mod item_laws;
mod items;
pub mod laws;
mod numbers;
pub mod processor;
mod rows;
mod unary;
mod values;
mod wide_values;

pub use items::Item;
pub use numbers::{high_part, is_short, low_part, put_number};
pub use rows::{
    CARRY, FRAME_POINTER, LINK, STACK_POINTER, ZERO, branch, imm, register_of, restore, row, save,
    shift, upper,
};
pub use values::value_items;
