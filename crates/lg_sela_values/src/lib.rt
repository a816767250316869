//! The AArch64 processor as the laws of lg_carry ask for one (processor), the items that a node's code is made of, and the code of
//! the nodes that compute values, with the laws that it carries them.
#![tactic(auto)]

mod binary;
mod emission;
pub mod item_laws;
mod items;
pub mod laws;
mod numbers;
pub mod processor;
mod rows;
mod unary;
mod values;
mod wide_values;

pub use items::Item;
pub use numbers::put_number;
pub use rows::{
    FRAME_POINTER, LINK, ZERO, bitfield, imm, mul_add, register_of, restore, row, save, wide,
};
pub use values::value_items;
