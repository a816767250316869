//! The x86-64 processor as the laws of lg_carry ask for one (processor), the items that a node's code is made of, and the code of
//! the nodes that compute values, with the laws that it carries them.
#![tactic(auto)]

mod binary;
mod carry;
mod emission;
pub mod item_laws;
mod items;
pub mod laws;
mod moves;
mod numbers;
pub mod processor;
mod rows;
mod unary;
mod values;
mod wide_values;

pub use items::{Item, JumpKind};
pub use numbers::{half_number, put_number};
pub use rows::{FRAME_POINTER, STACK_POINTER, lea, mov, register_of, restore, row, save};
pub use values::value_items;
