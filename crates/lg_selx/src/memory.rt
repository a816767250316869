// The code of the nodes that use memory and pass arguments, on x86-64: what it is made of, and that it carries them.

mod accesses;
mod arguments;
pub mod laws;
mod operands;

pub use accesses::{put_load, put_store};
pub use arguments::{put_argument, put_getarg, put_next_argument};
