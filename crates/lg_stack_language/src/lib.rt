//! A small language of functions on a stack of values, as code that a runtime compiles: each word of a text becomes some nodes. A function has arguments and
//! locals by names; there are `if`, `while` and calls, of the function itself too. Words of a line are apart by spaces.
#![tactic(auto)]

mod block;
mod compiler;
mod emitter;
mod fault;
mod writer;

pub use compiler::{Function, Program, compile};
pub use fault::{CompileError, Fault};
