//! The instructions of x86-64 (Intel 64 and IA-32 Architectures Software Developer's Manual, volume 2)
//! that the assembler emits, as values, and their bytes. Each instruction has one spelling: `encode`
//! gives it, and `decode` reads it back, whatever follows.
#![tactic(auto)]

mod accept;
mod decoder;
mod encoder;
mod fields;
mod instruction;
mod prefixes;
mod rows;

pub use decoder::decode;
pub use encoder::encode;
pub use instruction::{
    BareOp, Cond, ImmOp, Instr, JumpNearOp, JumpRegOp, LoadOp, RegRmOp, RmRegOp, ShiftOp, StackOp,
    StoreOp, UnaryOp,
};
