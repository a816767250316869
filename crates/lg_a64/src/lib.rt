//! The instructions of A64 (Arm Architecture Reference Manual) that the assembler emits, as values, and
//! their words of 32 bits. Each instruction has one spelling: `encode` gives it, and `decode` reads it
//! back, whatever follows.
#![tactic(auto)]

mod decoder;
mod encoder;
mod fields;
mod instruction;
mod rows;

pub use decoder::decode;
pub use encoder::encode;
pub use instruction::{
    BitfieldOp, BranchOp, BranchRegOp, Cond, ImmOp, Instr, MulAddOp, RegOp, ReverseOp, ScaledOp,
    UnscaledOp, WideOp,
};
