//! The listing of code: its bytes as text, and the text of each instruction.
#![tactic(auto)]

pub mod aarch64;
pub mod instruction;
pub mod laws;
pub mod line;
pub mod lines;
pub mod listing;
pub mod operand;
pub mod riscv64;
pub mod x86_64;

pub use instruction::Instruction;
pub use line::Line;
pub use listing::list;
