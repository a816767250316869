// The nodes that branch, jump, call and return, `prolog`, `.align` and those without code, on AArch64: the items of their code, and that
// it carries them.

mod branches;
mod control;
mod frames;
pub mod laws;
mod leaps;
mod operands;
mod sums;

pub use control::put_control;
