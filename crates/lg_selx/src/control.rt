// The nodes that branch, jump, call and return, `prolog`, `.align` and those without code, on x86-64: the items of their code, and that
// it carries them.

mod branches;
mod control;
mod frames;
pub mod laws;
mod leaps;
mod pointers;
mod sums;

pub use control::put_control;
pub use pointers::pointer_again;
