//! The code of a node on AArch64: the temporaries that it asks for, and its instructions, which are appended to a buffer; the code of
//! nodes that load, store and pass (memory), and of those that lead elsewhere (control), with the laws that it carries them.
#![tactic(auto)]

pub mod control;
mod items;
pub mod memory;
mod selection;
mod temporaries;

pub use items::Aarch64;
pub use selection::select;
pub use temporaries::needs;
