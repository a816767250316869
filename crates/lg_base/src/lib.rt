//! What every crate of the assembler speaks of: targets, refusals, faults, host functions, fields of
//! instruction words, arithmetic on words, the bytes of a text's words, and memory.
#![tactic(auto)]

pub mod args;
pub mod code;
pub mod fault;
pub mod field;
pub mod flags;
pub mod host_name;
pub mod image;
pub mod layout;
pub mod memory;
pub mod number;
pub mod piece;
pub mod refusal;
pub mod space;
pub mod target;
pub mod wide;
pub mod word;
pub mod word_bytes;

pub use args::args_image;
pub use code::{CodeBytes, Origin, Places};
pub use fault::FaultKind;
pub use field::Field;
pub use flags::Flags;
pub use host_name::HostName;
pub use image::{ArgImage, DataImage};
pub use memory::Memory;
pub use piece::Piece;
pub use refusal::{OutOfMemory, Refusal, RefusalKind, Stop};
pub use space::Space;
pub use target::Target;
pub use wide::{div_wide, div_wide_u, mul_high, mul_high_u, sign_part, swap_bytes, zero_part};
