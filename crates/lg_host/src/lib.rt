//! The thirteen functions of the host: what a call answers, changes in memory and writes, without memory of its own.
#![tactic(auto)]

mod allocation;
mod blocks;
mod buffer;
pub mod calling;
mod conversions;
pub mod format;
mod format_place;
pub mod heap_mark;
pub mod host_end;
pub mod laws;
mod letters;
mod nowhere;
mod output;
mod parts;
mod print;
mod strings;

pub use calling::call;
pub use heap_mark::HeapMark;
pub use host_end::HostEnd;
