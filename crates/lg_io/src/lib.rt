//! Where texts come from and where bytes go: sources and sinks in memory, and over std's files and writers.
#![tactic(auto)]

mod calls;
pub mod digits;
pub mod memory_sink;
pub mod memory_texts;
mod named_text;
pub mod reading;
pub mod sink;
pub mod standard;
pub mod texts;

pub use digits::{Digits, Radix};
pub use memory_sink::MemorySink;
pub use memory_texts::MemoryTexts;
pub use reading::Reading;
pub use sink::{Sink, SinkFault, write_all, write_parts};
pub use standard::{StdSink, StdTexts};
pub use texts::{TextFault, Texts};
