//! The processors as models: registers, memory, and steps that fetch, decode and execute bytes.
#![tactic(auto)]

mod aarch64;
pub mod answer;
mod arguments;
mod board;
pub mod cpu;
mod decode_cache;
mod entering;
pub mod laws;
mod line_counts;
mod processor;
mod riscv64;
mod series;
mod x86_64;

pub use answer::CpuStep;
pub use cpu::Cpu;
