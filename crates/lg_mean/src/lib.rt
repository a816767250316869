//! The portable meaning of a text: what each instruction does, step by step.
#![tactic(auto)]

mod access;
pub mod addresses;
mod arithmetic;
mod calls;
mod entering;
mod frame;
mod functions;
mod host_calls;
mod labels;
pub mod laws;
mod machine;
pub mod mean_step;
pub mod portable;
mod program;
mod resolved;
mod resolved_step;
pub mod run;
mod start;
mod step;
mod why;

pub use mean_step::MeanStep;
pub use portable::Portable;
pub use run::RunEnd;
