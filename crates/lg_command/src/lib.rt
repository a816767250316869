//! The words of the command `lightning`, as one simple command of clap.
#![tactic(auto)]

mod arguments;
mod command;
mod getters;
pub mod laws;
mod matches;
mod plan;
mod words;

pub use command::{Command, Mode, WordsStop};
pub use plan::{Action, Plan, Report, Source};
pub use words::read_words;
