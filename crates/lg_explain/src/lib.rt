//! What explains an answer: the line of a text, the sentence of a refusal's kind with the word to blame, and why a step is undefined, with what registers
//! hold.
#![tactic(auto)]

mod bad_byte;
mod calls;
pub mod laws;
pub mod line;
mod made;
mod misfit;
mod place;
pub mod say;
pub mod stop;
mod targets;
mod twice;
mod unknown;
pub mod word;
