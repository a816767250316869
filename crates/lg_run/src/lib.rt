//! The top call: it reads the words of the command and a text, expands the text, makes code of it, and runs the code on a
//! model of the processor, or the text's portable meaning, or lists the code;
//! or it reads a listing back; or it says how many steps belong to each line; or it explains why a text is refused, or a step of its meaning undefined.
#![tactic(auto)]

pub mod answer;
mod back;
mod code_text;
mod explain;
mod generator;
pub mod laws;
mod lines;
mod listing;
pub mod listing_laws;
mod made_lines;
mod mean;
mod profile;
mod reading;
mod run;
mod source;
pub mod top;
mod work;

pub use answer::{Answer, Done, status};
pub use code_text::CodeText;
pub use generator::made;
pub use top::lightning;
