//! The tokens of a `.tst` text: words, marks, numbers, characters, constant expressions and strings.
#![tactic(auto)]

mod blanks;
pub mod bytes;
mod escapes;
mod expressions;
mod fronts;
mod lexer;
mod numbers;
mod operators;
mod place;
mod token;
pub mod token_laws;

pub use escapes::string_bytes;
pub use lexer::Lexer;
pub use token::{Token, TokenKind};
