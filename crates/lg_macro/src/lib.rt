//! The pieces of a text, and macros: how a `#define` writes them, their table, the arguments of a call, and what replaces a body.
#![tactic(auto)]

pub mod arguments;
mod body;
mod cutting;
mod defines;
mod kinds;
mod macros;
mod marks;
mod pieces;
mod plain_text;
mod spare;
mod substitution;
mod text;

pub use arguments::stripped_from;
pub use cutting::push_cut;
pub use defines::{one_word, spliced, written};
pub use macros::{MOST_HELD, Macro, Table, Work, count, hold, is_hidden, refused};
pub use pieces::{PieceKind, Pieces};
pub use plain_text::PlainText;
pub use spare::Spare;
pub use substitution::substituted;
pub use text::{Front, first_pieces, line_len, mark_in};
