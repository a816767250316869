// The first word of a text that begins no statement.

ghost use Rattle.std.specs.Prelude.{◌≡◌, ◌≤◌, [], ◌∷◌, length};
ghost use Rattle.std.specs.Option.{option_map};
ghost use Rattle.lg_explain.specs.Lines.{shown};
ghost use Rattle.lg_io.specs.Wrote.{row};
ghost use Rattle.lg_explain.specs.Unknown.{first_unknown, part_words, unknown, unknown_words};

use crate::line::Shown;
use crate::place::{Part, Rest, forms_after, is_unknown, part_after, rest_after};
use crate::twice::text_of;
use lg_lex::{Lexer, TokenKind};
use lg_node::Form;

// Returns the part in which a token is.
fn part_words(part: Part) -> &'static [u8]
    ensures { result.now ≡ part_words part }
{
    match part {
        Part::Data => b", in the data part",
        _ => b", in the code part",
    }
}

// Both in a row.
fn both<'a>(text: &'a [u8], part: &'a [u8]) -> Shown
    ensures { result ≡ shown (row (text.entry.now ∷ part.entry.now ∷ [])) }
{
    Shown::of_row(&[text, part])
}

// Returns the text of a token, and the part.
fn unknown_words(part: Part, text: &[u8]) -> Shown
    ensures { result ≡ shown (unknown_words part text.now) }
{
    both(text, part_words(part))
}

// They, where a token begins a statement and there is none that it begins.
fn unknown(part: Part, forms: &[Form], rest: Rest, kind: TokenKind, text: &[u8]) -> Option<Shown>
    ensures { result ≡ option_map shown (unknown part forms.now rest kind text.now) }
{
    if is_unknown(part, forms, rest, kind, text) {
        Some(unknown_words(part, text))
    } else {
        None
    }
}

/// Returns the first token of a text of at most 16,777,216 bytes that is where a statement begins and begins none, as it is shown,
/// and the part.
pub fn first_unknown(text: &[u8]) -> Option<Shown>
    requires { length text.now ≤ 16777216 }
    ensures { result ≡ option_map shown (first_unknown text.now) }
{
    let mut lexer = Lexer::new(text);
    let mut part = Part::First;
    let mut forms: &'static [Form] = &[];
    let mut rest = Rest::Nothing;
    while let Ok(Some(token)) = lexer.next() {
        let bytes = text_of(text, token);
        if let Some(word) = unknown(part, forms, rest, token.kind, bytes) {
            return Some(word);
        }
        let before = part;
        let left = forms;
        part = part_after(before, left, rest, token.kind, bytes);
        forms = forms_after(before, left, rest, token.kind, bytes);
        rest = rest_after(before, left, rest, token.kind, bytes);
    }
    None
}
