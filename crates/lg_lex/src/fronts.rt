// What is at the front of a text.

ghost use Rattle.std.specs.Prelude.{◌≡◌, ◌<◌, ◌≤◌, true, length, slice_index, IfSome};
ghost use Rattle.std.specs.Char.{is_ascii_digit};
ghost use Rattle.lg_lex.specs.Escapes.{character_at, string_at};
ghost use Rattle.lg_lex.specs.Numbers.{number_at};
ghost use Rattle.lg_lex.specs.Fronts.{LiesWithin, IsFront, word_len, word_at, marked_at, marker_at, literal_token, string_token, dollar_at, mark_at, token_at, front_at};
ghost use Rattle.lg_lex.specs.Lines.{IsSolid};

use crate::blanks::blank;
use crate::bytes::{behind, byte_at, gap_len, goes_on, line_len, word_byte_len};
use crate::escapes::{character, string_len};
use crate::expressions::expression;
use crate::numbers::{decimal, number};
use crate::token::TokenKind;
use lg_base::RefusalKind;
use lg_base::word_bytes::is_word_start;

/// What is at the front of a text.
#[derive(Clone, Copy)]
pub(crate) enum Front {
    /// Nothing: the text is at its end.
    Nothing,
    /// This many bytes that mean nothing: white space, a comment or a line marker.
    Skips(usize),
    /// A token: its kind, its length and its value.
    Finds(TokenKind, usize, u64),
    /// A fault.
    Fails(RefusalKind),
}

// Returns how many bytes a word at the front has, and 0 where none is there.
#[tactic(auto, unfolding(crate::specs::Fronts::word_len))]
fn word_len(bytes: &[u8]) -> usize
    ensures value { result ≡ word_len bytes.now }
    ensures inside { result ≤ length bytes.now }
{
    if is_word_start(byte_at(bytes, 0)) {
        word_byte_len(bytes)
    } else {
        0
    }
}

// A word or a label definition.
fn word(bytes: &[u8]) -> Front
    requires { 0 < word_len bytes.now }
    ensures value { result ≡ word_at bytes.now }
    ensures inside { LiesWithin result (length bytes.now) }
{
    let n = word_byte_len(bytes);
    if byte_at(bytes, n) == b':' {
        Front::Finds(TokenKind::LabelMark, n + 1, 0)
    } else {
        Front::Finds(TokenKind::Word, n, 0)
    }
}

// A mark with a word directly after it.
#[tactic(auto, unfolding(crate::specs::Fronts::marked_at))]
fn marked(bytes: &[u8], kind: TokenKind) -> Front
    ensures value { result ≡ marked_at kind bytes.now }
    ensures inside { LiesWithin result (length bytes.now) }
{
    let n = word_len(behind(bytes, 1));
    if n == 0 {
        Front::Fails(RefusalKind::BadToken)
    } else {
        Front::Finds(kind, 1 + n, 0)
    }
}

// A line marker, from its `#` on.
#[tactic(auto, unfolding(crate::specs::Fronts::marker_at))]
fn marker(bytes: &[u8], fresh: bool) -> Front
    requires { slice_index bytes.now 0 ≡ 35 }
    ensures value { result ≡ marker_at fresh bytes.now }
    ensures inside { LiesWithin result (length bytes.now) }
{
    let n = 1 + gap_len(behind(bytes, 1));
    if fresh && byte_at(bytes, n).is_ascii_digit() {
        Front::Skips(line_len(bytes))
    } else {
        Front::Fails(RefusalKind::BadToken)
    }
}

// An expression, from its `$(` on, or a name.
#[tactic(auto, unfolding(crate::specs::Fronts::dollar_at))]
fn dollar(bytes: &[u8]) -> Front
    ensures value { result ≡ dollar_at bytes.now }
    ensures inside { LiesWithin result (length bytes.now) }
{
    if byte_at(bytes, 1) != b'(' {
        return marked(bytes, TokenKind::Name);
    }
    match expression(bytes) {
        Some(read) => Front::Finds(
            TokenKind::Expression,
            read.end + 1,
            read.value.cast_unsigned(),
        ),
        None => Front::Fails(RefusalKind::BadExpr),
    }
}

// A string, from its opening quote on.
fn string(bytes: &[u8]) -> Front
    requires { 0 < length bytes.now }
    ensures value { result ≡ string_token (string_at bytes.now) }
    ensures inside { LiesWithin result (length bytes.now) }
{
    match string_len(bytes) {
        Some(n) => Front::Finds(TokenKind::Str, n, 0),
        None => Front::Fails(RefusalKind::BadToken),
    }
}

// A character, from its opening quote on.
fn quoted(bytes: &[u8]) -> Front
    ensures value { result ≡ literal_token TokenKind.Character (character_at bytes.now) }
    ensures inside { LiesWithin result (length bytes.now) }
{
    match character(bytes) {
        Some(found) => Front::Finds(TokenKind::Character, found.len, found.value),
        None => Front::Fails(RefusalKind::BadToken),
    }
}

// A number.
fn numbered(bytes: &[u8]) -> Front
    ensures value { result ≡ literal_token TokenKind.Number (number_at bytes.now) }
    ensures inside { LiesWithin result (length bytes.now) }
{
    match number(bytes) {
        Some(found) => Front::Finds(TokenKind::Number, found.len, found.value),
        None => Front::Fails(RefusalKind::BadToken),
    }
}

// What a mark begins.
#[tactic(auto, unfolding(crate::specs::Fronts::mark_at))]
fn mark(bytes: &[u8], fresh: bool) -> Front
    requires { 0 < length bytes.now }
    ensures value { result ≡ mark_at fresh bytes.now }
    ensures inside { LiesWithin result (length bytes.now) }
{
    match byte_at(bytes, 0) {
        b'#' => marker(bytes, fresh),
        b'.' => marked(bytes, TokenKind::Directive),
        b'%' => marked(bytes, TokenKind::Register),
        b'@' => marked(bytes, TokenKind::Host),
        b'$' => dollar(bytes),
        b'\'' => quoted(bytes),
        b'"' => string(bytes),
        _ => Front::Fails(RefusalKind::BadToken),
    }
}

// A token or a line marker.
#[tactic(auto, unfolding(crate::specs::Fronts::token_at, crate::specs::Fronts::word_len))]
fn token(bytes: &[u8], fresh: bool) -> Front
    requires { 0 < length bytes.now }
    ensures value { result ≡ token_at fresh bytes.now }
    ensures inside { LiesWithin result (length bytes.now) }
{
    let b = byte_at(bytes, 0);
    if is_word_start(b) {
        word(bytes)
    } else if b.is_ascii_digit() || b == b'-' || b == b'+' {
        numbered(bytes)
    } else {
        mark(bytes, fresh)
    }
}

/// What is at the front of a text; `fresh` says that only spaces and tabs are before it in its line.
#[tactic(auto, unfolding(crate::specs::Fronts::front_at))]
pub(crate) fn front_of(bytes: &[u8], fresh: bool) -> Front
    ensures value { result ≡ front_at fresh bytes.now }
    ensures inside { LiesWithin result (length bytes.now) }
{
    if bytes.is_empty() {
        return Front::Nothing;
    }
    match blank(bytes) {
        Some(n) => Front::Skips(n),
        None => token(bytes, fresh),
    }
}

// Returns the number at the front if `decimal` finds it.
fn plain_number(bytes: &[u8]) -> Option<Front>
    requires { is_ascii_digit (slice_index bytes.now 0) ≡ true }
    ensures value { IfSome result (IsFront bytes.now) }
    ensures solid { IfSome result IsSolid }
{
    let found = decimal(bytes)?;
    Some(Front::Finds(TokenKind::Number, found.len, found.value))
}

// A register. All that there are have two bytes after the `%`.
fn register(bytes: &[u8]) -> Front
    ensures { result ≡ marked_at TokenKind.Register bytes.now }
{
    match bytes {
        [_, a, b, end, ..] if a.is_ascii_lowercase() && goes_on(*b) && !goes_on(*end) =>
            Front::Finds(TokenKind::Register, 3, 0),
        _ => marked(bytes, TokenKind::Register),
    }
}

/// Returns what is at the front if it begins with a letter, `_` or `%` or is a plain decimal number, as most tokens do. `None` does not say what is there.
#[inline(always)]
pub(crate) fn plain_front(bytes: &[u8]) -> Option<Front>
    ensures value { IfSome result (IsFront bytes.now) }
    ensures solid { IfSome result IsSolid }
{
    let b = byte_at(bytes, 0);
    if goes_on(b) {
        if b.is_ascii_digit() {
            plain_number(bytes)
        } else {
            Some(word(bytes))
        }
    } else if b == b'%' {
        Some(register(bytes))
    } else {
        None
    }
}
