// The byte of a text that begins no token, and what it might be.

ghost use Rattle.std.specs.Prelude.{◌≡◌, ◌≤◌, drop, fold, length};
ghost use Rattle.std.specs.Option.{option_map};
ghost use Rattle.lg_explain.specs.BadBytes.{bad_byte, blank_space, byte_of, byte_words, cause_of, end_after, fresh_space, gap_at, gap_after, gap_from, mark_or, other_cause, slash_or};
ghost use Rattle.lg_explain.specs.Lines.{shown};
ghost use Rattle.lg_lex.specs.Bytes.{is_space};
ghost use Rattle.lg_lex.specs.Tokens.{tokens_of};

use crate::line::Shown;
use lg_lex::Lexer;
use lg_lex::bytes::behind;

// Where a reading is, after the last token.
#[derive(Clone, Copy)]
enum Gap {
    // At the beginning of a line, but for spaces and tabs.
    Fresh,
    // Within a line.
    Blank,
    // After a slash.
    Slash,
    // In a comment to the end of its line, or a line marker.
    Line,
    // In a comment to the next `*/`.
    Block,
    // After a star there.
    Star,
    // After the first byte of a line marker, and spaces.
    Hash,
    // After this byte, which is in none of them.
    Found(u8),
}

// Returns whether a byte is white space.
fn is_space(byte: u8) -> bool
    ensures { result ≡ is_space byte }
{
    byte == b' ' || (b'\t' <= byte && byte <= b'\r')
}

// What white space leads to at the beginning of a line.
fn fresh_space(byte: u8) -> Gap
    ensures { result ≡ fresh_space byte }
{
    if byte == b'\n' || byte == b' ' || byte == b'\t' {
        Gap::Fresh
    } else {
        Gap::Blank
    }
}

// What it leads to within one.
fn blank_space(byte: u8) -> Gap
    ensures { result ≡ blank_space byte }
{
    if byte == b'\n' {
        Gap::Fresh
    } else {
        Gap::Blank
    }
}

// What another byte leads to within a line.
fn slash_or(byte: u8) -> Gap
    ensures { result ≡ slash_or byte }
{
    if byte == b'/' {
        Gap::Slash
    } else {
        Gap::Found(byte)
    }
}

// What it leads to at the beginning of one.
fn mark_or(byte: u8) -> Gap
    ensures { result ≡ mark_or byte }
{
    if byte == b'#' {
        Gap::Hash
    } else {
        slash_or(byte)
    }
}

// What a byte leads to.
fn gap_after(gap: Gap, byte: u8) -> Gap
    ensures { result ≡ gap_after gap byte }
{
    match gap {
        Gap::Fresh if is_space(byte) => fresh_space(byte),
        Gap::Fresh => mark_or(byte),
        Gap::Blank if is_space(byte) => blank_space(byte),
        Gap::Blank => slash_or(byte),
        Gap::Slash if byte == b'/' => Gap::Line,
        Gap::Slash if byte == b'*' => Gap::Block,
        Gap::Slash => Gap::Found(b'/'),
        Gap::Line if byte == b'\n' => Gap::Fresh,
        Gap::Line => Gap::Line,
        Gap::Star if byte == b'/' => Gap::Blank,
        Gap::Block | Gap::Star if byte == b'*' => Gap::Star,
        Gap::Block | Gap::Star => Gap::Block,
        Gap::Hash if byte == b' ' => Gap::Hash,
        Gap::Hash if byte.is_ascii_digit() => Gap::Line,
        Gap::Hash => Gap::Found(b'#'),
        Gap::Found(found) => Gap::Found(found),
    }
}

// Returns the place after the last token of a text.
fn last_end(text: &[u8]) -> usize
    requires { length text.now ≤ 16777216 }
    ensures { result ≡ end_after 0 (tokens_of text.now).0 }
{
    let mut lexer = Lexer::new(text);
    let mut place = 0;
    while let Ok(Some(token)) = lexer.next() {
        place = token.end as usize;
    }
    place
}

// Where the reading begins.
fn gap_from(place: usize) -> Gap
    ensures { result ≡ gap_from place }
{
    if place == 0 { Gap::Fresh } else { Gap::Blank }
}

// Where it is at the end of the text.
fn gap_at(text: &[u8], place: usize) -> Gap
    ensures { result ≡ gap_at text.now place }
{
    let mut gap = gap_from(place);
    for byte in behind(text, place) {
        gap = gap_after(gap, *byte);
    }
    gap
}

// Returns the byte that begins no token.
fn byte_of(gap: Gap) -> Option<u8>
    ensures { result ≡ byte_of gap }
{
    match gap {
        Gap::Fresh | Gap::Blank | Gap::Line => None,
        Gap::Slash | Gap::Block | Gap::Star => Some(b'/'),
        Gap::Hash => Some(b'#'),
        Gap::Found(byte) => Some(byte),
    }
}

// What a byte might be that is no mark of a token.
fn other_cause(byte: u8) -> &'static [u8]
    ensures { result.now ≡ other_cause byte }
{
    match byte {
        b',' => b"separates nothing: put blanks between operands",
        b';' => b"ends nothing: put blanks between statements; comments are // and /* */",
        b'/' => b"starts a comment: // to the end of the line, or /* to the next */",
        b'0'..=b'9' | b'-' | b'+' => {
            b"starts a number: decimal, hexadecimal after 0x or octal after 0, with no letter after it but u and l"
        }
        _ => b"starts no token",
    }
}

// What a byte might be.
fn cause_of(byte: u8) -> &'static [u8]
    ensures { result.now ≡ cause_of byte }
{
    match byte {
        b'$' => b"starts a name, as $count, or an expression, as $(1 + 2); a number has no $",
        b'"' =>
            b"starts a string, which ends with another one on the same line; an escape in it starts with a backslash",
        b'\'' => b"starts a character: one byte or escape, then '",
        b'%' => b"starts a register: a letter comes right after it",
        b'@' => b"starts a host function: a letter comes right after it",
        b'.' => b"starts a directive: a letter comes right after it; numbers have no point",
        b'#' => b"starts no comment: comments are // and /* */; a number has no #",
        _ => other_cause(byte),
    }
}

// Returns the byte, and that.
fn byte_words(byte: u8) -> Shown
    ensures { result ≡ shown (byte_words byte) }
{
    Shown::of_row(&[b"'", &[byte], b"' ", cause_of(byte)])
}

/// Of a text of at most 16,777,216 bytes, the byte after its last token that begins none, and what it might be, in words as they are shown.
pub fn bad_byte(text: &[u8]) -> Option<Shown>
    requires { length text.now ≤ 16777216 }
    ensures { result ≡ option_map shown (bad_byte text.now) }
{
    match byte_of(gap_at(text, last_end(text))) {
        Some(byte) => Some(byte_words(byte)),
        None => None,
    }
}
