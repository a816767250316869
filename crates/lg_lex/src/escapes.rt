// Characters and strings: their bytes and escapes.

ghost use Rattle.std.specs.Prelude.{◌≡◌, ◌+◌, ◌<◌, ◌≤◌, ◌++◌, [], length, option_to_list, IfSome, IfNone};
ghost use Rattle.lg_lex.specs.Escapes.{letter_escape, byte_value, digits_escape, escape_at, text_byte_at, character_end, character_at, string_at, string_left};

use crate::bytes::{ahead, behind, byte_at, digit_len};
use crate::numbers::{Literal, digits_value};

/// One byte or one escape at the front of a text: how many bytes it takes, and the byte that it denotes.
#[derive(Clone, Copy)]
pub(crate) struct TextByte {
    pub(crate) len: usize,
    pub(crate) byte: u8,
}

// Returns the byte that one letter or mark after `\` denotes.
fn letter_escape(b: u8) -> Option<u8>
    ensures { result ≡ letter_escape b }
{
    match b {
        b'n' => Some(0x0a),
        b't' => Some(0x09),
        b'r' => Some(0x0d),
        b'a' => Some(0x07),
        b'b' => Some(0x08),
        b'f' => Some(0x0c),
        b'v' => Some(0x0b),
        b'\\' | b'\'' | b'"' => Some(b),
        _ => None,
    }
}

// Returns the value of digits, at most 255.
#[tactic(auto, unfolding(crate::specs::Escapes::byte_value, crate::specs::Numbers::narrowed))]
fn byte_value(digits: &[u8], radix: u32) -> Option<u8>
    requires { 0 < radix }
    ensures { result ≡ byte_value radix digits.now }
{
    u8::try_from(digits_value(digits, radix)?).ok()
}

// At least one and at most this many digits of a radix, of value at most 255.
#[tactic(auto, unfolding(crate::specs::Escapes::digits_escape))]
fn digits_escape(bytes: &[u8], radix: u32, most: usize) -> Option<TextByte>
    requires low { 2 ≤ radix }
    requires high { radix ≤ 16 }
    ensures value { result ≡ digits_escape radix most bytes.now }
    ensures inside { IfSome result (λ found. (0 < found.len) × (found.len ≤ length bytes.now)) }
{
    let len = digit_len(ahead(bytes, most), radix);
    if len == 0 {
        return None;
    }
    let byte = byte_value(ahead(bytes, len), radix)?;
    Some(TextByte { len, byte })
}

// An escape, from the byte after `\` on.
#[tactic(auto, unfolding(crate::specs::Escapes::escape_at))]
fn escape(bytes: &[u8]) -> Option<TextByte>
    ensures value { result ≡ escape_at bytes.now }
    ensures inside { IfSome result (λ found. (0 < found.len) × (found.len ≤ length bytes.now)) }
{
    let b = byte_at(bytes, 0);
    if char::from(b).is_digit(8) {
        return digits_escape(bytes, 8, 3);
    }
    if b == b'x' {
        let found = digits_escape(behind(bytes, 1), 16, 2)?;
        return Some(TextByte {
            len: 1 + found.len,
            byte: found.byte,
        });
    }
    let byte = letter_escape(b)?;
    Some(TextByte { len: 1, byte })
}

// One byte or one escape at the front.
#[tactic(auto, unfolding(crate::specs::Escapes::text_byte_at))]
fn text_byte(bytes: &[u8]) -> Option<TextByte>
    ensures value { result ≡ text_byte_at bytes.now }
    ensures inside { IfSome result (λ found. (0 < found.len) × (found.len ≤ length bytes.now)) }
{
    if bytes.is_empty() {
        return None;
    }
    match byte_at(bytes, 0) {
        b'\\' => {
            let found = escape(behind(bytes, 1))?;
            Some(TextByte {
                len: 1 + found.len,
                byte: found.byte,
            })
        }
        b'\n' => None,
        byte => Some(TextByte { len: 1, byte }),
    }
}

// Returns the end of a character after its byte.
#[tactic(auto, unfolding(crate::specs::Escapes::character_end))]
fn character_end(bytes: &[u8], found: TextByte) -> Option<Literal>
    requires { found.len < length bytes.now }
    ensures value { result ≡ character_end bytes.now found }
    ensures inside { IfSome result (λ found. (0 < found.len) × (found.len ≤ length bytes.now)) }
{
    if byte_at(bytes, 1 + found.len) != b'\'' {
        return None;
    }
    Some(Literal {
        len: 2 + found.len,
        value: u64::from(found.byte),
    })
}

/// A character, from its opening quote on, and None where it is malformed.
#[tactic(auto, unfolding(crate::specs::Escapes::character_at))]
pub(crate) fn character(bytes: &[u8]) -> Option<Literal>
    ensures value { result ≡ character_at bytes.now }
    ensures inside { IfSome result (λ found. (0 < found.len) × (found.len ≤ length bytes.now)) }
{
    if byte_at(bytes, 1) == b'\'' {
        return None;
    }
    let found = text_byte(behind(bytes, 1))?;
    character_end(bytes, found)
}

/// Returns the length of a string, from its opening quote on, or `None` if it is unfinished or malformed.
#[tactic(auto, unfolding(crate::specs::Escapes::string_at))]
pub(crate) fn string_len(bytes: &[u8]) -> Option<usize>
    requires { 0 < length bytes.now }
    ensures value { result ≡ string_at bytes.now }
    ensures inside { IfSome result (λ n. (0 < n) × (n ≤ length bytes.now)) }
{
    let mut at = 1;
    'units: while byte_at(bytes, at) != b'"' {
        match text_byte(behind(bytes, at)) {
            Some(found) => at += found.len,
            None => return None,
        }
    }
    Some(at + 1)
}

/// The next byte of a string token, and None exactly at its end.
///
/// `slice` is the text of the token with its quotes. `at` is 0 at first, and each byte moves it on to the place after
/// what was read: one byte or one escape of the token.
#[tactic(auto, unfolding(crate::specs::Escapes::string_left))]
pub fn string_bytes(slice: &[u8], at: &mut usize) -> Option<u8>
    ensures bytes { string_left slice.now at.old ≡ option_to_list result ++ string_left slice.now at.new }
    ensures end { IfNone result (string_left slice.now at.old ≡ []) }
    ensures stays { IfNone result (at.new ≡ at.old) }
{
    let place = (*at).max(1);
    let rest = behind(slice, place);
    if byte_at(rest, 0) == b'"' {
        return None;
    }
    let found = text_byte(rest)?;
    *at = place + found.len;
    Some(found.byte)
}
