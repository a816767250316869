// Numbers with a prefix, a suffix and a sign.

ghost use Rattle.std.specs.Prelude.{◌≡◌, ◌+◌, ◌<◌, ◌≤◌, ◌^◌, true, false, length, slice_index, IfSome, Some};
ghost use Rattle.std.specs.Char.{digit_value, is_ascii_digit};
ghost use Rattle.lg_base.specs.WordBytes.{is_word_byte};
ghost use Rattle.lg_lex.specs.Numbers.{with_digit, digits_value, narrowed, digits_at, magnitude_at, suffix_at, unsigned_at, negated, number_at};

use crate::bytes::{ahead, behind, byte_at, digit_len, goes_on, suffix_letter_len};

/// A number, character or expression at the front of a text: how many bytes it takes, and its value as a word.
#[derive(Clone, Copy)]
pub(crate) struct Literal {
    pub(crate) len: usize,
    pub(crate) value: u64,
}

// Returns the value with one more digit after it.
#[tactic(auto, unfolding(crate::specs::Numbers::narrowed))]
fn with_digit(radix: u32, value: u64, b: u8) -> Option<u64>
    ensures { result ≡ narrowed (with_digit radix value b) }
{
    let digit = char::from(b).to_digit(36).unwrap_or(36);
    value
        .checked_mul(u64::from(radix))?
        .checked_add(u64::from(digit))
}

/// Returns the value of digits of a radix, or `None` if it is too wide for a word.
pub(crate) fn digits_value(digits: &[u8], radix: u32) -> Option<u64>
    requires { 0 < radix }
    ensures { result ≡ narrowed (digits_value radix digits.now) }
{
    let mut value = 0;
    for b in digits {
        match with_digit(radix, value, *b) {
            Some(next) => value = next,
            None => return None,
        }
    }
    Some(value)
}

// One or more digits of a radix.
#[tactic(auto, unfolding(crate::specs::Numbers::digits_at))]
fn digits(bytes: &[u8], radix: u32) -> Option<Literal>
    requires low { 2 ≤ radix }
    requires high { radix ≤ 16 }
    ensures value { result ≡ digits_at radix bytes.now }
    ensures inside { IfSome result (λ found. (0 < found.len) × (found.len ≤ length bytes.now)) }
{
    let len = digit_len(bytes, radix);
    if len == 0 {
        return None;
    }
    let value = digits_value(ahead(bytes, len), radix)?;
    Some(Literal { len, value })
}

// Digits with their prefix: hexadecimal after `0x`, octal after `0`, else decimal.
#[tactic(auto, unfolding(crate::specs::Numbers::magnitude_at))]
fn magnitude(bytes: &[u8]) -> Option<Literal>
    ensures value { result ≡ magnitude_at bytes.now }
    ensures inside { IfSome result (λ found. (0 < found.len) × (found.len ≤ length bytes.now)) }
{
    if byte_at(bytes, 0) != b'0' {
        return digits(bytes, 10);
    }
    if byte_at(bytes, 1) != b'x' {
        return digits(bytes, 8);
    }
    let found = digits(behind(bytes, 2), 16)?;
    Some(Literal {
        len: 2 + found.len,
        value: found.value,
    })
}

// Returns how many suffix letters are after the digits of a number that ends there.
#[tactic(auto, unfolding(crate::specs::Numbers::suffix_at))]
fn suffix(bytes: &[u8]) -> Option<usize>
    ensures value { result ≡ suffix_at bytes.now }
    ensures inside { IfSome result (λ n. n ≤ length bytes.now) }
{
    let n = suffix_letter_len(bytes);
    if n > 3 || byte_at(bytes, n).is_ascii_alphanumeric() {
        None
    } else {
        Some(n)
    }
}

/// A number without a sign at the front, and None where none is there or it is malformed or too wide.
#[tactic(auto, unfolding(crate::specs::Numbers::unsigned_at))]
pub(crate) fn unsigned(bytes: &[u8]) -> Option<Literal>
    ensures value { result ≡ unsigned_at bytes.now }
    ensures inside { IfSome result (λ found. (0 < found.len) × (found.len ≤ length bytes.now)) }
{
    let digits = magnitude(bytes)?;
    let n = suffix(behind(bytes, digits.len))?;
    Some(Literal {
        len: digits.len + n,
        value: digits.value,
    })
}

// Returns the number after a `-`.
#[tactic(auto, unfolding(crate::specs::Numbers::negated))]
fn negated(found: Literal) -> Option<Literal>
    requires { found.len < 2 ^ 63 }
    ensures value { result ≡ negated found }
    ensures len { IfSome result (λ number. number.len ≡ 1 + found.len) }
{
    if found.value > 1 << 63 {
        return None;
    }
    Some(Literal {
        len: 1 + found.len,
        value: 0u64.wrapping_sub(found.value),
    })
}

/// A number with an optional sign at the front, and None where none is there or it is malformed or too wide.
#[tactic(auto, unfolding(crate::specs::Numbers::number_at))]
pub(crate) fn number(bytes: &[u8]) -> Option<Literal>
    ensures value { result ≡ number_at bytes.now }
    ensures inside { IfSome result (λ found. (0 < found.len) × (found.len ≤ length bytes.now)) }
{
    match byte_at(bytes, 0) {
        b'-' => negated(unsigned(behind(bytes, 1))?),
        b'+' => {
            let found = unsigned(behind(bytes, 1))?;
            Some(Literal {
                len: 1 + found.len,
                value: found.value,
            })
        }
        _ => unsigned(bytes),
    }
}

// Returns a number of digits alone that ends before a byte, or `None` if the byte may belong to it.
fn ended(len: usize, value: u64, b: u8) -> Option<Literal>
    ensures { IfSome result (λ found. (found ≡ record { len = len; value = value }) × (is_word_byte b ≡ false)) }
{
    if goes_on(b) {
        None
    } else {
        Some(Literal { len, value })
    }
}

/// Returns the number at the front if it is decimal, without a sign or a suffix. `None` does not say that there is none: it is also returned where a number
/// ends the text, is hexadecimal or octal, or has a digit after a value above 2^60.
pub(crate) fn decimal(bytes: &[u8]) -> Option<Literal>
    requires { is_ascii_digit (slice_index bytes.now 0) ≡ true }
    ensures value { IfSome result (λ found. number_at bytes.now ≡ Some found) }
{
    if byte_at(bytes, 0) == b'0' {
        return ended(1, 0, byte_at(bytes, 1));
    }
    let mut value = 0u64;
    for (i, b) in bytes.iter().enumerate() {
        if !b.is_ascii_digit() {
            return ended(i, value, *b);
        }
        if value > 1 << 60 {
            return None;
        }
        value = value * 10 + u64::from(*b - b'0');
    }
    None
}
