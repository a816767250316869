// Parts of a text, and numbers in digits.

ghost use Rattle.std.specs.Prelude.{◌≡◌, ◌<◌, ◌≤◌, ◌+◌, ◌^◌, ◌++◌, ℕ, true, false, length, drop, Some, None};
ghost use Rattle.lg_list.specs.Texts.{decimal};
ghost use Rattle.lg_back.specs.Words.{until, first_word, second_word};
ghost use Rattle.lg_back.specs.Digits.{digit_value, byte_value, hex_front};

use crate::line_bytes::LineBytes;

/// What is after this many bytes of a text: nothing where it has fewer.
pub fn behind(text: &[u8], count: usize) -> &[u8]
    ensures { result.now ≡ drop count text.now }
{
    if count < text.len() {
        &text[count..]
    } else {
        &[]
    }
}

/// What is in front of the first such byte, or the whole text where there is none.
pub fn until(text: &[u8], byte: u8) -> &[u8]
    ensures { result.now ≡ until byte text.now }
{
    let mut end = 0;
    while end < text.len() && text[end] != byte {
        end += 1;
    }
    &text[..end]
}

/// Returns the two words of a line `; FIRST SECOND`. What is answered of other lines is what is at these places.
pub fn comment_words(text: &[u8]) -> (&[u8], &[u8])
    ensures first { result.0.now ≡ first_word text.now }
    ensures second { result.1.now ≡ second_word text.now }
{
    let words = behind(text, 2);
    let first = until(words, b' ');
    let second = until(behind(words, first.len() + 1), b'\n');
    (first, second)
}

/// Returns the number below 2^32 that a text is in decimal digits. What is answered of other texts is not said.
pub fn read_decimal(text: &[u8]) -> Option<u32>
    ensures { (n : ℕ) → n < 2 ^ 32 → text.now ≡ decimal n → result ≡ Some n }
{
    let mut number: u64 = 0;
    for byte in text {
        if number > u64::from(u32::MAX) {
            return None;
        }
        if !byte.is_ascii_digit() {
            return None;
        }
        number = number * 10 + u64::from(*byte - b'0');
    }
    if number > u64::from(u32::MAX) {
        None
    } else {
        Some(number as u32)
    }
}

// The value of a byte that is no digit: more than any number of eight hexadecimal digits.
const NONE: u64 = 0x1_0000_0000;

// Of each byte the value of the lower hexadecimal digit that it is, or `NONE`.
static VALUES: [u64; 256] = [
    NONE, NONE, NONE, NONE, NONE, NONE, NONE, NONE, NONE, NONE, NONE, NONE, NONE, NONE, NONE, NONE,
    NONE, NONE, NONE, NONE, NONE, NONE, NONE, NONE, NONE, NONE, NONE, NONE, NONE, NONE, NONE, NONE,
    NONE, NONE, NONE, NONE, NONE, NONE, NONE, NONE, NONE, NONE, NONE, NONE, NONE, NONE, NONE, NONE,
    0, 1, 2, 3, 4, 5, 6, 7, 8, 9, NONE, NONE, NONE, NONE, NONE, NONE, NONE, NONE, NONE, NONE, NONE,
    NONE, NONE, NONE, NONE, NONE, NONE, NONE, NONE, NONE, NONE, NONE, NONE, NONE, NONE, NONE, NONE,
    NONE, NONE, NONE, NONE, NONE, NONE, NONE, NONE, NONE, NONE, NONE, NONE, 10, 11, 12, 13, 14, 15,
    NONE, NONE, NONE, NONE, NONE, NONE, NONE, NONE, NONE, NONE, NONE, NONE, NONE, NONE, NONE, NONE,
    NONE, NONE, NONE, NONE, NONE, NONE, NONE, NONE, NONE, NONE, NONE, NONE, NONE, NONE, NONE, NONE,
    NONE, NONE, NONE, NONE, NONE, NONE, NONE, NONE, NONE, NONE, NONE, NONE, NONE, NONE, NONE, NONE,
    NONE, NONE, NONE, NONE, NONE, NONE, NONE, NONE, NONE, NONE, NONE, NONE, NONE, NONE, NONE, NONE,
    NONE, NONE, NONE, NONE, NONE, NONE, NONE, NONE, NONE, NONE, NONE, NONE, NONE, NONE, NONE, NONE,
    NONE, NONE, NONE, NONE, NONE, NONE, NONE, NONE, NONE, NONE, NONE, NONE, NONE, NONE, NONE, NONE,
    NONE, NONE, NONE, NONE, NONE, NONE, NONE, NONE, NONE, NONE, NONE, NONE, NONE, NONE, NONE, NONE,
    NONE, NONE, NONE, NONE, NONE, NONE, NONE, NONE, NONE, NONE, NONE, NONE, NONE, NONE, NONE, NONE,
    NONE, NONE, NONE, NONE, NONE, NONE, NONE, NONE, NONE, NONE, NONE, NONE, NONE, NONE, NONE, NONE,
    NONE, NONE, NONE, NONE, NONE, NONE, NONE, NONE, NONE,
];

// Returns the value of a lower hexadecimal digit, or `NONE`.
#[inline(always)]
fn digit(code: u8) -> u64
    ensures some { result < 16 → digit_value code ≡ Some result }
    ensures none { 16 ≤ result → digit_value code ≡ None }
    ensures far { 16 ≤ result → result ≡ 2 ^ 32 }
    ensures most { result ≤ 2 ^ 32 }
{
    VALUES[code as usize]
}

// Returns the byte that two lower hexadecimal digits spell, or at least `NONE` where one of them is no digit.
#[inline(always)]
fn pair(high: u8, low: u8) -> u64
    ensures some { result < 256 → byte_value high low ≡ Some result }
    ensures none { 256 ≤ result → byte_value high low ≡ None }
    ensures far { 256 ≤ result → 2 ^ 32 ≤ result }
    ensures most { result < 2 ^ 37 }
{
    digit(high) * 16 + digit(low)
}

// Returns the byte that two lower hexadecimal digits spell.
#[inline(always)]
fn byte_value(high: u8, low: u8) -> Option<u8>
    ensures { result ≡ byte_value high low }
{
    let value = pair(high, low);
    if value < 256 { Some(value as u8) } else { None }
}

// Appends the bytes that a text begins with, two digits each. False exactly where there are more than 16 in all.
fn push_hex(text: &[u8], bytes: &mut LineBytes) -> bool
    ensures all { result ≡ true → bytes.new ≡ bytes.old ++ hex_front text.now }
    ensures over { result ≡ false → 16 < length bytes.old + length (hex_front text.now) }
{
    match text {
        [high, low, rest @ ..] => match byte_value(*high, *low) {
            None => true,
            Some(byte) => {
                if bytes.as_slice().len() == 16 {
                    return false;
                }
                bytes.push(byte);
                push_hex(rest, bytes)
            }
        },
        _ => true,
    }
}

// Replaces the bytes by the first of those that a text begins with, two digits each: four, as most instructions have, or none if the text begins with fewer.
// Returns the text after them.
#[inline(always)]
fn read_four<'a>(text: &'a [u8], bytes: &mut LineBytes) -> &'a [u8]
    ensures { hex_front text.now ≡ bytes.new ++ hex_front result.now }
{
    if let [a, b, c, d, e, f, g, h, rest @ ..] = text {
        let (first, second) = (pair(*a, *b), pair(*c, *d));
        let (third, fourth) = (pair(*e, *f), pair(*g, *h));
        let word = ((fourth * 256 + third) * 256 + second) * 256 + first;
        if word < NONE {
            bytes.set(&(word as u32).to_le_bytes());
            return rest;
        }
    }
    bytes.clear();
    text
}

/// Replaces the bytes by those that a text begins with, two lower hexadecimal digits each, as far as there are any. False exactly when there are more than 16.
pub fn read_hex(text: &[u8], bytes: &mut LineBytes) -> bool
    ensures all { result ≡ true → bytes.new ≡ hex_front text.now }
    ensures over { result ≡ false → 16 < length (hex_front text.now) }
{
    match read_four(text, bytes) {
        [b' ', ..] => true,
        rest => push_hex(rest, bytes),
    }
}
