// Products and quotients of double words, and parts of words.

ghost use Rattle.std.specs.Prelude.{◌≡◌, ◌+◌, ◌*◌, ◌/◌, ◌%◌, ◌⊎◌};
ghost use Rattle.std.specs.Int.{cast_unsigned, w64};
ghost use Rattle.lg_base.specs.Words.{extended, high_product, high_product_signed, high_product_mixed, with_sign};
ghost use Rattle.lg_base.specs.Wide.{as_words, quotient_wide, quotient_wide_signed, wide_magnitude, fits_signed, sign_part_of, zero_part_of, swapped};

use crate::word::{SIGN_BIT, magnitude_of, signed_word};

/// Returns the high word of the unsigned product of 128 bits.
pub fn mul_high_u(a: u64, b: u64) -> u64
    ensures { result ≡ high_product a b }
{
    ((a as u128 * b as u128) >> 64) as u64
}

// Returns the high word of the signed product, as words.
fn mul_high_words(a: u64, b: u64) -> u64
    ensures { result ≡ high_product_signed a b }
{
    (extend(a).wrapping_mul(extend(b)) >> 64) as u64
}

// Returns the word of 128 bits with the same signed view.
fn extend(a: u64) -> u128
    ensures { result ≡ extended a }
{
    if a < SIGN_BIT {
        a as u128
    } else {
        (a as u128).wrapping_sub(0x1_0000_0000_0000_0000)
    }
}

/// Returns the high word of the product of a signed and an unsigned word.
pub fn mul_high_mixed(a: u64, b: u64) -> u64
    ensures { result ≡ high_product_mixed a b }
{
    (extend(a).wrapping_mul(b as u128) >> 64) as u64
}

/// Returns the high word of the signed product of 128 bits.
pub fn mul_high(a: i64, b: i64) -> i64
    ensures { cast_unsigned w64 result ≡ high_product_signed (cast_unsigned w64 a) (cast_unsigned w64 b) }
{
    mul_high_words(a.cast_unsigned(), b.cast_unsigned()).cast_signed()
}

/// Quotient and remainder of an unsigned double word by a word. None exactly where the divisor is 0 or
/// the quotient does not fit a word.
pub fn div_wide_u(high: u64, low: u64, by: u64) -> Option<(u64, u64)>
    ensures { result ≡ quotient_wide high low by }
{
    if by == 0 || high >= by {
        return None;
    }
    let whole = ((high as u128) << 64) + low as u128;
    Some(((whole / by as u128) as u64, (whole % by as u128) as u64))
}

// Returns the size of a signed double word.
fn size_of_wide(high: u64, low: u64) -> u128
    ensures { result ≡ wide_magnitude high low }
{
    let whole = ((high as u128) << 64) + low as u128;
    if high < SIGN_BIT {
        whole
    } else {
        0u128.wrapping_sub(whole)
    }
}

// Returns whether a quotient of this size and sign is a signed word.
fn fits(negative: bool, q: u128) -> bool
    ensures { result ≡ fits_signed negative q }
{
    if negative {
        q <= SIGN_BIT as u128
    } else {
        q < SIGN_BIT as u128
    }
}

/// Signed quotient towards zero and remainder of a double word by a word, all as words. None exactly where the divisor is 0 or the quotient
/// does not fit a signed word.
pub fn div_wide_words(high: u64, low: u64, by: u64) -> Option<(u64, u64)>
    ensures { result ≡ quotient_wide_signed high low by }
{
    if by == 0 {
        return None;
    }
    let size = size_of_wide(high, low);
    let divisor = magnitude_of(by) as u128;
    let negative = (high >= SIGN_BIT) != (by >= SIGN_BIT);
    if !fits(negative, size / divisor) {
        return None;
    }
    Some((
        signed_word(negative, (size / divisor) as u64),
        signed_word(high >= SIGN_BIT, (size % divisor) as u64),
    ))
}

/// Quotient towards zero and remainder, with the dividend's sign, of a signed double word by a signed
/// word. None exactly where the divisor is 0 or the quotient does not fit a signed word.
pub fn div_wide(high: i64, low: u64, by: i64) -> Option<(i64, i64)>
    ensures { as_words result ≡ quotient_wide_signed (cast_unsigned w64 high) low (cast_unsigned w64 by) }
{
    match div_wide_words(high.cast_unsigned(), low, by.cast_unsigned()) {
        Some((quotient, remainder)) => Some((quotient.cast_signed(), remainder.cast_signed())),
        None => None,
    }
}

/// Returns the low bytes of a word, the others 0. `bytes` is 1, 2, 4 or 8.
pub fn zero_part(value: u64, bytes: u32) -> u64
    requires { (bytes ≡ 1) ⊎ (bytes ≡ 2) ⊎ (bytes ≡ 4) ⊎ (bytes ≡ 8) }
    ensures { result ≡ zero_part_of value bytes }
{
    match bytes {
        1 => value % 0x100,
        2 => value % 0x1_0000,
        4 => value % 0x1_0000_0000,
        _ => value,
    }
}

/// Returns the low bytes of a word, extended by their sign. `bytes` is 1, 2, 4 or 8.
pub fn sign_part(value: u64, bytes: u32) -> u64
    requires { (bytes ≡ 1) ⊎ (bytes ≡ 2) ⊎ (bytes ≡ 4) ⊎ (bytes ≡ 8) }
    ensures { result ≡ sign_part_of value bytes }
{
    let low = zero_part(value, bytes);
    match bytes {
        1 => if low < 0x80 {
            low
        } else {
            low + 0xFFFF_FFFF_FFFF_FF00
        },
        2 => if low < 0x8000 {
            low
        } else {
            low + 0xFFFF_FFFF_FFFF_0000
        },
        4 => if low < 0x8000_0000 {
            low
        } else {
            low + 0xFFFF_FFFF_0000_0000
        },
        _ => low,
    }
}

// Returns the low 2 bytes in the other order.
fn swap2(value: u64) -> u64
    ensures { result ≡ value % 256 * 256 + value / 256 % 256 }
{
    value % 256 * 256 + value / 256 % 256
}

// Returns the low 4 bytes in the other order.
fn swap4(value: u64) -> u64
    ensures { result ≡ swapped value 4 }
{
    swap2(value) * 0x1_0000 + swap2(value / 0x1_0000)
}

// Returns the low 8 bytes in the other order.
fn swap8(value: u64) -> u64
    ensures { result ≡ swapped value 8 }
{
    swap4(value) * 0x1_0000_0000 + swap4(value / 0x1_0000_0000)
}

/// Returns the low bytes of a word in the other order, the others 0. `bytes` is 1, 2, 4 or 8.
pub fn swap_bytes(value: u64, bytes: u32) -> u64
    requires { (bytes ≡ 1) ⊎ (bytes ≡ 2) ⊎ (bytes ≡ 4) ⊎ (bytes ≡ 8) }
    ensures { result ≡ swapped value bytes }
{
    match bytes {
        1 => value % 256,
        2 => swap2(value),
        4 => swap4(value),
        _ => swap8(value),
    }
}
