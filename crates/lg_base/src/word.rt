// Operators on words of 64 bits.

ghost use Rattle.std.specs.Prelude.{◌≡◌, ◌≢◌, ◌<◌, ◌≤◌, length, take};
ghost use Rattle.std.specs.Int.{w32, from_le_bytes};
ghost use Rattle.lg_base.specs.Words.{quotient_signed, remainder_signed, shifted_right_signed, is_less_signed, sum_overflows, difference_overflows, high_product_mixed, sign_32, differ, is_negative, magnitude, with_sign, is_half, extended, add_words};

/// 2^63: the least word that is negative in the signed view.
pub const SIGN_BIT: u64 = 0x8000_0000_0000_0000;

/// Returns the size of a signed word: at most `2 ^ 63`.
pub fn magnitude_of(a: u64) -> u64
    ensures { result ≡ magnitude a }
{
    if a < SIGN_BIT {
        a
    } else {
        0u64.wrapping_sub(a)
    }
}

/// Returns the word of a size and a sign.
pub fn signed_word(negative: bool, size: u64) -> u64
    ensures { result ≡ with_sign negative size }
{
    if negative {
        0u64.wrapping_sub(size)
    } else {
        size
    }
}

/// Returns the signed quotient towards zero. The divisor is not 0; the least word by -1 gives itself.
pub fn divide_signed(a: u64, b: u64) -> u64
    requires { b ≢ 0 }
    ensures { result ≡ quotient_signed a b }
{
    signed_word(
        (a >= SIGN_BIT) != (b >= SIGN_BIT),
        magnitude_of(a) / magnitude_of(b),
    )
}

/// Returns the signed remainder, with the dividend's sign. The divisor is not 0; the least word by -1 gives 0.
pub fn remain_signed(a: u64, b: u64) -> u64
    requires { b ≢ 0 }
    ensures { result ≡ remainder_signed a b }
{
    signed_word(a >= SIGN_BIT, magnitude_of(a) % magnitude_of(b))
}

/// Returns the shift to the right that carries the sign. The count is below 64.
pub fn shift_right_signed(a: u64, count: u32) -> u64
    requires { count < 64 }
    ensures { result ≡ shifted_right_signed a count }
{
    if a < SIGN_BIT {
        a >> count
    } else {
        !(!a >> count)
    }
}

/// Returns whether the signed view of a word is below that of another.
pub fn less_signed(a: u64, b: u64) -> bool
    ensures { result ≡ is_less_signed a b }
{
    a.wrapping_add(SIGN_BIT) < b.wrapping_add(SIGN_BIT)
}

/// Returns whether the sum of two signed words does not fit a signed word.
pub fn sum_overflows_signed(a: u64, b: u64) -> bool
    ensures { result ≡ sum_overflows a b }
{
    if (a >= SIGN_BIT) != (b >= SIGN_BIT) {
        false
    } else {
        (a >= SIGN_BIT) != (a.wrapping_add(b) >= SIGN_BIT)
    }
}

/// Returns whether the difference of two signed words does not fit a signed word.
pub fn difference_overflows_signed(a: u64, b: u64) -> bool
    ensures { result ≡ difference_overflows a b }
{
    if (a >= SIGN_BIT) != (b >= SIGN_BIT) {
        (a >= SIGN_BIT) != (a.wrapping_sub(b) >= SIGN_BIT)
    } else {
        false
    }
}

/// Returns the low 32 bits, extended by their sign.
pub fn sign_extend_32(a: u64) -> u64
    ensures { result ≡ sign_32 a }
{
    let low = a % 0x1_0000_0000;
    if low < 0x8000_0000 {
        low
    } else {
        low + 0xFFFF_FFFF_0000_0000
    }
}

/// Returns whether the signed view of a word is from -2^31 to 2^31 - 1, as the numbers of 32 bits are.
pub fn is_half(value: u64) -> bool
    ensures { result ≡ is_half value }
{
    value.wrapping_add(1 << 31) < 1 << 32
}

// In a function of its own it becomes one load.
/// Returns the word of 32 bits that the first four bytes are, the lowest byte first. There are at least 4.
pub fn word_in_front(bytes: &[u8]) -> u32
    requires { 4 ≤ length bytes.now }
    ensures { result ≡ from_le_bytes w32 (take 4 bytes.now) }
{
    u32::from_le_bytes([bytes[0], bytes[1], bytes[2], bytes[3]])
}
