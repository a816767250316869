// Signed numbers in fields and in words.

ghost use Rattle.std.specs.Prelude.{◌≡◌, ◌<◌, ◌≤◌, ◌+◌, ◌^◌, pos, ◌+ℤ◌, ◌≤ℤ◌};
ghost use Rattle.lg_base.specs.Fields.{signed, bits_of, word_of};

/// Returns the bits of a signed number in a field of `2 * half` values: two's complement. The number is from
/// `-half` to `half - 1`, and `half` at most `2 ^ 30`.
pub fn to_bits(value: i32, half: u32) -> u32
    requires size { half ≤ 2 ^ 30 }
    requires low { pos 0 ≤ℤ (value +ℤ pos half) }
    requires high { (value +ℤ pos 1) ≤ℤ pos half }
    ensures bits { result ≡ bits_of half value }
    ensures fits { result < half + half }
{
    if value < 0 {
        half + half - value.unsigned_abs()
    } else {
        value as u32
    }
}

/// Returns the signed number that is in a field of `2 * half` values. The bits are below `2 * half`, and
/// `half` is at most `2 ^ 30`.
pub fn from_bits(bits: u32, half: u32) -> i32
    requires size { half ≤ 2 ^ 30 }
    requires fits { bits < half + half }
    ensures value { result ≡ signed half bits }
    ensures low { pos 0 ≤ℤ (result +ℤ pos half) }
    ensures high { (result +ℤ pos 1) ≤ℤ pos half }
{
    if bits < half {
        bits as i32
    } else {
        -((half + half - bits) as i32)
    }
}

/// Returns the word of 64 bits whose signed view is the number.
pub fn sign_extended(value: i32) -> u64
    ensures { result ≡ word_of value }
{
    i64::from(value).cast_unsigned()
}
