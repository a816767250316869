// Numbers in digits, without memory.

ghost use Rattle.std.specs.Prelude.{◌≡◌, ◌<◌, ◌≤◌, ℕ, drop, length};
ghost use Rattle.std.specs.Fmt.{digits, digit_glyph};
ghost use Rattle.lg_io.specs.Radixes.{base_of, has_capitals, digits_in};

use std::marker::Model;

/// The base that a number is written in, and the letters of its digits.
#[derive(Clone, Copy, PartialEq, Eq)]
pub enum Radix {
    /// Base 8.
    Octal,
    /// Base 10.
    Decimal,
    /// Base 16, with small letters.
    Hexadecimal,
    /// Base 16, with capital letters.
    UpperHexadecimal,
}

impl Radix {
    fn base(self) -> u64
        ensures value { result ≡ base_of self }
        ensures low { 8 ≤ result }
        ensures high { result ≤ 16 }
    {
        match self {
            Radix::Octal => 8,
            Radix::Decimal => 10,
            Radix::Hexadecimal | Radix::UpperHexadecimal => 16,
        }
    }

    fn has_capitals(self) -> bool
        ensures { result ≡ has_capitals self }
    {
        match self {
            Radix::UpperHexadecimal => true,
            _ => false,
        }
    }
}

// Returns the character of a digit.
fn glyph(digit: u8, capitals: bool) -> u8
    requires { digit < 16 }
    ensures { result ≡ digit_glyph capitals digit }
{
    if digit < 10 {
        b'0' + digit
    } else if capitals {
        b'A' + (digit - 10)
    } else {
        b'a' + (digit - 10)
    }
}

// Writes the digits of a number at the end of the array, and says where they begin.
fn write_digits(number: u64, base: u64, capitals: bool, into: &mut [u8; 22]) -> usize
    requires low { 8 ≤ base }
    requires high { base ≤ 16 }
    ensures start { result < 22 }
    ensures digits { drop result into.new ≡ digits base capitals number }
    ensures len { length into.new ≡ 22 }
{
    let mut rest = number;
    let mut at = 22;
    while at > 0 {
        at -= 1;
        into[at] = glyph((rest % base) as u8, capitals);
        if rest < base {
            return at;
        }
        rest /= base;
    }
    unreachable!()
}

/// The digits of a number, without leading zeros.
#[derive(Drop)]
pub struct Digits {
    bytes: [u8; 22],
    start: usize,
}

impl Model for Digits {
    ghost use Rattle.std.specs.Prelude.{ℕ, List, drop, ◌≤◌};

    ghost Value = { List ℕ };

    ghost view = { λ digits. drop digits.start digits.bytes };

    ghost invariant = { λ digits. digits.start ≤ 22 };
}

impl Digits {
    /// Returns the digits of a number: 0 is one digit, and the longest number has 22.
    pub fn of(number: u64, radix: Radix) -> Digits
        ensures { result ≡ digits_in radix number }
    {
        let mut bytes = [0u8; 22];
        let start = write_digits(number, radix.base(), radix.has_capitals(), &mut bytes);
        Digits { bytes, start }
    }

    /// Returns the digits as characters of ASCII.
    pub fn as_slice(&self) -> &[u8]
        ensures value { result.now ≡ self.now }
        ensures short { length result.now ≤ 22 }
    {
        &self.bytes[self.start..]
    }
}
