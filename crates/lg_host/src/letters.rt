// What the next byte of a format means.

ghost use Rattle.std.specs.Prelude.{◌≡◌, ℕ, ◌≤◌};
ghost use Rattle.lg_host.specs.Formats.{number_letter, any_letter, without_zeros, at_length, at_width, at_flags, next_of, is_plain};

use crate::format::{Kind, Next, Reading, Size, Style};
use lg_io::Radix;

// d i u x X o, which take a length.
fn number_letter(style: Style, size: Size, byte: u8) -> Next
    ensures { result ≡ number_letter style size byte }
{
    match byte {
        b'd' | b'i' => Next::Converts(style, Kind::Signed(size)),
        b'u' => Next::Converts(style, Kind::Unsigned(Radix::Decimal, size)),
        b'x' => Next::Converts(style, Kind::Unsigned(Radix::Hexadecimal, size)),
        b'X' => Next::Converts(style, Kind::Unsigned(Radix::UpperHexadecimal, size)),
        b'o' => Next::Converts(style, Kind::Unsigned(Radix::Octal, size)),
        _ => Next::Wrong,
    }
}

// c s p have no flag 0.
fn without_zeros(style: Style, kind: Kind) -> Next
    ensures { result ≡ without_zeros style kind }
{
    if style.zero {
        Next::Wrong
    } else {
        Next::Converts(style, kind)
    }
}

// Returns the letter after a conversion without a length.
fn any_letter(style: Style, byte: u8) -> Next
    ensures { result ≡ any_letter style byte }
{
    match byte {
        b'c' => without_zeros(style, Kind::Character),
        b's' => without_zeros(style, Kind::Text),
        b'p' => without_zeros(style, Kind::Pointer),
        _ => number_letter(style, Size::Int, byte),
    }
}

// A length or a letter.
fn at_length(style: Style, byte: u8) -> Next
    ensures { result ≡ at_length style byte }
{
    match byte {
        b'h' => Next::Reads(Reading::Half(style)),
        b'l' => Next::Reads(Reading::Longer(style)),
        _ => any_letter(style, byte),
    }
}

// A digit of the width, or what comes after it.
fn at_width(style: Style, byte: u8) -> Next
    ensures { result ≡ at_width style byte }
{
    if b'0' <= byte && byte <= b'9' {
        let width = style.width as u64 * 10 + (byte - b'0') as u64;
        if width <= 4095 {
            Next::Reads(Reading::Width(Style {
                left: style.left,
                zero: style.zero,
                width: width as u32,
            }))
        } else {
            Next::Wrong
        }
    } else {
        at_length(style, byte)
    }
}

// A flag, or what comes after the flags.
fn at_flags(style: Style, byte: u8) -> Next
    ensures { result ≡ at_flags style byte }
{
    match byte {
        b'-' => Next::Reads(Reading::Flags(Style {
            left: true,
            zero: style.zero,
            width: style.width,
        })),
        b'0' => Next::Reads(Reading::Flags(Style {
            left: style.left,
            zero: true,
            width: style.width,
        })),
        _ => at_width(style, byte),
    }
}

/// Returns what a byte of a format means, by what came before it.
pub fn next(reading: Reading, byte: u8) -> Next
    ensures { result ≡ next_of reading byte }
{
    match reading {
        Reading::Plain => plain(byte),
        Reading::Start => start(byte),
        Reading::Flags(style) => at_flags(style, byte),
        Reading::Width(style) => at_width(style, byte),
        Reading::Half(style) => half(style, byte),
        Reading::Longer(style) => longer(style, byte),
        Reading::Sized(style, size) => number_letter(style, size, byte),
    }
}

// A byte outside conversions.
fn plain(byte: u8) -> Next
    ensures { result ≡ next_of Reading.Plain byte }
{
    if byte == b'%' {
        Next::Reads(Reading::Start)
    } else {
        Next::Puts(byte)
    }
}

// A byte after the percent sign.
fn start(byte: u8) -> Next
    ensures { result ≡ next_of Reading.Start byte }
{
    if byte == b'%' {
        Next::Puts(b'%')
    } else {
        at_flags(
            Style {
                left: false,
                zero: false,
                width: 0,
            },
            byte,
        )
    }
}

// A byte after one `h`.
fn half(style: Style, byte: u8) -> Next
    ensures { result ≡ next_of (Reading.Half style) byte }
{
    if byte == b'h' {
        Next::Reads(Reading::Sized(style, Size::Byte))
    } else {
        number_letter(style, Size::Short, byte)
    }
}

// A byte after one `l`.
fn longer(style: Style, byte: u8) -> Next
    ensures { result ≡ next_of (Reading.Longer style) byte }
{
    if byte == b'l' {
        Next::Reads(Reading::Sized(style, Size::Long))
    } else {
        number_letter(style, Size::Long, byte)
    }
}

/// Returns whether a format may end there.
pub fn is_plain(reading: Reading) -> bool
    ensures { result ≡ is_plain reading }
{
    match reading {
        Reading::Plain => true,
        _ => false,
    }
}
