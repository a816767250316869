// The format of `printf`: what is read of it, byte by byte.

use lg_io::Radix;

/// The flags and the width of a conversion.
#[derive(Clone, Copy)]
pub struct Style {
    /// The flag `-`: spaces come on the right.
    pub left: bool,
    /// The flag `0`: zeros come after the sign in place of spaces on the left.
    pub zero: bool,
    /// The least number of bytes, at most 4,095.
    pub width: u32,
}

/// How many low bytes of a word a conversion takes.
#[derive(Clone, Copy)]
pub enum Size {
    /// One byte, `hh`.
    Byte,
    /// Two bytes, `h`.
    Short,
    /// Four bytes, without a length.
    Int,
    /// Eight bytes, `l` and `ll`.
    Long,
}

/// What a conversion prints.
#[derive(Clone, Copy)]
pub enum Kind {
    /// A number with its sign in decimal digits.
    Signed(Size),
    /// A number without a sign.
    Unsigned(Radix, Size),
    /// The low byte.
    Character,
    /// The string at an address.
    Text,
    /// The word as an address.
    Pointer,
}

/// Where the reading of a format stands.
#[derive(Clone, Copy)]
pub enum Reading {
    /// Outside conversions.
    Plain,
    /// After the percent sign.
    Start,
    /// After a flag.
    Flags(Style),
    /// After a digit of the width.
    Width(Style),
    /// After one `h`.
    Half(Style),
    /// After one `l`.
    Longer(Style),
    /// After `hh` or `ll`.
    Sized(Style, Size),
}

/// What the next byte of a format means.
#[derive(Clone, Copy)]
pub enum Next {
    /// It only moves the reading on.
    Reads(Reading),
    /// It denotes itself.
    Puts(u8),
    /// It ends a conversion.
    Converts(Style, Kind),
    /// No format has it there.
    Wrong,
}
