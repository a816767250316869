// What the conversions of a format print.

ghost use Rattle.std.specs.Prelude.{◌≡◌, ◌≤◌, ◌<◌, ◌+◌, ◌-◌, ◌%◌, ◌^◌, ℕ, Bool, Some, None, [], length, drop, OnOk, OnErr};
ghost use Rattle.lg_io.specs.Radixes.{digits_in};
ghost use Rattle.lg_host.specs.Output.{Told, output, part_bytes, parts_bytes};
ghost use Rattle.lg_host.specs.Printed.{padded, is_negative, magnitude_of, converted, span};

use crate::buffer::Buffer;
use crate::format::{Kind, Size, Style};
use crate::parts::{Part, put_parts};
use crate::strings::string_end;
use lg_base::Space;
use lg_base::word::SIGN_BIT;
use lg_io::{Digits, Radix, Sink, SinkFault};

// Passes on pieces whose length is known.
fn put<S: Space, O: Sink>(
    mem: &S,
    parts: &[Part<'_>],
    len: u64,
    buffer: &mut Buffer,
    out: &mut O,
) -> Result<Option<u64>, SinkFault>
    requires { length (parts_bytes (S.byte_of mem.now) parts.now) ≡ len }
    ensures { Told (Some (parts_bytes (S.byte_of mem.now) parts.now))
        (output (O.taken out.old) buffer.old (O.faults out.old))
        (output (O.taken out.new) buffer.new (O.faults out.new)) result }
{
    match put_parts(mem, parts, buffer, out) {
        Ok(()) => Ok(Some(len)),
        Err(fault) => Err(fault),
    }
}

// Passes on a sign and a body in a width.
fn put_padded<'a, S: Space, O: Sink>(
    mem: &S,
    style: Style,
    sign: &'a [u8],
    body: Part<'a>,
    len: u64,
    buffer: &mut Buffer,
    out: &mut O,
) -> Result<Option<u64>, SinkFault>
    requires len { length (part_bytes (S.byte_of mem.now) body) ≡ len }
    requires small { length sign.now + len < 2 ^ 64 }
    requires sign { length sign.now ≤ 2 }
    ensures { Told (Some (padded style sign.now (part_bytes (S.byte_of mem.now) body.entry)))
        (output (O.taken out.old) buffer.old (O.faults out.old))
        (output (O.taken out.new) buffer.new (O.faults out.new)) result }
{
    let used = sign.len() as u64 + len;
    let gap = (style.width as u64).saturating_sub(used) as u32;
    if style.left {
        let parts = [Part::Bytes(sign), body, Part::Fill(b' ', gap)];
        put(mem, &parts, used + gap as u64, buffer, out)
    } else if style.zero {
        let parts = [Part::Bytes(sign), Part::Fill(b'0', gap), body];
        put(mem, &parts, used + gap as u64, buffer, out)
    } else {
        let parts = [Part::Fill(b' ', gap), Part::Bytes(sign), body];
        put(mem, &parts, used + gap as u64, buffer, out)
    }
}

// Passes on a number in digits, after a sign.
fn put_number<S: Space, O: Sink>(
    mem: &S,
    style: Style,
    sign: &[u8],
    number: u64,
    radix: Radix,
    buffer: &mut Buffer,
    out: &mut O,
) -> Result<Option<u64>, SinkFault>
    requires sign { length sign.now ≤ 2 }
    ensures { Told (Some (padded style sign.now (digits_in radix number)))
        (output (O.taken out.old) buffer.old (O.faults out.old))
        (output (O.taken out.new) buffer.new (O.faults out.new)) result }
{
    let digits = Digits::of(number, radix);
    let digits = digits.as_slice();
    put_padded(
        mem,
        style,
        sign,
        Part::Bytes(digits),
        digits.len() as u64,
        buffer,
        out,
    )
}

// Returns the low bytes of a word.
fn low(size: Size, word: u64) -> u64
    ensures { result ≡ word % span size }
{
    match size {
        Size::Byte => word % 0x100,
        Size::Short => word % 0x1_0000,
        Size::Int => word % 0x1_0000_0000,
        Size::Long => word,
    }
}

// Returns whether the low bytes of a word are a number below 0.
fn is_negative(size: Size, word: u64) -> bool
    ensures { result ≡ is_negative size word }
{
    match size {
        Size::Byte => word % 0x100 >= 0x80,
        Size::Short => word % 0x1_0000 >= 0x8000,
        Size::Int => word % 0x1_0000_0000 >= 0x8000_0000,
        Size::Long => word >= SIGN_BIT,
    }
}

// Returns the number in the low bytes of a word, without its sign.
fn magnitude(size: Size, word: u64) -> u64
    ensures { result ≡ magnitude_of size word }
{
    if is_negative(size, word) {
        low(size, 0u64.wrapping_sub(low(size, word)))
    } else {
        low(size, word)
    }
}

// Passes on a number with its sign.
fn put_signed<S: Space, O: Sink>(
    mem: &S,
    style: Style,
    size: Size,
    word: u64,
    buffer: &mut Buffer,
    out: &mut O,
) -> Result<Option<u64>, SinkFault>
    ensures { Told (converted (S.byte_of mem.now) style (Kind.Signed size) word)
        (output (O.taken out.old) buffer.old (O.faults out.old))
        (output (O.taken out.new) buffer.new (O.faults out.new)) result }
{
    let number = magnitude(size, word);
    if is_negative(size, word) {
        put_number(mem, style, b"-", number, Radix::Decimal, buffer, out)
    } else {
        put_number(mem, style, b"", number, Radix::Decimal, buffer, out)
    }
}

// Passes on a string of memory.
fn put_string<S: Space, O: Sink>(
    mem: &S,
    style: Style,
    from: u64,
    buffer: &mut Buffer,
    out: &mut O,
) -> Result<Option<u64>, SinkFault>
    ensures { Told (converted (S.byte_of mem.now) style Kind.Text from)
        (output (O.taken out.old) buffer.old (O.faults out.old))
        (output (O.taken out.new) buffer.new (O.faults out.new)) result }
{
    let Some(end) = string_end(mem, from) else {
        return Ok(None);
    };
    put_padded(
        mem,
        style,
        b"",
        Part::Text(from, end),
        end - from,
        buffer,
        out,
    )
}

/// Passes on what a conversion prints of a word.
pub fn convert<S: Space, O: Sink>(
    mem: &S,
    style: Style,
    kind: Kind,
    word: u64,
    buffer: &mut Buffer,
    out: &mut O,
) -> Result<Option<u64>, SinkFault>
    ensures { Told (converted (S.byte_of mem.now) style kind word)
        (output (O.taken out.old) buffer.old (O.faults out.old))
        (output (O.taken out.new) buffer.new (O.faults out.new)) result }
{
    match kind {
        Kind::Signed(size) => put_signed(mem, style, size, word, buffer, out),
        Kind::Unsigned(radix, size) => put_number(
            mem,
            style,
            b"",
            low(size, word),
            radix,
            buffer,
            out,
        ),
        Kind::Character => put_padded(
            mem,
            style,
            b"",
            Part::Fill((word % 256) as u8, 1),
            1,
            buffer,
            out,
        ),
        Kind::Text => put_string(mem, style, word, buffer, out),
        Kind::Pointer => put_number(mem, style, b"0x", word, Radix::Hexadecimal, buffer, out),
    }
}
