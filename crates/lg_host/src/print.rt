// What a format prints.

ghost use Rattle.std.specs.Prelude.{◌≡◌, ◌≤◌, ◌<◌, ◌+◌, ◌-◌, ◌%◌, ◌^◌, ℕ, Bool, Some, None, [], ◌∷◌, length, drop, IfOk, OnErr};
ghost use Rattle.std.specs.Io.KnownBytes.{Appends};
ghost use Rattle.lg_io.specs.Counts.{HasCause};
ghost use Rattle.lg_io.specs.Wrote.{AppendsPrefix};
ghost use Rattle.lg_host.specs.Output.{Told, Steps, Prints, output};
ghost use Rattle.lg_host.specs.Printed.{wrote, effect_of, step_of, printed_at};

use crate::buffer::Buffer;
use crate::conversions::convert;
use crate::format::{Kind, Next, Reading, Style};
use crate::format_place::FormatPlace;
use crate::letters::{is_plain, next};
use lg_base::Space;
use lg_io::{Sink, SinkFault};

// What one byte of a format does.
fn step<S: Space, O: Sink>(
    mem: &S,
    place: FormatPlace,
    byte: u8,
    args: &[u64],
    buffer: &mut Buffer,
    out: &mut O,
) -> Result<Option<FormatPlace>, SinkFault>
    ensures { Steps (step_of (S.byte_of mem.now) place.reading byte (drop place.used args.now)) place.count args.now
        (output (O.taken out.old) buffer.old (O.faults out.old))
        (output (O.taken out.new) buffer.new (O.faults out.new)) result }
{
    match next(place.reading, byte) {
        Next::Reads(reading) => Ok(Some(FormatPlace {
            reading,
            used: place.used,
            count: place.count,
        })),
        Next::Puts(plain) => put_plain(place, plain, args, buffer, out),
        Next::Converts(style, kind) => put_converted(mem, place, style, kind, args, buffer, out),
        Next::Wrong => Ok(None),
    }
}

// Passes on a byte that denotes itself.
fn put_plain<O: Sink>(
    place: FormatPlace,
    byte: u8,
    args: &[u64],
    buffer: &mut Buffer,
    out: &mut O,
) -> Result<Option<FormatPlace>, SinkFault>
    ensures { Steps (Some (wrote (byte ∷ []) (drop place.used args.now))) place.count args.now
        (output (O.taken out.old) buffer.old (O.faults out.old))
        (output (O.taken out.new) buffer.new (O.faults out.new)) result }
{
    match buffer.push(byte, out) {
        Ok(()) => Ok(Some(FormatPlace {
            reading: Reading::Plain,
            used: place.used,
            count: place.count.wrapping_add(1),
        })),
        Err(fault) => Err(fault),
    }
}

// Passes on the next argument.
fn put_converted<S: Space, O: Sink>(
    mem: &S,
    place: FormatPlace,
    style: Style,
    kind: Kind,
    args: &[u64],
    buffer: &mut Buffer,
    out: &mut O,
) -> Result<Option<FormatPlace>, SinkFault>
    ensures { Steps (effect_of (S.byte_of mem.now) (Next.Converts style kind) (drop place.used args.now)) place.count args.now
        (output (O.taken out.old) buffer.old (O.faults out.old))
        (output (O.taken out.new) buffer.new (O.faults out.new)) result }
{
    if place.used >= args.len() {
        return Ok(None);
    }
    match convert(mem, style, kind, args[place.used], buffer, out) {
        Ok(Some(len)) => Ok(Some(FormatPlace {
            reading: Reading::Plain,
            used: place.used + 1,
            count: place.count.wrapping_add(len),
        })),
        Ok(None) => Ok(None),
        Err(fault) => Err(fault),
    }
}

// Passes on what a format prints, or says that it is undefined; then some of it may have been passed on.
fn put_format<S: Space, O: Sink>(
    mem: &S,
    from: u64,
    args: &[u64],
    buffer: &mut Buffer,
    out: &mut O,
) -> Result<Option<u64>, SinkFault>
    ensures { Told (printed_at (S.byte_of mem.now) Reading.Plain from args.now)
        (output (O.taken out.old) buffer.old (O.faults out.old))
        (output (O.taken out.new) buffer.new (O.faults out.new)) result }
{
    let mut place = FormatPlace {
        reading: Reading::Plain,
        used: 0,
        count: 0,
    };
    for at in from..=u64::MAX {
        let Some(byte) = mem.get(at) else {
            return Ok(None);
        };
        if byte == 0 {
            if is_plain(place.reading) {
                return Ok(Some(place.count));
            }
            return Ok(None);
        }
        match step(mem, place, byte, args, buffer, out) {
            Ok(Some(more)) => place = more,
            Ok(None) => return Ok(None),
            Err(fault) => return Err(fault),
        }
    }
    Ok(None)
}

/// Writes what a format prints, or says that it is undefined; then some of it may have been written.
pub fn print<S: Space, O: Sink>(
    mem: &S,
    from: u64,
    args: &[u64],
    out: &mut O,
) -> Result<Option<u64>, SinkFault>
    ensures { Prints (printed_at (S.byte_of mem.now) Reading.Plain from args.now)
        (O.taken out.old) (O.taken out.new) (O.faults out.old) (O.faults out.new) result }
{
    let mut buffer = Buffer::new();
    match put_format(mem, from, args, &mut buffer, out) {
        Ok(Some(count)) => flush_all(count, &mut buffer, out),
        Ok(None) => Ok(None),
        Err(fault) => Err(fault),
    }
}

// Writes the bytes that wait, after which none comes.
fn flush_all<O: Sink>(
    count: u64,
    buffer: &mut Buffer,
    out: &mut O,
) -> Result<Option<u64>, SinkFault>
    ensures ok { IfOk result (λ answer. (answer ≡ Some count) × Appends (O.taken out.old) (O.taken out.new) buffer.old) }
    ensures err { OnErr result (AppendsPrefix (O.taken out.old) (O.taken out.new) buffer.old) }
    ensures cause { HasCause (O.faults out.old) (O.faults out.new) result }
{
    match buffer.flush(out) {
        Ok(()) => Ok(Some(count)),
        Err(fault) => Err(fault),
    }
}
