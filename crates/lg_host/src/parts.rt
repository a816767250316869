// Output in pieces, which takes no memory.

ghost use Rattle.std.specs.Prelude.{◌≡◌, ℕ, ◌-◌, replicate};
ghost use Rattle.lg_io.specs.Wrote.{Wrote};
ghost use Rattle.lg_host.specs.Output.{Passed, output, bytes_from, part_bytes, parts_bytes};

use crate::buffer::Buffer;
use lg_base::Space;
use lg_io::{Sink, SinkFault};

/// A piece of output.
#[derive(Clone, Copy)]
pub enum Part<'a> {
    /// These bytes.
    Bytes(&'a [u8]),
    /// A byte this many times.
    Fill(u8, u32),
    /// What is in memory from an address to before another.
    Text(u64, u64),
}

// Passes on a byte this many times.
fn put_fill<O: Sink>(
    byte: u8,
    count: u32,
    buffer: &mut Buffer,
    out: &mut O,
) -> Result<(), SinkFault>
    ensures { Passed (output (O.taken out.old) buffer.old (O.faults out.old))
        (output (O.taken out.new) buffer.new (O.faults out.new)) result (replicate count byte) }
{
    for i in 0..count {
        match buffer.push(byte, out) {
            Ok(()) => {}
            Err(fault) => return Err(fault),
        }
    }
    Ok(())
}

// Passes on what memory holds, byte by byte.
fn put_each<S: Space, O: Sink>(
    mem: &S,
    from: u64,
    to: u64,
    buffer: &mut Buffer,
    out: &mut O,
) -> Result<(), SinkFault>
    ensures { Passed (output (O.taken out.old) buffer.old (O.faults out.old))
        (output (O.taken out.new) buffer.new (O.faults out.new)) result (bytes_from (to - from) (S.byte_of mem.now) from) }
{
    for at in from..to {
        match buffer.push(mem.get(at).unwrap_or(0), out) {
            Ok(()) => {}
            Err(fault) => return Err(fault),
        }
    }
    Ok(())
}

// Passes on what memory holds: at once where it is a slice of it.
fn put_text<S: Space, O: Sink>(
    mem: &S,
    from: u64,
    to: u64,
    buffer: &mut Buffer,
    out: &mut O,
) -> Result<(), SinkFault>
    ensures { Passed (output (O.taken out.old) buffer.old (O.faults out.old))
        (output (O.taken out.new) buffer.new (O.faults out.new)) result (bytes_from (to - from) (S.byte_of mem.now) from) }
{
    match mem.slice(from, to.saturating_sub(from)) {
        Some(bytes) => buffer.put(bytes, out),
        None => put_each(mem, from, to, buffer, out),
    }
}

// Passes on one piece.
fn put_part<S: Space, O: Sink>(
    mem: &S,
    part: Part<'_>,
    buffer: &mut Buffer,
    out: &mut O,
) -> Result<(), SinkFault>
    ensures { Passed (output (O.taken out.old) buffer.old (O.faults out.old))
        (output (O.taken out.new) buffer.new (O.faults out.new)) result (part_bytes (S.byte_of mem.now) part.entry) }
{
    match part {
        Part::Bytes(bytes) => buffer.put(bytes, out),
        Part::Fill(byte, count) => put_fill(byte, count, buffer, out),
        Part::Text(from, to) => put_text(mem, from, to, buffer, out),
    }
}

// Passes on pieces one after another.
pub(crate) fn put_parts<S: Space, O: Sink>(
    mem: &S,
    parts: &[Part<'_>],
    buffer: &mut Buffer,
    out: &mut O,
) -> Result<(), SinkFault>
    ensures { Passed (output (O.taken out.old) buffer.old (O.faults out.old))
        (output (O.taken out.new) buffer.new (O.faults out.new)) result (parts_bytes (S.byte_of mem.now) parts.now) }
{
    for part in parts {
        match put_part(mem, *part, buffer, out) {
            Ok(()) => {}
            Err(fault) => return Err(fault),
        }
    }
    Ok(())
}

// Writes pieces one after another.
pub(crate) fn write_parts<S: Space, O: Sink>(
    mem: &S,
    parts: &[Part<'_>],
    out: &mut O,
) -> Result<(), SinkFault>
    ensures { Wrote (O.taken out.old) (O.taken out.new) (O.faults out.old) (O.faults out.new) result (parts_bytes (S.byte_of mem.now) parts.now) }
{
    let mut buffer = Buffer::new();
    match put_parts(mem, parts, &mut buffer, out) {
        Ok(()) => buffer.flush(out),
        Err(fault) => Err(fault),
    }
}
