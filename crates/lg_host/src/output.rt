// The functions that write.

ghost use Rattle.std.specs.Prelude.{◌≡◌, ◌≤◌, ◌<◌, ◌+◌, ◌-◌, ◌%◌, ◌^◌, ℕ, Bool, Some, None, [], ◌∷◌, ◌++◌, length};
ghost use Rattle.std.specs.Option.{option_map};
ghost use Rattle.lg_host.specs.Runs.{run};
ghost use Rattle.lg_host.specs.Strings.{string_in};
ghost use Rattle.lg_host.specs.Printed.{printed_at};
ghost use Rattle.lg_host.specs.Host.{outcome, TextSays, int_answer, ByteSays};

use crate::format::Reading;
use crate::host_end::HostEnd;
use crate::nowhere::Nowhere;
use crate::parts::{Part, write_parts};
use crate::print::print;
use crate::strings::string_end;
use lg_base::Space;
use lg_io::{Sink, write_all};

// Returns the number of bytes as an int.
fn int_answer(count: u64) -> u64
    ensures { result ≡ int_answer count }
{
    let low = count % 0x1_0000_0000;
    if low < 0x8000_0000 {
        low
    } else {
        low + 0xFFFF_FFFF_0000_0000
    }
}

/// Writes what a format prints of the arguments after it. Answers the number of bytes, as an int; `WriteFault` where the sink failed, and then a part may be
/// written; Undefined, with nothing written, where the format is wrong, asks for an argument that is not there, or it or a string cannot be read to its end.
pub fn printf<S: Space, O: Sink>(mem: &S, format: u64, args: &[u64], out: &mut O) -> HostEnd
    ensures says { TextSays (printed_at (S.byte_of mem.now) Reading.Plain format args.now)
        (outcome (O.taken out.old) (O.taken out.new) (O.faults out.old) (O.faults out.new)) result }
    ensures later { O.faults out.old ≤ O.faults out.new }
{
    match print(mem, format, args, &mut Nowhere) {
        Ok(Some(_)) => {}
        _ => return HostEnd::Undefined,
    }
    match print(mem, format, args, out) {
        Ok(Some(count)) => HostEnd::Value(int_answer(count)),
        Ok(None) => HostEnd::Undefined,
        Err(_) => HostEnd::WriteFault,
    }
}

/// Writes a string and a line feed. Answers the number of bytes, as an int; `WriteFault` where the sink failed, and then a part may be
/// written; Undefined, with nothing written, where the string cannot be read to its end.
pub fn puts<S: Space, O: Sink>(mem: &S, from: u64, out: &mut O) -> HostEnd
    ensures says { TextSays (option_map (λ string. string ++ 10 ∷ []) (string_in (run (S.byte_of mem.now) from)))
        (outcome (O.taken out.old) (O.taken out.new) (O.faults out.old) (O.faults out.new)) result }
    ensures later { O.faults out.old ≤ O.faults out.new }
{
    let Some(end) = string_end(mem, from) else {
        return HostEnd::Undefined;
    };
    match write_parts(mem, &[Part::Text(from, end), Part::Bytes(b"\n")], out) {
        Ok(()) => HostEnd::Value(int_answer((end - from).wrapping_add(1))),
        Err(_) => HostEnd::WriteFault,
    }
}

/// Writes the low byte of a word. Answers the byte; `WriteFault` where the sink failed, and then nothing was written.
pub fn putchar<O: Sink>(word: u64, out: &mut O) -> HostEnd
    ensures says { ByteSays (word % 256)
        (outcome (O.taken out.old) (O.taken out.new) (O.faults out.old) (O.faults out.new)) result }
    ensures later { O.faults out.old ≤ O.faults out.new }
{
    let byte = (word % 256) as u8;
    match write_all(out, &[byte]) {
        Ok(()) => HostEnd::Value(byte as u64),
        Err(_) => HostEnd::WriteFault,
    }
}
