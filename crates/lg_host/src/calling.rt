// The host call.

ghost use Rattle.std.specs.Prelude.{◌≡◌, ◌≤◌, ◌<◌, ◌+◌, ℕ, length, slice_index, Option};
ghost use Rattle.std.specs.Option.{option_map};
ghost use Rattle.lg_host.specs.Runs.{run};
ghost use Rattle.lg_host.specs.Strings.{string_in};
ghost use Rattle.lg_host.specs.Host.{memory, outcome, HostSays, MemSays, host_of, table, named, answered};

use crate::allocation::{calloc, malloc, memcpy, memset};
use crate::heap_mark::HeapMark;
use crate::host_end::HostEnd;
use crate::output::{printf, putchar, puts};
use crate::strings::{atoi, compare, string_end};
use lg_base::{HostName, Space};
use lg_io::Sink;

// Returns how many arguments are named.
fn named(name: HostName) -> usize
    ensures { result ≡ named name }
{
    match name {
        HostName::Abort => 0,
        HostName::Calloc | HostName::Strcmp => 2,
        HostName::Memcpy | HostName::Memset => 3,
        _ => 1,
    }
}

// An argument, or 0 where there is none.
fn word(args: &[u64], index: usize) -> u64
    ensures { result ≡ slice_index args.now index }
{
    if index < args.len() { args[index] } else { 0 }
}

// An answer that changes and writes nothing.
fn answered(answer: Option<u64>) -> HostEnd
    ensures { (bytes : ℕ → Option ℕ) (room : _) (mark : ℕ) → MemSays (answered mark answer) (memory bytes room mark) (memory bytes room mark) result }
{
    match answer {
        Some(word) => HostEnd::Value(word),
        None => HostEnd::Undefined,
    }
}

// Returns the length of a string.
fn strlen<S: Space>(mem: &S, from: u64) -> Option<u64>
    ensures { result ≡ option_map length (string_in (run (S.byte_of mem.now) from)) }
{
    match string_end(mem, from) {
        Some(end) => Some(end - from),
        None => None,
    }
}

// The effect of a host function whose named arguments are there.
fn act<S: Space, O: Sink>(
    name: HostName,
    a: u64,
    b: u64,
    c: u64,
    args: &[u64],
    variadic: bool,
    mem: &mut S,
    heap: &mut HeapMark,
    out: &mut O,
) -> HostEnd
    requires { named name ≤ length args.now }
    ensures says { HostSays (table name a b c args.now variadic (memory (S.byte_of mem.old) (S.room mem.old) heap.old))
        (memory (S.byte_of mem.old) (S.room mem.old) heap.old)
        (memory (S.byte_of mem.new) (S.room mem.new) heap.new)
        (outcome (O.taken out.old) (O.taken out.new) (O.faults out.old) (O.faults out.new)) result }
    ensures later { O.faults out.old ≤ O.faults out.new }
{
    match name {
        HostName::Printf => {
            if variadic {
                printf(mem, a, &args[1..], out)
            } else {
                HostEnd::Undefined
            }
        }
        HostName::Puts => puts(mem, a, out),
        HostName::Putchar => putchar(a, out),
        HostName::Exit => HostEnd::Exit((a % 256) as u8),
        HostName::Abort => HostEnd::Exit(134),
        HostName::Atoi => answered(atoi(mem, a)),
        HostName::Malloc => malloc(a, mem, heap),
        HostName::Calloc => calloc(a, b, mem, heap),
        HostName::Free => HostEnd::Value(0),
        HostName::Memcpy => memcpy(a, b, c, mem, heap),
        HostName::Memset => memset(a, b, c, mem, heap),
        HostName::Strlen => answered(strlen(mem, a)),
        HostName::Strcmp => answered(compare(mem, a, b)),
    }
}

/// Calls a host function with its arguments, which are words. `variadic` says whether arguments after the named ones may
/// are there, as `printf` needs it. A call with fewer arguments than are named is undefined, and further ones are not
/// read. What each function answers, changes and writes is in `table` of specs/Host.antt. Each output goes to the sink
/// before the call ends. Where a write fails a part of it may have been written, from the first byte on.
pub fn call<S: Space, O: Sink>(
    name: HostName,
    args: &[u64],
    variadic: bool,
    mem: &mut S,
    heap: &mut HeapMark,
    out: &mut O,
) -> HostEnd
    ensures says { HostSays (host_of name args.now variadic (memory (S.byte_of mem.old) (S.room mem.old) heap.old))
        (memory (S.byte_of mem.old) (S.room mem.old) heap.old)
        (memory (S.byte_of mem.new) (S.room mem.new) heap.new)
        (outcome (O.taken out.old) (O.taken out.new) (O.faults out.old) (O.faults out.new)) result }
    ensures later { O.faults out.old ≤ O.faults out.new }
{
    if args.len() < named(name) {
        return HostEnd::Undefined;
    }
    act(
        name,
        word(args, 0),
        word(args, 1),
        word(args, 2),
        args,
        variadic,
        mem,
        heap,
        out,
    )
}
