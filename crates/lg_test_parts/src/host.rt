// The host functions by example: values of C, and the edges of the table.

use crate::rows::{Piece, are_of};
use lg_base::{HostName, Memory, OutOfMemory, Space};
use lg_host::{HeapMark, HostEnd, call};
use lg_io::MemorySink;
use std::alloc::Global;
use std::test::Fail;

const DATA: u64 = 0x2000_0000;

// Where a format is after `text`.
const FORMAT: u64 = DATA + 5;

const HEAP: u64 = 0x3000_0000;

// The word -1.
const MINUS: u64 = u64::MAX;

// Calls of `printf`: the data part, with `text` in front of the format, the words, how many bytes are printed, and they.
const PRINTED: &[(&[u8], &[u64], u64, &[Piece])] = &[
    (
        b"text\0[%5d|%-5d|%05d|%hhd|%x|%c|%%]\n\0",
        &[FORMAT, 42, 42, MINUS - 41, 300, 255, 65],
        30,
        &[Piece::Of(b"[   42|42   |-0042|44|ff|A|%]\n")],
    ),
    (
        b"text\0%hhd %hhd %hhu\0",
        &[FORMAT, 128, 255, 511],
        11,
        &[Piece::Of(b"-128 -1 255")],
    ),
    (
        b"text\0%hhx %hx %x %lx %llX\0",
        &[FORMAT, MINUS, MINUS, MINUS, MINUS, MINUS],
        50,
        &[Piece::Of(b"ff ffff ffffffff ffffffffffffffff FFFFFFFFFFFFFFFF")],
    ),
    (
        b"text\0%d %i %u %ld\0",
        &[FORMAT, 0x8000_0000, 0xffff_ffff, MINUS, 1 << 63],
        46,
        &[Piece::Of(b"-2147483648 -1 4294967295 -9223372036854775808")],
    ),
    (
        b"text\0%o %lo %ho\0",
        &[FORMAT, 8, MINUS, 0x1_0008],
        28,
        &[Piece::Of(b"10 1777777777777777777777 10")],
    ),
    (
        b"text\0%00-5d|%-05d|%0-5d|\0",
        &[FORMAT, 42, 42, 42],
        18,
        &[Piece::Of(b"42   |42   |42   |")],
    ),
    (
        b"text\0%5c|%-3c|%s|%8s|%-8s|%2s|\0",
        &[FORMAT, 65, 66, DATA, DATA, DATA, DATA],
        38,
        &[Piece::Of(b"    A|B  |text|    text|text    |text|")],
    ),
    (
        b"text\0%p %-5p| %12p\0",
        &[FORMAT, 0, 0, 0xabc],
        23,
        &[Piece::Of(b"0x0 0x0  |        0xabc")],
    ),
    (
        b"text\0%05d %05x %03o %1d\0",
        &[FORMAT, 7, 0xab, 8, 123],
        19,
        &[Piece::Of(b"00007 000ab 010 123")],
    ),
    (b"text\0\0", &[FORMAT, 1, 2], 0, &[Piece::Of(b"")]),
    (b"text\0a%cb\0", &[FORMAT, 0x100], 3, &[Piece::Of(b"a\0b")]),
    // widths go up to 4,095
    (
        b"text\0%4095d%-9s|\0",
        &[FORMAT, 1, DATA],
        4105,
        &[Piece::Times(b" ", 4_094), Piece::Of(b"1text     |")],
    ),
];

// Formats that are undefined with the words 1 and 0.
const OTHER_FORMATS: &[&[u8]] = &[
    b"ok %5.2d\0",
    b"ok %\0",
    b"ok %d%\0",
    b"ok %5\0",
    b"ok %l\0",
    b"%4096d\0",
    b"%hc\0",
    b"%lc\0",
    b"%ls\0",
    b"%0s\0",
    b"%05c\0",
    b"%0p\0",
    b"%-0s\0",
    b"%-%\0",
    b"%5%\0",
    b"%hhhd\0",
    b"%lld%llld\0",
    b"%+d\0",
    b"% d\0",
    b"%#x\0",
    b"%*d\0",
    b"%n\0",
    b"%f\0",
    b"%d %d %d\0",
    b"%d %s\0",
];

const LONG: &[u8] =
    b"text\0%100d|%-70s|a literal text that is longer than what waits at once: %lx|\0";

const LONG_WORDS: &[u64] = &[FORMAT, 7, DATA, 0x1234_5678];

// All that the long format prints.
const WHOLE: &[Piece] = &[
    Piece::Times(b" ", 99),
    Piece::Of(b"7|text"),
    Piece::Times(b" ", 66),
    Piece::Of(b"|a literal text that is longer than what waits at once: 12345678|"),
];

// The write that fails, how the long format ends then, and what is printed before; the fifth never comes.
const CUT: &[(u64, HostEnd, &[Piece])] = &[
    (0, HostEnd::Value(236), WHOLE),
    (1, HostEnd::WriteFault, &[]),
    (2, HostEnd::WriteFault, &[Piece::Times(b" ", 64)]),
    (
        3,
        HostEnd::WriteFault,
        &[
            Piece::Times(b" ", 99),
            Piece::Of(b"7|text"),
            Piece::Times(b" ", 23),
        ],
    ),
    (
        4,
        HostEnd::WriteFault,
        &[
            Piece::Times(b" ", 99),
            Piece::Of(b"7|text"),
            Piece::Times(b" ", 66),
            Piece::Of(b"|a literal text that "),
        ],
    ),
    (5, HostEnd::Value(236), WHOLE),
];

// The data part, a function with its words, and how the call ends.
const CALLS: &[(&[u8], HostName, &[u64], HostEnd)] = &[
    // numbers
    (
        b" -2147483648x\0",
        HostName::Atoi,
        &[DATA],
        HostEnd::Value(0xffff_ffff_8000_0000),
    ),
    (
        b"\t\n\x0b\x0c\r 2147483647\0",
        HostName::Atoi,
        &[DATA],
        HostEnd::Value(2_147_483_647),
    ),
    (b"2147483648\0", HostName::Atoi, &[DATA], HostEnd::Undefined),
    (
        b"-2147483649\0",
        HostName::Atoi,
        &[DATA],
        HostEnd::Undefined,
    ),
    (
        b"99999999999999999999999\0",
        HostName::Atoi,
        &[DATA],
        HostEnd::Undefined,
    ),
    (b"\0", HostName::Atoi, &[DATA], HostEnd::Value(0)),
    (b"-\0", HostName::Atoi, &[DATA], HostEnd::Value(0)),
    (b"+x\0", HostName::Atoi, &[DATA], HostEnd::Value(0)),
    (b"+-5\0", HostName::Atoi, &[DATA], HostEnd::Value(0)),
    (b"+7\0", HostName::Atoi, &[DATA], HostEnd::Value(7)),
    (b"12x", HostName::Atoi, &[DATA], HostEnd::Value(12)),
    (b"", HostName::Atoi, &[DATA], HostEnd::Undefined),
    // strings
    (b"12x", HostName::Strlen, &[DATA], HostEnd::Undefined),
    (b"ab\0", HostName::Strlen, &[DATA], HostEnd::Value(2)),
    (
        b"ab\0abc\0",
        HostName::Strcmp,
        &[DATA, DATA + 3],
        HostEnd::Value(MINUS),
    ),
    (
        b"abc\0ab\0",
        HostName::Strcmp,
        &[DATA, DATA + 4],
        HostEnd::Value(1),
    ),
    (
        b"ab\0ab\0",
        HostName::Strcmp,
        &[DATA, DATA + 3],
        HostEnd::Value(0),
    ),
    (
        b"\x80\0a\0",
        HostName::Strcmp,
        &[DATA, DATA + 2],
        HostEnd::Value(1),
    ),
    (
        b"13\x0012x",
        HostName::Strcmp,
        &[DATA, DATA + 3],
        HostEnd::Value(1),
    ),
    (b"hello\0", HostName::Puts, &[DATA], HostEnd::Value(6)),
    (b"12x", HostName::Puts, &[DATA], HostEnd::Undefined),
    (b"x\0", HostName::Printf, &[DATA], HostEnd::Undefined),
    // ranges
    (
        b"abcdef\0",
        HostName::Memcpy,
        &[DATA + 2, DATA, 4],
        HostEnd::Undefined,
    ),
    (
        b"abcdefgh",
        HostName::Memcpy,
        &[DATA, DATA, 1],
        HostEnd::Undefined,
    ),
    (b"\0", HostName::Memcpy, &[0, 0, 0], HostEnd::Value(0)),
    (
        b"abcdefgh",
        HostName::Memcpy,
        &[DATA + 4, DATA, 4],
        HostEnd::Value(DATA + 4),
    ),
    (
        b"abcdefgh",
        HostName::Memcpy,
        &[DATA, MINUS, 2],
        HostEnd::Undefined,
    ),
    (b"\0", HostName::Memset, &[5, 1, 0], HostEnd::Value(5)),
    (
        b"12x",
        HostName::Memset,
        &[DATA + 2, 1, 1],
        HostEnd::Value(DATA + 2),
    ),
    (
        b"12x",
        HostName::Memset,
        &[DATA + 2, 1, 2],
        HostEnd::Undefined,
    ),
    (b"\0", HostName::Memset, &[MINUS, 1, 2], HostEnd::Undefined),
    // sizes, and ends of programs
    (b"", HostName::Malloc, &[0x40_0000], HostEnd::Value(HEAP)),
    (b"", HostName::Malloc, &[0x40_0001], HostEnd::Value(0)),
    (b"", HostName::Malloc, &[MINUS], HostEnd::Value(0)),
    (b"", HostName::Calloc, &[1 << 63, 2], HostEnd::Value(0)),
    (b"", HostName::Calloc, &[3, 8], HostEnd::Value(HEAP)),
    (b"", HostName::Calloc, &[3], HostEnd::Undefined),
    (b"", HostName::Free, &[5, 6], HostEnd::Value(0)),
    (b"", HostName::Free, &[], HostEnd::Undefined),
    (b"", HostName::Putchar, &[0x1ff], HostEnd::Value(255)),
    (b"", HostName::Exit, &[300], HostEnd::Exit(44)),
    (b"", HostName::Exit, &[], HostEnd::Undefined),
    (b"", HostName::Abort, &[], HostEnd::Exit(134)),
];

// A function with its words, what it answers, and how much of the heap is allocated after it.
type Turn = (HostName, &'static [u64], u64, u64);

// Calls after which the words of the heap are those below: what `calloc` allocates is zero, and the bytes after that it rounds up to stay.
const ZEROES: &[Turn] = &[
    (HostName::Calloc, &[5, 4], HEAP, 0x20),
    (HostName::Calloc, &[0, 9], HEAP + 0x20, 0x30),
];

// Calls that hand the heap out, and write what was put there.
const HANDED_OUT: &[Turn] = &[
    (HostName::Malloc, &[1], HEAP, 0x10),
    (HostName::Malloc, &[4_194_304], 0, 0x10),
    (HostName::Malloc, &[0], HEAP + 0x10, 0x20),
    (HostName::Calloc, &[5, 4], HEAP + 0x20, 0x40),
    (HostName::Free, &[HEAP + 0x20], 0, 0x40),
    (HostName::Calloc, &[0, 9], HEAP + 0x40, 0x50),
    (
        HostName::Memset,
        &[HEAP + 0x20, 0x141, 3],
        HEAP + 0x20,
        0x50,
    ),
    (
        HostName::Memcpy,
        &[HEAP + 0x30, HEAP + 0x21, 4],
        HEAP + 0x30,
        0x50,
    ),
    (HostName::Puts, &[HEAP + 0x30], 3, 0x50),
    (HostName::Putchar, &[HEAP + 0x42], 0x42, 0x50),
];

// Words of 4 bytes of the heap, by their places there.
const ZEROED: &[(u64, u64)] = &[(0x10, 0), (0x14, 0xffff_ffff), (0x20, 0xffff_ffff)];

// A function with its words, and whether it may have further ones.
type Call<'a> = (HostName, &'a [u64], bool);

// Whether a call over this data part, with this write that fails, ends so and writes so, where that is asked.
fn ends(
    alloc: Global,
    data: &[u8],
    fails: u64,
    (name, words, is_variadic): Call<'_>,
    wanted: (HostEnd, Option<&[Piece]>),
) -> Result<bool, OutOfMemory> {
    if data.len() > 1024 {
        return Ok(false);
    }
    let mut memory = Memory::with_parts(alloc, data, &[0; 8])?;
    let mut out = MemorySink::new(alloc, 8192, &[fails])?;
    let end = call(
        name,
        words,
        is_variadic,
        &mut memory,
        &mut HeapMark::new(),
        &mut out,
    );
    Ok(end == wanted.0 && is_written(out.bytes(), wanted.1))
}

// Returns whether these bytes are written, where that is asked.
fn is_written(bytes: &[u8], wanted: Option<&[Piece]>) -> bool {
    match wanted {
        Some(pieces) => are_of(bytes, pieces),
        None => true,
    }
}

// Whether a call of `printf` ends so and prints this.
fn prints(
    alloc: Global,
    (data, fails): (&[u8], u64),
    words: &[u64],
    end: HostEnd,
    text: &[Piece],
) -> Result<bool, OutOfMemory> {
    ends(
        alloc,
        data,
        fails,
        (HostName::Printf, words, true),
        (end, Some(text)),
    )
}

// Whether the formats print what they should.
fn are_printed(alloc: Global) -> Result<bool, OutOfMemory> {
    for (data, words, length, text) in PRINTED {
        if !prints(alloc, (data, 0), words, HostEnd::Value(*length), text)? {
            return Ok(false);
        }
    }
    Ok(true)
}

// Whether none of the other formats is defined, or prints something.
fn are_undefined(alloc: Global) -> Result<bool, OutOfMemory> {
    for format in OTHER_FORMATS {
        if !prints(alloc, (format, 0), &[DATA, 1, 0], HostEnd::Undefined, &[])? {
            return Ok(false);
        }
    }
    Ok(true)
}

// Whether the long format ends at each write that fails.
fn is_cut(alloc: Global) -> Result<bool, OutOfMemory> {
    for (write, end, text) in CUT {
        if !prints(alloc, (LONG, *write), LONG_WORDS, *end, text)? {
            return Ok(false);
        }
    }
    Ok(true)
}

// The same of all of these.
fn are_formats_right(alloc: Global) -> Result<bool, OutOfMemory> {
    Ok(are_printed(alloc)? && are_undefined(alloc)? && is_cut(alloc)?)
}

#[test]
fn prints_what_c_prints(rt: HostRuntime) -> Result<(), Fail> {
    assert!(rt; are_formats_right(rt.alloc())?);
    Ok(())
}

// Returns whether the functions, called one after another over one memory and one heap, answer so.
fn are_answered(memory: &mut Memory, out: &mut MemorySink, turns: &[Turn]) -> bool {
    let mut heap = HeapMark::new();
    for (name, words, wanted, handed) in turns {
        let end = call(*name, words, false, memory, &mut heap, out);
        if end != HostEnd::Value(*wanted) || heap.mark() != HEAP.wrapping_add(*handed) {
            return false;
        }
    }
    true
}

// Returns whether the heap holds these words.
fn holds(memory: &Memory, words: &[(u64, u64)]) -> bool {
    for (place, wanted) in words {
        if memory.load(HEAP.wrapping_add(*place), 4) != Some(*wanted) {
            return false;
        }
    }
    true
}

// Returns whether the heap is allocated so, zeroed as it should be, and what is put there is written.
fn is_handed_out(memory: &mut Memory, out: &mut MemorySink) -> bool {
    for place in 0..64 {
        memory.put(HEAP + place, 0xff);
    }
    are_answered(memory, out, ZEROES)
        && holds(memory, ZEROED)
        && are_answered(memory, out, HANDED_OUT)
        && out.bytes() == b"AA\nB".as_slice()
}

fn is_heap_handed_out(alloc: Global) -> Result<bool, OutOfMemory> {
    let mut memory = Memory::new(alloc, 16, 8)?;
    let mut out = MemorySink::new(alloc, 64, &[])?;
    Ok(is_handed_out(&mut memory, &mut out))
}

// Whether the calls end as they should.
fn end_so(alloc: Global) -> Result<bool, OutOfMemory> {
    for (data, name, words, end) in CALLS {
        if !ends(alloc, data, 0, (*name, words, false), (*end, None))? {
            return Ok(false);
        }
    }
    Ok(true)
}

// The same, and whether the heap is allocated.
fn are_calls_right(alloc: Global) -> Result<bool, OutOfMemory> {
    Ok(end_so(alloc)? && is_heap_handed_out(alloc)?)
}

#[test]
fn answers_as_the_table_says(rt: HostRuntime) -> Result<(), Fail> {
    assert!(rt; are_calls_right(rt.alloc())?);
    Ok(())
}
