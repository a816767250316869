// Calls with ample memory, faults in mid-stream, and the edge to real files.

use lg_base::OutOfMemory;
use lg_io::{
    Digits, MemorySink, MemoryTexts, Radix, Sink, SinkFault, StdSink, StdTexts, TextFault, Texts,
    write_all, write_parts,
};
use std::alloc::Global;
use std::io::{Input, Write};
use std::rt::Files;
use std::test::Fail;
use std::{fs, io};

const WRITTEN: &str = "lg_io_written.txt";

// What is asked of texts, with the answer: a text is selected, or this many bytes are read, after which the slice is as given, if that is not empty.
type Turn<'a> = (&'a str, Result<usize, TextFault>, &'a [u8]);

// Makes the turns one after the other, with a slice to read into, and returns whether each is answered so. A turn without a name reads.
fn turns_are<T: Texts>(texts: &mut T, into: &mut [u8], turns: &[Turn<'_>]) -> bool {
    for (name, wanted, bytes) in turns {
        let answer = match *name {
            "" => texts.read(into),
            name => selected(texts, name),
        };
        if answer != *wanted || !(bytes.is_empty() || *into == **bytes) {
            return false;
        }
    }
    true
}

// Selects a text; 0 where it is selected.
fn selected<T: Texts>(texts: &mut T, name: &str) -> Result<usize, TextFault> {
    texts.select(name)?;
    Ok(0)
}

// Before a text is selected, and at a text that is not there, which counts as a fault.
const WITHOUT_TEXT: &[Turn<'static>] = &[
    ("", Ok(0), b""),
    ("lg_io_absent.txt", Err(TextFault::Failed), b""),
];

const WRITTEN_IS_READ: &[Turn<'static>] = &[
    (WRITTEN, Ok(0), b""),
    ("", Ok(4), b"one "),
    ("", Ok(3), b"two "),
    ("", Ok(0), b""),
    ("-", Ok(0), b""),
];

// Writes the file, in three parts one of which is empty.
fn is_written(rt: &impl Files) -> io::Result<bool> {
    let mut sink = StdSink::new(fs::create(rt, WRITTEN)?);
    let is_done = write_parts(&mut sink, &[b"one ", b"", b"two"]).is_ok();
    Ok(is_done && sink.faults() == 0)
}

fn is_read<R: Files + Input>(texts: &mut StdTexts<'_, R>) -> bool {
    let mut into = [0u8; 4];
    turns_are(texts, &mut into, WITHOUT_TEXT)
        && texts.faults() == 1
        && turns_are(texts, &mut into, WRITTEN_IS_READ)
        && texts.faults() == 1
}

// Returns whether the file is read back.
fn is_read_back(rt: &(impl Files + Input)) -> bool {
    let mut texts = StdTexts::new(rt);
    is_read(&mut texts)
}

#[test]
fn writes_a_file_and_reads_it_back(rt: HostRuntime) -> Result<(), Fail> {
    assert!(rt; is_written(&rt)?);
    assert!(rt; is_read_back(&rt));
    fs::remove_file(&rt, WRITTEN)?;
    Ok(())
}

// A writer that takes two bytes, then none, and then fails.
#[derive(Drop)]
struct Tired {
    calls: u8,
}

impl Write for Tired {
    fn write(&mut self, bytes: &[u8]) -> io::Result<usize> {
        self.calls = self.calls.saturating_add(1);
        match self.calls {
            1 => Ok(bytes.len().min(2)),
            2 => Ok(0),
            _ => Err(io::Error::from(io::ErrorKind::Other)),
        }
    }

    fn flush(&mut self) -> io::Result<()> {
        Ok(())
    }
}

// Returns whether each write that fails is counted.
fn are_faults_counted(sink: &mut StdSink<Tired>) -> bool {
    write_all(sink, b"abc") == Err(SinkFault::Failed)
        && sink.faults() == 1
        && sink.write(b"c") == Err(SinkFault::Failed)
        && sink.faults() == 2
}

fn is_writer_watched() -> bool {
    let mut sink = StdSink::new(Tired { calls: 0 });
    are_faults_counted(&mut sink)
}

// Texts the first of which with the name `a` is read, and calls that fail: the fourth and the sixth.
const MEMORY_IS_READ: &[Turn<'static>] = &[
    ("b", Err(TextFault::Failed), b""),
    ("a", Ok(0), b""),
    ("", Ok(3), b"fir"),
    ("", Err(TextFault::Failed), b""),
    ("", Ok(2), b"str"),
    ("a", Err(TextFault::Failed), b""),
    ("", Ok(0), b""),
];

fn are_added_and_read(texts: &mut MemoryTexts) -> Result<bool, OutOfMemory> {
    texts.add("a", b"first")?;
    texts.add("a", b"second")?;
    Ok(turns_are(texts, &mut [0u8; 3], MEMORY_IS_READ) && texts.faults() == 3)
}

fn are_texts_read(alloc: Global) -> Result<bool, OutOfMemory> {
    let mut texts = MemoryTexts::new(alloc, &[4, 6])?;
    are_added_and_read(&mut texts)
}

// Returns whether a sink with room for 5 bytes, whose second write fails, takes what it can.
fn is_filled(sink: &mut MemorySink) -> bool {
    sink.write(b"ab") == Ok(2)
        && sink.write(b"cd") == Err(SinkFault::Failed)
        && write_parts(sink, &[b"c", b"def"]) == Err(SinkFault::Failed)
        && sink.bytes() == b"abcde".as_slice()
        && sink.faults() == 2
}

fn is_sink_filled(alloc: Global) -> Result<bool, OutOfMemory> {
    let mut sink = MemorySink::new(alloc, 5, &[2])?;
    Ok(is_filled(&mut sink))
}

// Numbers with their digits.
const DIGITS: &[(u64, Radix, &[u8])] = &[
    (0, Radix::Decimal, b"0"),
    (u64::MAX, Radix::Decimal, b"18446744073709551615"),
    (u64::MAX, Radix::Octal, b"1777777777777777777777"),
    (0xab_cdef, Radix::Hexadecimal, b"abcdef"),
    (0x19, Radix::UpperHexadecimal, b"19"),
    (0xfa, Radix::UpperHexadecimal, b"FA"),
];

fn are_digits() -> bool {
    for (number, radix, digits) in DIGITS {
        if Digits::of(*number, *radix).as_slice() != *digits {
            return false;
        }
    }
    true
}

// Whether texts and sinks of memory, a writer that tires, and digits are as they should be.
fn are_right(alloc: Global) -> Result<bool, OutOfMemory> {
    let are_sinks = is_writer_watched() && is_sink_filled(alloc)?;
    Ok(are_sinks && are_texts_read(alloc)? && are_digits())
}

#[test]
fn reads_writes_and_counts_faults(rt: HostRuntime) -> Result<(), Fail> {
    assert!(rt; are_right(rt.alloc())?);
    Ok(())
}
