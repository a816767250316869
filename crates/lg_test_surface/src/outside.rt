// lg_io and lg_host: texts, sinks, and the functions of the host.

use lg_base::{HostName, Memory, OutOfMemory};
use lg_host::{HeapMark, HostEnd, call};
use lg_io::{
    MemorySink, MemoryTexts, Sink, SinkFault, StdSink, StdTexts, TextFault, Texts, write_all,
};
use std::alloc::Global;
use std::io;
use std::io::{Input, Write};
use std::rt::Files;
use std::test::Fail;

// Texts through the trait.
fn are_read<T: Texts>(texts: &mut T, name: &str) -> bool {
    let selected: Result<(), TextFault> = texts.select(name);
    let mut into = [0u8; 2];
    let read: Result<usize, TextFault> = texts.read(&mut into);
    selected == Ok(()) && read == Ok(2) && into == *b"ab"
}

fn are_texts_right(alloc: Global) -> Result<bool, OutOfMemory> {
    let mut texts: MemoryTexts = MemoryTexts::new(alloc, &[])?;
    let added: Result<(), OutOfMemory> = texts.add("t", b"ab");
    Ok(added == Ok(()) && are_read(&mut texts, "t"))
}

// A sink through the trait.
fn are_written<O: Sink>(sink: &mut O) -> bool {
    let written: Result<usize, SinkFault> = sink.write(b"a");
    let all: Result<(), SinkFault> = write_all(sink, b"bc");
    written == Ok(1) && all == Ok(())
}

fn is_sink_right(alloc: Global) -> Result<bool, OutOfMemory> {
    let mut sink: MemorySink = MemorySink::new(alloc, 8, &[])?;
    Ok(are_written(&mut sink) && sink.bytes() == b"abc".as_slice())
}

// Texts that are files, of which there is none of this name.
fn are_files_asked<R: Files + Input>(rt: &R) -> bool {
    let mut texts: StdTexts<'_, R> = StdTexts::new(rt);
    texts.select("lg_test_surface_absent.tst") == Err(TextFault::Failed)
}

// A writer that takes everything.
#[derive(Drop)]
struct Taker;

impl Write for Taker {
    fn write(&mut self, bytes: &[u8]) -> io::Result<usize> {
        Ok(bytes.len())
    }

    fn flush(&mut self) -> io::Result<()> {
        Ok(())
    }
}

// A writer's sink.
fn is_writer_asked<W: Write + Drop>(writer: W) -> bool {
    let mut sink: StdSink<W> = StdSink::new(writer);
    are_written(&mut sink)
}

// A call of a host function.
fn is_call_right(memory: &mut Memory, out: &mut MemorySink) -> bool {
    let mut heap: HeapMark = HeapMark::new();
    let end: HostEnd = call(HostName::Malloc, &[16], false, memory, &mut heap, out);
    let mark: u64 = heap.mark();
    end == HostEnd::Value(0x3000_0000) && mark == 0x3000_0010
}

fn is_host_right(alloc: Global) -> Result<bool, OutOfMemory> {
    let mut memory = Memory::new(alloc, 0, 0)?;
    let mut out = MemorySink::new(alloc, 0, &[])?;
    Ok(is_call_right(&mut memory, &mut out))
}

#[test]
fn calls_lg_io_and_lg_host(rt: HostRuntime) -> Result<(), Fail> {
    assert!(rt; are_texts_right(rt.alloc())? && is_sink_right(rt.alloc())?);
    assert!(rt; are_files_asked(&rt) && is_writer_asked(Taker));
    assert!(rt; is_host_right(rt.alloc())?);
    Ok(())
}
