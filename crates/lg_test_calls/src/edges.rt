// What no case of a table has: texts beside the one that is asked for, a line that no call here reaches, the labels of code, and all beginnings of a text.

use crate::call::{NO_FAULTS, call_on, code_on_text, words_of};
use crate::tally::{LISTED, REFUSED, Tally, count_call};
use crate::texts::{first_letter, kept_registers, wrapped_sum};
use lg_base::OutOfMemory;
use lg_io::{MemorySink, MemoryTexts, Texts};
use lg_run::top::report_words;
use lg_run::{Answer, status};
use std::alloc::Global;
use std::{fs, io};

// Three texts, whose second call fails.
fn three_texts(alloc: Global) -> Result<MemoryTexts, OutOfMemory> {
    let mut texts = MemoryTexts::new(alloc, &[2])?;
    texts.add("other.tst", first_letter())?;
    texts.add("t.tst", kept_registers())?;
    texts.add("third.tst", wrapped_sum())?;
    Ok(texts)
}

// Whether a call on these texts results in this.
fn comes_to(
    alloc: Global,
    words: &Vec<String>,
    texts: &mut MemoryTexts,
    wanted: (u8, &[u8], &[u8]),
) -> Result<bool, OutOfMemory> {
    let called = call_on(alloc, words, texts, NO_FAULTS)?;
    Ok(
        (
            status(&called.answer),
            called.out.bytes(),
            called.err.bytes(),
        ) == wanted,
    )
}

// Whether no piece of a text that was selected before is read as the text that is asked for, whose selection fails; and whether the same call again
// finds its text.
fn are_their_own(
    alloc: Global,
    words: &Vec<String>,
    texts: &mut MemoryTexts,
) -> Result<bool, OutOfMemory> {
    let is_selected = texts.select("other.tst").is_ok();
    let fails = comes_to(alloc, words, texts, (123, b"", b"lightning: read fault\n"))?;
    let runs = comes_to(alloc, words, texts, (0, b"Hi!\n", b""))?;
    Ok(is_selected && fails && runs)
}

// The same of the three texts.
fn reads_its_own(alloc: Global, words: &Vec<String>) -> Result<bool, OutOfMemory> {
    let mut texts = three_texts(alloc)?;
    are_their_own(alloc, words, &mut texts)
}

// Whether running out of memory has its line and status.
fn tells_want_of_memory(alloc: Global) -> Result<bool, OutOfMemory> {
    let mut err = MemorySink::new(alloc, 64, &[])?;
    let answer = report_words(Answer::OutOfMemory, &mut err);
    Ok((status(&answer), err.bytes()) == (127, b"lightning: out of memory\n"))
}

// A data part with three labels, and their addresses.
const LABELS: &[u8] = b".data 16 a: .c 1 b: .align 8 c: .code prolog ret epilog";

const ADDRESSES: &[u64] = &[0x2000_0000, 0x2000_0001, 0x2000_0008];

// Whether code has the addresses of the labels of its data part.
fn gives_labels(alloc: Global, words: &Vec<String>) -> Result<bool, OutOfMemory> {
    match code_on_text(alloc, words, LABELS)? {
        Some(assembled) => Ok(assembled.code.labels().as_slice() == ADDRESSES),
        None => Ok(false),
    }
}

// Returns the outcomes of the calls that list each beginning of a text.
fn list_beginnings(alloc: Global, text: &[u8]) -> Result<Tally, OutOfMemory> {
    let words = words_of(alloc, "lightning --mode list t.tst", "")?;
    let mut tally = Tally::new();
    for length in 0..text.len() {
        count_call(alloc, &words, &text[..length], &mut tally)?;
    }
    Ok(tally)
}

// Prints whether something is so.
fn tell(rt: &HostRuntime, what: &str, holds: Result<bool, OutOfMemory>) -> io::Result<()> {
    println!(rt; "{what}: {}", holds.unwrap_or(false))
}

// Makes the calls with these words, and prints their outcomes.
fn try_words(rt: &HostRuntime, words: &Vec<String>) -> io::Result<()> {
    let alloc = rt.alloc();
    tell(rt, "no other text is read", reads_its_own(alloc, words))?;
    tell(rt, "want of memory is told", tells_want_of_memory(alloc))?;
    tell(
        rt,
        "labels of data have their addresses",
        gives_labels(alloc, words),
    )
}

/// Makes the calls, and prints their outcomes.
pub fn try_edges(rt: &HostRuntime) -> io::Result<()> {
    match words_of(rt.alloc(), "lightning t.tst", "") {
        Ok(words) => try_words(rt, &words),
        Err(_) => println!(rt; "out of memory"),
    }
}

// Prints whether this many beginnings are all listed or refused, and else their outcomes.
fn print_beginnings(rt: &HostRuntime, beginnings: usize, tally: &Tally) -> io::Result<()> {
    let told = tally.answers[LISTED].wrapping_add(tally.answers[REFUSED]);
    if told == beginnings as u64 && tally.odd == 0 {
        println!(rt; "each beginning of nfibs.tst is listed or refused")
    } else {
        tally.print(rt)
    }
}

/// Lists each beginning of a text, and prints its outcome.
pub fn try_beginnings(rt: &HostRuntime) -> io::Result<()> {
    let text = fs::read(rt, "examples/nfibs.tst")?;
    let tally = list_beginnings(rt.alloc(), &text).unwrap_or(Tally::new());
    print_beginnings(rt, text.len(), &tally)
}
