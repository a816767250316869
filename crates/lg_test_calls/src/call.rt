// Calls of the program. What the top call promises is for proofs, and of no use here: so one function makes it, and passes on its outcome.

use crate::held::Assembled;
use lg_base::OutOfMemory;
use lg_io::{MemorySink, MemoryTexts, Sink, StdTexts, Texts};
use lg_run::{Answer, Done, lightning};
use std::alloc::{AllocError, Global};
use std::io::Input;
use std::rt::Files;

/// The room for lines on the standard error, and for an output that names no other.
pub const ROOM: usize = 65_536;

// Appends the words of a line, which has this character between them.
fn push_words(
    alloc: Global,
    words: &mut Vec<String>,
    line: &str,
    between: char,
) -> Result<(), AllocError> {
    for word in line.split(between) {
        if !word.is_empty() {
            words.push(String::from_str(alloc, word)?)?;
        }
    }
    Ok(())
}

/// Returns the words of a line, with blanks between them, and after them those of another, with bars between.
pub fn words_of(alloc: Global, line: &str, further: &str) -> Result<Vec<String>, OutOfMemory> {
    let mut words = Vec::new(alloc);
    push_words(alloc, &mut words, line, ' ')?;
    push_words(alloc, &mut words, further, '|')?;
    Ok(words)
}

/// The outcome of a call: its answer, and what it wrote to both outputs.
pub struct Called {
    pub answer: Answer,
    pub out: MemorySink,
    pub err: MemorySink,
}

impl Drop for Called {
    fn drop(self) {
        let Called {
            answer: _,
            out: _out,
            err: _err,
        } = self;
    }
}

// The outcome of a call over texts: every call here is made by it. What the top call promises is quick to prove of any texts and sinks.
fn done_on<T: Texts, O: Sink, E: Sink>(
    alloc: Global,
    words: &Vec<String>,
    texts: &mut T,
    out: &mut O,
    err: &mut E,
) -> Done {
    lightning(alloc, words, texts, out, err)
}

// The answer of what is done.
fn answer_of(done: Done) -> Answer {
    done.answer
}

// The code of what is done, where it made any.
fn code_in(done: Done) -> Option<Assembled> {
    match done.code {
        Some(code) => Some(Assembled { code }),
        None => None,
    }
}

// The answer of a call over texts.
fn answer_on<T: Texts>(
    alloc: Global,
    words: &Vec<String>,
    texts: &mut T,
    out: &mut MemorySink,
    err: &mut MemorySink,
) -> Answer {
    answer_of(done_on(alloc, words, texts, out, err))
}

/// Calls that fail, by their numbers from 1 on, or 0 for none: of the texts, of the standard output and of the standard error; and how many bytes the
/// standard output takes.
#[derive(Clone, Copy)]
pub struct Faults {
    pub read: u64,
    pub write: u64,
    pub line: u64,
    pub room: usize,
}

/// Nothing fails.
pub const NO_FAULTS: Faults = Faults {
    read: 0,
    write: 0,
    line: 0,
    room: ROOM,
};

/// The outcome of a call over texts, where these calls of the sinks fail.
pub fn call_on<T: Texts>(
    alloc: Global,
    words: &Vec<String>,
    texts: &mut T,
    faults: Faults,
) -> Result<Called, OutOfMemory> {
    let mut out = MemorySink::new(alloc, faults.room, &[faults.write])?;
    let mut err = MemorySink::new(alloc, ROOM, &[faults.line])?;
    let answer = answer_on(alloc, words, texts, &mut out, &mut err);
    Ok(Called { answer, out, err })
}

/// Returns the outcome of a call over the real files, with this much room for its output.
pub fn call_on_files(
    rt: &(impl Files + Input + AllocGlobal),
    words: &Vec<String>,
    room: usize,
) -> Result<Called, OutOfMemory> {
    let mut texts = StdTexts::new(rt);
    let faults = Faults {
        read: 0,
        write: 0,
        line: 0,
        room,
    };
    call_on(rt.alloc(), words, &mut texts, faults)
}

// One text in memory, by its name, whose call of this number fails.
fn texts_of(
    alloc: Global,
    (name, text): (&str, &[u8]),
    fails: u64,
) -> Result<MemoryTexts, OutOfMemory> {
    let mut texts = MemoryTexts::new(alloc, &[fails])?;
    texts.add(name, text)?;
    Ok(texts)
}

/// Returns the outcome of a call over one text in memory, by its name.
pub fn call_on_text(
    alloc: Global,
    words: &Vec<String>,
    text: (&str, &[u8]),
    faults: Faults,
) -> Result<Called, OutOfMemory> {
    let mut texts = texts_of(alloc, text, faults.read)?;
    call_on(alloc, words, &mut texts, faults)
}

// The code of a call over texts, where it makes any.
fn code_on<T: Texts>(
    alloc: Global,
    words: &Vec<String>,
    texts: &mut T,
) -> Result<Option<Assembled>, OutOfMemory> {
    let mut out = MemorySink::new(alloc, ROOM, &[])?;
    let mut err = MemorySink::new(alloc, ROOM, &[])?;
    Ok(code_in(done_on(alloc, words, texts, &mut out, &mut err)))
}

/// Returns the code of a call over the text `t.tst`, where it makes any.
pub(crate) fn code_on_text(
    alloc: Global,
    words: &Vec<String>,
    text: &[u8],
) -> Result<Option<Assembled>, OutOfMemory> {
    let mut texts = texts_of(alloc, ("t.tst", text), 0)?;
    code_on(alloc, words, &mut texts)
}
