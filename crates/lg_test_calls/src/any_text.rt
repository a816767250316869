// Runs any bytes as a text: 20,000 texts that are made of those that `texts.txt` names, each changed at one to four places by a fixed generator, go through
// the program's top call, in turn on each target and in each mode that reads a text, with at most 1,000 steps. Each gives an answer by name, with a line on
// the standard error exactly where the answer has one. Prints how many calls came to what, and of the refused ones how many to which kind.

mod changes;

use crate::call::words_of;
use crate::tally::{Tally, count_call};
use changes::changed;
use lg_base::OutOfMemory;
use lg_tally::Random;
use std::alloc::Global;
use std::{fs, io};

// How many calls are made.
const CALLS: usize = 20_000;

const TARGETS: [&str; 3] = ["x86_64", "aarch64", "riscv64"];

const MODES: [&str; 4] = ["run", "mean", "run", "list"];

// Returns the text of a name.
fn text_of(rt: &HostRuntime, name: &str) -> io::Result<Vec<u8>> {
    fs::read(rt, format!(in rt.alloc(); "{name}.tst")?)
}

// Returns the texts that a list names.
fn texts_of(rt: &HostRuntime, list: &str) -> io::Result<Vec<Vec<u8>>> {
    let mut texts = Vec::new(rt.alloc());
    for name in list.lines() {
        texts.push(text_of(rt, name)?)?;
    }
    Ok(texts)
}

// Returns the words of a call.
fn words_in(alloc: Global, target: &str, mode: &str) -> Result<Vec<String>, OutOfMemory> {
    let line = format!(in alloc; "lightning --target {target} --mode {mode} --steps 1000 t.tst 7")?;
    words_of(alloc, line.as_str(), "")
}

// Makes a call on a text that is changed first, and counts its outcome.
fn call_changed(
    alloc: Global,
    round: usize,
    text: &[u8],
    random: &mut Random,
    tally: &mut Tally,
) -> Result<(), OutOfMemory> {
    let words = words_in(alloc, TARGETS[round % 3], MODES[round / 3 % 4])?;
    let text = changed(alloc, text, random)?;
    count_call(alloc, &words, &text, tally)
}

// Returns the outcomes of the calls, in turn on each text, target and mode.
fn tally_of(alloc: Global, texts: &[Vec<u8>]) -> Result<Tally, OutOfMemory> {
    let mut random = Random { state: 1 };
    let mut tally = Tally::new();
    if texts.is_empty() {
        return Ok(tally);
    }
    for round in 0..CALLS {
        let text = &texts[round % texts.len()];
        call_changed(alloc, round, text, &mut random, &mut tally)?;
    }
    Ok(tally)
}

/// Makes the calls, and prints what they came to.
pub fn change_texts(rt: &HostRuntime) -> io::Result<()> {
    let list = fs::read_to_string(rt, "any_text/texts.txt")?;
    let texts = texts_of(rt, list.as_str())?;
    match tally_of(rt.alloc(), &texts) {
        Ok(tally) => tally.print(rt),
        Err(_) => println!(rt; "out of memory"),
    }
}
