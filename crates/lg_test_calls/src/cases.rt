// Makes the calls of the cases in `data/cases`. `files.txt` has the name of a file a line. A line of four equal signs is in front of each case of a file
// (src/cases/case.rt says what a case has), and what is in front of the first is what a line `HEAD` of a text denotes. Prints for each call that is not right
// its outcome, and for each file how many calls are right, and how many lines they write as they should.

pub mod case;
pub mod unfolded;

use crate::call::{Called, call_on_files, call_on_text};
use crate::outcome::{Outcome, Wanted, outcome_of, same_lines};
use case::{Case, parse_case, words_after};
use lg_base::OutOfMemory;
use lg_run::status;
use lg_tally::count;
use std::io::Input;
use std::rt::Files;
use std::{fs, io};
use unfolded::unfolded;

// Returns the outcome of a call of a case, with these options in front of its own words.
fn call_of(
    rt: &(impl Files + Input + AllocGlobal),
    options: &str,
    case: Case<'_>,
    text: &[u8],
) -> Result<Called, OutOfMemory> {
    let words = words_after(rt.alloc(), options, case)?;
    if case.is_of_files() {
        call_on_files(rt, &words, case.faults.room)
    } else {
        call_on_text(rt.alloc(), &words, (case.name, text), case.faults)
    }
}

/// Returns the outcome of a call of a case in a mode on a target, with the statistics.
pub fn call_in(
    rt: &(impl Files + Input + AllocGlobal),
    mode: &str,
    target: &str,
    case: Case<'_>,
    text: &[u8],
) -> Result<Called, OutOfMemory> {
    let options = format!(in rt.alloc(); "--mode {mode} --stats --target {target}")?;
    call_of(rt, options.as_str(), case, text)
}

// What a case should write: what is there, or what its meaning writes.
fn output_of(
    rt: &(impl Files + Input + AllocGlobal),
    case: Case<'_>,
    text: &[u8],
) -> Result<Vec<u8>, OutOfMemory> {
    if case.output == "MEANING" {
        let meant = call_of(rt, "--mode mean", case, text)?;
        Ok(Vec::from_slice(rt.alloc(), meant.out.bytes())?)
    } else {
        Ok(unfolded(rt.alloc(), "", case.output)?)
    }
}

// What is found where a call of a case should write so, and how many lines it writes as it should.
fn compared(case: Case<'_>, called: &Called, output: &[u8]) -> (Outcome, usize) {
    let wanted = Wanted {
        output,
        lines: case.lines.as_bytes(),
        status: case.status,
    };
    let written = called.out.bytes();
    let outcome = outcome_of(wanted, written, called.err.bytes(), status(&called.answer));
    (outcome, same_lines(written, output))
}

// The same of a call of a case over this text, with these options in front of its own words.
fn text_outcome(
    rt: &(impl Files + Input + AllocGlobal),
    options: &str,
    case: Case<'_>,
    text: &[u8],
) -> Result<(Outcome, usize), OutOfMemory> {
    let output = output_of(rt, case, text)?;
    let called = call_of(rt, options, case, text)?;
    Ok(compared(case, &called, &output))
}

// The same over the text of the case.
fn case_outcome(
    rt: &(impl Files + Input + AllocGlobal),
    head: &str,
    options: &str,
    case: Case<'_>,
) -> Result<(Outcome, usize), OutOfMemory> {
    let text = unfolded(rt.alloc(), head, case.text)?;
    text_outcome(rt, options, case, &text)
}

// What was found: how many calls are right, how many are not, and how many lines are written as they should be.
#[derive(Drop)]
struct Found {
    right: u64,
    wrong: u64,
    lines: usize,
}

// Makes the calls of a case.
fn make_calls(rt: &HostRuntime, head: &str, case: Case<'_>, found: &mut Found) -> io::Result<()> {
    for options in case.ways() {
        match case_outcome(rt, head, options, case).unwrap_or((Outcome::HasNoMemory, 0)) {
            (Outcome::IsRight, lines) => {
                count(&mut found.right);
                found.lines = found.lines.saturating_add(lines);
            }
            (outcome, lines) => {
                count(&mut found.wrong);
                println!(rt; "{} {options}: {outcome} behind {lines} lines", case.name)?;
            }
        }
    }
    Ok(())
}

/// Returns the head of a file, and its cases.
pub fn head_and_cases(file: &str) -> (&str, &str) {
    file.split_once("====\n").unwrap_or((file, ""))
}

// Makes the calls of a file's cases, and returns whether all are right.
fn make_file(rt: &HostRuntime, name: &str, file: &str) -> io::Result<bool> {
    let (head, cases) = head_and_cases(file);
    let mut found = Found {
        right: 0,
        wrong: 0,
        lines: 0,
    };
    for block in cases.split("====\n") {
        match parse_case(block) {
            Some(case) => make_calls(rt, head, case, &mut found)?,
            None => count(&mut found.wrong),
        }
    }
    let Found {
        right,
        wrong,
        lines,
    } = found;
    println!(rt; "{name}: {right} right, {wrong} wrong, {lines} lines")?;
    Ok(wrong == 0)
}

/// Returns a file of cases by its name.
pub fn file_of(rt: &(impl Files + AllocGlobal), name: &str) -> io::Result<String> {
    fs::read_to_string(rt, format!(in rt.alloc(); "cases/{name}.txt")?)
}

// Makes the calls of the file of a name, and returns whether all are right.
fn make_named(rt: &HostRuntime, name: &str) -> io::Result<bool> {
    let file = file_of(rt, name)?;
    make_file(rt, name, file.as_str())
}

/// Makes the calls of all files, prints their outcomes, and returns whether all are right.
pub fn make_cases(rt: &HostRuntime) -> io::Result<bool> {
    let files = file_of(rt, "files")?;
    let mut all = true;
    for name in files.as_str().lines() {
        if !make_named(rt, name)? {
            all = false;
        }
    }
    Ok(all)
}
