// The checks of whole files.

ghost use Rattle.std.specs.Prelude.{◌≡◌, ◌↔◌, ◌++◌, ℕ, List, length, IsTrue, string_bytes};
ghost use Rattle.lg_evidence.specs.Found.{IsAsWanted};

use crate::processor::{out_of_memory, processor};
use crate::programs::program_outcome;
use crate::steps::step_outcome;
use crate::table::{Found, find};
use crate::vector::{Spelled, bytes_of, parse_refused, parse_spelled};
use lg_base::{OutOfMemory, Piece, Target};
use lg_cpu::Cpu;
use lg_tally::{Counts, Outcome};
use std::alloc::{AllocError, Global};
use std::rt::Files;
use std::{fs, io};

/// How many bytes the data part has.
pub const DATA: usize = 65_536;

// the length of the argument part
const ARGS_LEN: usize = 4_096;

// the address of the word that a run of x86-64 begins with on its stack
const RETURN: u64 = 0x3fff_fff8;

/// What the lines of a file are.
#[derive(Clone, Copy)]
pub enum Lines {
    /// Encodings. The bytes, with others after them, must be read as the instruction that the line names, which must be encoded as
    /// the bytes again.
    Spelled,
    /// Bytes that are no instruction. The bytes, which stand alone, must be read as none.
    Refused,
    /// Runs of few steps.
    Steps,
    /// Whole programs.
    Programs,
}

/// A file of evidence: its name, the target that it is of, and what its lines are.
pub type Evidence = (&'static str, Target, Lines);

/// Checks a file.
pub fn check_file(rt: &(impl Files + Print + AllocGlobal), evidence: &Evidence) -> io::Result<()> {
    let text = fs::read_to_string(rt, evidence.0)?;
    check_text(rt, evidence, text.as_str())
}

// Checks the lines of a file, on one processor, which is set up anew for each line that runs.
fn check_text(rt: &(impl Print + AllocGlobal), evidence: &Evidence, text: &str) -> io::Result<()> {
    match processor(rt.alloc(), evidence.1, DATA, &[0; ARGS_LEN]) {
        Ok(mut cpu) => {
            cpu.store(RETURN, 8, 0);
            check_lines(rt, evidence, text, &mut cpu)
        }
        Err(OutOfMemory) => Err(out_of_memory()),
    }
}

fn check_lines(
    rt: &(impl Print + AllocGlobal),
    evidence: &Evidence,
    text: &str,
    cpu: &mut Cpu,
) -> io::Result<()> {
    let mut counts = Counts::new();
    for line in text.lines() {
        match outcome_of(rt.alloc(), evidence, cpu, line) {
            Ok(outcome) => counts.take(rt, evidence.0, line, &outcome)?,
            Err(OutOfMemory) => return Err(out_of_memory()),
        }
    }
    counts.print(rt, evidence.0)
}

// What comes of a line.
fn outcome_of(
    alloc: Global,
    evidence: &Evidence,
    cpu: &mut Cpu,
    line: &str,
) -> Result<Outcome, OutOfMemory> {
    let target = evidence.1;
    match evidence.2 {
        Lines::Spelled => Ok(spelled_outcome(alloc, target, line)?),
        Lines::Refused => Ok(refused_outcome(alloc, target, line)?),
        Lines::Steps => step_outcome(alloc, target, cpu, line),
        Lines::Programs => program_outcome(alloc, cpu, line),
    }
}

fn spelled_outcome(alloc: Global, target: Target, line: &str) -> Result<Outcome, AllocError> {
    let Some(Spelled { hex, operation }) = parse_spelled(line) else {
        return Outcome::unread(alloc);
    };
    match bytes_of(hex) {
        Some(bytes) => found_outcome(alloc, target, operation, &bytes),
        None => Outcome::unread(alloc),
    }
}

// What comes of bytes that should be an operation.
fn found_outcome(
    alloc: Global,
    target: Target,
    operation: &str,
    bytes: &Piece,
) -> Result<Outcome, AllocError> {
    match find(alloc, target, &followed(bytes))? {
        Some(found) => compared(alloc, &found, operation, bytes),
        None => Ok(Outcome::Differs(String::from_str(alloc, "no instruction")?)),
    }
}

fn compared(
    alloc: Global,
    found: &Found,
    operation: &str,
    bytes: &Piece,
) -> Result<Outcome, AllocError> {
    if is_as_wanted(found, operation, bytes) {
        Ok(Outcome::Agrees)
    } else {
        differing(alloc, found)
    }
}

// whether what was found is the operation that is looked for, of these bytes and no others
fn is_as_wanted(found: &Found, operation: &str, bytes: &Piece) -> bool
    ensures { IsTrue result ↔ IsAsWanted found.now operation.now bytes.now }
{
    found.operation.as_str() == operation
        && found.length as usize == bytes.as_slice().len()
        && found.spelling.as_slice() == bytes.as_slice()
}

// What comes of bytes that should be no instruction.
fn refused_outcome(alloc: Global, target: Target, line: &str) -> Result<Outcome, AllocError> {
    let Some(bytes) = parse_refused(line) else {
        return Outcome::unread(alloc);
    };
    match find(alloc, target, bytes.as_slice())? {
        None => Ok(Outcome::Agrees),
        Some(found) => differing(alloc, &found),
    }
}

fn differing(alloc: Global, found: &Found) -> Result<Outcome, AllocError> {
    let mut text = String::new(alloc);
    write_found(&mut text, found)?;
    Ok(Outcome::Differs(text))
}

fn write_found(text: &mut String, found: &Found) -> Result<(), AllocError> {
    write!(text, "{} in {} bytes, ", found.operation, found.length)?;
    for byte in found.spelling.as_slice() {
        write!(text, "{byte:02x}")?;
    }
    Ok(())
}

// the bytes with others after them
fn followed(bytes: &Piece) -> [u8; 24]
    ensures { (more : List ℕ) × (result ≡ bytes.now ++ more) }
{
    let mut all = [0xff; 24];
    let front = bytes.as_slice();
    all[..front.len()].copy_from_slice(front);
    all
}
