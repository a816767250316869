// What comes of a line on a whole program.

use crate::case::{Program, parse_program};
use crate::check::DATA;
use crate::processor::{ARGS, CODE, run, set_code, zeros};
use crate::steps::name_of;
use lg_base::{ArgImage, OutOfMemory};
use lg_cpu::{Cpu, CpuStep};
use lg_tally::Outcome;
use std::alloc::{AllocError, Global};

/// What comes of a line on a program, which runs on the processor as a new one.
pub fn program_outcome(alloc: Global, cpu: &mut Cpu, line: &str) -> Result<Outcome, OutOfMemory> {
    let Some(Program { hex, most, outcome }) = parse_program(line) else {
        return Ok(Outcome::unread(alloc)?);
    };
    if !begin(alloc, cpu, hex)? {
        return Ok(Outcome::unread(alloc)?);
    }
    let answer = run(alloc, cpu, most)?;
    Ok(compared(alloc, cpu, answer, outcome)?)
}

// Makes the processor as a new one with this code and the argument part of one word, where the digits are code.
fn begin(alloc: Global, cpu: &mut Cpu, hex: &str) -> Result<bool, OutOfMemory> {
    let is_code = set_code(alloc, cpu, CODE, hex)?;
    let image = zeros(alloc, DATA)?;
    let args = ArgImage::of(alloc, &ARGS)?;
    Ok(cpu.again(&image, &args) && is_code)
}

// How a run ended, beside how it should.
fn compared(
    alloc: Global,
    cpu: &Cpu,
    answer: CpuStep,
    wanted: &str,
) -> Result<Outcome, AllocError> {
    let mut text = String::new(alloc);
    write_outcome(&mut text, cpu, answer)?;
    if text.as_str() == wanted {
        Ok(Outcome::Agrees)
    } else {
        Ok(Outcome::Differs(text))
    }
}

// how a run ends, as the evidence writes it
fn write_end(text: &mut String, answer: CpuStep) -> Result<(), AllocError> {
    let name = name_of(answer);
    match answer {
        CpuStep::Ended(status) => write!(text, "{name} {status}"),
        CpuStep::Fault(_) => write!(text, "Fault {name}"),
        CpuStep::Went | CpuStep::WriteFault => text.push_str(name),
    }
}

// and after how many steps, and where
fn write_outcome(text: &mut String, cpu: &Cpu, answer: CpuStep) -> Result<(), AllocError> {
    write_end(text, answer)?;
    write!(text, " steps={} pc={:x}", cpu.steps(), cpu.pc())
}
