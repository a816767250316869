// Calls of a function from outside.

ghost use Rattle.std.specs.Prelude.{◌≤◌, length, IfOk};
ghost use Rattle.lg_base.specs.Layout.{most_code};
ghost use Rattle.lg_tst.specs.Answers.{IsWhole};

use crate::passes::unit_of;
use lg_asm::{Code, assemble_with};
use lg_base::{ArgImage, OutOfMemory, Stop, Target};
use lg_cpu::{Cpu, CpuStep};
use lg_io::MemorySink;
use lg_node::{Label, Unit, check};
use std::alloc::Global;

// A function that returns the sum of two words. Its label is the only one.
const SUM: &str =
    "sum: prolog arg $a arg $b getarg %r0 $a getarg %r1 $b addr %r0 %r0 %r1 retr %r0 epilog\n";

// The most steps of a call.
const MOST_STEPS: u64 = 1_000_000;

// The most steps after which another call is made.
const MANY_STEPS: u64 = 1_000_000_000_000;

// Returns the code of the function for a target.
fn sum_code(alloc: Global, unit: &Unit, target: Target) -> Result<Code, Stop>
    requires { IsWhole unit.now }
    ensures { IfOk result (λ c. length c.bytes ≤ most_code) }
{
    let shape = check(alloc, unit)?;
    assemble_with(alloc, unit, &shape, target, 4096, &[Label(0)])
}

// Returns the word that the function at an address returns for two words, where it returns one.
fn sum(cpu: &mut Cpu, address: u64, words: [u64; 2], out: &mut MemorySink) -> Option<u64> {
    if !cpu.enter(address, &words) || cpu.steps() > MANY_STEPS {
        return None;
    }
    match cpu.run(MOST_STEPS, out) {
        CpuStep::Ended(_) => Some(cpu.result()),
        _ => None,
    }
}

// Adds the numbers below one by calls of the function.
fn sum_below(cpu: &mut Cpu, address: u64, end: u32, out: &mut MemorySink) -> Option<u64> {
    let mut total = 0;
    for number in 0..end {
        total = sum(cpu, address, [total, u64::from(number)], out)?;
    }
    Some(total)
}

// Returns a processor at the start of code, whose registers all hold 0.
fn processor_of(alloc: Global, code: &Code, unit: &Unit) -> Result<Cpu, OutOfMemory>
    requires whole { IsWhole unit.now }
    requires code { length code.now.bytes ≤ most_code }
{
    let args = ArgImage::of(alloc, &[0; 16])?;
    Cpu::new(alloc, code.target(), code.bytes(), &unit.image, &args, 0)
}

// Returns the address of the function.
fn address_of(code: &Code) -> u64 {
    code.labels().as_slice().first().copied().unwrap_or(0)
}

// Adds the numbers below one on the code of the unit; 0 where a call returns no word.
fn sum_on(alloc: Global, unit: &Unit, code: &Code, end: u32) -> Result<u64, OutOfMemory>
    requires whole { IsWhole unit.now }
    requires code { length code.now.bytes ≤ most_code }
{
    let mut cpu = processor_of(alloc, code, unit)?;
    let mut out = MemorySink::new(alloc, 0, &[])?;
    Ok(sum_below(&mut cpu, address_of(code), end, &mut out).unwrap_or(0))
}

// The same on the code for a target.
fn sum_for(alloc: Global, unit: &Unit, end: u32, target: Target) -> Result<u64, Stop>
    requires { IsWhole unit.now }
{
    let code = sum_code(alloc, unit, target)?;
    match sum_on(alloc, unit, &code, end) {
        Ok(sum) => Ok(sum),
        Err(_) => Err(Stop::OutOfMemory),
    }
}

// Returns the text. Which one it is is of no use to proofs.
fn text() -> &'static str {
    SUM
}

/// Adds the numbers below one by calls of a function of code for a target, one call for each, and returns their sum; 0 where a call returns no word.
pub fn call_sum(alloc: Global, end: u32, target: Target) -> Result<u64, Stop> {
    match unit_of(alloc, text().as_bytes()) {
        Ok(unit) => sum_for(alloc, &unit, end, target),
        Err(stop) => Err(stop),
    }
}
