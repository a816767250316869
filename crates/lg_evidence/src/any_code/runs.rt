// Runs over bytes, from a state that is set anew for each.

ghost use Rattle.std.specs.Prelude.{◌≤◌, length};

use super::bytes::{MOST, any, changed};
use super::seeds::seed;
use super::tally::Tally;
use crate::processor::{ARGS, CODE, processor, step, steps};
use lg_base::{CodeBytes, OutOfMemory, Target};
use lg_cpu::{Cpu, CpuStep};
use lg_io::MemorySink;
use lg_tally::{Random, count};
use std::alloc::Global;

// how many runs are made over any bytes, and as many over changed code
const RUNS: u32 = 10_000;

// the most steps of a run
const STEPS: u64 = 1000;

// the first address of the data part, and the highest word of the stack
const DATA: u64 = 0x2000_0000;

const TOP: u64 = 0x3fff_fff8;

/// What the runs on a target came to: how many came to what, the steps that they took, a sum that depends on where each stopped, and in
/// how many an answer changed when it was asked for again.
#[derive(Drop)]
pub struct Outcome {
    pub tally: Tally,
    pub steps: u64,
    pub sum: u64,
    pub changed: u64,
}

// The registers, and the word at the top of the stack, before a first step.
#[derive(Drop)]
struct Start {
    registers: [u64; 32],
    top: u64,
}

impl Start {
    fn of(cpu: &Cpu) -> Start {
        let mut registers = [0; 32];
        for number in 0..32u8 {
            registers[number as usize] = cpu.register(number);
        }
        Start {
            registers,
            top: cpu.load(TOP, 8).unwrap_or(0),
        }
    }

    // Sets the registers and the word as they were.
    fn set(&self, cpu: &mut Cpu) {
        for number in 0..32u8 {
            cpu.set_register(number, self.registers[number as usize]);
        }
        cpu.store(TOP, 8, self.top);
    }
}

// A word that is an address of the data part or of the stack, or small, or any.
fn operand(random: &mut Random) -> u64 {
    let word = random.word();
    match word >> 62 {
        0 => DATA + word % 128,
        1 => TOP - word % 1024,
        2 => word % 256,
        _ => word,
    }
}

// Sets every register to such a word.
fn set_operands(cpu: &mut Cpu, random: &mut Random) {
    for number in 0..32u8 {
        cpu.set_register(number, operand(random));
    }
}

// Returns whether ten more calls answer the same, at the same place.
fn stays(cpu: &mut Cpu, out: &mut MemorySink, answer: CpuStep) -> bool {
    let (pc, steps) = (cpu.pc(), cpu.steps());
    for _ in 0..10 {
        if step(cpu, out) != answer || (cpu.pc(), cpu.steps()) != (pc, steps) {
            return false;
        }
    }
    true
}

impl Outcome {
    // No runs.
    fn new() -> Outcome {
        Outcome {
            tally: Tally::new(),
            steps: 0,
            sum: 0,
            changed: 0,
        }
    }

    // Runs these bytes from their first on, and counts their outcomes.
    fn add(&mut self, alloc: Global, cpu: &mut Cpu, code: &[u8]) -> Result<(), OutOfMemory>
        requires { length code.now ≤ 64 }
    {
        cpu.set_code(CodeBytes::of(alloc, code)?);
        let mut out = MemorySink::new(alloc, 64, &[])?;
        self.go(cpu, &mut out);
        Ok(())
    }

    // Makes a run from the first byte of the code on, and counts its outcome.
    fn go(&mut self, cpu: &mut Cpu, out: &mut MemorySink) {
        cpu.set_pc(CODE);
        let before = cpu.steps();
        let answer = steps(cpu, out, STEPS);
        self.tally.count(answer);
        self.steps = self.steps.wrapping_add(cpu.steps().wrapping_sub(before));
        self.sum = self.sum.wrapping_mul(31).wrapping_add(cpu.pc());
        if answer != CpuStep::Went && !stays(cpu, out, answer) {
            count(&mut self.changed);
        }
    }

    // Runs any bytes, with operands in the registers.
    fn add_any(
        &mut self,
        alloc: Global,
        cpu: &mut Cpu,
        start: &Start,
        random: &mut Random,
    ) -> Result<(), OutOfMemory> {
        for _ in 0..RUNS {
            start.set(cpu);
            set_operands(cpu, random);
            let bytes = any(random);
            let len = random.below(MOST + 1);
            self.add(alloc, cpu, &bytes[..len])?;
        }
        Ok(())
    }

    // Runs changed code, from the start's registers.
    fn add_changed(
        &mut self,
        alloc: Global,
        cpu: &mut Cpu,
        start: &Start,
        target: Target,
        random: &mut Random,
    ) -> Result<(), OutOfMemory> {
        for round in 0..RUNS {
            start.set(cpu);
            let bytes = changed(random, seed(target, round % 2 == 1));
            self.add(alloc, cpu, &bytes)?;
        }
        Ok(())
    }
}

// Makes the runs of a target on its processor.
fn run_on(alloc: Global, cpu: &mut Cpu, target: Target) -> Result<Outcome, OutOfMemory> {
    let start = Start::of(cpu);
    let mut random = Random { state: 1 };
    let mut outcome = Outcome::new();
    outcome.add_any(alloc, cpu, &start, &mut random)?;
    outcome.add_changed(alloc, cpu, &start, target, &mut random)?;
    Ok(outcome)
}

/// Makes the runs of a target: over any bytes with operands in the registers, and over changed code from the start's registers.
pub fn run_target(alloc: Global, target: Target) -> Result<Outcome, OutOfMemory> {
    let mut cpu = processor(alloc, target, 64, &ARGS)?;
    run_on(alloc, &mut cpu, target)
}
