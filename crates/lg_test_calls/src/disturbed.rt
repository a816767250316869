// Runs code whose stack is disturbed between any two instructions, as by a signal: what lies below the stack pointer and the target's zone is written over
// before each step.

ghost use Rattle.std.specs.Prelude.{◌<◌, ◌≤◌, length, IfOk, IsTrue};
ghost use Rattle.lg_base.specs.Arguments.{most_args};
ghost use Rattle.lg_base.specs.Layout.{most_code};
ghost use Rattle.lg_tst.specs.Answers.{IsWhole};

use crate::call::{code_on_text, words_of};
use crate::held::{Assembled, Parsed, start};
use lg_asm::Code;
use lg_base::{ArgImage, OutOfMemory, Stop, args_image};
use lg_cpu::{Cpu, CpuStep};
use lg_io::MemorySink;
use lg_node::Unit;
use lg_pre::expand;
use lg_tst::parse;
use std::alloc::Global;

// The most bytes of a text.
const MOST_TEXT: usize = 16_777_216;

// The most bytes of code, and of a data part.
const MOST_CODE: u32 = 1_048_576;

const MOST_DATA: u32 = 16_777_216;

/// What registers hold at first. Code runs the same whatever it is.
pub(crate) const ANYTHING: u64 = 0x5A5A_5A5A_5A5A_5A5A;

/// The most steps of a run.
pub(crate) const MOST_STEPS: u32 = 200_000;

// How many words are written over: 512 bytes.
const WORDS: u64 = 64;

/// Room for what a run writes, in bytes.
pub(crate) const ROOM: usize = 1_048_576;

/// Returns the unit of a text of at most 16,777,216 bytes.
pub(crate) fn unit_of(alloc: Global, text: &[u8]) -> Result<Parsed, Stop>
    ensures { IfOk result (λ parsed. IsWhole parsed.unit) }
{
    if text.len() > MOST_TEXT {
        return Err(Stop::OutOfMemory);
    }
    let expanded = expand(alloc, text)?;
    let unit = parse(alloc, expanded.as_slice())?;
    Ok(Parsed { unit })
}

// Returns the words of a call that takes one step of a text's code for a target.
fn step_words(alloc: Global, target: &str) -> Result<Vec<String>, OutOfMemory> {
    let line = format!(in alloc; "lightning --steps 1 --target {target} t.tst")?;
    words_of(alloc, line.as_str(), "")
}

/// Returns the code of a text for a target, by such a call.
pub(crate) fn code_of(alloc: Global, target: &str, text: &[u8]) -> Result<Assembled, Stop> {
    let words = step_words(alloc, target)?;
    code_on_text(alloc, &words, text)?.ok_or(Stop::OutOfMemory)
}

/// Returns whether code and a data part fit the memory.
pub(crate) fn fit(code: &Code, unit: &Unit) -> bool
    ensures { IsTrue result → (length code.now.bytes ≤ most_code) × (length unit.now.image ≤ 0x1000000) }
{
    code.bytes().len() <= MOST_CODE && unit.image.len() <= MOST_DATA
}

// A target's stack: the number of its pointer's register, and how many bytes below it count.
#[derive(Clone, Copy)]
struct Stack {
    pointer: u8,
    zone: u64,
}

// Where the stack of a target is, by its word.
fn stack_of(word: &str) -> Stack
    ensures { result.pointer < 32 }
{
    let (pointer, zone) = match word {
        "x86_64" => (4, 128),
        "aarch64" => (31, 0),
        _ => (2, 0),
    };
    Stack { pointer, zone }
}

// What a run wrote, and its last step's answer: `Went` where the most steps were taken.
struct Ran {
    out: MemorySink,
    end: CpuStep,
}

impl Drop for Ran {
    fn drop(self) {
        let Ran { out: _out, end: _ } = self;
    }
}

// Writes over what lies below the stack pointer and its zone, as far as there is memory.
fn disturb(cpu: &mut Cpu, stack: Stack)
    requires { stack.pointer < 32 }
{
    let top = cpu.register(stack.pointer).wrapping_sub(stack.zone);
    for word in 0..WORDS {
        let below = 8u64.wrapping_mul(word.wrapping_add(1));
        cpu.store(top.wrapping_sub(below), 8, ANYTHING.wrapping_add(below));
    }
}

// Takes the steps of a run, before each of which the stack is disturbed, where it is to be, until it answers something else than that it goes on.
fn run(cpu: &mut Cpu, stack: Stack, disturbs: bool, out: &mut MemorySink) -> CpuStep
    requires { stack.pointer < 32 }
{
    for _ in 0..MOST_STEPS {
        if disturbs {
            disturb(cpu, stack);
        }
        if cpu.steps() == u64::MAX {
            return CpuStep::Went;
        }
        match cpu.step(out) {
            CpuStep::Went => {}
            over => return over,
        }
    }
    CpuStep::Went
}

// Runs code from a new processor on, with words after the text's name, whose stack is disturbed or not.
fn run_anew(
    alloc: Global,
    code: &Code,
    unit: &Unit,
    further: &str,
    stack: Stack,
    disturbs: bool,
) -> Result<Ran, Stop>
    requires { stack.pointer < 32 }
{
    let mut out = MemorySink::new(alloc, ROOM, &[])?;
    let mut started = start(alloc, code, unit, further)?;
    let end = run(&mut started.cpu, stack, disturbs, &mut out);
    Ok(Ran { out, end })
}

// Whether two runs of code, one of which is disturbed, write the same and end in the same way.
fn run_alike(
    alloc: Global,
    code: &Code,
    unit: &Unit,
    further: &str,
    stack: Stack,
) -> Result<bool, Stop>
    requires { stack.pointer < 32 }
{
    let still = run_anew(alloc, code, unit, further, stack, false)?;
    let disturbed = run_anew(alloc, code, unit, further, stack, true)?;
    Ok(still.end == disturbed.end && still.out.bytes() == disturbed.out.bytes())
}

/// Returns the argument part of a text with these words after its name, with bars between.
pub(crate) fn args_of(alloc: Global, further: &str) -> Result<ArgImage, Stop>
    ensures { IfOk result (λ args. length args ≤ most_args) }
{
    let words = words_of(alloc, "t.tst", further)?;
    if words.is_empty() {
        return Err(Stop::OutOfMemory);
    }
    args_image(alloc, &words)
}

// Whether the code of a text for a target runs alike with words after its name, over the text's unit.
fn unit_runs_alike(
    alloc: Global,
    target: &str,
    text: &[u8],
    unit: &Unit,
    further: &str,
) -> Result<bool, Stop> {
    let assembled = code_of(alloc, target, text)?;
    run_alike(alloc, &assembled.code, unit, further, stack_of(target))
}

/// Whether the code of a text for a target, with words after its name, writes the same bytes and ends in the same way where its stack is disturbed as where
/// it is not.
pub fn is_alike(alloc: Global, target: &str, text: &[u8], further: &str) -> Result<bool, Stop> {
    let parsed = unit_of(alloc, text)?;
    unit_runs_alike(alloc, target, text, &parsed.unit, further)
}
