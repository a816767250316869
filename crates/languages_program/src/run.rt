// Code on a processor.

ghost use Rattle.std.specs.Prelude.{◌≡◌, ◌<◌, ◌≤◌, length, IfOk};
ghost use Rattle.lg_base.specs.Arguments.{most_args};
ghost use Rattle.lg_base.specs.Layout.{most_code};
ghost use Rattle.lg_cpu.specs.Machines.{shown};

use lg_asm::Code;
use lg_base::{ArgImage, DataImage, OutOfMemory, Stop, args_image};
use lg_cpu::{Cpu, CpuStep};
use lg_io::MemorySink;
use std::alloc::Global;

// What registers hold at first. Code runs the same whatever it is.
const ANYTHING: u64 = 0x5A5A_5A5A_5A5A_5A5A;

// The most steps. A text that goes on for ever is not waited for.
const MOST_STEPS: u64 = 1_000_000;

// Returns the words of a run: a name, and the argument.
fn words_of(alloc: Global, argument: &str) -> Result<Vec<String>, OutOfMemory>
    ensures { IfOk result (λ words. 0 < length words.items) }
{
    let mut words = Vec::new(alloc);
    words.push(String::from_str(alloc, "program")?)?;
    words.push(String::from_str(alloc, argument)?)?;
    Ok(words)
}

/// Returns the argument part of a run.
pub fn args_of(alloc: Global, argument: &str) -> Result<ArgImage, Stop>
    ensures { IfOk result (λ args. length args ≤ most_args) }
{
    let words = words_of(alloc, argument)?;
    args_image(alloc, &words)
}

// A processor before its first step: that of the last run of this code, where its memory has room, else a new one.
fn processor_for(
    alloc: Global,
    code: &Code,
    image: &DataImage,
    args: &ArgImage,
    last: Option<Cpu>,
) -> Result<Cpu, OutOfMemory>
    requires code { length code.now.bytes ≤ most_code }
    requires image { length image.now ≤ 0x1000000 }
    requires args { length args.now ≤ most_args }
    ensures { IfOk result (λ c. (shown c).steps ≡ 0) }
{
    if let Some(mut cpu) = last {
        if cpu.again(image, args) {
            return Ok(cpu);
        }
    }
    Cpu::new(alloc, code.target(), code.bytes(), image, args, ANYTHING)
}

/// Runs code with an argument: its last step's answer, `Went` where the most steps were taken. `last` is the processor of the last run of this code, and of
/// this one after it.
pub fn run(
    alloc: Global,
    code: &Code,
    image: &DataImage,
    argument: &str,
    last: &mut Option<Cpu>,
    out: &mut MemorySink,
) -> Result<CpuStep, Stop>
    requires code { length code.now.bytes ≤ most_code }
    requires image { length image.now ≤ 0x1000000 }
{
    let args = args_of(alloc, argument)?;
    let mut cpu = processor_for(alloc, code, image, &args, last.take())?;
    let end = cpu.run(MOST_STEPS, out);
    *last = Some(cpu);
    Ok(end)
}
