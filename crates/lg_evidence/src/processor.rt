// The processor that lines and buffers are tried on.

ghost use Rattle.std.specs.Prelude.{◌<◌, length, IfOk};

use crate::case::code_of;
use lg_base::{ArgImage, CodeBytes, DataImage, OutOfMemory, Target};
use lg_cpu::{Cpu, CpuStep};
use lg_io::MemorySink;
use std::alloc::{AllocError, Global};
use std::io;

/// The word that registers hold which nothing has set.
pub const TRASH: u64 = 0x5a5a_5a5a_5a5a_5a5a;

/// The first address of code.
pub const CODE: u64 = 0x1000_0000;

/// The argument part of the one word `-`: a pointer to it, a word of 0, and the string.
pub const ARGS: [u8; 18] = [16, 0, 0, 0x28, 0, 0, 0, 0, 0, 0, 0, 0, 0, 0, 0, 0, b'-', 0];

// the most bytes of code
const MOST_CODE: usize = 65_536;

// the most bytes in front of the first program counter
const MOST_FRONT: u64 = 4_096;

/// Returns a data part of this many zero bytes.
pub fn zeros(alloc: Global, size: usize) -> Result<DataImage, OutOfMemory>
    requires { size < 65537 }
    ensures { IfOk result (λ image. length image < 65537) }
{
    let zeros = vec![in alloc; 0u8; size]?;
    Ok(DataImage::from_vec(zeros))
}

/// Returns a processor of a target, with a data part of this many zero bytes and this argument part, and without code.
pub fn processor(
    alloc: Global,
    target: Target,
    size: usize,
    args: &[u8],
) -> Result<Cpu, OutOfMemory>
    requires size { size < 65537 }
    requires args { length args.now < 65537 }
{
    let code = CodeBytes::of(alloc, &[])?;
    let image = zeros(alloc, size)?;
    let args = ArgImage::of(alloc, args)?;
    Cpu::new(alloc, target, &code, &image, &args, TRASH)
}

/// Makes the code end with the bytes of hexadecimal digits, the first of which is at an address, and returns whether that can be.
pub fn set_code(alloc: Global, cpu: &mut Cpu, at: u64, hex: &str) -> Result<bool, AllocError> {
    if at < CODE || at - CODE > MOST_FRONT {
        return Ok(false);
    }
    match code_of(alloc, (at - CODE) as usize, hex)? {
        Some(bytes) if bytes.len() <= MOST_CODE => {
            cpu.set_code(CodeBytes::from_vec(bytes));
            Ok(true)
        }
        _ => Ok(false),
    }
}

/// Returns what a check ends with where memory could not be had.
pub fn out_of_memory() -> io::Error {
    io::Error::from(io::ErrorKind::OutOfMemory)
}

/// Takes one step, where the processor can count it.
pub fn step(cpu: &mut Cpu, out: &mut MemorySink) -> CpuStep {
    if cpu.steps() < u64::MAX {
        cpu.step(out)
    } else {
        CpuStep::Went
    }
}

/// Takes at most this many steps, until one gives something else than that it goes on, and says what the last one resulted in.
#[inline(never)]
pub fn steps(cpu: &mut Cpu, out: &mut MemorySink, most: u64) -> CpuStep {
    for _ in 0..most {
        let answer = step(cpu, out);
        if answer != CpuStep::Went {
            return answer;
        }
    }
    CpuStep::Went
}

/// The same, with room for 65,536 bytes of output.
pub fn run(alloc: Global, cpu: &mut Cpu, most: u64) -> Result<CpuStep, OutOfMemory> {
    let mut out = MemorySink::new(alloc, 65_536, &[])?;
    Ok(steps(cpu, &mut out, most))
}
