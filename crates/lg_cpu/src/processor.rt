// The processor of a target.

ghost use Rattle.std.specs.Prelude.{◌≡◌, ◌<◌, ◌≤◌, ◌⊎◌, ◌+◌, ◌-◌, ◌^◌, ◌↔◌, length, IfOk, IsTrue, if◌then◌else◌, nat_lt};

use crate::aarch64::Aarch64;
use crate::answer::CpuStep;
use crate::board::Board;
use crate::decode_cache::DecodeCache;
use crate::riscv64::Riscv64;
use crate::series::{Advanced, advance, step};
use crate::x86_64::X86_64;
use lg_base::{CodeBytes, Flags, OutOfMemory, Target};
use lg_io::Sink;
use std::alloc::Global;

/// A processor with what it works on.
#[derive(Drop)]
pub enum Processor {
    /// x86-64.
    X86_64(X86_64),
    /// AArch64.
    Aarch64(Aarch64),
    /// RV64IM.
    Riscv64(Riscv64),
}

impl Processor {
    ghost use Rattle.std.specs.Prelude.{true};
    ghost use Rattle.lg_base.specs.Layout.{return_word, stack_end};
    ghost use Rattle.lg_base.specs.Parts.{byte_at};
    ghost use Rattle.lg_base.specs.Spaces.{loaded, mapped, stored};
    ghost use Rattle.lg_base.specs.declared.target.Target.{Target};
    ghost use Rattle.lg_cpu.specs.Answers.{answer_of};
    ghost use Rattle.lg_cpu.specs.Steps.{arrived};
    ghost use Rattle.lg_cpu.specs.Targets.{begins, reads, register_count, has_flags};
    ghost use Rattle.lg_cpu.specs.Machines.{inner, inner_of, with_start, begun, effect_in, with_state, with_register, with_flags, with_bytes, StepSays, shown_of};
    ghost use Rattle.lg_cpu.specs.LineCounts.{Adds, MayAdd};
    ghost use Rattle.lg_cpu.specs.Series.{Advances, going_on, run_from};
    ghost use Rattle.lg_cpu.specs.Starts.{HasRoom};

    /// Returns the processor of a target before its first step, with the number of arguments.
    pub fn new(
        alloc: Global,
        target: Target,
        code: &[u8],
        board: Board,
        count: u64,
    ) -> Result<Processor, OutOfMemory>
        requires code { length code.now < 2 ^ 32 }
        requires stack { mapped (byte_at board.memory) (return_word stack_end) 8 ≡ true }
        ensures { IfOk result (λ p. inner p ≡ inner_of target (begins target count board.trash (byte_at board.memory) board.heap) code.now board) }
    {
        match target {
            Target::X86_64 => Ok(Processor::X86_64(X86_64::new(
                DecodeCache::new(alloc, code)?,
                board,
                count,
            ))),
            Target::Aarch64 => Ok(Processor::Aarch64(Aarch64::new(
                DecodeCache::new(alloc, code)?,
                board,
                count,
            ))),
            Target::Riscv64 => Ok(Processor::Riscv64(Riscv64::new(
                DecodeCache::new(alloc, code)?,
                board,
                count,
            ))),
        }
    }

    /// Puts a data part and an argument part into the memory and zeros elsewhere, and nothing of the heap is allocated; takes no
    /// memory. False exactly where one of them is longer than the part in memory is now, and then nothing changes.
    pub fn renew(&mut self, image: &[u8], args: &[u8]) -> bool
        ensures done { IsTrue result ↔ HasRoom (inner self.old).state.bytes image.now args.now }
        ensures changed { inner self.new ≡ (if result then with_start (inner self.old) image.now args.now else inner self.old) }
    {
        match self {
            Processor::X86_64(p) => p.board.again(image, args),
            Processor::Aarch64(p) => p.board.again(image, args),
            Processor::Riscv64(p) => p.board.again(image, args),
        }
    }

    /// Is before the first step again, with the number of arguments, over the memory that it has.
    pub fn begin(&mut self, count: u64)
        requires stack { mapped (inner self.old).state.bytes (return_word stack_end) 8 ≡ true }
        ensures { inner self.new ≡ begun (inner self.old) count }
    {
        match self {
            Processor::X86_64(p) => p.begin(count),
            Processor::Aarch64(p) => p.begin(count),
            Processor::Riscv64(p) => p.begin(count),
        }
    }

    /// Takes one step, whether the run is over or not.
    #[inline(always)]
    pub fn step<O: Sink>(&mut self, out: &mut O) -> CpuStep
        ensures says { StepSays (effect_in (inner self.old)) (inner self.old) (inner self.new)
            (O.taken out.old) (O.taken out.new) (O.faults out.old) (O.faults out.new) result }
        ensures later { O.faults out.old ≤ O.faults out.new }
    {
        match self {
            Processor::X86_64(p) => step(p, out),
            Processor::Aarch64(p) => step(p, out),
            Processor::Riscv64(p) => step(p, out),
        }
    }

    /// Takes steps of a run that has taken this many, until one gives another answer than `Went`, and at most this many more, and adds those that went or ended
    /// to the numbers of their lines, where there are any.
    pub fn run<O: Sink>(
        &mut self,
        steps: u64,
        most: u64,
        lines: &[u32],
        counts: &mut [u64],
        out: &mut O,
    ) -> Advanced
        requires few { steps + most < 2 ^ 64 }
        requires may { MayAdd lines.now most counts.old }
        ensures says { Advances (going_on (inner self.old) steps) (shown_of (inner self.new) result.answer result.steps) most
            (O.taken out.old) (O.taken out.new) (O.faults out.old) (O.faults out.new) result.answer }
        ensures later { O.faults out.old ≤ O.faults out.new }
        ensures counts { Adds lines.now (run_from (going_on (inner self.old) steps)) (result.steps - steps) counts.old counts.new }
    {
        match self {
            Processor::X86_64(p) => advance(p, steps, most, lines, counts, out),
            Processor::Aarch64(p) => advance(p, steps, most, lines, counts, out),
            Processor::Riscv64(p) => advance(p, steps, most, lines, counts, out),
        }
    }

    /// Returns the program counter.
    #[inline(always)]
    pub fn pc(&self) -> u64
        ensures { result ≡ (inner self.now).state.pc }
    {
        match self {
            Processor::X86_64(p) => p.pc,
            Processor::Aarch64(p) => p.pc,
            Processor::Riscv64(p) => p.pc,
        }
    }

    /// Returns what a register reads as. Its number is below 32.
    pub fn read(&self, number: u8) -> u64
        requires { number < 32 }
        ensures { result ≡ reads (inner self.now).fixed.target (inner self.now).state.registers number }
    {
        match self {
            Processor::X86_64(p) => p.register(number),
            Processor::Aarch64(p) => p.registers[number as usize],
            Processor::Riscv64(p) => p.read(number),
        }
    }

    /// Sets a register, the number of which is below 32, where the processor has one of the number, and changes nothing else. Register 0 of
    /// RV64 reads as 0 all the same.
    pub fn set_register(&mut self, number: u8, value: u64)
        requires { number < 32 }
        ensures { inner self.new ≡ (
            if nat_lt number (register_count (inner self.old).fixed.target)
            then with_state (inner self.old) (with_register (inner self.old).state number value)
            else inner self.old) }
    {
        match self {
            Processor::X86_64(p) => p.set_register(number, value),
            Processor::Aarch64(p) => p.registers[number as usize] = value,
            Processor::Riscv64(p) => p.registers[number as usize] = value,
        }
    }

    /// Returns the flags; RV64 has none.
    pub fn flags(&self) -> Flags
        ensures { result ≡ (inner self.now).state.flags }
    {
        match self {
            Processor::X86_64(p) => p.flags.get(),
            Processor::Aarch64(p) => p.flags.get(),
            Processor::Riscv64(_) => Flags::NoFlags,
        }
    }

    /// Sets the flags, where the processor has any, and changes nothing else.
    pub fn set_flags(&mut self, flags: Flags)
        ensures { inner self.new ≡ (
            if has_flags (inner self.old).fixed.target
            then with_state (inner self.old) (with_flags (inner self.old).state flags)
            else inner self.old) }
    {
        match self {
            Processor::X86_64(p) => p.flags.set(flags),
            Processor::Aarch64(p) => p.flags.set(flags),
            Processor::Riscv64(_) => {}
        }
    }

    /// Goes on at an address, whether the run was over or not. `Ended(0)` at the stop address, else `Went`. Nothing else changes.
    pub fn go(&mut self, pc: u64) -> CpuStep
        ensures answer { result ≡ answer_of (arrived pc) }
        ensures state { inner self.new ≡ with_state (inner self.old) (record (inner self.old).state { pc = pc }) }
    {
        match self {
            Processor::X86_64(p) => p.go(pc),
            Processor::Aarch64(p) => p.go(pc),
            Processor::Riscv64(p) => p.go(pc),
        }
    }

    /// Replaces the code, and changes nothing else.
    pub fn set_code(&mut self, code: CodeBytes)
        ensures { inner self.new ≡ record (inner self.old) { fixed = record (inner self.old).fixed { code = code.items } } }
    {
        match self {
            Processor::X86_64(p) => p.code.replace_code(code),
            Processor::Aarch64(p) => p.code.replace_code(code),
            Processor::Riscv64(p) => p.code.replace_code(code),
        }
    }

    /// Returns the number in `width` bytes of the memory from an address on, the lowest byte first, or `None` exactly when not all bytes
    /// lie in one part. `width` is 1, 2, 4 or 8.
    pub fn load(&self, address: u64, width: u32) -> Option<u64>
        requires { (width ≡ 1) ⊎ (width ≡ 2) ⊎ (width ≡ 4) ⊎ (width ≡ 8) }
        ensures { result ≡ loaded (inner self.now).state.bytes address width }
    {
        match self {
            Processor::X86_64(p) => p.board.memory.load(address, width),
            Processor::Aarch64(p) => p.board.memory.load(address, width),
            Processor::Riscv64(p) => p.board.memory.load(address, width),
        }
    }

    /// Writes the low `width` bytes of a number into the memory from an address on, the lowest byte first, and changes
    /// nothing else. False exactly where not all bytes lie in one part, and then nothing changes. `width` is 1, 2, 4 or 8.
    pub fn store(&mut self, address: u64, width: u32, value: u64) -> bool
        requires { (width ≡ 1) ⊎ (width ≡ 2) ⊎ (width ≡ 4) ⊎ (width ≡ 8) }
        ensures done { result ≡ mapped (inner self.old).state.bytes address width }
        ensures changed { inner self.new ≡ (
            if result
            then with_state (inner self.old) (with_bytes (inner self.old).state (stored (inner self.old).state.bytes address width value))
            else inner self.old) }
    {
        match self {
            Processor::X86_64(p) => p.board.memory.store(address, width, value),
            Processor::Aarch64(p) => p.board.memory.store(address, width, value),
            Processor::Riscv64(p) => p.board.memory.store(address, width, value),
        }
    }
}
