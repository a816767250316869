// The processor that a run is made on.

ghost use Rattle.std.specs.Prelude.{◌≡◌, ◌<◌, ◌≤◌, ◌⊎◌, ◌+◌, ◌-◌, ◌^◌, ◌↔◌, length, nat_lt, IfOk, IsTrue, if◌then◌else◌};
ghost use Rattle.lg_base.specs.Layout.{most_code};
ghost use Rattle.lg_base.specs.Arguments.{most_args};
ghost use Rattle.lg_base.specs.Spaces.{loaded, mapped};
ghost use Rattle.lg_cpu.specs.Answers.{is_counted};
ghost use Rattle.lg_cpu.specs.Targets.{reads, register_count, has_flags};

use crate::answer::CpuStep;
use crate::board::Board;
use crate::processor::Processor;
use crate::series::Advanced;
use lg_base::args::argument_count;
use lg_base::{ArgImage, CodeBytes, DataImage, Flags, Memory, OutOfMemory, Target};
use lg_host::HeapMark;
use lg_io::Sink;
use std::alloc::Global;

/// A processor with its memory and its code, before or after any number of steps.
pub struct Cpu {
    pub(crate) processor: Processor,
    pub(crate) answer: CpuStep,
    steps: u64,
}

// Written out, and not derived, so that an owner's proof has one call in the place of the drops of all parts.
impl Drop for Cpu {
    fn drop(self) {
        let Cpu {
            processor: _processor,
            answer: _,
            steps: _,
        } = self;
    }
}

// Returns whether a step that results in this is counted.
#[inline(always)]
fn is_counted(answer: CpuStep) -> bool
    ensures { result ≡ is_counted answer }
{
    match answer {
        CpuStep::Went | CpuStep::Ended(_) => true,
        CpuStep::Fault(_) | CpuStep::WriteFault => false,
    }
}

impl Cpu {
    ghost use Rattle.lg_cpu.specs.Machines.{shown, shown_at_start, started_again, CpuSays, StepShows, inner, effect_in, after_set, after_set_flags, after_jump, after_store};
    ghost use Rattle.lg_cpu.specs.LineCounts.{Adds, MayAdd};
    ghost use Rattle.lg_cpu.specs.Series.{Advances, AdvancesAfter, run_from};
    ghost use Rattle.lg_cpu.specs.Starts.{HasRoom};

    /// Returns a processor of a target before its first step: at the first address of the code, with the data part and the argument part in
    /// memory and zeros elsewhere. It finds the number of the argument part's strings and the part's address in the registers
    /// of the first two arguments, and the trash word in every register that no convention sets. On x86-64 no flag is defined, and
    /// the stop address is at the stack pointer. The code has at most 67,108,864 bytes, the data part at most 16,777,216, and the argument part at most
    /// 1,048,576. No other call takes memory.
    pub fn new(
        alloc: Global,
        target: Target,
        code: &CodeBytes,
        image: &DataImage,
        args: &ArgImage,
        trash: u64,
    ) -> Result<Cpu, OutOfMemory>
        requires code { length code.now.items ≤ most_code }
        requires image { length image.now ≤ 0x1000000 }
        requires args { length args.now ≤ most_args }
        ensures { IfOk result (λ c. shown c ≡ shown_at_start target code.now.items image.now args.now trash) }
    {
        let board = Board {
            memory: Memory::with_parts(alloc, image.as_slice(), args.as_slice())?,
            heap: HeapMark::new(),
            trash,
        };
        let processor = Processor::new(
            alloc,
            target,
            code.as_slice(),
            board,
            argument_count(args.as_slice()),
        )?;
        Ok(Cpu {
            processor,
            answer: CpuStep::Went,
            steps: 0,
        })
    }

    /// Starts again, and takes no memory: after it the processor is as `new` makes one of its target, code and trash word with this data part and argument
    /// part, whether its run was over or not. False exactly where a part has more bytes than the one in memory has now, and then nothing changes. A part with
    /// fewer bytes leaves only this many: of runs that differ the one with the longest parts comes first.
    pub fn again(&mut self, image: &DataImage, args: &ArgImage) -> bool
        ensures done { IsTrue result ↔ HasRoom (shown self.old).state.bytes image.now args.now }
        ensures changed { shown self.new ≡ (if result then started_again (shown self.old) image.now args.now else shown self.old) }
    {
        if !self.processor.renew(image.as_slice(), args.as_slice()) {
            return false;
        }
        self.processor.begin(argument_count(args.as_slice()));
        self.answer = CpuStep::Went;
        self.steps = 0;
        true
    }

    /// Returns the program counter.
    #[inline(always)]
    pub fn pc(&self) -> u64
        ensures { result ≡ (shown self.now).state.pc }
    {
        self.processor.pc()
    }

    /// Returns how many instructions and host steps went or ended.
    pub fn steps(&self) -> u64
        ensures { result ≡ (shown self.now).steps }
    {
        self.steps
    }

    /// Takes one step, and returns its outcome: the run goes on, has ended with a status, or can't take the step, which
    /// then changes nothing. Where a write failed a part of the output may have been written, and nothing else changed.
    /// After an answer other than `Went` the same is answered again, and nothing changes. Fewer than `u64::MAX` steps were
    /// taken.
    #[inline(always)]
    pub fn step<O: Sink>(&mut self, out: &mut O) -> CpuStep
        requires { (shown self.old).steps < 2 ^ 64 - 1 }
        ensures says { CpuSays (shown self.old) (shown self.new) (O.taken out.old) (O.taken out.new) (O.faults out.old) (O.faults out.new) result }
        ensures later { O.faults out.old ≤ O.faults out.new }
    {
        match self.answer {
            CpuStep::Went => self.go_on(out),
            over => over,
        }
    }

    // Takes a step of a run that is not over.
    #[inline(always)]
    fn go_on<O: Sink>(&mut self, out: &mut O) -> CpuStep
        requires going { self.old.answer ≡ CpuStep.Went }
        requires few { self.old.steps < 2 ^ 64 - 1 }
        ensures says { StepShows (effect_in (inner self.old.processor)) (shown self.old) (shown self.new)
            (O.taken out.old) (O.taken out.new) (O.faults out.old) (O.faults out.new) result }
        ensures later { O.faults out.old ≤ O.faults out.new }
    {
        let answer = self.processor.step(out);
        if answer != CpuStep::Went {
            self.answer = answer;
        }
        if is_counted(answer) {
            self.steps += 1;
        }
        answer
    }

    /// Takes steps until one gives another answer than `Went`, and at most this many; answers what the last one came to, and `Went` where there was none. It
    /// does what this many calls of `step`, in less time: after an answer other than `Went` the same is answered again, and nothing changes. Fewer than
    /// `u64::MAX` steps are then taken in all.
    pub fn run<O: Sink>(&mut self, most: u64, out: &mut O) -> CpuStep
        requires { (shown self.old).steps + most < 2 ^ 64 }
        ensures says { AdvancesAfter (shown self.old).answer (shown self.old) (shown self.new) most
            (O.taken out.old) (O.taken out.new) (O.faults out.old) (O.faults out.new) result }
        ensures later { O.faults out.old ≤ O.faults out.new }
    {
        self.run_counted(most, &[], &mut [], out)
    }

    /// Takes steps as `run` does, and adds each that went or ended to the number of its line, where there are numbers. `lines` has a line for each place of the
    /// code, as far as it goes; a step whose program counter has none, as that of a host function, belongs to the line of the step before it in this call, and
    /// to line 0 where there is none. The lines are below the length of `counts`, and no number reaches 2^64 by `most` more.
    #[inline(never)]
    pub fn run_counted<O: Sink>(
        &mut self,
        most: u64,
        lines: &[u32],
        counts: &mut [u64],
        out: &mut O,
    ) -> CpuStep
        requires few { (shown self.old).steps + most < 2 ^ 64 }
        requires may { MayAdd lines.now most counts.old }
        ensures says { AdvancesAfter (shown self.old).answer (shown self.old) (shown self.new) most
            (O.taken out.old) (O.taken out.new) (O.faults out.old) (O.faults out.new) result }
        ensures later { O.faults out.old ≤ O.faults out.new }
        ensures counts { Adds lines.now (run_from (shown self.old)) ((shown self.new).steps - (shown self.old).steps) counts.old counts.new }
    {
        match self.answer {
            CpuStep::Went => self.advance(most, lines, counts, out),
            over => over,
        }
    }

    // Takes steps of a run that is not over.
    fn advance<O: Sink>(
        &mut self,
        most: u64,
        lines: &[u32],
        counts: &mut [u64],
        out: &mut O,
    ) -> CpuStep
        requires going { self.old.answer ≡ CpuStep.Went }
        requires few { self.old.steps + most < 2 ^ 64 }
        requires may { MayAdd lines.now most counts.old }
        ensures says { Advances (shown self.old) (shown self.new) most (O.taken out.old) (O.taken out.new) (O.faults out.old) (O.faults out.new) result }
        ensures later { O.faults out.old ≤ O.faults out.new }
        ensures counts { Adds lines.now (run_from (shown self.old)) (self.new.steps - self.old.steps) counts.old counts.new }
    {
        let Advanced { answer, steps } = self.processor.run(self.steps, most, lines, counts, out);
        self.answer = answer;
        self.steps = steps;
        answer
    }

    /// Returns what a register reads as. Its number is below 32.
    pub fn register(&self, number: u8) -> u64
        requires { number < 32 }
        ensures { result ≡ reads (shown self.now).target (shown self.now).state.registers number }
    {
        self.processor.read(number)
    }

    /// Sets a register, the number of which is below 32, where the processor has one of the number, and changes nothing else. Register 0 of
    /// RV64 reads as 0 all the same.
    pub fn set_register(&mut self, number: u8, value: u64)
        requires { number < 32 }
        ensures { shown self.new ≡ (
            if nat_lt number (register_count (shown self.old).target) then after_set (shown self.old) number value else shown self.old) }
    {
        self.processor.set_register(number, value);
    }

    /// Returns the flags; RV64 has none.
    pub fn flags(&self) -> Flags
        ensures { result ≡ (shown self.now).state.flags }
    {
        self.processor.flags()
    }

    /// Sets the flags, where the processor has any, and changes nothing else.
    pub fn set_flags(&mut self, flags: Flags)
        ensures { shown self.new ≡ (
            if has_flags (shown self.old).target then after_set_flags (shown self.old) flags else shown self.old) }
    {
        self.processor.set_flags(flags);
    }

    /// Goes on at an address, whether the run was over or not; at the stop address it has ended. Nothing else changes.
    pub fn set_pc(&mut self, pc: u64)
        ensures { shown self.new ≡ after_jump (shown self.old) pc }
    {
        self.answer = self.processor.go(pc);
    }

    /// Replaces the code, which has at most 67,108,864 bytes, and changes nothing else.
    pub fn set_code(&mut self, code: CodeBytes)
        requires { length code.items ≤ most_code }
        ensures { shown self.new ≡ record (shown self.old) { code = code.items } }
    {
        self.processor.set_code(code);
    }

    /// Returns the number in `width` bytes of the memory from an address on, the lowest byte first, or `None` exactly when not all bytes
    /// lie in one part. `width` is 1, 2, 4 or 8.
    pub fn load(&self, address: u64, width: u32) -> Option<u64>
        requires { (width ≡ 1) ⊎ (width ≡ 2) ⊎ (width ≡ 4) ⊎ (width ≡ 8) }
        ensures { result ≡ loaded (shown self.now).state.bytes address width }
    {
        self.processor.load(address, width)
    }

    /// Writes the low `width` bytes of a number into the memory from an address on, the lowest byte first, and changes
    /// nothing else. False exactly where not all bytes lie in one part, and then nothing changes. `width` is 1, 2, 4 or 8.
    pub fn store(&mut self, address: u64, width: u32, value: u64) -> bool
        requires { (width ≡ 1) ⊎ (width ≡ 2) ⊎ (width ≡ 4) ⊎ (width ≡ 8) }
        ensures done { result ≡ mapped (shown self.old).state.bytes address width }
        ensures changed { shown self.new ≡ (if result then after_store (shown self.old) address width value else shown self.old) }
    {
        self.processor.store(address, width, value)
    }
}
