// Steps at the entries of host functions.

ghost use Rattle.std.specs.Prelude.{◌≡◌, ◌≤◌, map, length, slice_index, Some};
ghost use Rattle.lg_base.specs.Conventions.{argument_registers, is_kept};
ghost use Rattle.lg_base.specs.Words.{add_words};
ghost use Rattle.lg_base.specs.declared.target.Target.{Target};
ghost use Rattle.lg_cpu.specs.HostSteps.{arguments_of, after_call, put};
ghost use Rattle.lg_cpu.specs.X86Step.{takes_al};

use crate::answer::CpuStep;
use crate::arguments::Arguments;
use crate::x86_64::X86_64;
use crate::x86_64::flags::no_flags;
use lg_base::{FaultKind, HostName};
use lg_host::{HostEnd, call};
use lg_io::Sink;

// Returns whether a call keeps a register.
fn keeps(register: usize) -> bool
    ensures { result ≡ is_kept Target.X86_64 register }
{
    match register {
        3 | 4 | 5 | 12..=15 => true,
        _ => false,
    }
}

// Returns the registers after a call of a host function that answered this.
fn registers_after_call(registers: &[u64; 16], trash: u64, answer: u64) -> [u64; 16]
    ensures registers { slice_index result ≡ after_call Target.X86_64 16 (slice_index registers.now) trash answer }
    ensures long { length result ≡ 16 }
{
    let mut behind = *registers;
    for register in 0..16 {
        if !keeps(register) {
            behind[register] = trash;
        }
    }
    behind[0] = answer;
    behind
}

// And after the return, with this stack pointer.
fn registers_after_return(registers: &[u64; 16], trash: u64, answer: u64, stack: u64) -> [u64; 16]
    ensures { slice_index result ≡ put (after_call Target.X86_64 16 (slice_index registers.now) trash answer) 4 stack }
{
    let mut behind = registers_after_call(registers, trash, answer);
    behind[4] = stack;
    behind
}

// Returns the arguments in registers.
fn register_arguments(registers: &[u64; 16]) -> Arguments
    ensures { result ≡ map (slice_index registers.now) (argument_registers Target.X86_64) }
{
    let r = registers;
    Arguments::first(
        [
            r[7], r[6], r[2], r[1], r[8], r[9], 0, 0, 0, 0, 0, 0, 0, 0, 0, 0,
        ],
        6,
    )
}

// Returns whether al is as a host function wants it.
fn takes_al(name: HostName, a: u64) -> bool
    ensures { result ≡ takes_al name a }
{
    match name {
        HostName::Printf => a % 256 <= 8,
        _ => true,
    }
}

impl X86_64 {
    ghost use Rattle.std.specs.Prelude.{◌-◌, ◌%◌, ◌==◌, drop, true, false, None, IfNone, IfSome};
    ghost use Rattle.lg_base.specs.Layout.{code_base};
    ghost use Rattle.lg_x86.specs.Reading.{front_of};
    ghost use Rattle.lg_cpu.specs.Fetches.{in_code};
    ghost use Rattle.lg_cpu.specs.States.{arrives};
    ghost use Rattle.lg_cpu.specs.X86Operators.{no_flags};
    ghost use Rattle.lg_cpu.specs.X86Step.{popped, enter_with, enter_host};
    ghost use Rattle.lg_cpu.specs.Machines.{x86_state, x86_inner, effect_in, Does, StepSays};

    // Returns the arguments of the convention; those of the stack lie after the return address.
    fn arguments(&self) -> Arguments
        ensures { result ≡ arguments_of Target.X86_64 (add_words (slice_index self.now.registers 4) 8) (x86_state self.now) }
    {
        let mut arguments = register_arguments(&self.registers);
        arguments.read_stack(&self.board.memory, self.registers[4].wrapping_add(8));
        arguments
    }

    // Returns from a host function that answered this.
    fn leave_host(&mut self, link: u64, answer: u64) -> CpuStep
        ensures { Does (arrives link (popped (slice_index self.old.registers) self.old.board.trash answer) no_flags
            (x86_state self.old).bytes (x86_state self.old).mark) (x86_inner self.old) (x86_inner self.new) result }
    {
        let stack = self.registers[4].wrapping_add(8);
        self.registers = registers_after_return(&self.registers, self.board.trash, answer, stack);
        self.flags.set(no_flags());
        self.go(link)
    }

    // Runs a host function that returns to this address.
    fn enter_with<O: Sink>(&mut self, name: HostName, link: u64, out: &mut O) -> CpuStep
        ensures says { StepSays (enter_with name self.old.board.trash (x86_state self.old) (Some link)) (x86_inner self.old) (x86_inner self.new)
            (O.taken out.old) (O.taken out.new) (O.faults out.old) (O.faults out.new) result }
        ensures later { O.faults out.old ≤ O.faults out.new }
    {
        let arguments = self.arguments();
        match call(
            name,
            arguments.as_slice(),
            true,
            &mut self.board.memory,
            &mut self.board.heap,
            out,
        ) {
            HostEnd::Value(answer) => self.leave_host(link, answer),
            HostEnd::Exit(status) => CpuStep::Ended(status),
            HostEnd::Undefined => CpuStep::Fault(FaultKind::Host),
            HostEnd::WriteFault => CpuStep::WriteFault,
        }
    }

    // Runs a host function.
    fn enter_host<O: Sink>(&mut self, name: HostName, out: &mut O) -> CpuStep
        ensures says { StepSays (enter_host name self.old.board.trash (x86_state self.old)) (x86_inner self.old) (x86_inner self.new)
            (O.taken out.old) (O.taken out.new) (O.faults out.old) (O.faults out.new) result }
        ensures later { O.faults out.old ≤ O.faults out.new }
    {
        if self.registers[4] % 16 != 8 {
            return CpuStep::Fault(FaultKind::Host);
        }
        if !takes_al(name, self.registers[0]) {
            return CpuStep::Fault(FaultKind::Host);
        }
        match self.board.memory.load(self.registers[4], 8) {
            Some(link) => self.enter_with(name, link, out),
            None => CpuStep::Fault(FaultKind::Host),
        }
    }

    // Takes a step where there is no code: runs the host function whose entry is there, or faults. Apart from the steps over code, which are short without
    // it.
    #[inline(never)]
    fn step_outside<O: Sink>(&mut self, out: &mut O) -> CpuStep
        requires { in_code self.old.code self.old.pc ≡ false }
        ensures says { StepSays (effect_in (x86_inner self.old)) (x86_inner self.old) (x86_inner self.new)
            (O.taken out.old) (O.taken out.new) (O.faults out.old) (O.faults out.new) result }
        ensures later { O.faults out.old ≤ O.faults out.new }
    {
        match HostName::from_address(self.pc) {
            Some(name) => self.enter_host(name, out),
            None => CpuStep::Fault(FaultKind::Fetch),
        }
    }

    /// Takes a step where no instruction is read: faults, or runs a host function.
    #[inline(never)]
    pub fn step_elsewhere<O: Sink>(&mut self, out: &mut O) -> CpuStep
        requires { in_code self.old.code self.old.pc ≡ true → front_of (drop (self.old.pc - code_base) self.old.code) ≡ None }
        ensures says { StepSays (effect_in (x86_inner self.old)) (x86_inner self.old) (x86_inner self.new)
            (O.taken out.old) (O.taken out.new) (O.faults out.old) (O.faults out.new) result }
        ensures later { O.faults out.old ≤ O.faults out.new }
    {
        if self.code.is_code(self.pc) {
            CpuStep::Fault(FaultKind::Decode)
        } else {
            self.step_outside(out)
        }
    }

    /// Executes the instruction at the program counter, and returns what it came to; None where none is read there. It writes nothing.
    #[inline(always)]
    pub fn step_code(&mut self) -> Option<CpuStep>
        ensures some { IfSome result (λ answer. Does (effect_in (x86_inner self.old)) (x86_inner self.old) (x86_inner self.new) answer) }
        ensures same { IfNone result (x86_inner self.new ≡ x86_inner self.old) }
        ensures none { IfNone result (in_code self.new.code self.new.pc ≡ true → front_of (drop (self.new.pc - code_base) self.new.code) ≡ None) }
    {
        match self.code.find(self.pc) {
            Some((instr, len)) => Some(self.execute(instr, len)),
            None => None,
        }
    }
}
