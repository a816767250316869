// Steps at the entries of host functions.

ghost use Rattle.std.specs.Prelude.{◌≡◌, ◌≤◌, map, slice_index};
ghost use Rattle.lg_base.specs.Conventions.{argument_registers, is_kept};
ghost use Rattle.lg_base.specs.declared.target.Target.{Target};
ghost use Rattle.lg_cpu.specs.HostSteps.{arguments_of, after_call};

use crate::aarch64::Aarch64;
use crate::aarch64::start::trash_flags;
use crate::answer::CpuStep;
use crate::arguments::Arguments;
use lg_base::{FaultKind, HostName};
use lg_host::{HostEnd, call};
use lg_io::Sink;

// Returns whether a call keeps a register.
fn keeps(register: usize) -> bool
    ensures { result ≡ is_kept Target.Aarch64 register }
{
    match register {
        19..=29 | 31 => true,
        _ => false,
    }
}

// Returns the registers after a call of a host function that answered this.
fn registers_after_call(registers: &[u64; 32], trash: u64, answer: u64) -> [u64; 32]
    ensures { slice_index result ≡ after_call Target.Aarch64 32 (slice_index registers.now) trash answer }
{
    let mut behind = *registers;
    for register in 0..32 {
        if !keeps(register) {
            behind[register] = trash;
        }
    }
    behind[0] = answer;
    behind
}

// Returns the arguments in registers.
fn register_arguments(registers: &[u64; 32]) -> Arguments
    ensures { result ≡ map (slice_index registers.now) (argument_registers Target.Aarch64) }
{
    let r = registers;
    Arguments::first(
        [
            r[0], r[1], r[2], r[3], r[4], r[5], r[6], r[7], 0, 0, 0, 0, 0, 0, 0, 0,
        ],
        8,
    )
}

impl Aarch64 {
    ghost use Rattle.std.specs.Prelude.{◌-◌, ◌%◌, ◌==◌, drop, true, false, None, IfNone, IfSome};
    ghost use Rattle.lg_base.specs.Layout.{code_base};
    ghost use Rattle.lg_a64.specs.Reading.{front_of};
    ghost use Rattle.lg_cpu.specs.Fetches.{in_code};
    ghost use Rattle.lg_cpu.specs.A64Step.{trash_flags, enter_host};
    ghost use Rattle.lg_cpu.specs.States.{arrives};
    ghost use Rattle.lg_cpu.specs.Machines.{a64_state, a64_inner, effect_in, Does, StepSays};

    // Returns the arguments of the convention.
    fn arguments(&self) -> Arguments
        ensures { result ≡ arguments_of Target.Aarch64 (slice_index self.now.registers 31) (a64_state self.now) }
    {
        let mut arguments = register_arguments(&self.registers);
        arguments.read_stack(&self.board.memory, self.registers[31]);
        arguments
    }

    // Returns from a host function that answered this.
    fn leave_host(&mut self, answer: u64) -> CpuStep
        ensures { Does (arrives (slice_index self.old.registers 30) (after_call Target.Aarch64 32 (slice_index self.old.registers) self.old.board.trash answer)
            (trash_flags self.old.board.trash) (a64_state self.old).bytes (a64_state self.old).mark) (a64_inner self.old) (a64_inner self.new) result }
    {
        let link = self.registers[30];
        self.flags.set(trash_flags(self.board.trash));
        self.registers = registers_after_call(&self.registers, self.board.trash, answer);
        self.go(link)
    }

    // Runs a host function.
    fn enter_host<O: Sink>(&mut self, name: HostName, out: &mut O) -> CpuStep
        ensures says { StepSays (enter_host name self.old.board.trash (a64_state self.old)) (a64_inner self.old) (a64_inner self.new)
            (O.taken out.old) (O.taken out.new) (O.faults out.old) (O.faults out.new) result }
        ensures later { O.faults out.old ≤ O.faults out.new }
    {
        if self.registers[31] % 16 != 0 {
            return CpuStep::Fault(FaultKind::Host);
        }
        let arguments = self.arguments();
        match call(
            name,
            arguments.as_slice(),
            true,
            &mut self.board.memory,
            &mut self.board.heap,
            out,
        ) {
            HostEnd::Value(answer) => self.leave_host(answer),
            HostEnd::Exit(status) => CpuStep::Ended(status),
            HostEnd::Undefined => CpuStep::Fault(FaultKind::Host),
            HostEnd::WriteFault => CpuStep::WriteFault,
        }
    }

    // Takes a step where there is no code: runs the host function whose entry is there, or faults. Apart from the steps over code, which are short without
    // it.
    #[inline(never)]
    fn step_outside<O: Sink>(&mut self, out: &mut O) -> CpuStep
        requires { in_code self.old.code self.old.pc ≡ false }
        ensures says { StepSays (effect_in (a64_inner self.old)) (a64_inner self.old) (a64_inner self.new)
            (O.taken out.old) (O.taken out.new) (O.faults out.old) (O.faults out.new) result }
        ensures later { O.faults out.old ≤ O.faults out.new }
    {
        match HostName::from_address(self.pc) {
            Some(name) => self.enter_host(name, out),
            None if self.pc % 4 != 0 => CpuStep::Fault(FaultKind::Align),
            None => CpuStep::Fault(FaultKind::Fetch),
        }
    }

    /// Takes a step where no instruction is read: faults, or runs a host function.
    #[inline(never)]
    pub fn step_elsewhere<O: Sink>(&mut self, out: &mut O) -> CpuStep
        requires { in_code self.old.code self.old.pc ≡ true → (self.old.pc % 4 == 0) ≡ true
            → front_of (drop (self.old.pc - code_base) self.old.code) ≡ None }
        ensures says { StepSays (effect_in (a64_inner self.old)) (a64_inner self.old) (a64_inner self.new)
            (O.taken out.old) (O.taken out.new) (O.faults out.old) (O.faults out.new) result }
        ensures later { O.faults out.old ≤ O.faults out.new }
    {
        if !self.code.is_code(self.pc) {
            self.step_outside(out)
        } else if self.pc % 4 == 0 {
            CpuStep::Fault(FaultKind::Decode)
        } else {
            CpuStep::Fault(FaultKind::Align)
        }
    }

    /// Executes the instruction at the program counter, and returns what it came to; None where none is read there. It writes nothing.
    #[inline(always)]
    pub fn step_code(&mut self) -> Option<CpuStep>
        ensures some { IfSome result (λ answer. Does (effect_in (a64_inner self.old)) (a64_inner self.old) (a64_inner self.new) answer) }
        ensures same { IfNone result (a64_inner self.new ≡ a64_inner self.old) }
        ensures none { IfNone result (in_code self.new.code self.new.pc ≡ true → (self.new.pc % 4 == 0) ≡ true
            → front_of (drop (self.new.pc - code_base) self.new.code) ≡ None) }
    {
        match self.code.find(self.pc) {
            Some((instr, len)) => Some(self.execute(instr, len)),
            None => None,
        }
    }
}
