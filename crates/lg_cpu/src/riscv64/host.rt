// Steps at the entries of host functions.

ghost use Rattle.std.specs.Prelude.{◌≡◌, ◌≤◌, map, slice_index};
ghost use Rattle.lg_base.specs.Conventions.{argument_registers, is_kept};
ghost use Rattle.lg_base.specs.declared.target.Target.{Target};
ghost use Rattle.lg_cpu.specs.HostSteps.{arguments_of, after_call};

use crate::answer::CpuStep;
use crate::arguments::Arguments;
use crate::riscv64::Riscv64;
use lg_base::{FaultKind, HostName};
use lg_host::{HostEnd, call};
use lg_io::Sink;

// Returns whether a call keeps a register.
fn keeps(register: usize) -> bool
    ensures { result ≡ is_kept Target.Riscv64 register }
{
    match register {
        2 | 8 | 9 | 18..=27 => true,
        _ => false,
    }
}

// Returns the registers after a call of a host function that answered this.
fn registers_after_call(registers: &[u64; 32], trash: u64, answer: u64) -> [u64; 32]
    ensures { slice_index result ≡ after_call Target.Riscv64 32 (slice_index registers.now) trash answer }
{
    let mut behind = *registers;
    for register in 0..32 {
        if !keeps(register) {
            behind[register] = trash;
        }
    }
    behind[10] = answer;
    behind
}

// Returns the arguments in registers.
fn register_arguments(registers: &[u64; 32]) -> Arguments
    ensures { result ≡ map (slice_index registers.now) (argument_registers Target.Riscv64) }
{
    let r = registers;
    Arguments::first(
        [
            r[10], r[11], r[12], r[13], r[14], r[15], r[16], r[17], 0, 0, 0, 0, 0, 0, 0, 0,
        ],
        8,
    )
}

impl Riscv64 {
    ghost use Rattle.std.specs.Prelude.{◌-◌, ◌%◌, ◌==◌, drop, true, false, None, IfNone, IfSome};
    ghost use Rattle.lg_base.specs.Layout.{code_base};
    ghost use Rattle.lg_rv.specs.Reading.{front_of};
    ghost use Rattle.lg_cpu.specs.RvStep.{goes, enter_host};
    ghost use Rattle.lg_cpu.specs.Fetches.{in_code};
    ghost use Rattle.lg_cpu.specs.Machines.{rv_state, rv_inner, effect_in, Does, StepSays};

    // Returns the arguments of the convention.
    fn arguments(&self) -> Arguments
        ensures { result ≡ arguments_of Target.Riscv64 (slice_index self.now.registers 2) (rv_state self.now) }
    {
        let mut arguments = register_arguments(&self.registers);
        arguments.read_stack(&self.board.memory, self.registers[2]);
        arguments
    }

    // Returns from a host function that answered this.
    fn leave_host(&mut self, answer: u64) -> CpuStep
        ensures { Does (goes (slice_index self.old.registers 1) (after_call Target.Riscv64 32 (slice_index self.old.registers) self.old.board.trash answer)
            (rv_state self.old).bytes (rv_state self.old).mark) (rv_inner self.old) (rv_inner self.new) result }
    {
        let link = self.registers[1];
        self.registers = registers_after_call(&self.registers, self.board.trash, answer);
        self.go(link)
    }

    // Runs a host function.
    fn enter_host<O: Sink>(&mut self, name: HostName, out: &mut O) -> CpuStep
        ensures says { StepSays (enter_host name self.old.board.trash (rv_state self.old)) (rv_inner self.old) (rv_inner self.new)
            (O.taken out.old) (O.taken out.new) (O.faults out.old) (O.faults out.new) result }
        ensures later { O.faults out.old ≤ O.faults out.new }
    {
        if self.registers[2] % 16 != 0 {
            return CpuStep::Fault(FaultKind::Host);
        }
        let arguments = self.arguments();
        match call(
            name,
            arguments.as_slice(),
            true,
            &mut self.board.memory,
            &mut self.board.heap,
            out,
        ) {
            HostEnd::Value(answer) => self.leave_host(answer),
            HostEnd::Exit(status) => CpuStep::Ended(status),
            HostEnd::Undefined => CpuStep::Fault(FaultKind::Host),
            HostEnd::WriteFault => CpuStep::WriteFault,
        }
    }

    // Takes a step where there is no code: runs the host function whose entry is there, or faults. Apart from the steps over code, which are short without
    // it.
    #[inline(never)]
    fn step_outside<O: Sink>(&mut self, out: &mut O) -> CpuStep
        requires { in_code self.old.code self.old.pc ≡ false }
        ensures says { StepSays (effect_in (rv_inner self.old)) (rv_inner self.old) (rv_inner self.new)
            (O.taken out.old) (O.taken out.new) (O.faults out.old) (O.faults out.new) result }
        ensures later { O.faults out.old ≤ O.faults out.new }
    {
        match HostName::from_address(self.pc) {
            Some(name) => self.enter_host(name, out),
            None if self.pc % 4 != 0 => CpuStep::Fault(FaultKind::Align),
            None => CpuStep::Fault(FaultKind::Fetch),
        }
    }

    /// Takes a step where no instruction is read: faults, or runs a host function.
    #[inline(never)]
    pub fn step_elsewhere<O: Sink>(&mut self, out: &mut O) -> CpuStep
        requires { in_code self.old.code self.old.pc ≡ true → (self.old.pc % 4 == 0) ≡ true
            → front_of (drop (self.old.pc - code_base) self.old.code) ≡ None }
        ensures says { StepSays (effect_in (rv_inner self.old)) (rv_inner self.old) (rv_inner self.new)
            (O.taken out.old) (O.taken out.new) (O.faults out.old) (O.faults out.new) result }
        ensures later { O.faults out.old ≤ O.faults out.new }
    {
        if !self.code.is_code(self.pc) {
            self.step_outside(out)
        } else if self.pc % 4 == 0 {
            CpuStep::Fault(FaultKind::Decode)
        } else {
            CpuStep::Fault(FaultKind::Align)
        }
    }

    /// Executes the instruction at the program counter, and returns what it came to; None where none is read there. It writes nothing.
    #[inline(always)]
    pub fn step_code(&mut self) -> Option<CpuStep>
        ensures some { IfSome result (λ answer. Does (effect_in (rv_inner self.old)) (rv_inner self.old) (rv_inner self.new) answer) }
        ensures same { IfNone result (rv_inner self.new ≡ rv_inner self.old) }
        ensures none { IfNone result (in_code self.new.code self.new.pc ≡ true → (self.new.pc % 4 == 0) ≡ true
            → front_of (drop (self.new.pc - code_base) self.new.code) ≡ None) }
    {
        match self.code.find(self.pc) {
            Some((instr, len)) => Some(self.execute(instr, len)),
            None => None,
        }
    }
}
