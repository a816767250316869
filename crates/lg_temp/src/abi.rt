// The calling conventions.

ghost use Rattle.std.specs.Prelude.{◌≡◌, ◌<◌};
ghost use Rattle.lg_base.specs.Conventions.{result_register, is_kept};
ghost use Rattle.lg_temp.specs.Abis.{place_of, register_of};

use lg_base::Target;
use lg_op::Reg;
use lg_va::argument_registers;

/// Where an argument of a call lies.
#[derive(Clone, Copy, PartialEq, Eq)]
pub enum ArgPlace {
    /// In a register.
    Reg(u8),
    /// In a stack word, counted from 0.
    Stack(u32),
}

/// The calling convention of a target: where arguments and results lie, which registers are kept, and which register
/// corresponds to each of the portable machine. Registers are numbered as the target does: 0 to 15 on x86-64, 0 to 31 on the others.
#[derive(Clone, Copy, PartialEq, Eq)]
pub struct Abi {
    /// The target.
    pub target: Target,
}

impl Abi {
    /// Returns the calling convention of the target.
    pub fn of(target: Target) -> Abi
        ensures { result.target ≡ target }
    {
        Abi { target }
    }

    /// Where an argument of a call lies: `index` counts them from 0, and is below 16. The first 6 on x86-64, and 8 on the others, lie in
    /// registers, the next in stack words from 0.
    pub fn argument(&self, index: u32) -> ArgPlace
        requires { index < 16 }
        ensures { result ≡ place_of self.now.target index }
    {
        let registers = argument_registers(self.target);
        match registers.get(index as usize) {
            Some(register) => ArgPlace::Reg(*register),
            None => ArgPlace::Stack(index - registers.len() as u32),
        }
    }

    /// Returns the number of the register in which a call leaves its result.
    pub fn result(&self) -> u8
        ensures { result ≡ result_register self.now.target }
    {
        match self.target {
            Target::X86_64 | Target::Aarch64 => 0,
            Target::Riscv64 => 10,
        }
    }

    /// Returns whether a call leaves a register as it was: callee-saved registers, and the stack pointer. False for a number that the target does not have.
    pub fn kept(&self, reg: u8) -> bool
        ensures { result ≡ is_kept self.now.target reg }
    {
        match self.target {
            Target::X86_64 => matches!(reg, 3..=5 | 12..=15),
            Target::Aarch64 => matches!(reg, 19..=29 | 31),
            Target::Riscv64 => matches!(reg, 2 | 8 | 9 | 18..=27),
        }
    }

    /// Returns the number of the register that corresponds to one of the portable machine.
    pub fn portable(&self, reg: Reg) -> u8
        ensures { result ≡ register_of self.now.target reg }
    {
        match self.target {
            Target::X86_64 => match reg {
                Reg::R0 => 0,
                Reg::R1 => 10,
                Reg::R2 => 11,
                Reg::V0 => 3,
                Reg::V1 => 13,
                Reg::V2 => 14,
                Reg::Fp => 5,
            },
            Target::Aarch64 => match reg {
                Reg::R0 => 9,
                Reg::R1 => 10,
                Reg::R2 => 11,
                Reg::V0 => 19,
                Reg::V1 => 20,
                Reg::V2 => 21,
                Reg::Fp => 29,
            },
            Target::Riscv64 => match reg {
                Reg::R0 => 5,
                Reg::R1 => 6,
                Reg::R2 => 7,
                Reg::V0 => 9,
                Reg::V1 => 18,
                Reg::V2 => 19,
                Reg::Fp => 8,
            },
        }
    }
}
