// Calls of functions from outside of the code.

ghost use Rattle.std.specs.Prelude.{◌≡◌, ◌<◌, ◌≤◌, ◌-◌, length, nat_le, if◌then◌else◌};
ghost use Rattle.lg_base.specs.Conventions.{argument_register, link_register, result_register, stack_register};
ghost use Rattle.lg_cpu.specs.Entering.{put_in, put_argument, put_arguments, prepared, entry_pointer, entered_shown};
ghost use Rattle.lg_cpu.specs.Machines.{inner, shown, with_state};
ghost use Rattle.lg_cpu.specs.Targets.{reads, register_count};

use crate::cpu::Cpu;
use crate::processor::Processor;
use lg_base::Target;
use lg_va::{argument_registers, calling_stack};

// The return address of a call from outside.
const STOP: u64 = 0x0FE0_0000;

// Returns the number of the link, where the target has one.
fn link(target: Target) -> Option<u8>
    ensures { result ≡ link_register target }
{
    match target {
        Target::X86_64 => None,
        Target::Aarch64 => Some(30),
        Target::Riscv64 => Some(1),
    }
}

// Returns the number of the stack pointer.
fn stack_pointer(target: Target) -> u8
    ensures { result ≡ stack_register target }
{
    match target {
        Target::X86_64 => 4,
        Target::Aarch64 => 31,
        Target::Riscv64 => 2,
    }
}

// Returns the stack pointer at the first instruction of a function that is called with this one.
fn entry_pointer(target: Target, stack: u64) -> u64
    requires { 8 ≤ stack }
    ensures { result ≡ entry_pointer (link_register target) stack }
{
    match target {
        Target::X86_64 => stack - 8,
        Target::Aarch64 | Target::Riscv64 => stack,
    }
}

// Returns the number of the register that a function leaves its result in.
fn result_register(target: Target) -> u8
    ensures { result ≡ result_register target }
{
    match target {
        Target::X86_64 | Target::Aarch64 => 0,
        Target::Riscv64 => 10,
    }
}

impl Processor {
    ghost use Rattle.lg_cpu.specs.Entering.{IsRegister};
    ghost use Rattle.lg_base.specs.Layout.{stack_end};

    /// Returns the target.
    pub fn target(&self) -> Target
        ensures { result ≡ (inner self.now).fixed.target }
    {
        match self {
            Processor::X86_64(_) => Target::X86_64,
            Processor::Aarch64(_) => Target::Aarch64,
            Processor::Riscv64(_) => Target::Riscv64,
        }
    }

    // Puts a word into a register, or where there is none into the memory at an address.
    fn put_in(&mut self, register: Option<u8>, address: u64, word: u64)
        requires { IsRegister (inner self.old).fixed.target register }
        ensures { inner self.new ≡ with_state (inner self.old) (put_in register (inner self.old).state address word) }
    {
        match register {
            Some(number) => self.set_register(number, word),
            None => {
                self.store(address, 8, word);
            }
        }
    }

    // Puts argument i of a call with this stack pointer.
    fn put_argument(&mut self, stack: u64, index: usize, word: u64)
        requires few { index < 16 }
        requires low { stack ≤ stack_end }
        ensures { inner self.new ≡ with_state (inner self.old) (put_argument (inner self.old).fixed.target stack index word (inner self.old).state) }
    {
        let registers = argument_registers(self.target());
        match registers.get(index) {
            Some(register) => self.set_register(*register, word),
            None => {
                self.store(stack + 8 * (index - registers.len()) as u64, 8, word);
            }
        }
    }

    // Puts the arguments of a call with this stack pointer.
    fn put_arguments(&mut self, stack: u64, words: &[u64])
        requires few { length words.now ≤ 16 }
        requires low { stack ≤ stack_end }
        ensures { inner self.new ≡ with_state (inner self.old) (put_arguments (inner self.old).fixed.target stack 0 words.now (inner self.old).state) }
    {
        for index in 0..words.len() {
            self.put_argument(stack, index, words[index]);
        }
    }

    // Puts the words, the return address and the stack pointer of a call where they belong.
    fn put_call(&mut self, stack: u64, words: &[u64])
        requires few { length words.now ≤ 16 }
        requires low { stack ≤ stack_end }
        requires high { 8 ≤ stack }
        ensures { inner self.new ≡ with_state (inner self.old)
            (prepared (inner self.old).fixed.target stack words.now (inner self.old).state) }
    {
        let target = self.target();
        self.put_arguments(stack, words);
        self.put_in(link(target), stack - 8, STOP);
        self.set_register(stack_pointer(target), entry_pointer(target, stack));
    }
}

impl Cpu {
    /// Calls a function from outside: after it the processor is before the first instruction at an address, and the words are where the convention of the
    /// target has arguments, in registers and then on the stack. The return address is the stop address, 0x0FE00000, where the run ends when the function
    /// returns, and the stack pointer is `lg_va::calling_stack` of the number of words, on x86-64 8 less. Every other register, the flags, the rest of the
    /// memory, the heap mark and the count of steps stay as the last run left them, whether it was over or not. The caller of a function that has returned
    /// reads its word by `result`. False exactly where there are more than 16 words, and then nothing changes.
    pub fn enter(&mut self, address: u64, words: &[u64]) -> bool
        ensures done { result ≡ nat_le (length words.now) 16 }
        ensures changed { shown self.new ≡ (if result then entered_shown (shown self.old) address words.now else shown self.old) }
    {
        if words.len() > 16 {
            return false;
        }
        let stack = calling_stack(words.len() as u32);
        self.processor.put_call(stack, words);
        self.answer = self.processor.go(address);
        true
    }

    /// Returns the word in the register in which the convention of the target leaves the result of a function.
    pub fn result(&self) -> u64
        ensures { result ≡ reads (shown self.now).target (shown self.now).state.registers (result_register (shown self.now).target) }
    {
        self.register(result_register(self.processor.target()))
    }
}
