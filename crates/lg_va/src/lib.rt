//! Where the arguments of a function are: by the convention at its call, and by its frame pointer.
#![tactic(auto)]

ghost use Rattle.std.specs.Prelude.{◌≡◌, ◌<◌, ◌≤◌};
ghost use Rattle.lg_base.specs.Conventions.{argument_registers};
ghost use Rattle.lg_va.specs.Calls.{calling_stack};
ghost use Rattle.lg_va.specs.Homes.{home};

use lg_base::Target;

/// The address after the stack.
const STACK_END: u64 = 0x4000_0000;

/// Returns the registers of the first arguments by their numbers on the target, in order: 6 on x86-64, 8 on the others. Further arguments lie in stack words.
pub fn argument_registers(target: Target) -> &'static [u8]
    ensures { result.now ≡ argument_registers target }
{
    match target {
        Target::X86_64 => &[7, 6, 2, 1, 8, 9],
        Target::Aarch64 => &[0, 1, 2, 3, 4, 5, 6, 7],
        Target::Riscv64 => &[10, 11, 12, 13, 14, 15, 16, 17],
    }
}

/// Returns the stack pointer of a call from outside of the code that passes this many words, at most 16: a multiple of 16, with room from it on for the words
/// after the sixth, and the same for every target.
pub fn calling_stack(count: u32) -> u64
    requires { count ≤ 16 }
    ensures { result ≡ calling_stack count }
{
    let on_stack = if count > 6 { count - 6 } else { 0 };
    STACK_END - 16 * u64::from((on_stack + 1) / 2)
}

/// Returns the offset in bytes from FP at which a function finds an argument: in its home below FP, where a register passes it, and else in the caller's
/// stack word above. The index is below 16. The offsets are those of `Layout` in lg_base.
pub fn home(target: Target, index: u32) -> i32
    requires { index < 16 }
    ensures { result ≡ home target index }
{
    let index = index as i32;
    let registers = match target {
        Target::X86_64 => 6,
        Target::Aarch64 | Target::Riscv64 => 8,
    };
    if index < registers {
        -(32 + 8 * index)
    } else {
        16 + 8 * (index - registers)
    }
}
