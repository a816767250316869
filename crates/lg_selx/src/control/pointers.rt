// FP, which is made again from the stack pointer.

ghost use Rattle.std.specs.Prelude.{◌≡◌, ◌≤◌, ◌<◌, ◌-◌, pos};
ghost use Rattle.lg_x86.specs.declared.instruction.LoadOp.TheVariants.{Lea};

use lg_selx_values::{FRAME_POINTER, STACK_POINTER, lea};
use lg_x86::Instr;

/// FP again, from the stack pointer. `frame` is the size of the frame in bytes.
pub fn pointer_again(frame: u32) -> Instr
    requires some { 272 ≤ frame }
    requires small { frame < 0x4000_0000 }
    ensures { result ≡ Instr.Load Lea 5 4 (pos (frame - 16)) }
{
    lea(FRAME_POINTER, STACK_POINTER, (frame - 16) as i32)
}
