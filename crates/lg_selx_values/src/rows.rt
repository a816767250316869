// Instructions by their rows, those that save and restore a register, and the registers that correspond to portable ones. Registers are 0 to 15.

ghost use Rattle.std.specs.Prelude.{◌≡◌, ◌<◌};
ghost use Rattle.lg_base.specs.declared.target.Target.TheVariants.{X86_64};
ghost use Rattle.lg_selx_values.specs.Processor.X86Rows.{slot_offset};
ghost use Rattle.lg_temp.specs.Abis.{register_of};
ghost use Rattle.lg_x86.specs.declared.instruction.LoadOp.TheVariants.{Lea};

use lg_base::Target;
use lg_op::Reg;
use lg_temp::Abi;
use lg_x86::{Instr, LoadOp, RmRegOp, StoreOp};

/// The stack pointer, rsp.
pub const STACK_POINTER: u8 = 4;

/// FP, rbp.
pub const FRAME_POINTER: u8 = 5;

/// `rm` gets what the row makes of it and of another register.
pub fn row(op: RmRegOp, rm: u8, reg: u8) -> Instr
    ensures { result ≡ Instr.RmReg op rm reg }
{
    Instr::RmReg { op, rm, reg }
}

/// `to` gets the word of `from`; no flag changes.
pub fn mov(to: u8, from: u8) -> Instr
    ensures { result ≡ Instr.RmReg (RmRegOp.Mov) to from }
{
    row(RmRegOp::Mov, to, from)
}

/// `reg` gets the address that lies `disp` bytes from the word of `base`; no flag changes.
pub fn lea(reg: u8, base: u8, disp: i32) -> Instr
    ensures { result ≡ Instr.Load Lea reg base disp }
{
    Instr::Load {
        op: LoadOp::Lea,
        reg,
        base,
        disp,
    }
}

// Where a spill slot of a frame, 0 to 4, lies from FP, in bytes.
fn slot_offset(slot: u32) -> i32
    requires { slot < 5 }
    ensures { result ≡ slot_offset slot }
{
    -96 - 8 * (slot as i32)
}

/// Returns the instruction that saves a register in a spill slot of its frame, 0 to 4.
pub fn save(reg: u8, slot: u32) -> Instr
    requires { slot < 5 }
    ensures { result ≡ Instr.Store (StoreOp.St64) 5 (slot_offset slot) reg }
{
    Instr::Store {
        op: StoreOp::St64,
        base: FRAME_POINTER,
        disp: slot_offset(slot),
        reg,
    }
}

/// Returns the instruction that restores a register from a spill slot of its frame, 0 to 4.
pub fn restore(reg: u8, slot: u32) -> Instr
    requires { slot < 5 }
    ensures { result ≡ Instr.Load (LoadOp.Ld64) reg 5 (slot_offset slot) }
{
    Instr::Load {
        op: LoadOp::Ld64,
        reg,
        base: FRAME_POINTER,
        disp: slot_offset(slot),
    }
}

/// Returns the register that corresponds to a portable one, by the calling convention of x86-64.
pub fn register_of(reg: Reg) -> u8
    ensures { result ≡ register_of X86_64 reg }
{
    Abi::of(Target::X86_64).portable(reg)
}
