// Instructions by their rows, those that save and restore a register, and the registers that correspond to portable ones. Registers are 0 to 31.

ghost use Rattle.std.specs.Prelude.{◌≡◌, ◌<◌};
ghost use Rattle.lg_base.specs.declared.target.Target.TheVariants.{Riscv64};
ghost use Rattle.lg_selr_values.specs.Processor.RvRows.{slot_offset};
ghost use Rattle.lg_temp.specs.Abis.{register_of};

use lg_base::Target;
use lg_op::Reg;
use lg_rv::{BranchOp, ImmOp, Instr, RegOp, ShiftOp, StoreOp, UpperOp};
use lg_temp::Abi;

/// x0, which reads as 0 and is not written.
pub const ZERO: u8 = 0;

/// The link, x1, which holds nothing that is needed after a `prolog`.
pub const LINK: u8 = 1;

/// The stack pointer, x2.
pub const STACK_POINTER: u8 = 2;

/// FP, x8.
pub const FRAME_POINTER: u8 = 8;

/// The carry, x31: 0 or 1 where it is needed, and else any word.
pub const CARRY: u8 = 31;

/// `rd` gets what the row makes of two registers.
pub fn row(op: RegOp, rd: u8, rs1: u8, rs2: u8) -> Instr
    ensures { result ≡ Instr.Reg op rd rs1 rs2 }
{
    Instr::Reg { op, rd, rs1, rs2 }
}

/// `rd` gets what the row makes of a register and a number from -2,048 to 2,047.
pub fn imm(op: ImmOp, rd: u8, rs1: u8, imm: i32) -> Instr
    ensures { result ≡ Instr.Imm op rd rs1 imm }
{
    Instr::Imm { op, rd, rs1, imm }
}

/// `rd` gets a register shifted by a number from 0 to 63.
pub fn shift(op: ShiftOp, rd: u8, rs1: u8, amount: u8) -> Instr
    ensures { result ≡ Instr.Shift op rd rs1 amount }
{
    Instr::Shift {
        op,
        rd,
        rs1,
        amount,
    }
}

/// `rd` gets a number of 20 bits times 4,096, from 0 or from the instruction's own address.
pub fn upper(op: UpperOp, rd: u8, imm: u32) -> Instr
    ensures { result ≡ Instr.Upper op rd imm }
{
    Instr::Upper { op, rd, imm }
}

/// Returns a branch by an offset, an even number from -4,096 to 4,094, where the condition holds of two registers.
pub fn branch(op: BranchOp, rs1: u8, rs2: u8, offset: i32) -> Instr
    ensures { result ≡ Instr.Branch op rs1 rs2 offset }
{
    Instr::Branch {
        op,
        rs1,
        rs2,
        offset,
    }
}

// Where a spill slot of a frame, 0 to 4, lies from FP, in bytes.
fn slot_offset(slot: u32) -> i32
    requires { slot < 5 }
    ensures { result ≡ slot_offset slot }
{
    -96 - 8 * (slot as i32)
}

/// Returns the instruction that saves a register in a spill slot of its frame, 0 to 4.
pub fn save(reg: u8, slot: u32) -> Instr
    requires { slot < 5 }
    ensures { result ≡ Instr.Store (StoreOp.Sd) 8 reg (slot_offset slot) }
{
    Instr::Store {
        op: StoreOp::Sd,
        rs1: FRAME_POINTER,
        rs2: reg,
        imm: slot_offset(slot),
    }
}

/// Returns the instruction that restores a register from a spill slot of its frame, 0 to 4.
pub fn restore(reg: u8, slot: u32) -> Instr
    requires { slot < 5 }
    ensures { result ≡ Instr.Imm (ImmOp.Ld) reg 8 (slot_offset slot) }
{
    imm(ImmOp::Ld, reg, FRAME_POINTER, slot_offset(slot))
}

/// Returns the register that corresponds to a portable one, by the calling convention of RISC-V.
pub fn register_of(reg: Reg) -> u8
    ensures { result ≡ register_of Riscv64 reg }
{
    Abi::of(Target::Riscv64).portable(reg)
}
