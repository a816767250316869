// Instructions by their rows, those that save and restore a register, and the registers that correspond to portable ones. Registers are 0 to 31.

ghost use Rattle.std.specs.Prelude.{◌≡◌, ◌<◌, false};
ghost use Rattle.lg_base.specs.declared.target.Target.TheVariants.{Aarch64};
ghost use Rattle.lg_sela_values.specs.Processor.A64Rows.{frame_pointer, slot_offset};
ghost use Rattle.lg_temp.specs.Abis.{register_of};

use lg_a64::{BitfieldOp, ImmOp, Instr, MulAddOp, RegOp, UnscaledOp, WideOp};
use lg_base::Target;
use lg_op::Reg;
use lg_temp::Abi;

/// The link, x30, which holds nothing that is needed after a `prolog`.
pub const LINK: u8 = 30;

/// 31, which reads as 0 and is not written, but for the base of an address and where a number is added.
pub const ZERO: u8 = 31;

/// FP, x29.
pub const FRAME_POINTER: u8 = 29;

/// `rd` gets what the row makes of two registers.
pub fn row(op: RegOp, rd: u8, rn: u8, rm: u8) -> Instr
    ensures { result ≡ Instr.Reg op rd rn rm }
{
    Instr::Reg { op, rd, rn, rm }
}

/// `rd` gets what the row makes of a register and a number from 0 to 4,095.
pub fn imm(op: ImmOp, rd: u8, rn: u8, imm: u16) -> Instr
    ensures { result ≡ Instr.Imm op rd rn imm false }
{
    Instr::Imm {
        op,
        rd,
        rn,
        imm,
        shifted: false,
    }
}

/// Returns a number of 16 bits for quarter `hw`, 0 to 3, of `rd`.
pub fn wide(op: WideOp, rd: u8, imm: u16, hw: u8) -> Instr
    ensures { result ≡ Instr.Wide op rd imm hw }
{
    Instr::Wide { op, rd, imm, hw }
}

/// `rd` gets `ra` and the product of `rn` and `rm`, added or subtracted.
pub fn mul_add(op: MulAddOp, rd: u8, rn: u8, rm: u8, ra: u8) -> Instr
    ensures { result ≡ Instr.MulAdd op rd rn rm ra }
{
    Instr::MulAdd { op, rd, rn, rm, ra }
}

/// `rd` gets a bit field of `rn`, whose numbers are 0 to 63.
pub fn bitfield(op: BitfieldOp, rd: u8, rn: u8, immr: u8, imms: u8) -> Instr
    ensures { result ≡ Instr.Bitfield op rd rn immr imms }
{
    Instr::Bitfield {
        op,
        rd,
        rn,
        immr,
        imms,
    }
}

// Where a spill slot of a frame, 0 to 4, lies from FP, in bytes.
fn slot_offset(slot: u32) -> i32
    requires { slot < 5 }
    ensures { result ≡ slot_offset slot }
{
    -96 - 8 * (slot as i32)
}

/// Returns the instruction that saves a register in a spill slot of its frame, 0 to 4.
pub fn save(reg: u8, slot: u32) -> Instr
    requires { slot < 5 }
    ensures { result ≡ Instr.Unscaled (UnscaledOp.Stur) reg frame_pointer (slot_offset slot) }
{
    Instr::Unscaled {
        op: UnscaledOp::Stur,
        rt: reg,
        rn: FRAME_POINTER,
        imm: slot_offset(slot),
    }
}

/// Returns the instruction that restores a register from a spill slot of its frame, 0 to 4.
pub fn restore(reg: u8, slot: u32) -> Instr
    requires { slot < 5 }
    ensures { result ≡ Instr.Unscaled (UnscaledOp.Ldur) reg frame_pointer (slot_offset slot) }
{
    Instr::Unscaled {
        op: UnscaledOp::Ldur,
        rt: reg,
        rn: FRAME_POINTER,
        imm: slot_offset(slot),
    }
}

/// Returns the register that corresponds to a portable one, by the procedure call standard of AArch64.
pub fn register_of(reg: Reg) -> u8
    ensures { result ≡ register_of Aarch64 reg }
{
    Abi::of(Target::Aarch64).portable(reg)
}
