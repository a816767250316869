// From instructions to bytes.

ghost use Rattle.std.specs.Prelude.{◌≡◌, ◌<◌, ◌+◌, ◌*◌, ◌^◌};
ghost use Rattle.lg_rv.specs.Spelling.{IsInstr, word_of, spelling};

use crate::fields::{Amount, Funct3, Funct6, Funct7, Imm12, Imm20, Rd, Rs1, Rs2};
use crate::instruction::{BranchOp, ImmOp, Instr, RegOp, ShiftOp, StoreOp, UpperOp};
use crate::rows::{Fixed, JAL};
use lg_base::number::to_bits;
use lg_base::{Field, Piece};

/// Returns the bytes of an instruction whose numbers are in its row's ranges: 4 bytes, little-endian.
pub fn encode(instr: &Instr) -> Piece
    requires { IsInstr instr.now }
    ensures { result ≡ spelling instr.now }
{
    Piece::of(&encode_word(instr).to_le_bytes())
}

fn encode_word(instr: &Instr) -> u32
    requires { IsInstr instr.now }
    ensures { result ≡ word_of instr.now }
{
    match *instr {
        Instr::Upper { op, rd, imm } => upper_word(op, rd, imm),
        Instr::Jal { rd, offset } => jal_word(rd, offset),
        Instr::Branch {
            op,
            rs1,
            rs2,
            offset,
        } => branch_word(op, rs1, rs2, offset),
        Instr::Imm { op, rd, rs1, imm } => imm_word(op, rd, rs1, imm),
        Instr::Shift {
            op,
            rd,
            rs1,
            amount,
        } => shift_word(op, rd, rs1, amount),
        Instr::Store { op, rs1, rs2, imm } => store_word(op, rs1, rs2, imm),
        Instr::Reg { op, rd, rs1, rs2 } => reg_word(op, rd, rs1, rs2),
    }
}

// opcode and funct3, and 0 elsewhere
fn base_word(fixed: Fixed) -> u32
    requires fits { (fixed.opcode < 128) × (fixed.funct3 < 8) }
    ensures { result ≡ fixed.opcode + fixed.funct3 * 2 ^ 12 }
{
    Funct3::put(fixed.opcode, fixed.funct3)
}

fn upper_word(op: UpperOp, rd: u8, imm: u32) -> u32
    requires { IsInstr (Instr.Upper op rd imm) }
    ensures { result ≡ word_of (Instr.Upper op rd imm) }
{
    let word = Rd::put(op.fixed().opcode, rd as u32);
    Imm20::put(word, imm)
}

fn jal_word(rd: u8, offset: i32) -> u32
    requires { IsInstr (Instr.Jal rd offset) }
    ensures { result ≡ word_of (Instr.Jal rd offset) }
{
    let bits = to_bits(offset, 1 << 20);
    let word = Rd::put(JAL.opcode, rd as u32);
    let word = Field::<12, 8>::put(word, Field::<12, 8>::get(bits));
    let word = Field::<20, 1>::put(word, Field::<11, 1>::get(bits));
    let word = Field::<21, 10>::put(word, Field::<1, 10>::get(bits));
    Field::<31, 1>::put(word, Field::<20, 1>::get(bits))
}

fn branch_word(op: BranchOp, rs1: u8, rs2: u8, offset: i32) -> u32
    requires { IsInstr (Instr.Branch op rs1 rs2 offset) }
    ensures { result ≡ word_of (Instr.Branch op rs1 rs2 offset) }
{
    let bits = to_bits(offset, 1 << 12);
    let word = base_word(op.fixed());
    let word = Rs1::put(word, rs1 as u32);
    let word = Rs2::put(word, rs2 as u32);
    let word = Field::<7, 1>::put(word, Field::<11, 1>::get(bits));
    let word = Field::<8, 4>::put(word, Field::<1, 4>::get(bits));
    let word = Field::<25, 6>::put(word, Field::<5, 6>::get(bits));
    Field::<31, 1>::put(word, Field::<12, 1>::get(bits))
}

fn imm_word(op: ImmOp, rd: u8, rs1: u8, imm: i32) -> u32
    requires { IsInstr (Instr.Imm op rd rs1 imm) }
    ensures { result ≡ word_of (Instr.Imm op rd rs1 imm) }
{
    let word = base_word(op.fixed());
    let word = Rd::put(word, rd as u32);
    let word = Rs1::put(word, rs1 as u32);
    Imm12::put(word, to_bits(imm, 1 << 11))
}

fn shift_word(op: ShiftOp, rd: u8, rs1: u8, amount: u8) -> u32
    requires { IsInstr (Instr.Shift op rd rs1 amount) }
    ensures { result ≡ word_of (Instr.Shift op rd rs1 amount) }
{
    let fixed = op.fixed();
    let word = base_word(fixed);
    let word = Rd::put(word, rd as u32);
    let word = Rs1::put(word, rs1 as u32);
    let word = Amount::put(word, amount as u32);
    Funct6::put(word, fixed.high)
}

fn store_word(op: StoreOp, rs1: u8, rs2: u8, imm: i32) -> u32
    requires { IsInstr (Instr.Store op rs1 rs2 imm) }
    ensures { result ≡ word_of (Instr.Store op rs1 rs2 imm) }
{
    let bits = to_bits(imm, 1 << 11);
    let word = base_word(op.fixed());
    let word = Rs1::put(word, rs1 as u32);
    let word = Rs2::put(word, rs2 as u32);
    let word = Field::<7, 5>::put(word, Field::<0, 5>::get(bits));
    Field::<25, 7>::put(word, Field::<5, 7>::get(bits))
}

fn reg_word(op: RegOp, rd: u8, rs1: u8, rs2: u8) -> u32
    requires { IsInstr (Instr.Reg op rd rs1 rs2) }
    ensures { result ≡ word_of (Instr.Reg op rd rs1 rs2) }
{
    let fixed = op.fixed();
    let word = base_word(fixed);
    let word = Rd::put(word, rd as u32);
    let word = Rs1::put(word, rs1 as u32);
    let word = Rs2::put(word, rs2 as u32);
    Funct7::put(word, fixed.high)
}
