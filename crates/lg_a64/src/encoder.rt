// From instructions to bytes.

ghost use Rattle.std.specs.Prelude.{◌≡◌};
ghost use Rattle.lg_a64.specs.Spelling.{IsInstr, word_of, spelling};

use crate::fields::{
    BranchCond, Hw, Imm9, Imm12, Imm16, Imm19, Imm26, Immr, Imms, Ra, Rd, Rm, Rn, SelectCond, Shift,
};
use crate::instruction::{
    BitfieldOp, BranchOp, BranchRegOp, Cond, ImmOp, Instr, MulAddOp, RegOp, ReverseOp, ScaledOp,
    UnscaledOp, WideOp,
};
use crate::rows::{BRANCH_IF, CSINC, LDRX, NOP};
use lg_base::Piece;
use lg_base::number::to_bits;

/// Returns the bytes of an instruction whose numbers are in its row's ranges: 4 bytes, little-endian.
pub fn encode(instr: &Instr) -> Piece
    requires { IsInstr instr.now }
    ensures { result ≡ spelling instr.now }
{
    Piece::of(&encode_word(instr).to_le_bytes())
}

fn encode_word(instr: &Instr) -> u32
    requires { IsInstr instr.now }
    ensures { result ≡ word_of instr.now }
{
    match *instr {
        Instr::Reg { op, rd, rn, rm } => reg_word(op, rd, rn, rm),
        Instr::Imm {
            op,
            rd,
            rn,
            imm,
            shifted,
        } => imm_word(op, rd, rn, imm, shifted),
        Instr::Wide { op, rd, imm, hw } => wide_word(op, rd, imm, hw),
        Instr::MulAdd { op, rd, rn, rm, ra } => mul_add_word(op, rd, rn, rm, ra),
        Instr::Bitfield {
            op,
            rd,
            rn,
            immr,
            imms,
        } => bitfield_word(op, rd, rn, immr, imms),
        Instr::Csinc { rd, rn, rm, cond } => csinc_word(rd, rn, rm, cond),
        Instr::Reverse { op, rd, rn } => reverse_word(op, rd, rn),
        Instr::Scaled { op, rt, rn, imm } => scaled_word(op, rt, rn, imm),
        Instr::Ldrx { rt, rn, rm } => ldrx_word(rt, rn, rm),
        Instr::Unscaled { op, rt, rn, imm } => unscaled_word(op, rt, rn, imm),
        Instr::Branch { op, words } => branch_word(op, words),
        Instr::BranchIf { cond, words } => branch_if_word(cond, words),
        Instr::BranchReg { op, rn } => branch_reg_word(op, rn),
        Instr::Nop => NOP,
    }
}

fn reg_word(op: RegOp, rd: u8, rn: u8, rm: u8) -> u32
    requires { IsInstr (Instr.Reg op rd rn rm) }
    ensures { result ≡ word_of (Instr.Reg op rd rn rm) }
{
    let word = Rd::put(op.word(), rd as u32);
    let word = Rn::put(word, rn as u32);
    Rm::put(word, rm as u32)
}

fn imm_word(op: ImmOp, rd: u8, rn: u8, imm: u16, shifted: bool) -> u32
    requires { IsInstr (Instr.Imm op rd rn imm shifted) }
    ensures { result ≡ word_of (Instr.Imm op rd rn imm shifted) }
{
    let word = Rd::put(op.word(), rd as u32);
    let word = Rn::put(word, rn as u32);
    let word = Imm12::put(word, imm as u32);
    Shift::put(word, shifted as u32)
}

fn wide_word(op: WideOp, rd: u8, imm: u16, hw: u8) -> u32
    requires { IsInstr (Instr.Wide op rd imm hw) }
    ensures { result ≡ word_of (Instr.Wide op rd imm hw) }
{
    let word = Rd::put(op.word(), rd as u32);
    let word = Imm16::put(word, imm as u32);
    Hw::put(word, hw as u32)
}

fn mul_add_word(op: MulAddOp, rd: u8, rn: u8, rm: u8, ra: u8) -> u32
    requires { IsInstr (Instr.MulAdd op rd rn rm ra) }
    ensures { result ≡ word_of (Instr.MulAdd op rd rn rm ra) }
{
    let word = Rd::put(op.word(), rd as u32);
    let word = Rn::put(word, rn as u32);
    let word = Ra::put(word, ra as u32);
    Rm::put(word, rm as u32)
}

fn bitfield_word(op: BitfieldOp, rd: u8, rn: u8, immr: u8, imms: u8) -> u32
    requires { IsInstr (Instr.Bitfield op rd rn immr imms) }
    ensures { result ≡ word_of (Instr.Bitfield op rd rn immr imms) }
{
    let word = Rd::put(op.word(), rd as u32);
    let word = Rn::put(word, rn as u32);
    let word = Imms::put(word, imms as u32);
    Immr::put(word, immr as u32)
}

fn csinc_word(rd: u8, rn: u8, rm: u8, cond: Cond) -> u32
    requires { IsInstr (Instr.Csinc rd rn rm cond) }
    ensures { result ≡ word_of (Instr.Csinc rd rn rm cond) }
{
    let word = Rd::put(CSINC, rd as u32);
    let word = Rn::put(word, rn as u32);
    let word = SelectCond::put(word, u32::from(cond.number()));
    Rm::put(word, rm as u32)
}

fn reverse_word(op: ReverseOp, rd: u8, rn: u8) -> u32
    requires { IsInstr (Instr.Reverse op rd rn) }
    ensures { result ≡ word_of (Instr.Reverse op rd rn) }
{
    let word = Rd::put(op.word(), rd as u32);
    Rn::put(word, rn as u32)
}

fn scaled_word(op: ScaledOp, rt: u8, rn: u8, imm: u16) -> u32
    requires { IsInstr (Instr.Scaled op rt rn imm) }
    ensures { result ≡ word_of (Instr.Scaled op rt rn imm) }
{
    let word = Rd::put(op.word(), rt as u32);
    let word = Rn::put(word, rn as u32);
    Imm12::put(word, imm as u32)
}

fn ldrx_word(rt: u8, rn: u8, rm: u8) -> u32
    requires { IsInstr (Instr.Ldrx rt rn rm) }
    ensures { result ≡ word_of (Instr.Ldrx rt rn rm) }
{
    let word = Rd::put(LDRX, rt as u32);
    let word = Rn::put(word, rn as u32);
    Rm::put(word, rm as u32)
}

fn unscaled_word(op: UnscaledOp, rt: u8, rn: u8, imm: i32) -> u32
    requires { IsInstr (Instr.Unscaled op rt rn imm) }
    ensures { result ≡ word_of (Instr.Unscaled op rt rn imm) }
{
    let word = Rd::put(op.word(), rt as u32);
    let word = Rn::put(word, rn as u32);
    Imm9::put(word, to_bits(imm, 1 << 8))
}

fn branch_word(op: BranchOp, words: i32) -> u32
    requires { IsInstr (Instr.Branch op words) }
    ensures { result ≡ word_of (Instr.Branch op words) }
{
    Imm26::put(op.word(), to_bits(words, 1 << 25))
}

fn branch_if_word(cond: Cond, words: i32) -> u32
    requires { IsInstr (Instr.BranchIf cond words) }
    ensures { result ≡ word_of (Instr.BranchIf cond words) }
{
    let word = BranchCond::put(BRANCH_IF, u32::from(cond.number()));
    Imm19::put(word, to_bits(words, 1 << 18))
}

fn branch_reg_word(op: BranchRegOp, rn: u8) -> u32
    requires { IsInstr (Instr.BranchReg op rn) }
    ensures { result ≡ word_of (Instr.BranchReg op rn) }
{
    Rn::put(op.word(), rn as u32)
}
