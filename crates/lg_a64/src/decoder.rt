// From bytes to instructions.

ghost use Rattle.std.specs.Prelude.{◌≡◌, ◌≤◌, ◌++◌, ℕ, List, length, Some, IfSome, IfNone};
ghost use Rattle.lg_base.specs.Fronts.{BeginsWith};
ghost use Rattle.lg_a64.specs.Spelling.{IsInstr, spelling};
ghost use Rattle.lg_base.specs.WordFronts.{word_front};
ghost use Rattle.lg_a64.specs.Reading.{front_of, instr_of, reg_of, imm_of, wide_of, mul_add_of, bitfield_of, csinc_of, reverse_of, scaled_of, ldrx_of, unscaled_of, branch_of, branch_if_of, branch_reg_of, nop_of, reg_fixed, imm_fixed, mul_add_fixed, bitfield_fixed, select_fixed, reverse_fixed, branch_fixed, branch_if_fixed, branch_reg_fixed};

use crate::fields::{
    BranchCond, Hw, Imm9, Imm12, Imm16, Imm19, Imm26, Immr, Imms, Ra, Rd, Rm, Rn, SelectCond,
    Shift, Sort, Top,
};
use crate::instruction::{
    BitfieldOp, BranchOp, BranchRegOp, Cond, ImmOp, Instr, MulAddOp, RegOp, ReverseOp, ScaledOp,
    UnscaledOp, WideOp,
};
use crate::rows::{BRANCH_IF, CSINC, LDRX, NOP};
use lg_base::Field;
use lg_base::number::from_bits;
use lg_base::word::word_in_front;

/// Returns the instruction that the bytes begin with, and its length, 4, or `None` if the first 4 bytes are
/// no word of the table, or there are fewer than 4.
#[inline(always)]
pub fn decode(bytes: &[u8]) -> Option<(Instr, u32)>
    ensures value { result ≡ front_of bytes.now }
    // whatever follows its spelling, an instruction is read as itself
    ensures again { (i : Instr) (more : List ℕ) → IsInstr i → bytes.now ≡ spelling i ++ more → result ≡ Some (i, length (spelling i)) }
    // what is read is spelled by the bytes in front
    ensures front { IfSome result (λ found. BeginsWith spelling IsInstr bytes.now found.0 × (found.1 ≡ length (spelling found.0))) }
    ensures none { IfNone result ((i : Instr) → BeginsWith spelling IsInstr bytes.now i → ⊥) }
{
    decode_front(bytes)
}

#[inline(always)]
#[tactic(auto, unfolding(lg_base::specs::WordFronts::word_front))]
fn decode_front(bytes: &[u8]) -> Option<(Instr, u32)>
    ensures { result ≡ word_front instr_of bytes.now }
{
    if bytes.len() < 4 {
        return None;
    }
    let instr = decode_word(word_in_front(bytes))?;
    Some((instr, 4))
}

#[inline(always)]
#[tactic(auto, unfolding(crate::specs::Reading::instr_at))]
fn decode_word(word: u32) -> Option<Instr>
    ensures { result ≡ instr_of word }
{
    match (Top::get(word), Sort::get(word)) {
        (0x9a, 4) => decode_csinc(word),
        (0xda, 6) => decode_reverse(word),
        (0x9b, 0) => decode_mul_add(word),
        (0xf8, 3) => decode_ldrx(word),
        (0xf8, _) => decode_unscaled(word),
        (0x91 | 0xb1 | 0xd1 | 0xf1, _) => decode_imm(word),
        (0xd2 | 0x92 | 0xf2, _) => decode_wide(word),
        (0x93 | 0xd3, _) => decode_bitfield(word),
        (0xf9 | 0xb9 | 0x79 | 0x39, _) => decode_scaled(word),
        (0x54, _) => decode_branch_if(word),
        (0xd6, _) => decode_branch_reg(word),
        (0xd5, _) => decode_nop(word),
        (top, _) if top / 4 == 0x05 || top / 4 == 0x25 => decode_branch(word),
        _ => decode_reg(word),
    }
}

// The word with 0 in the fields of the operands, by formats; some formats have the same.

fn reg_without_operands(word: u32) -> u32
    ensures { result ≡ reg_fixed word }
{
    Rm::put(Rn::put(Rd::put(word, 0), 0), 0)
}

fn imm_without_operands(word: u32) -> u32
    ensures { result ≡ imm_fixed word }
{
    Field::<0, 23>::put(word, 0)
}

fn mul_add_without_operands(word: u32) -> u32
    ensures { result ≡ mul_add_fixed word }
{
    Rm::put(Field::<0, 15>::put(word, 0), 0)
}

fn bitfield_without_operands(word: u32) -> u32
    ensures { result ≡ bitfield_fixed word }
{
    Field::<0, 22>::put(word, 0)
}

fn select_without_operands(word: u32) -> u32
    ensures { result ≡ select_fixed word }
{
    Field::<12, 9>::put(Field::<0, 10>::put(word, 0), 0)
}

fn reverse_without_operands(word: u32) -> u32
    ensures { result ≡ reverse_fixed word }
{
    Rn::put(Rd::put(word, 0), 0)
}

fn branch_without_operands(word: u32) -> u32
    ensures { result ≡ branch_fixed word }
{
    Imm26::put(word, 0)
}

fn branch_if_without_operands(word: u32) -> u32
    ensures { result ≡ branch_if_fixed word }
{
    Imm19::put(BranchCond::put(word, 0), 0)
}

fn branch_reg_without_operands(word: u32) -> u32
    ensures { result ≡ branch_reg_fixed word }
{
    Rn::put(word, 0)
}

#[inline(always)]
#[tactic(auto, unfolding(crate::specs::Reading::reg_of))]
fn decode_reg(word: u32) -> Option<Instr>
    ensures { result ≡ reg_of word }
{
    let op = RegOp::find(reg_without_operands(word))?;
    Some(Instr::Reg {
        op,
        rd: Rd::get(word) as u8,
        rn: Rn::get(word) as u8,
        rm: Rm::get(word) as u8,
    })
}

#[tactic(auto, unfolding(crate::specs::Reading::imm_of))]
fn decode_imm(word: u32) -> Option<Instr>
    ensures { result ≡ imm_of word }
{
    let op = ImmOp::find(imm_without_operands(word))?;
    Some(Instr::Imm {
        op,
        rd: Rd::get(word) as u8,
        rn: Rn::get(word) as u8,
        imm: Imm12::get(word) as u16,
        shifted: Shift::get(word) == 1,
    })
}

#[tactic(auto, unfolding(crate::specs::Reading::wide_of))]
fn decode_wide(word: u32) -> Option<Instr>
    ensures { result ≡ wide_of word }
{
    let op = WideOp::find(imm_without_operands(word))?;
    Some(Instr::Wide {
        op,
        rd: Rd::get(word) as u8,
        imm: Imm16::get(word) as u16,
        hw: Hw::get(word) as u8,
    })
}

#[tactic(auto, unfolding(crate::specs::Reading::mul_add_of))]
fn decode_mul_add(word: u32) -> Option<Instr>
    ensures { result ≡ mul_add_of word }
{
    let op = MulAddOp::find(mul_add_without_operands(word))?;
    Some(Instr::MulAdd {
        op,
        rd: Rd::get(word) as u8,
        rn: Rn::get(word) as u8,
        rm: Rm::get(word) as u8,
        ra: Ra::get(word) as u8,
    })
}

#[tactic(auto, unfolding(crate::specs::Reading::bitfield_of))]
fn decode_bitfield(word: u32) -> Option<Instr>
    ensures { result ≡ bitfield_of word }
{
    let op = BitfieldOp::find(bitfield_without_operands(word))?;
    Some(Instr::Bitfield {
        op,
        rd: Rd::get(word) as u8,
        rn: Rn::get(word) as u8,
        immr: Immr::get(word) as u8,
        imms: Imms::get(word) as u8,
    })
}

#[tactic(auto, unfolding(crate::specs::Reading::csinc_of))]
fn decode_csinc(word: u32) -> Option<Instr>
    ensures { result ≡ csinc_of word }
{
    if select_without_operands(word) != CSINC {
        return None;
    }
    let cond = Cond::find(SelectCond::get(word))?;
    Some(Instr::Csinc {
        rd: Rd::get(word) as u8,
        rn: Rn::get(word) as u8,
        rm: Rm::get(word) as u8,
        cond,
    })
}

#[tactic(auto, unfolding(crate::specs::Reading::reverse_of))]
fn decode_reverse(word: u32) -> Option<Instr>
    ensures { result ≡ reverse_of word }
{
    let op = ReverseOp::find(reverse_without_operands(word))?;
    Some(Instr::Reverse {
        op,
        rd: Rd::get(word) as u8,
        rn: Rn::get(word) as u8,
    })
}

#[tactic(auto, unfolding(crate::specs::Reading::scaled_of))]
fn decode_scaled(word: u32) -> Option<Instr>
    ensures { result ≡ scaled_of word }
{
    let op = ScaledOp::find(bitfield_without_operands(word))?;
    Some(Instr::Scaled {
        op,
        rt: Rd::get(word) as u8,
        rn: Rn::get(word) as u8,
        imm: Imm12::get(word) as u16,
    })
}

#[tactic(auto, unfolding(crate::specs::Reading::ldrx_of))]
fn decode_ldrx(word: u32) -> Option<Instr>
    ensures { result ≡ ldrx_of word }
{
    if reg_without_operands(word) != LDRX {
        return None;
    }
    Some(Instr::Ldrx {
        rt: Rd::get(word) as u8,
        rn: Rn::get(word) as u8,
        rm: Rm::get(word) as u8,
    })
}

#[tactic(auto, unfolding(crate::specs::Reading::unscaled_of))]
fn decode_unscaled(word: u32) -> Option<Instr>
    ensures { result ≡ unscaled_of word }
{
    let op = UnscaledOp::find(select_without_operands(word))?;
    Some(Instr::Unscaled {
        op,
        rt: Rd::get(word) as u8,
        rn: Rn::get(word) as u8,
        imm: from_bits(Imm9::get(word), 1 << 8),
    })
}

#[tactic(auto, unfolding(crate::specs::Reading::branch_of))]
fn decode_branch(word: u32) -> Option<Instr>
    ensures { result ≡ branch_of word }
{
    let op = BranchOp::find(branch_without_operands(word))?;
    Some(Instr::Branch {
        op,
        words: from_bits(Imm26::get(word), 1 << 25),
    })
}

#[tactic(auto, unfolding(crate::specs::Reading::branch_if_of))]
fn decode_branch_if(word: u32) -> Option<Instr>
    ensures { result ≡ branch_if_of word }
{
    if branch_if_without_operands(word) != BRANCH_IF {
        return None;
    }
    let cond = Cond::find(BranchCond::get(word))?;
    Some(Instr::BranchIf {
        cond,
        words: from_bits(Imm19::get(word), 1 << 18),
    })
}

#[tactic(auto, unfolding(crate::specs::Reading::branch_reg_of))]
fn decode_branch_reg(word: u32) -> Option<Instr>
    ensures { result ≡ branch_reg_of word }
{
    let op = BranchRegOp::find(branch_reg_without_operands(word))?;
    Some(Instr::BranchReg {
        op,
        rn: Rn::get(word) as u8,
    })
}

#[tactic(auto, unfolding(crate::specs::Reading::nop_of))]
fn decode_nop(word: u32) -> Option<Instr>
    ensures { result ≡ nop_of word }
{
    if word == NOP { Some(Instr::Nop) } else { None }
}
