// From bytes to instructions.

ghost use Rattle.std.specs.Prelude.{◌≡◌, ◌≤◌, ◌++◌, ℕ, List, length, Some, IfSome, IfNone};
ghost use Rattle.lg_base.specs.Fronts.{BeginsWith};
ghost use Rattle.lg_rv.specs.Spelling.{IsInstr, spelling};
ghost use Rattle.lg_base.specs.Fields.{part};
ghost use Rattle.lg_base.specs.WordFronts.{word_front};
ghost use Rattle.lg_rv.specs.Reading.{front_of, instr_of, upper_of, jal_of, branch_of, imm_of, shift_of, word_shift_of, store_of, reg_of};

use crate::fields::{Amount, Funct3, Funct6, Funct7, Imm12, Imm20, Opcode, Rd, Rs1, Rs2};
use crate::instruction::{BranchOp, ImmOp, Instr, RegOp, ShiftOp, StoreOp, UpperOp};
use lg_base::Field;
use lg_base::number::from_bits;
use lg_base::word::word_in_front;

/// Returns the instruction that the bytes begin with, and its length, 4, or `None` if the first 4 bytes are
/// no word of the table, or there are fewer than 4.
#[inline(always)]
pub fn decode(bytes: &[u8]) -> Option<(Instr, u32)>
    ensures value { result ≡ front_of bytes.now }
    // whatever follows its spelling, an instruction is read as itself
    ensures again { (i : Instr) (more : List ℕ) → IsInstr i → bytes.now ≡ spelling i ++ more → result ≡ Some (i, length (spelling i)) }
    // what is read is spelled by the bytes in front
    ensures front { IfSome result (λ found. BeginsWith spelling IsInstr bytes.now found.0 × (found.1 ≡ length (spelling found.0))) }
    ensures none { IfNone result ((i : Instr) → BeginsWith spelling IsInstr bytes.now i → ⊥) }
{
    decode_front(bytes)
}

#[inline(always)]
#[tactic(auto, unfolding(lg_base::specs::WordFronts::word_front))]
fn decode_front(bytes: &[u8]) -> Option<(Instr, u32)>
    ensures { result ≡ word_front instr_of bytes.now }
{
    if bytes.len() < 4 {
        return None;
    }
    let instr = decode_word(word_in_front(bytes))?;
    Some((instr, 4))
}

#[inline(always)]
#[tactic(auto, unfolding(crate::specs::Reading::instr_at))]
fn decode_word(word: u32) -> Option<Instr>
    ensures { result ≡ instr_of word }
{
    let funct3 = Funct3::get(word);
    match Opcode::get(word) {
        0x33 => decode_reg(0x33, word),
        0x3b => decode_reg(0x3b, word),
        0x63 => decode_branch(word),
        0x23 => decode_store(word),
        0x37 | 0x17 => decode_upper(word),
        0x6f => decode_jal(word),
        0x13 => match funct3 {
            1 | 5 => decode_shift(word),
            _ => decode_imm(word),
        },
        0x1b => match funct3 {
            1 | 5 => decode_word_shift(word),
            _ => decode_imm(word),
        },
        _ => decode_imm(word),
    }
}

#[tactic(auto, unfolding(crate::specs::Reading::upper_of))]
fn decode_upper(word: u32) -> Option<Instr>
    ensures { result ≡ upper_of word }
{
    let op = UpperOp::find(Opcode::get(word), 0, 0)?;
    Some(Instr::Upper {
        op,
        rd: Rd::get(word) as u8,
        imm: Imm20::get(word),
    })
}

#[tactic(auto, unfolding(crate::specs::Reading::jal_of))]
fn decode_jal(word: u32) -> Option<Instr>
    ensures { result ≡ jal_of word }
{
    let bits = Field::<1, 10>::put(0, Field::<21, 10>::get(word));
    let bits = Field::<11, 1>::put(bits, Field::<20, 1>::get(word));
    let bits = Field::<12, 8>::put(bits, Field::<12, 8>::get(word));
    let bits = Field::<20, 1>::put(bits, Field::<31, 1>::get(word));
    Some(Instr::Jal {
        rd: Rd::get(word) as u8,
        offset: from_bits(bits, 1 << 20),
    })
}

#[tactic(auto, unfolding(crate::specs::Reading::branch_of))]
fn decode_branch(word: u32) -> Option<Instr>
    ensures { result ≡ branch_of word }
{
    let op = BranchOp::find(Opcode::get(word), Funct3::get(word), 0)?;
    let bits = Field::<1, 4>::put(0, Field::<8, 4>::get(word));
    let bits = Field::<5, 6>::put(bits, Field::<25, 6>::get(word));
    let bits = Field::<11, 1>::put(bits, Field::<7, 1>::get(word));
    let bits = Field::<12, 1>::put(bits, Field::<31, 1>::get(word));
    Some(Instr::Branch {
        op,
        rs1: Rs1::get(word) as u8,
        rs2: Rs2::get(word) as u8,
        offset: from_bits(bits, 1 << 12),
    })
}

#[tactic(auto, unfolding(crate::specs::Reading::imm_of))]
fn decode_imm(word: u32) -> Option<Instr>
    ensures { result ≡ imm_of word }
{
    let op = ImmOp::find(Opcode::get(word), Funct3::get(word), 0)?;
    Some(Instr::Imm {
        op,
        rd: Rd::get(word) as u8,
        rs1: Rs1::get(word) as u8,
        imm: from_bits(Imm12::get(word), 1 << 11),
    })
}

#[tactic(auto, unfolding(crate::specs::Reading::shift_of))]
fn decode_shift(word: u32) -> Option<Instr>
    ensures { result ≡ shift_of word }
{
    let op = ShiftOp::find(Opcode::get(word), Funct3::get(word), Funct6::get(word))?;
    Some(Instr::Shift {
        op,
        rd: Rd::get(word) as u8,
        rs1: Rs1::get(word) as u8,
        amount: Amount::get(word) as u8,
    })
}

// On 32 bits the number of a shift has five bits, and bit 25 is 0.
#[tactic(auto, unfolding(crate::specs::Reading::word_shift_of))]
fn decode_word_shift(word: u32) -> Option<Instr>
    ensures { result ≡ word_shift_of word }
{
    if Field::<25, 1>::get(word) == 0 {
        decode_shift(word)
    } else {
        None
    }
}

#[tactic(auto, unfolding(crate::specs::Reading::store_of))]
fn decode_store(word: u32) -> Option<Instr>
    ensures { result ≡ store_of word }
{
    let op = StoreOp::find(Opcode::get(word), Funct3::get(word), 0)?;
    let bits = Field::<0, 5>::put(0, Field::<7, 5>::get(word));
    let bits = Field::<5, 7>::put(bits, Field::<25, 7>::get(word));
    Some(Instr::Store {
        op,
        rs1: Rs1::get(word) as u8,
        rs2: Rs2::get(word) as u8,
        imm: from_bits(bits, 1 << 11),
    })
}

#[tactic(auto, unfolding(crate::specs::Reading::reg_of))]
fn decode_reg(opcode: u32, word: u32) -> Option<Instr>
    requires { opcode ≡ part 0 7 word }
    ensures { result ≡ reg_of word }
{
    let rd = Rd::get(word) as u8;
    let rs1 = Rs1::get(word) as u8;
    let rs2 = Rs2::get(word) as u8;
    let op = RegOp::find(opcode, Funct3::get(word), Funct7::get(word))?;
    Some(Instr::Reg { op, rd, rs1, rs2 })
}
