// An instruction of each shape, with this length, where the tests hold; else None.

ghost use Rattle.std.specs.Prelude.{◌≡◌, IfSome};
ghost use Rattle.lg_x86.specs.Spelling.{IsInstr};
ghost use Rattle.lg_x86.specs.Reading.{accepted};
ghost use Rattle.lg_x86.specs.Reading.{rm_reg_of, imm_of, reg_rm_of, load_of, store_of, lea_of, movi_of, movs_of, unary_of, shift_of, bswap_of, stack_of};
ghost use Rattle.lg_x86.specs.Reading.{jump_if_short_of, jump_if_near_of, set_of, jump_short_of, jump_near_of, jump_reg_of, bare_of};

use crate::fields::{
    base_register, byte_at, digit, displacement, index_register, long_number, opcode_register,
    reg_register, rm_register, short_number, signed_number, skip, wide_word, word,
};
use crate::instruction::{
    BareOp, Cond, ImmOp, Instr, JumpNearOp, JumpRegOp, LoadOp, RegRmOp, RmRegOp, ShiftOp, StackOp,
    StoreOp, UnaryOp,
};
use crate::rows::Mark;

#[inline(always)]
#[tactic(auto, unfolding(crate::specs::Reading::rm_reg_of))]
pub(crate) fn accept_rm_reg(
    fits: bool,
    len: u32,
    rex: u8,
    opcode: u8,
    tail: &[u8],
) -> Option<(Instr, u32)>
    ensures exact { result ≡ accepted fits len (rm_reg_of rex opcode tail.now) }
    ensures valid { IfSome result (λ found. IsInstr found.0) }
{
    if !fits {
        return None;
    }
    let op = RmRegOp::find(opcode)?;
    Some((
        Instr::RmReg {
            op,
            rm: rm_register(rex, tail),
            reg: reg_register(rex, tail),
        },
        len,
    ))
}

#[inline(always)]
#[tactic(auto, unfolding(crate::specs::Reading::imm_of))]
pub(crate) fn accept_imm(
    fits: bool,
    len: u32,
    rex: u8,
    opcode: u8,
    tail: &[u8],
) -> Option<(Instr, u32)>
    ensures exact { result ≡ accepted fits len (imm_of rex opcode tail.now) }
    ensures valid { IfSome result (λ found. IsInstr found.0) }
{
    if !fits {
        return None;
    }
    let op = ImmOp::find(digit(tail))?;
    Some((
        Instr::Imm {
            op,
            rm: rm_register(rex, tail),
            imm: signed_number(opcode == 0x83, skip(tail, 1)),
        },
        len,
    ))
}

#[inline(always)]
#[tactic(auto, unfolding(crate::specs::Reading::reg_rm_of))]
pub(crate) fn accept_reg_rm(
    fits: bool,
    len: u32,
    mark: Mark,
    is_escaped: bool,
    rex: u8,
    opcode: u8,
    tail: &[u8],
) -> Option<(Instr, u32)>
    ensures exact { result ≡ accepted fits len (reg_rm_of mark is_escaped rex opcode tail.now) }
    ensures valid { IfSome result (λ found. IsInstr found.0) }
{
    if !fits {
        return None;
    }
    let op = RegRmOp::find(false, mark, is_escaped, opcode)?;
    Some((
        Instr::RegRm {
            op,
            reg: reg_register(rex, tail),
            rm: rm_register(rex, tail),
        },
        len,
    ))
}

#[inline(always)]
#[tactic(auto, unfolding(crate::specs::Reading::load_of))]
pub(crate) fn accept_load(
    fits: bool,
    len: u32,
    mark: Mark,
    is_escaped: bool,
    rex: u8,
    opcode: u8,
    tail: &[u8],
) -> Option<(Instr, u32)>
    ensures exact { result ≡ accepted fits len (load_of mark is_escaped rex opcode tail.now) }
    ensures valid { IfSome result (λ found. IsInstr found.0) }
{
    if !fits {
        return None;
    }
    let op = LoadOp::find(false, mark, is_escaped, opcode)?;
    Some((
        Instr::Load {
            op,
            reg: reg_register(rex, tail),
            base: rm_register(rex, tail),
            disp: displacement(tail),
        },
        len,
    ))
}

#[inline(always)]
#[tactic(auto, unfolding(crate::specs::Reading::store_of))]
pub(crate) fn accept_store(
    fits: bool,
    len: u32,
    is_word_sized: bool,
    mark: Mark,
    rex: u8,
    opcode: u8,
    tail: &[u8],
) -> Option<(Instr, u32)>
    ensures exact { result ≡ accepted fits len (store_of is_word_sized mark rex opcode tail.now) }
    ensures valid { IfSome result (λ found. IsInstr found.0) }
{
    if !fits {
        return None;
    }
    let op = StoreOp::find(is_word_sized, mark, false, opcode)?;
    Some((
        Instr::Store {
            op,
            base: rm_register(rex, tail),
            disp: displacement(tail),
            reg: reg_register(rex, tail),
        },
        len,
    ))
}

#[inline(always)]
#[tactic(auto, unfolding(crate::specs::Reading::lea_of))]
pub(crate) fn accept_lea(fits: bool, len: u32, rex: u8, tail: &[u8]) -> Option<(Instr, u32)>
    ensures exact { result ≡ accepted fits len (lea_of rex tail.now) }
    ensures valid { IfSome result (λ found. IsInstr found.0) }
{
    if !fits {
        return None;
    }
    let index = index_register(rex, tail);
    if byte_at(tail, 0) % 8 == 4 && index != 4 {
        Some((
            Instr::Lea2 {
                reg: reg_register(rex, tail),
                base: base_register(rex, tail),
                index,
            },
            len,
        ))
    } else {
        Some((
            Instr::Load {
                op: LoadOp::Lea,
                reg: reg_register(rex, tail),
                base: rm_register(rex, tail),
                disp: displacement(tail),
            },
            len,
        ))
    }
}

#[inline(always)]
#[tactic(auto, unfolding(crate::specs::Reading::movi_of))]
pub(crate) fn accept_movi(
    fits: bool,
    len: u32,
    mark: Mark,
    rex: u8,
    opcode: u8,
    tail: &[u8],
) -> Option<(Instr, u32)>
    ensures exact { result ≡ accepted fits len (movi_of mark rex opcode tail.now) }
    ensures valid { IfSome result (λ found. IsInstr found.0) }
{
    if !fits {
        return None;
    }
    let reg = opcode_register(rex, opcode);
    match mark {
        Mark::Wide => Some((
            Instr::Movi64 {
                reg,
                imm: wide_word(tail),
            },
            len,
        )),
        Mark::Low | Mark::Plain => Some((
            Instr::Movi32 {
                reg,
                imm: word(tail),
            },
            len,
        )),
    }
}

#[inline(always)]
#[tactic(auto, unfolding(crate::specs::Reading::movs_of))]
pub(crate) fn accept_movs(fits: bool, len: u32, rex: u8, tail: &[u8]) -> Option<(Instr, u32)>
    ensures exact { result ≡ accepted fits len (movs_of rex tail.now) }
    ensures valid { IfSome result (λ found. IsInstr found.0) }
{
    if !fits {
        return None;
    }
    Some((
        Instr::Movs32 {
            rm: rm_register(rex, tail),
            imm: long_number(skip(tail, 1)),
        },
        len,
    ))
}

#[inline(always)]
#[tactic(auto, unfolding(crate::specs::Reading::unary_of))]
pub(crate) fn accept_unary(
    fits: bool,
    len: u32,
    rex: u8,
    opcode: u8,
    tail: &[u8],
) -> Option<(Instr, u32)>
    ensures exact { result ≡ accepted fits len (unary_of rex opcode tail.now) }
    ensures valid { IfSome result (λ found. IsInstr found.0) }
{
    if !fits {
        return None;
    }
    let op = UnaryOp::find(opcode, digit(tail))?;
    Some((
        Instr::Unary {
            op,
            rm: rm_register(rex, tail),
        },
        len,
    ))
}

#[inline(always)]
#[tactic(auto, unfolding(crate::specs::Reading::shift_of))]
pub(crate) fn accept_shift(fits: bool, len: u32, rex: u8, tail: &[u8]) -> Option<(Instr, u32)>
    ensures exact { result ≡ accepted fits len (shift_of rex tail.now) }
    ensures valid { IfSome result (λ found. IsInstr found.0) }
{
    if !fits {
        return None;
    }
    let count = byte_at(tail, 1);
    if count >= 64 {
        return None;
    }
    let op = ShiftOp::find(digit(tail))?;
    Some((
        Instr::Shift {
            op,
            rm: rm_register(rex, tail),
            count,
        },
        len,
    ))
}

#[inline(always)]
#[tactic(auto, unfolding(crate::specs::Reading::bswap_of))]
pub(crate) fn accept_bswap(fits: bool, len: u32, rex: u8, opcode: u8) -> Option<(Instr, u32)>
    ensures exact { result ≡ accepted fits len (bswap_of rex opcode) }
    ensures valid { IfSome result (λ found. IsInstr found.0) }
{
    if !fits {
        return None;
    }
    Some((
        Instr::Bswap {
            reg: opcode_register(rex, opcode),
        },
        len,
    ))
}

#[inline(always)]
#[tactic(auto, unfolding(crate::specs::Reading::stack_of))]
pub(crate) fn accept_stack(fits: bool, len: u32, rex: u8, opcode: u8) -> Option<(Instr, u32)>
    ensures exact { result ≡ accepted fits len (stack_of rex opcode) }
    ensures valid { IfSome result (λ found. IsInstr found.0) }
{
    if !fits {
        return None;
    }
    let op = StackOp::find(opcode / 8 * 8)?;
    Some((
        Instr::Stack {
            op,
            reg: opcode_register(rex, opcode),
        },
        len,
    ))
}

#[inline(always)]
#[tactic(auto, unfolding(crate::specs::Reading::jump_if_short_of))]
pub(crate) fn accept_jump_if_short(
    fits: bool,
    len: u32,
    opcode: u8,
    tail: &[u8],
) -> Option<(Instr, u32)>
    ensures exact { result ≡ accepted fits len (jump_if_short_of opcode tail.now) }
    ensures valid { IfSome result (λ found. IsInstr found.0) }
{
    if !fits {
        return None;
    }
    let cond = Cond::find(opcode % 16)?;
    Some((
        Instr::JumpIfShort {
            cond,
            distance: short_number(tail),
        },
        len,
    ))
}

#[inline(always)]
#[tactic(auto, unfolding(crate::specs::Reading::jump_if_near_of))]
pub(crate) fn accept_jump_if_near(
    fits: bool,
    len: u32,
    opcode: u8,
    tail: &[u8],
) -> Option<(Instr, u32)>
    ensures exact { result ≡ accepted fits len (jump_if_near_of opcode tail.now) }
    ensures valid { IfSome result (λ found. IsInstr found.0) }
{
    if !fits {
        return None;
    }
    let cond = Cond::find(opcode % 16)?;
    Some((
        Instr::JumpIfNear {
            cond,
            distance: long_number(tail),
        },
        len,
    ))
}

#[inline(always)]
#[tactic(auto, unfolding(crate::specs::Reading::set_of))]
pub(crate) fn accept_set(
    fits: bool,
    len: u32,
    rex: u8,
    opcode: u8,
    tail: &[u8],
) -> Option<(Instr, u32)>
    ensures exact { result ≡ accepted fits len (set_of rex opcode tail.now) }
    ensures valid { IfSome result (λ found. IsInstr found.0) }
{
    if !fits {
        return None;
    }
    let cond = Cond::find(opcode % 16)?;
    Some((
        Instr::Set {
            cond,
            rm: rm_register(rex, tail),
        },
        len,
    ))
}

#[inline(always)]
#[tactic(auto, unfolding(crate::specs::Reading::jump_short_of))]
pub(crate) fn accept_jump_short(fits: bool, len: u32, tail: &[u8]) -> Option<(Instr, u32)>
    ensures exact { result ≡ accepted fits len (jump_short_of tail.now) }
    ensures valid { IfSome result (λ found. IsInstr found.0) }
{
    if !fits {
        return None;
    }
    Some((
        Instr::JumpShort {
            distance: short_number(tail),
        },
        len,
    ))
}

#[inline(always)]
#[tactic(auto, unfolding(crate::specs::Reading::jump_near_of))]
pub(crate) fn accept_jump_near(
    fits: bool,
    len: u32,
    opcode: u8,
    tail: &[u8],
) -> Option<(Instr, u32)>
    ensures exact { result ≡ accepted fits len (jump_near_of opcode tail.now) }
    ensures valid { IfSome result (λ found. IsInstr found.0) }
{
    if !fits {
        return None;
    }
    let op = JumpNearOp::find(opcode)?;
    Some((
        Instr::JumpNear {
            op,
            distance: long_number(tail),
        },
        len,
    ))
}

#[inline(always)]
#[tactic(auto, unfolding(crate::specs::Reading::jump_reg_of))]
pub(crate) fn accept_jump_reg(fits: bool, len: u32, rex: u8, tail: &[u8]) -> Option<(Instr, u32)>
    ensures exact { result ≡ accepted fits len (jump_reg_of rex tail.now) }
    ensures valid { IfSome result (λ found. IsInstr found.0) }
{
    if !fits {
        return None;
    }
    let op = JumpRegOp::find(digit(tail))?;
    Some((
        Instr::JumpReg {
            op,
            rm: rm_register(rex, tail),
        },
        len,
    ))
}

#[inline(always)]
#[tactic(auto, unfolding(crate::specs::Reading::bare_of))]
pub(crate) fn accept_bare(fits: bool, len: u32, mark: Mark, opcode: u8) -> Option<(Instr, u32)>
    ensures exact { result ≡ accepted fits len (bare_of mark opcode) }
    ensures valid { IfSome result (λ found. IsInstr found.0) }
{
    if !fits {
        return None;
    }
    let op = BareOp::find(false, mark, false, opcode)?;
    Some((Instr::Bare { op }, len))
}
