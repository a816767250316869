// From bytes to instructions: the instruction that the bytes may begin with is guessed, carelessly, and accepted where tests of REX, the mode, SIB and the
// number's length say that the bytes are its spelling.

ghost use Rattle.std.specs.Prelude.{◌≡◌, ◌≤◌, ◌+◌, ◌++◌, ℕ, List, length, Some, IfSome, IfNone};
ghost use Rattle.lg_base.specs.Fronts.{BeginsWith};
ghost use Rattle.lg_x86.specs.Spelling.{IsInstr, spelling};
ghost use Rattle.lg_x86.specs.Reading.{front_of};
ghost use Rattle.lg_x86.specs.Reading.{read_of, read_sized, read_code, read_short, read_digit, read_jump, read_other, read_escaped, read_reg, read_rm};
ghost use Rattle.lg_x86.specs.Reading.{read_imm, read_movi, read_lea};
ghost use Rattle.lg_x86.specs.Reading.{mark_in, has_registers};

use crate::accept::{
    accept_bare, accept_bswap, accept_imm, accept_jump_if_near, accept_jump_if_short,
    accept_jump_near, accept_jump_reg, accept_jump_short, accept_lea, accept_load, accept_movi,
    accept_movs, accept_reg_rm, accept_rm_reg, accept_set, accept_shift, accept_stack,
    accept_store, accept_unary,
};
use crate::fields::{
    byte_at, fits_short, index_register, is_memory, is_sum, long_number, memory_length, names_one,
    names_registers, skip,
};
use crate::instruction::Instr;
use crate::prefixes::{
    asks_low_one, asks_marked, asks_none, asks_plain_one, asks_wide, asks_wide_one, is_low,
    is_marked, mark,
};
use crate::rows::Mark;

/// Returns the instruction that the bytes begin with, and its length, 1 to 10, or `None` if no row's spelling
/// begins them.
#[inline(always)]
pub fn decode(bytes: &[u8]) -> Option<(Instr, u32)>
    ensures value { result ≡ front_of bytes.now }
    // whatever follows its spelling, an instruction is read as itself
    ensures again { (i : Instr) (more : List ℕ) → IsInstr i → bytes.now ≡ spelling i ++ more → result ≡ Some (i, length (spelling i)) }
    // what is read is spelled by the bytes in front
    ensures front { IfSome result (λ found. BeginsWith spelling IsInstr bytes.now found.0 × (found.1 ≡ length (spelling found.0))) }
    ensures none { IfNone result ((i : Instr) → BeginsWith spelling IsInstr bytes.now i → ⊥) }
{
    read(bytes)
}

#[inline(always)]
#[tactic(auto, unfolding(crate::specs::Reading::read_of))]
fn read(bytes: &[u8]) -> Option<(Instr, u32)>
    ensures exact { result ≡ read_of bytes.now }
    ensures valid { IfSome result (λ found. IsInstr found.0) }
{
    let (is_word_sized, len, rest) = if byte_at(bytes, 0) == 0x66 {
        (true, 1, skip(bytes, 1))
    } else {
        (false, 0, bytes)
    };
    read_sized(is_word_sized, len, rest)
}

#[inline(always)]
#[tactic(auto, unfolding(crate::specs::Reading::read_sized))]
fn read_sized(is_word_sized: bool, len: u32, bytes: &[u8]) -> Option<(Instr, u32)>
    requires { len ≤ 1 }
    ensures exact { result ≡ read_sized is_word_sized len bytes.now }
    ensures valid { IfSome result (λ found. IsInstr found.0) }
{
    let first = byte_at(bytes, 0);
    let (rex, len, rest) = if first / 16 == 4 {
        (first, len + 1, skip(bytes, 1))
    } else {
        (0, len, bytes)
    };
    read_code(is_word_sized, rex, len, rest)
}

#[inline(always)]
#[tactic(auto, unfolding(crate::specs::Reading::read_code))]
fn read_code(is_word_sized: bool, rex: u8, len: u32, bytes: &[u8]) -> Option<(Instr, u32)>
    requires { len ≤ 2 }
    ensures exact { result ≡ read_code is_word_sized rex len bytes.now }
    ensures valid { IfSome result (λ found. IsInstr found.0) }
{
    let first = byte_at(bytes, 0);
    if first == 0x0f {
        read_escaped(
            is_word_sized,
            rex,
            len + 2,
            byte_at(bytes, 1),
            skip(bytes, 2),
        )
    } else {
        read_short(is_word_sized, rex, len + 1, first, skip(bytes, 1))
    }
}

// an instruction whose opcode has one byte: most compute, move, store or load
#[inline(always)]
#[tactic(auto, unfolding(crate::specs::Reading::read_short))]
fn read_short(
    is_word_sized: bool,
    rex: u8,
    len: u32,
    opcode: u8,
    tail: &[u8],
) -> Option<(Instr, u32)>
    requires { len ≤ 4 }
    ensures exact { result ≡ read_short is_word_sized rex len (mark_in rex) (has_registers tail.now) opcode tail.now }
    ensures valid { IfSome result (λ found. IsInstr found.0) }
{
    if opcode < 0x40 || opcode / 8 == 17 {
        return read_other(is_word_sized, rex, len, opcode, tail);
    }
    if opcode / 16 == 7 {
        return accept_jump_if_short(
            asks_none(is_word_sized, rex) && tail.len() >= 1,
            len + 1,
            opcode,
            tail,
        );
    }
    if opcode / 16 == 5 {
        return accept_stack(asks_plain_one(is_word_sized, rex), len, rex, opcode);
    }
    if opcode / 8 == 23 {
        return read_movi(is_word_sized, rex, len, mark(rex), opcode, tail);
    }
    read_digit(is_word_sized, rex, len, opcode, tail)
}

// after this byte ModRM has a digit, and a register that a number or nothing is beside; or another instruction
#[inline(always)]
#[tactic(auto, unfolding(crate::specs::Reading::read_digit))]
fn read_digit(
    is_word_sized: bool,
    rex: u8,
    len: u32,
    opcode: u8,
    tail: &[u8],
) -> Option<(Instr, u32)>
    requires { len ≤ 4 }
    ensures exact { result ≡ read_digit is_word_sized rex len (mark_in rex) (has_registers tail.now) opcode tail.now }
    ensures valid { IfSome result (λ found. IsInstr found.0) }
{
    match opcode {
        0x81 | 0x83 => read_imm(is_word_sized, rex, len, opcode, tail),
        0xc1 => accept_shift(
            asks_wide_one(is_word_sized, rex) && (names_registers(tail) && tail.len() >= 2),
            len + 2,
            rex,
            tail,
        ),
        0xc7 => accept_movs(
            asks_wide_one(is_word_sized, rex) && (names_one(tail) && tail.len() >= 5),
            len + 5,
            rex,
            tail,
        ),
        0xd3 | 0xf7 => accept_unary(
            asks_wide_one(is_word_sized, rex) && names_registers(tail),
            len + 1,
            rex,
            opcode,
            tail,
        ),
        _ => read_jump(is_word_sized, rex, len, opcode, tail),
    }
}

// a jump or call; or another instruction
#[inline(always)]
#[tactic(auto, unfolding(crate::specs::Reading::read_jump))]
fn read_jump(
    is_word_sized: bool,
    rex: u8,
    len: u32,
    opcode: u8,
    tail: &[u8],
) -> Option<(Instr, u32)>
    requires { len ≤ 4 }
    ensures exact { result ≡ read_jump is_word_sized rex len (mark_in rex) (has_registers tail.now) opcode tail.now }
    ensures valid { IfSome result (λ found. IsInstr found.0) }
{
    match opcode {
        0xff => accept_jump_reg(
            asks_plain_one(is_word_sized, rex) && names_registers(tail),
            len + 1,
            rex,
            tail,
        ),
        0xeb => accept_jump_short(
            asks_none(is_word_sized, rex) && tail.len() >= 1,
            len + 1,
            tail,
        ),
        0xe8 | 0xe9 => accept_jump_near(
            asks_none(is_word_sized, rex) && tail.len() >= 4,
            len + 4,
            opcode,
            tail,
        ),
        _ => read_other(is_word_sized, rex, len, opcode, tail),
    }
}

// an instruction with no operand, or one that makes, loads or stores a register
#[inline(always)]
#[tactic(auto, unfolding(crate::specs::Reading::read_other))]
fn read_other(
    is_word_sized: bool,
    rex: u8,
    len: u32,
    opcode: u8,
    tail: &[u8],
) -> Option<(Instr, u32)>
    requires { len ≤ 4 }
    ensures exact { result ≡ read_other is_word_sized rex len (mark_in rex) (has_registers tail.now) opcode tail.now }
    ensures valid { IfSome result (λ found. IsInstr found.0) }
{
    match opcode {
        0x90 | 0x99 | 0xc3 => accept_bare(
            !is_word_sized && (rex == 0 || rex == 0x48),
            len,
            mark(rex),
            opcode,
        ),
        0x8d => read_lea(is_word_sized, rex, len, tail),
        0x88 => accept_store(
            is_low(rex) && is_memory(tail),
            len + memory_length(tail),
            is_word_sized,
            Mark::Low,
            rex,
            opcode,
            tail,
        ),
        0x63 | 0x8b => read_reg(is_word_sized, rex, len, false, opcode, tail),
        0x89 => read_rm(is_word_sized, rex, len, opcode, tail),
        _ => accept_rm_reg(
            asks_wide(is_word_sized, rex) && names_registers(tail),
            len + 1,
            rex,
            opcode,
            tail,
        ),
    }
}

// an instruction whose opcode has the escape byte and this one
#[inline(always)]
#[tactic(auto, unfolding(crate::specs::Reading::read_escaped))]
fn read_escaped(
    is_word_sized: bool,
    rex: u8,
    len: u32,
    opcode: u8,
    tail: &[u8],
) -> Option<(Instr, u32)>
    requires { len ≤ 4 }
    ensures exact { result ≡ read_escaped is_word_sized rex len (mark_in rex) (has_registers tail.now) opcode tail.now }
    ensures valid { IfSome result (λ found. IsInstr found.0) }
{
    if opcode / 16 == 8 {
        return accept_jump_if_near(
            asks_none(is_word_sized, rex) && tail.len() >= 4,
            len + 4,
            opcode,
            tail,
        );
    }
    if opcode / 16 == 9 {
        return accept_set(
            asks_low_one(is_word_sized, rex) && names_one(tail),
            len + 1,
            rex,
            opcode,
            tail,
        );
    }
    if opcode / 8 == 25 {
        return accept_bswap(asks_wide_one(is_word_sized, rex), len, rex, opcode);
    }
    read_reg(is_word_sized, rex, len, true, opcode, tail)
}

// a register that is made from another, or loaded
#[inline(always)]
#[tactic(auto, unfolding(crate::specs::Reading::read_reg))]
fn read_reg(
    is_word_sized: bool,
    rex: u8,
    len: u32,
    is_escaped: bool,
    opcode: u8,
    tail: &[u8],
) -> Option<(Instr, u32)>
    requires { len ≤ 4 }
    ensures exact { result ≡ read_reg is_word_sized rex len (mark_in rex) (has_registers tail.now) is_escaped opcode tail.now }
    ensures valid { IfSome result (λ found. IsInstr found.0) }
{
    if names_registers(tail) {
        accept_reg_rm(
            asks_marked(is_word_sized, rex),
            len + 1,
            mark(rex),
            is_escaped,
            rex,
            opcode,
            tail,
        )
    } else {
        accept_load(
            asks_marked(is_word_sized, rex) && is_memory(tail),
            len + memory_length(tail),
            mark(rex),
            is_escaped,
            rex,
            opcode,
            tail,
        )
    }
}

// a register that is moved, or stored
#[inline(always)]
#[tactic(auto, unfolding(crate::specs::Reading::read_rm))]
fn read_rm(is_word_sized: bool, rex: u8, len: u32, opcode: u8, tail: &[u8]) -> Option<(Instr, u32)>
    requires { len ≤ 4 }
    ensures exact { result ≡ read_rm is_word_sized rex len (mark_in rex) (has_registers tail.now) opcode tail.now }
    ensures valid { IfSome result (λ found. IsInstr found.0) }
{
    if names_registers(tail) {
        accept_rm_reg(asks_wide(is_word_sized, rex), len + 1, rex, opcode, tail)
    } else {
        accept_store(
            is_marked(rex) && is_memory(tail),
            len + memory_length(tail),
            is_word_sized,
            mark(rex),
            rex,
            opcode,
            tail,
        )
    }
}

#[inline(always)]
#[tactic(auto, unfolding(crate::specs::Reading::read_imm))]
fn read_imm(is_word_sized: bool, rex: u8, len: u32, opcode: u8, tail: &[u8]) -> Option<(Instr, u32)>
    requires { len ≤ 4 }
    ensures exact { result ≡ read_imm is_word_sized rex len opcode tail.now }
    ensures valid { IfSome result (λ found. IsInstr found.0) }
{
    if opcode == 0x83 {
        accept_imm(
            asks_wide_one(is_word_sized, rex) && (names_registers(tail) && tail.len() >= 2),
            len + 2,
            rex,
            opcode,
            tail,
        )
    } else {
        let is_long = tail.len() >= 5 && !fits_short(long_number(skip(tail, 1)));
        accept_imm(
            asks_wide_one(is_word_sized, rex) && (names_registers(tail) && is_long),
            len + 5,
            rex,
            opcode,
            tail,
        )
    }
}

#[inline(always)]
#[tactic(auto, unfolding(crate::specs::Reading::read_movi))]
fn read_movi(
    is_word_sized: bool,
    rex: u8,
    len: u32,
    mark: Mark,
    opcode: u8,
    tail: &[u8],
) -> Option<(Instr, u32)>
    requires { len ≤ 4 }
    ensures exact { result ≡ read_movi is_word_sized rex len mark opcode tail.now }
    ensures valid { IfSome result (λ found. IsInstr found.0) }
{
    match mark {
        Mark::Wide => accept_movi(
            asks_wide_one(is_word_sized, rex) && tail.len() >= 8,
            len + 8,
            mark,
            rex,
            opcode,
            tail,
        ),
        Mark::Low | Mark::Plain => accept_movi(
            asks_plain_one(is_word_sized, rex) && tail.len() >= 4,
            len + 4,
            mark,
            rex,
            opcode,
            tail,
        ),
    }
}

#[inline(always)]
#[tactic(auto, unfolding(crate::specs::Reading::read_lea))]
fn read_lea(is_word_sized: bool, rex: u8, len: u32, tail: &[u8]) -> Option<(Instr, u32)>
    requires { len ≤ 4 }
    ensures exact { result ≡ read_lea is_word_sized rex len tail.now }
    ensures valid { IfSome result (λ found. IsInstr found.0) }
{
    if byte_at(tail, 0) % 8 == 4 && index_register(rex, tail) != 4 {
        accept_lea(
            !is_word_sized && rex / 8 % 2 == 1 && is_sum(tail),
            len + 3,
            rex,
            tail,
        )
    } else {
        accept_lea(
            asks_wide(is_word_sized, rex) && is_memory(tail),
            len + memory_length(tail),
            rex,
            tail,
        )
    }
}
