// The operations on two words, from two registers or from a register and a number.

ghost use Rattle.std.specs.Prelude.{◌≡◌, ◌+◌, ◌<◌, ◌≤◌, ◌++◌};
ghost use Rattle.lg_base.specs.Words.{negated};
ghost use Rattle.lg_sela_values.specs.Processor.A64Rows.{zero_register};
ghost use Rattle.lg_sela_values.specs.Items.{ones, words_in};
ghost use Rattle.lg_sela_values.specs.BinaryCode.{failing, remainder_code, register_code, second_register, loaded_code, is_small, takes_small, small_code, takes_negative, negative_code, negative_form_code, small_form_code, mask_width, is_mask, mask_code, mask_form_code, number_form_code};

use crate::{Item, LINK, ZERO, bitfield, imm, mul_add, put_number, row};
use lg_a64::{BitfieldOp, Cond, ImmOp, Instr, MulAddOp, RegOp};
use lg_op::BinaryOp;
use lg_sel::Items;

// Returns the condition that holds after a comparison of two words where the test fails; of an operation that is no test it is that of `ne`.
fn failing(op: BinaryOp) -> Cond
    ensures { result ≡ failing op }
{
    match op {
        BinaryOp::Lt => Cond::Ge,
        BinaryOp::LtU => Cond::Cs,
        BinaryOp::Le => Cond::Gt,
        BinaryOp::LeU => Cond::Hi,
        BinaryOp::Ge => Cond::Lt,
        BinaryOp::GeU => Cond::Cc,
        BinaryOp::Gt => Cond::Le,
        BinaryOp::GtU => Cond::Ls,
        BinaryOp::Eq => Cond::Ne,
        _ => Cond::Eq,
    }
}

// `d` gets 0 where the test fails, else 1.
fn test(op: BinaryOp, d: u8) -> Instr
    ensures { result ≡ Instr.Csinc d zero_register zero_register (failing op) }
{
    Instr::Csinc {
        rd: d,
        rn: ZERO,
        rm: ZERO,
        cond: failing(op),
    }
}

// Appends the code of a remainder: 2 instructions, for which there is room. The quotient waits in the link.
fn remainder_code(divide: RegOp, d: u8, a: u8, b: u8, items: &mut Items<Item>)
    requires { words_in items.old + 2 ≤ 64 }
    ensures { items.new ≡ items.old ++ ones (remainder_code divide d a b) }
{
    items.all(&[
        row(divide, LINK, a, b),
        mul_add(MulAddOp::Msub, d, LINK, b, a),
    ]);
}

/// Appends the code of `d = a op b`, at most 2 instructions, for which there is room.
pub fn register_code(op: BinaryOp, d: u8, a: u8, b: u8, items: &mut Items<Item>)
    requires { words_in items.old + 2 ≤ 64 }
    ensures { items.new ≡ items.old ++ ones (register_code op d a b) }
{
    match op {
        BinaryOp::Add => items.one(row(RegOp::Add, d, a, b)),
        BinaryOp::Sub => items.one(row(RegOp::Sub, d, a, b)),
        BinaryOp::Rsb => items.one(row(RegOp::Sub, d, b, a)),
        BinaryOp::Mul => items.one(mul_add(MulAddOp::Madd, d, a, b, ZERO)),
        BinaryOp::And => items.one(row(RegOp::And, d, a, b)),
        BinaryOp::Or => items.one(row(RegOp::Orr, d, a, b)),
        BinaryOp::Xor => items.one(row(RegOp::Eor, d, a, b)),
        BinaryOp::Lsh => items.one(row(RegOp::Lslv, d, a, b)),
        BinaryOp::Rsh => items.one(row(RegOp::Asrv, d, a, b)),
        BinaryOp::RshU => items.one(row(RegOp::Lsrv, d, a, b)),
        BinaryOp::Div => items.one(row(RegOp::Sdiv, d, a, b)),
        BinaryOp::DivU => items.one(row(RegOp::Udiv, d, a, b)),
        BinaryOp::Rem => remainder_code(RegOp::Sdiv, d, a, b, items),
        BinaryOp::RemU => remainder_code(RegOp::Udiv, d, a, b, items),
        BinaryOp::Addc => items.one(row(RegOp::Adds, d, a, b)),
        BinaryOp::Subc => items.one(row(RegOp::Subs, d, a, b)),
        BinaryOp::Addx => items.one(row(RegOp::Adcs, d, a, b)),
        BinaryOp::Subx => items.one(row(RegOp::Sbcs, d, a, b)),
        _ => items.all(&[row(RegOp::Subs, ZERO, a, b), test(op, d)]),
    }
}

/// Where an immediate stands: in the link, but of a remainder in `u`, a temporary.
pub fn second_register(op: BinaryOp, u: u8) -> u8
    ensures { result ≡ second_register op u }
{
    match op {
        BinaryOp::Rem | BinaryOp::RemU => u,
        _ => LINK,
    }
}

// Appends the code of `d = a op value` over that register, at most 6 instructions, for which there is room.
#[tactic(auto, using(crate::proofs::EmissionLemmas::ones_twice))]
fn loaded_code(op: BinaryOp, u: u8, d: u8, a: u8, value: u64, items: &mut Items<Item>)
    requires { words_in items.old + 6 ≤ 64 }
    ensures { items.new ≡ items.old ++ ones (loaded_code op u d a value) }
{
    let second = second_register(op, u);
    put_number(second, value, items);
    register_code(op, d, a, second, items);
}

// Returns whether a number has 12 bits.
fn is_small(value: u64) -> bool
    ensures { result ≡ is_small value }
{
    value < 4096
}

// Returns whether an instruction of the operation holds such a number.
fn takes_small(op: BinaryOp) -> bool
    ensures { result ≡ takes_small op }
{
    match op {
        BinaryOp::Add | BinaryOp::Sub | BinaryOp::Addc | BinaryOp::Subc => true,
        BinaryOp::Lt | BinaryOp::LtU | BinaryOp::Le | BinaryOp::LeU | BinaryOp::Ge => true,
        BinaryOp::GeU | BinaryOp::Gt | BinaryOp::GtU | BinaryOp::Eq | BinaryOp::Ne => true,
        _ => false,
    }
}

// Appends the code of an operation with a number that its instruction holds: at most 2 instructions, for which there is room.
fn small_code(op: BinaryOp, d: u8, a: u8, value: u64, items: &mut Items<Item>)
    requires small { value < 4096 }
    requires room { words_in items.old + 2 ≤ 64 }
    ensures { items.new ≡ items.old ++ ones (small_code op d a value) }
{
    let number = value as u16;
    match op {
        BinaryOp::Add => items.one(imm(ImmOp::Addi, d, a, number)),
        BinaryOp::Sub => items.one(imm(ImmOp::Subi, d, a, number)),
        BinaryOp::Addc => items.one(imm(ImmOp::Addsi, d, a, number)),
        BinaryOp::Subc => items.one(imm(ImmOp::Subsi, d, a, number)),
        _ => items.all(&[imm(ImmOp::Subsi, ZERO, a, number), test(op, d)]),
    }
}

// Returns whether the other instruction holds the negative of a number.
fn takes_negative(op: BinaryOp) -> bool
    ensures { result ≡ takes_negative op }
{
    match op {
        BinaryOp::Add | BinaryOp::Sub => true,
        _ => false,
    }
}

// Appends the code of a sum or difference with a number whose negative an instruction holds. There is room for it.
fn negative_code(op: BinaryOp, d: u8, a: u8, value: u64, items: &mut Items<Item>)
    requires small { negated value < 4096 }
    requires room { words_in items.old < 64 }
    ensures { items.new ≡ items.old ++ ones (negative_code op d a value) }
{
    let number = value.wrapping_neg() as u16;
    match op {
        BinaryOp::Add => items.one(imm(ImmOp::Subi, d, a, number)),
        _ => items.one(imm(ImmOp::Addi, d, a, number)),
    }
}

// Appends the code of an operation with a number that its instruction does not hold: at most 6 instructions, for which there is room.
fn negative_form_code(op: BinaryOp, u: u8, d: u8, a: u8, value: u64, items: &mut Items<Item>)
    requires { words_in items.old + 6 ≤ 64 }
    ensures { items.new ≡ items.old ++ ones (negative_form_code op u d a value) }
{
    if takes_negative(op) {
        if is_small(value.wrapping_neg()) {
            negative_code(op, d, a, value, items);
        } else {
            loaded_code(op, u, d, a, value, items);
        }
    } else {
        loaded_code(op, u, d, a, value, items);
    }
}

// Appends the code of an operation that is no shift with a number: at most 6 instructions, for which there is room.
fn small_form_code(op: BinaryOp, u: u8, d: u8, a: u8, value: u64, items: &mut Items<Item>)
    requires { words_in items.old + 6 ≤ 64 }
    ensures { items.new ≡ items.old ++ ones (small_form_code op u d a value) }
{
    if takes_small(op) {
        if is_small(value) {
            small_code(op, d, a, value, items);
        } else {
            negative_form_code(op, u, d, a, value, items);
        }
    } else {
        loaded_code(op, u, d, a, value, items);
    }
}

// Returns how many of the lowest bits of a number are ones, one after the other.
#[tactic(auto, unfolding(crate::specs::BinaryCode::mask_width))]
fn mask_width(value: u64) -> u32
    ensures { result ≡ mask_width value }
{
    value.trailing_ones()
}

// Returns whether a number has no other bits, and not all 64.
fn is_mask(value: u64) -> bool
    ensures { result ≡ is_mask value }
{
    let width = mask_width(value);
    0 < width && width < 64 && value == (1 << width) - 1
}

// Appends the code of `and` with a number: at most 6 instructions, for which there is room.
fn mask_form_code(u: u8, d: u8, a: u8, value: u64, items: &mut Items<Item>)
    requires { words_in items.old + 6 ≤ 64 }
    ensures { items.new ≡ items.old ++ ones (mask_form_code u d a value) }
{
    if is_mask(value) {
        items.one(bitfield(BitfieldOp::Ubfm, d, a, 0, (mask_width(value) - 1) as u8));
    } else {
        loaded_code(BinaryOp::And, u, d, a, value, items);
    }
}

/// Appends the code of `d = a op value`, where `u` is a temporary: at most 6 instructions, for which there is room.
pub fn number_form_code(op: BinaryOp, u: u8, d: u8, a: u8, value: u64, items: &mut Items<Item>)
    requires { words_in items.old + 6 ≤ 64 }
    ensures { items.new ≡ items.old ++ ones (number_form_code op u d a value) }
{
    let count = (value % 64) as u8;
    match op {
        BinaryOp::Lsh => items.one(bitfield(BitfieldOp::Ubfm, d, a, (64 - count) % 64, 63 - count)),
        BinaryOp::Rsh => items.one(bitfield(BitfieldOp::Sbfm, d, a, count, 63)),
        BinaryOp::RshU => items.one(bitfield(BitfieldOp::Ubfm, d, a, count, 63)),
        BinaryOp::And => mask_form_code(u, d, a, value, items),
        _ => small_form_code(op, u, d, a, value, items),
    }
}
