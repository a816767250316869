// The operations on two words, from two registers or from a register and a number.

ghost use Rattle.std.specs.Prelude.{◌≡◌, ◌+◌, ◌≤◌, ◌++◌};
ghost use Rattle.lg_selr_values.specs.Items.{ones, words_in};
ghost use Rattle.lg_selr_values.specs.BinaryCode.{register_code, is_addend, loaded_code, zero_or_loaded_code, equal_code, unequal_code, held_code, held_or_loaded_code, number_form_code};

use crate::{Item, LINK, ZERO, imm, low_part, put_number, row, shift};
use lg_op::BinaryOp;
use lg_rv::{ImmOp, RegOp, ShiftOp};
use lg_sel::Items;

/// Appends the code of `d = a op b`, at most 2 instructions, for which there is room. Of an operation that sets the carry nothing is appended.
pub fn register_code(op: BinaryOp, d: u8, a: u8, b: u8, items: &mut Items<Item>)
    requires { words_in items.old + 2 ≤ 64 }
    ensures { items.new ≡ items.old ++ ones (register_code op d a b) }
{
    match op {
        BinaryOp::Add => items.one(row(RegOp::Add, d, a, b)),
        BinaryOp::Sub => items.one(row(RegOp::Sub, d, a, b)),
        BinaryOp::Rsb => items.one(row(RegOp::Sub, d, b, a)),
        BinaryOp::Mul => items.one(row(RegOp::Mul, d, a, b)),
        BinaryOp::And => items.one(row(RegOp::And, d, a, b)),
        BinaryOp::Or => items.one(row(RegOp::Or, d, a, b)),
        BinaryOp::Xor => items.one(row(RegOp::Xor, d, a, b)),
        BinaryOp::Lsh => items.one(row(RegOp::Sll, d, a, b)),
        BinaryOp::Rsh => items.one(row(RegOp::Sra, d, a, b)),
        BinaryOp::RshU => items.one(row(RegOp::Srl, d, a, b)),
        BinaryOp::Div => items.one(row(RegOp::Div, d, a, b)),
        BinaryOp::DivU => items.one(row(RegOp::Divu, d, a, b)),
        BinaryOp::Rem => items.one(row(RegOp::Rem, d, a, b)),
        BinaryOp::RemU => items.one(row(RegOp::Remu, d, a, b)),
        BinaryOp::Lt => items.one(row(RegOp::Slt, d, a, b)),
        BinaryOp::LtU => items.one(row(RegOp::Sltu, d, a, b)),
        BinaryOp::Gt => items.one(row(RegOp::Slt, d, b, a)),
        BinaryOp::GtU => items.one(row(RegOp::Sltu, d, b, a)),
        BinaryOp::Le => items.all(&[row(RegOp::Slt, d, b, a), imm(ImmOp::Xori, d, d, 1)]),
        BinaryOp::LeU => items.all(&[row(RegOp::Sltu, d, b, a), imm(ImmOp::Xori, d, d, 1)]),
        BinaryOp::Ge => items.all(&[row(RegOp::Slt, d, a, b), imm(ImmOp::Xori, d, d, 1)]),
        BinaryOp::GeU => items.all(&[row(RegOp::Sltu, d, a, b), imm(ImmOp::Xori, d, d, 1)]),
        BinaryOp::Eq => items.all(&[row(RegOp::Sub, d, a, b), imm(ImmOp::Sltiu, d, d, 1)]),
        BinaryOp::Ne => items.all(&[row(RegOp::Sub, d, a, b), row(RegOp::Sltu, d, ZERO, d)]),
        BinaryOp::Addc | BinaryOp::Subc | BinaryOp::Addx | BinaryOp::Subx => {}
    }
}

// Returns whether the signed view of a number is from -2,047 to 2,047.
fn is_addend(value: u64) -> bool
    ensures { result ≡ is_addend value }
{
    value.wrapping_add(2047) < 4095
}

// Appends the code of `d = a op value` over the link, at most 10 instructions, for which there is room.
#[tactic(auto, using(crate::proofs::EmissionLemmas::number_few, crate::proofs::EmissionLemmas::ones_twice))]
fn loaded_code(op: BinaryOp, d: u8, a: u8, value: u64, items: &mut Items<Item>)
    requires { words_in items.old + 10 ≤ 64 }
    ensures { items.new ≡ items.old ++ ones (loaded_code op d a value) }
{
    put_number(LINK, value, items);
    register_code(op, d, a, LINK, items);
}

// Appends the code of `d = a op value` over x0 where the number is 0, or else over the link: at most 10 instructions, for which there is room.
fn zero_or_loaded_code(op: BinaryOp, d: u8, a: u8, value: u64, items: &mut Items<Item>)
    requires { words_in items.old + 10 ≤ 64 }
    ensures { items.new ≡ items.old ++ ones (zero_or_loaded_code op d a value) }
{
    if value == 0 {
        register_code(op, d, a, ZERO, items);
    } else {
        loaded_code(op, d, a, value, items);
    }
}

// Appends the code of `d = (a == value)`, where an instruction holds the negative of the number. There is room for 2 instructions.
fn equal_code(d: u8, a: u8, value: u64, items: &mut Items<Item>)
    requires { words_in items.old + 2 ≤ 64 }
    ensures { items.new ≡ items.old ++ ones (equal_code d a value) }
{
    if value == 0 {
        items.one(imm(ImmOp::Sltiu, d, a, 1));
    } else {
        let less = low_part(value.wrapping_neg());
        items.all(&[imm(ImmOp::Addi, d, a, less), imm(ImmOp::Sltiu, d, d, 1)]);
    }
}

// Appends the code of `d = (a != value)`, where an instruction holds the negative of the number. There is room for 2 instructions.
fn unequal_code(d: u8, a: u8, value: u64, items: &mut Items<Item>)
    requires { words_in items.old + 2 ≤ 64 }
    ensures { items.new ≡ items.old ++ ones (unequal_code d a value) }
{
    if value == 0 {
        items.one(row(RegOp::Sltu, d, ZERO, a));
    } else {
        let less = low_part(value.wrapping_neg());
        items.all(&[imm(ImmOp::Addi, d, a, less), row(RegOp::Sltu, d, ZERO, d)]);
    }
}

// Appends the code of `d = a op value` where an instruction holds the number or its negative. There is room for 2 instructions. Of an
// operation that has no such instruction nothing is appended.
fn held_code(op: BinaryOp, d: u8, a: u8, value: u64, items: &mut Items<Item>)
    requires { words_in items.old + 2 ≤ 64 }
    ensures { items.new ≡ items.old ++ ones (held_code op d a value) }
{
    let low = low_part(value);
    match op {
        BinaryOp::Add => items.one(imm(ImmOp::Addi, d, a, low)),
        BinaryOp::Sub => items.one(imm(ImmOp::Addi, d, a, low_part(value.wrapping_neg()))),
        BinaryOp::Rsb => items.all(&[row(RegOp::Sub, d, ZERO, a), imm(ImmOp::Addi, d, d, low)]),
        BinaryOp::And => items.one(imm(ImmOp::Andi, d, a, low)),
        BinaryOp::Or => items.one(imm(ImmOp::Ori, d, a, low)),
        BinaryOp::Xor => items.one(imm(ImmOp::Xori, d, a, low)),
        BinaryOp::Lt => items.one(imm(ImmOp::Slti, d, a, low)),
        BinaryOp::LtU => items.one(imm(ImmOp::Sltiu, d, a, low)),
        BinaryOp::Ge => items.all(&[imm(ImmOp::Slti, d, a, low), imm(ImmOp::Xori, d, d, 1)]),
        BinaryOp::GeU => items.all(&[imm(ImmOp::Sltiu, d, a, low), imm(ImmOp::Xori, d, d, 1)]),
        BinaryOp::Eq => equal_code(d, a, value, items),
        BinaryOp::Ne => unequal_code(d, a, value, items),
        _ => {}
    }
}

// Appends the code of `d = a op value` by an instruction that holds the number, or else over the link: at most 10 instructions, for which
// there is room.
fn held_or_loaded_code(op: BinaryOp, d: u8, a: u8, value: u64, items: &mut Items<Item>)
    requires { words_in items.old + 10 ≤ 64 }
    ensures { items.new ≡ items.old ++ ones (held_or_loaded_code op d a value) }
{
    if is_addend(value) {
        held_code(op, d, a, value, items);
    } else {
        loaded_code(op, d, a, value, items);
    }
}

/// Appends the code of `d = a op value`, at most 10 instructions, for which there is room. Of an operation that sets the carry only the
/// value is put into the link.
pub fn number_form_code(op: BinaryOp, d: u8, a: u8, value: u64, items: &mut Items<Item>)
    requires { words_in items.old + 10 ≤ 64 }
    ensures { items.new ≡ items.old ++ ones (number_form_code op d a value) }
{
    match op {
        BinaryOp::Add
        | BinaryOp::Sub
        | BinaryOp::Rsb
        | BinaryOp::And
        | BinaryOp::Or
        | BinaryOp::Xor
        | BinaryOp::Lt
        | BinaryOp::LtU
        | BinaryOp::Ge
        | BinaryOp::GeU
        | BinaryOp::Eq
        | BinaryOp::Ne => held_or_loaded_code(op, d, a, value, items),
        BinaryOp::Lsh => items.one(shift(ShiftOp::Slli, d, a, (value % 64) as u8)),
        BinaryOp::Rsh => items.one(shift(ShiftOp::Srai, d, a, (value % 64) as u8)),
        BinaryOp::RshU => items.one(shift(ShiftOp::Srli, d, a, (value % 64) as u8)),
        BinaryOp::Le | BinaryOp::LeU | BinaryOp::Gt | BinaryOp::GtU => zero_or_loaded_code(
            op, d, a, value, items,
        ),
        _ => loaded_code(op, d, a, value, items),
    }
}
