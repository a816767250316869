// The operations on one word, and `retval`.

ghost use Rattle.std.specs.Prelude.{◌≡◌, ◌+◌, ◌*◌, ◌≤◌, ◌++◌};
ghost use Rattle.lg_selr_values.specs.Items.{ones, words_in};
ghost use Rattle.lg_selr_values.specs.UnaryCode.{more_bytes_code, swapped_code, unary_code, retval_code};

use crate::{CARRY, Item, LINK, ZERO, imm, row, shift};
use lg_carry::values::extension;
use lg_op::{UnaryOp, ValueType};
use lg_rv::{ImmOp, RegOp, ShiftOp};
use lg_sel::Items;

// Appends the code that puts this many further bytes of the link after those of `d`: 4 instructions for each, for which there is room.
fn more_bytes_code(d: u8, n: u32, items: &mut Items<Item>)
    requires { words_in items.old + 4 * n ≤ 64 }
    ensures { items.new ≡ items.old ++ ones (more_bytes_code d n) }
{
    if n > 0 {
        items.all(&[
            shift(ShiftOp::Srli, LINK, LINK, 8),
            imm(ImmOp::Andi, CARRY, LINK, 255),
            shift(ShiftOp::Slli, d, d, 8),
            row(RegOp::Or, d, d, CARRY),
        ]);
        more_bytes_code(d, n - 1, items);
    }
}

// Appends the code that puts the low byte of `a` and this many further bytes into `d`, in the other order. There is room for 2 instructions and 4 for each
// further byte.
#[tactic(auto, using(crate::proofs::EmissionLemmas::ones_twice))]
fn swapped_code(d: u8, a: u8, n: u32, items: &mut Items<Item>)
    requires { words_in items.old + 2 + 4 * n ≤ 64 }
    ensures { items.new ≡ items.old ++ ones (swapped_code d a n) }
{
    items.all(&[imm(ImmOp::Addi, LINK, a, 0), imm(ImmOp::Andi, d, LINK, 255)]);
    more_bytes_code(d, n, items);
}

/// Appends the code of `d = op a`, at most 30 instructions, for which there is room.
pub fn unary_code(op: UnaryOp, d: u8, a: u8, items: &mut Items<Item>)
    requires { words_in items.old + 30 ≤ 64 }
    ensures { items.new ≡ items.old ++ ones (unary_code op d a) }
{
    match op {
        UnaryOp::Neg => items.one(row(RegOp::Sub, d, ZERO, a)),
        UnaryOp::Com => items.one(imm(ImmOp::Xori, d, a, -1)),
        UnaryOp::Mov => items.one(imm(ImmOp::Addi, d, a, 0)),
        UnaryOp::ExtrC => items.all(&[
            shift(ShiftOp::Slli, d, a, 56),
            shift(ShiftOp::Srai, d, d, 56),
        ]),
        UnaryOp::ExtrUc => items.one(imm(ImmOp::Andi, d, a, 255)),
        UnaryOp::ExtrS => items.all(&[
            shift(ShiftOp::Slli, d, a, 48),
            shift(ShiftOp::Srai, d, d, 48),
        ]),
        UnaryOp::ExtrUs => items.all(&[
            shift(ShiftOp::Slli, d, a, 48),
            shift(ShiftOp::Srli, d, d, 48),
        ]),
        UnaryOp::ExtrI => items.one(imm(ImmOp::Addiw, d, a, 0)),
        UnaryOp::ExtrUi => items.all(&[
            shift(ShiftOp::Slli, d, a, 32),
            shift(ShiftOp::Srli, d, d, 32),
        ]),
        UnaryOp::HtonrUs => swapped_code(d, a, 1, items),
        UnaryOp::HtonrUi => swapped_code(d, a, 3, items),
        UnaryOp::HtonrUl => swapped_code(d, a, 7, items),
    }
}

// The register of the result of a call, x10.
const RESULT: u8 = 10;

/// Appends the code that puts the result of a call into `d`, extended by its type: 1 or 2 instructions. There is room for 30.
pub fn retval_code(value: ValueType, d: u8, items: &mut Items<Item>)
    requires { words_in items.old + 30 ≤ 64 }
    ensures { items.new ≡ items.old ++ ones (retval_code value d) }
{
    unary_code(extension(value), d, RESULT, items);
}
