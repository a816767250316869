// The operations on one word, and `retval`.

ghost use Rattle.std.specs.Prelude.{◌≡◌, ◌+◌, ◌≤◌, ◌++◌};
ghost use Rattle.lg_sela_values.specs.Items.{ones, words_in};
ghost use Rattle.lg_sela_values.specs.UnaryCode.{unary_code, retval_code};

use crate::{Item, ZERO, bitfield, row};
use lg_a64::{BitfieldOp, Instr, RegOp, ReverseOp};
use lg_carry::values::extension;
use lg_op::{UnaryOp, ValueType};
use lg_sel::Items;

// `d` gets the bytes of `a` in another order.
fn reverse(op: ReverseOp, d: u8, a: u8) -> Instr
    ensures { result ≡ Instr.Reverse op d a }
{
    Instr::Reverse { op, rd: d, rn: a }
}

/// Appends the code of `d = op a`, at most 2 instructions, for which there is room.
pub fn unary_code(op: UnaryOp, d: u8, a: u8, items: &mut Items<Item>)
    requires { words_in items.old + 2 ≤ 64 }
    ensures { items.new ≡ items.old ++ ones (unary_code op d a) }
{
    match op {
        UnaryOp::Neg => items.one(row(RegOp::Sub, d, ZERO, a)),
        UnaryOp::Com => items.one(row(RegOp::Orn, d, ZERO, a)),
        UnaryOp::Mov => items.one(row(RegOp::Orr, d, ZERO, a)),
        UnaryOp::ExtrC => items.one(bitfield(BitfieldOp::Sbfm, d, a, 0, 7)),
        UnaryOp::ExtrUc => items.one(bitfield(BitfieldOp::Ubfm, d, a, 0, 7)),
        UnaryOp::ExtrS => items.one(bitfield(BitfieldOp::Sbfm, d, a, 0, 15)),
        UnaryOp::ExtrUs => items.one(bitfield(BitfieldOp::Ubfm, d, a, 0, 15)),
        UnaryOp::ExtrI => items.one(bitfield(BitfieldOp::Sbfm, d, a, 0, 31)),
        UnaryOp::ExtrUi => items.one(bitfield(BitfieldOp::Ubfm, d, a, 0, 31)),
        UnaryOp::HtonrUs => items.all(&[
            reverse(ReverseOp::Rev16, d, a),
            bitfield(BitfieldOp::Ubfm, d, d, 0, 15),
        ]),
        UnaryOp::HtonrUi => items.all(&[
            reverse(ReverseOp::Rev32, d, a),
            bitfield(BitfieldOp::Ubfm, d, d, 0, 31),
        ]),
        UnaryOp::HtonrUl => items.one(reverse(ReverseOp::Rev, d, a)),
    }
}

// The register of the result of a call, x0.
const RESULT: u8 = 0;

/// Appends the code that puts the result of a call into `d`, extended by its type: at most 2 instructions, for which there is room.
pub fn retval_code(value: ValueType, d: u8, items: &mut Items<Item>)
    requires { words_in items.old + 2 ≤ 64 }
    ensures { items.new ≡ items.old ++ ones (retval_code value d) }
{
    unary_code(extension(value), d, RESULT, items);
}
