// The operations on one word, and `retval`.

ghost use Rattle.std.specs.Prelude.{◌≡◌, ◌+◌, ◌<◌, ◌≤◌, ◌++◌};
ghost use Rattle.lg_selx_values.specs.Items.{ones, words_in};
ghost use Rattle.lg_selx_values.specs.UnaryCode.{unary_code, retval_code};

use crate::moves::{RAX, after_move, ext, moved, one};
use crate::{Item, mov};
use lg_op::{UnaryOp, ValueType};
use lg_sel::Items;
use lg_x86::{Instr, RegRmOp, ShiftOp};

// `d` gets its bytes in reverse order.
fn turned(d: u8) -> Instr
    ensures { result ≡ Instr.Bswap d }
{
    Instr::Bswap { reg: d }
}

// `d` is shifted to the right.
fn lowered(d: u8, count: u8) -> Instr
    ensures { result ≡ Instr.Shift (ShiftOp.Shri) d count }
{
    Instr::Shift {
        op: ShiftOp::Shri,
        rm: d,
        count,
    }
}

/// Appends the code of `d = op a`: at most 3 instructions, for which there is room.
pub(crate) fn unary_code(op: UnaryOp, d: u8, a: u8, items: &mut Items<Item>)
    requires { words_in items.old + 3 ≤ 64 }
    ensures { items.new ≡ items.old ++ ones (unary_code op d a) }
{
    match op {
        UnaryOp::Neg => after_move(d, a, &[one(lg_x86::UnaryOp::Neg, d)], items),
        UnaryOp::Com => after_move(d, a, &[one(lg_x86::UnaryOp::Not, d)], items),
        UnaryOp::Mov => items.one(mov(d, a)),
        UnaryOp::ExtrC => items.one(ext(RegRmOp::Ext8s, d, a)),
        UnaryOp::ExtrUc => items.one(ext(RegRmOp::Ext8u, d, a)),
        UnaryOp::ExtrS => items.one(ext(RegRmOp::Ext16s, d, a)),
        UnaryOp::ExtrUs => items.one(ext(RegRmOp::Ext16u, d, a)),
        UnaryOp::ExtrI => items.one(ext(RegRmOp::Ext32s, d, a)),
        UnaryOp::ExtrUi => items.one(ext(RegRmOp::Ext32u, d, a)),
        UnaryOp::HtonrUs => after_move(d, a, &[turned(d), lowered(d, 48)], items),
        UnaryOp::HtonrUi => after_move(d, a, &[turned(d), lowered(d, 32)], items),
        UnaryOp::HtonrUl => after_move(d, a, &[turned(d)], items),
    }
}

/// Appends the instruction that puts the result of a call into `d`, extended by its type; a word that is there already needs none. There is room for it.
pub(crate) fn retval_code(value: ValueType, d: u8, items: &mut Items<Item>)
    requires { words_in items.old < 64 }
    ensures { items.new ≡ items.old ++ ones (retval_code value d) }
{
    match value {
        ValueType::Char => items.one(ext(RegRmOp::Ext8s, d, RAX)),
        ValueType::UnsignedChar => items.one(ext(RegRmOp::Ext8u, d, RAX)),
        ValueType::Short => items.one(ext(RegRmOp::Ext16s, d, RAX)),
        ValueType::UnsignedShort => items.one(ext(RegRmOp::Ext16u, d, RAX)),
        ValueType::Int => items.one(ext(RegRmOp::Ext32s, d, RAX)),
        ValueType::UnsignedInt => items.one(ext(RegRmOp::Ext32u, d, RAX)),
        ValueType::Long => moved(d, RAX, items),
    }
}
