// The operations with two results.

ghost use Rattle.std.specs.Prelude.{◌≡◌, ◌+◌, ◌≤◌, ◌++◌};
ghost use Rattle.lg_selr_values.specs.Items.{ones, words_in};
ghost use Rattle.lg_selr_values.specs.WideCode.{waited_code, wide_code};

use crate::{Item, LINK, imm, row};
use lg_op::WideOp;
use lg_rv::{ImmOp, RegOp};
use lg_sel::Items;

// Appends the code of `s = a second b` and `t = a first b`, where `s` may be `a` or `b`: 3 instructions, for which there is room.
fn waited_code(first: RegOp, second: RegOp, t: u8, s: u8, a: u8, b: u8, items: &mut Items<Item>)
    requires { words_in items.old + 3 ≤ 64 }
    ensures { items.new ≡ items.old ++ ones (waited_code first second t s a b) }
{
    let wait = row(first, LINK, a, b);
    let copy = imm(ImmOp::Addi, t, LINK, 0);
    items.all(&[wait, row(second, s, a, b), copy]);
}

/// Appends the code that makes two words of `a` and `b`, the first into `d` and the second into `e`: 3 instructions, for which there is room.
pub fn wide_code(op: WideOp, d: u8, e: u8, a: u8, b: u8, items: &mut Items<Item>)
    requires { words_in items.old + 3 ≤ 64 }
    ensures { items.new ≡ items.old ++ ones (wide_code op d e a b) }
{
    match op {
        WideOp::Mul => waited_code(RegOp::Mulh, RegOp::Mul, e, d, a, b, items),
        WideOp::MulU => waited_code(RegOp::Mulhu, RegOp::Mul, e, d, a, b, items),
        WideOp::Div => waited_code(RegOp::Div, RegOp::Rem, d, e, a, b, items),
        WideOp::DivU => waited_code(RegOp::Divu, RegOp::Remu, d, e, a, b, items),
    }
}
