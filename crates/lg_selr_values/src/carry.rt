// The operations that set the carry.

ghost use Rattle.std.specs.Prelude.{◌≡◌, ◌+◌, ◌≤◌, ◌++◌};
ghost use Rattle.lg_selr_values.specs.Items.{ones, words_in};
ghost use Rattle.lg_selr_values.specs.CarryCode.{carry_code};

use crate::{CARRY, Item, LINK, row};
use lg_op::BinaryOp;
use lg_rv::RegOp;
use lg_sel::Items;

/// Appends the code of an operation that sets the carry, on `a` and the word in the link, into `d`, where `u` is a temporary: at most 5
/// instructions, for which there is room. Of every other operation nothing is appended.
pub fn carry_code(op: BinaryOp, u: u8, d: u8, a: u8, items: &mut Items<Item>)
    requires { words_in items.old + 5 ≤ 64 }
    ensures { items.new ≡ items.old ++ ones (carry_code op u d a) }
{
    match op {
        BinaryOp::Addc => items.all(&[
            row(RegOp::Add, d, a, LINK),
            row(RegOp::Sltu, CARRY, d, LINK),
        ]),
        BinaryOp::Subc => items.all(&[
            row(RegOp::Sltu, CARRY, a, LINK),
            row(RegOp::Sub, d, a, LINK),
        ]),
        BinaryOp::Addx => items.all(&[
            row(RegOp::Add, u, a, LINK),
            row(RegOp::Sltu, LINK, u, LINK),
            row(RegOp::Add, d, u, CARRY),
            row(RegOp::Sltu, CARRY, d, CARRY),
            row(RegOp::Or, CARRY, CARRY, LINK),
        ]),
        BinaryOp::Subx => items.all(&[
            row(RegOp::Sltu, u, a, LINK),
            row(RegOp::Sub, LINK, a, LINK),
            row(RegOp::Sub, d, LINK, CARRY),
            row(RegOp::Sltu, CARRY, LINK, CARRY),
            row(RegOp::Or, CARRY, CARRY, u),
        ]),
        _ => {}
    }
}
