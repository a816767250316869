// The operations that set the carry.

ghost use Rattle.std.specs.Prelude.{◌≡◌, ◌+◌, ◌≤◌, ◌++◌};
ghost use Rattle.lg_selx_values.specs.Items.{ones, words_in};
ghost use Rattle.lg_selx_values.specs.CarryCode.{taken_away, carry_register_code, carry_number_code};

use crate::binary::{commuting, ordered, with_number};
use crate::moves::{SCRATCH, again};
use crate::{Item, mov, row};
use lg_op::BinaryOp;
use lg_sel::Items;
use lg_x86::{ImmOp, RmRegOp};

// Appends the code of a difference: at most 4 instructions, for which there is room. Where `d` is `b` it is made in rbp, since moves keep the
// carry.
fn taken_away(op: RmRegOp, frame: u32, d: u8, a: u8, b: u8, items: &mut Items<Item>)
    requires low { 272 ≤ frame }
    requires high { frame ≤ 65808 }
    requires room { words_in items.old + 4 ≤ 64 }
    ensures { items.new ≡ items.old ++ ones (taken_away op frame d a b) }
{
    if d == b {
        items.all(&[
            mov(SCRATCH, a),
            row(op, SCRATCH, b),
            mov(d, SCRATCH),
            again(frame),
        ]);
    } else {
        ordered(op, d, a, b, items);
    }
}

/// Appends the code of `d = a op b` with its carry: at most 4 instructions, for which there is room. Of an operation that sets no carry nothing
/// is appended.
pub(crate) fn carry_register_code(
    op: BinaryOp,
    frame: u32,
    d: u8,
    a: u8,
    b: u8,
    items: &mut Items<Item>,
)
    requires low { 272 ≤ frame }
    requires high { frame ≤ 65808 }
    requires room { words_in items.old + 4 ≤ 64 }
    ensures { items.new ≡ items.old ++ ones (carry_register_code op frame d a b) }
{
    match op {
        BinaryOp::Addc => commuting(RmRegOp::Add, d, a, b, items),
        BinaryOp::Addx => commuting(RmRegOp::Adc, d, a, b, items),
        BinaryOp::Subc => taken_away(RmRegOp::Sub, frame, d, a, b, items),
        BinaryOp::Subx => taken_away(RmRegOp::Sbb, frame, d, a, b, items),
        _ => {}
    }
}

/// Appends the code of `d = a op value` with its carry: at most 4 instructions, for which there is room. Of an operation that sets no carry
/// nothing is appended.
pub(crate) fn carry_number_code(
    op: BinaryOp,
    frame: u32,
    d: u8,
    a: u8,
    value: u64,
    items: &mut Items<Item>,
)
    requires low { 272 ≤ frame }
    requires high { frame ≤ 65808 }
    requires room { words_in items.old + 4 ≤ 64 }
    ensures { items.new ≡ items.old ++ ones (carry_number_code op frame d a value) }
{
    match op {
        BinaryOp::Addc => with_number(ImmOp::Addi, RmRegOp::Add, frame, d, a, value, items),
        BinaryOp::Addx => with_number(ImmOp::Adci, RmRegOp::Adc, frame, d, a, value, items),
        BinaryOp::Subc => with_number(ImmOp::Subi, RmRegOp::Sub, frame, d, a, value, items),
        BinaryOp::Subx => with_number(ImmOp::Sbbi, RmRegOp::Sbb, frame, d, a, value, items),
        _ => {}
    }
}
