// The operations with two results, which come out in rax and rdx.

ghost use Rattle.std.specs.Prelude.{◌≡◌, ◌+◌, ◌≤◌, ◌++◌};
ghost use Rattle.lg_selx_values.specs.Items.{ones, words_in};
ghost use Rattle.lg_selx_values.specs.WideCode.{rest_code, wide_code, wide_number_code};

use crate::moves::{RAX, RDX, SCRATCH, after_number, again, one, sign};
use crate::{Item, mov};
use lg_op::WideOp;
use lg_sel::Items;
use lg_x86::{Instr, UnaryOp};

// rdx gets 0.
fn zero() -> Instr
    ensures { result ≡ Instr.Movi32 2 0 }
{
    Instr::Movi32 { reg: RDX, imm: 0 }
}

/// Appends the code that makes two words of `a` and `b`, the first into `d` and the second into `e`: at most 8 instructions, for which there is
/// room.
pub(crate) fn wide_code(op: WideOp, frame: u32, d: u8, e: u8, a: u8, b: u8, items: &mut Items<Item>)
    requires low { 272 ≤ frame }
    requires high { frame ≤ 65808 }
    requires room { words_in items.old + 8 ≤ 64 }
    ensures { items.new ≡ items.old ++ ones (wide_code op frame d e a b) }
{
    let second = mov(RDX, b);
    let first = mov(RAX, a);
    let divisor = mov(SCRATCH, RDX);
    let low = mov(d, RAX);
    let high = mov(e, RDX);
    let back = again(frame);
    let multiply = one(UnaryOp::Imul1, RDX);
    let multiply_unsigned = one(UnaryOp::Mul, RDX);
    let divide = one(UnaryOp::Idiv, SCRATCH);
    let divide_unsigned = one(UnaryOp::Div, SCRATCH);
    match op {
        WideOp::Mul => items.all(&[second, first, multiply, low, high]),
        WideOp::MulU => items.all(&[second, first, multiply_unsigned, low, high]),
        WideOp::Div => items.all(&[second, first, divisor, sign(), divide, low, high, back]),
        WideOp::DivU => items.all(&[
            second,
            first,
            divisor,
            zero(),
            divide_unsigned,
            low,
            high,
            back,
        ]),
    }
}

// Appends the code after the move of the dividend or factor to rax: at most 6 instructions, for which there is room.
fn rest_code(op: WideOp, frame: u32, d: u8, e: u8, value: u64, items: &mut Items<Item>)
    requires low { 272 ≤ frame }
    requires high { frame ≤ 65808 }
    requires room { words_in items.old + 6 ≤ 64 }
    ensures { items.new ≡ items.old ++ ones (rest_code op frame d e value) }
{
    let low = mov(d, RAX);
    let high = mov(e, RDX);
    let back = again(frame);
    let multiply = one(UnaryOp::Imul1, RDX);
    let multiply_unsigned = one(UnaryOp::Mul, RDX);
    let divide = one(UnaryOp::Idiv, SCRATCH);
    let divide_unsigned = one(UnaryOp::Div, SCRATCH);
    match op {
        WideOp::Mul => after_number(RDX, value, &[multiply, low, high], items),
        WideOp::MulU => after_number(RDX, value, &[multiply_unsigned, low, high], items),
        WideOp::Div => after_number(SCRATCH, value, &[sign(), divide, low, high, back], items),
        WideOp::DivU => after_number(
            SCRATCH,
            value,
            &[zero(), divide_unsigned, low, high, back],
            items,
        ),
    }
}

/// Appends the code that makes two words of `a` and a number: at most 7 instructions, for which there is room.
#[tactic(auto, using(crate::proofs::EmissionLemmas::ones_after, crate::proofs::EmissionLemmas::one_words))]
pub(crate) fn wide_number_code(
    op: WideOp,
    frame: u32,
    d: u8,
    e: u8,
    a: u8,
    value: u64,
    items: &mut Items<Item>,
)
    requires low { 272 ≤ frame }
    requires high { frame ≤ 65808 }
    requires room { words_in items.old + 7 ≤ 64 }
    ensures { items.new ≡ items.old ++ ones (wide_number_code op frame d e a value) }
{
    items.one(mov(RAX, a));
    rest_code(op, frame, d, e, value, items);
}
