// The operations with two results.

ghost use Rattle.std.specs.Prelude.{◌≡◌, ◌+◌, ◌≤◌, ◌++◌};
ghost use Rattle.lg_sela_values.specs.Processor.A64Rows.{zero_register};
ghost use Rattle.lg_sela_values.specs.Items.{ones, words_in};
ghost use Rattle.lg_sela_values.specs.WideCode.{product_code, quotient_code, wide_code, product_by_link, quotient_by_link, wide_by_link};

use crate::{Item, LINK, ZERO, mul_add, row};
use lg_a64::{Instr, MulAddOp, RegOp};
use lg_op::WideOp;
use lg_sel::Items;

// `d` gets the low word of the product of two registers.
fn product(d: u8, a: u8, b: u8) -> Instr
    ensures { result ≡ Instr.MulAdd (MulAddOp.Madd) d a b zero_register }
{
    mul_add(MulAddOp::Madd, d, a, b, ZERO)
}

// `d` gets a register.
fn moved(d: u8, a: u8) -> Instr
    ensures { result ≡ Instr.Reg (RegOp.Orr) d zero_register a }
{
    row(RegOp::Orr, d, ZERO, a)
}

// Appends the code of both words of a product: 3 instructions, for which there is room. The first waits in the link, since `e` may be `a` or `b`.
fn product_code(high: RegOp, d: u8, e: u8, a: u8, b: u8, items: &mut Items<Item>)
    requires { words_in items.old + 3 ≤ 64 }
    ensures { items.new ≡ items.old ++ ones (product_code high d e a b) }
{
    items.all(&[product(LINK, a, b), row(high, e, a, b), moved(d, LINK)]);
}

// Appends the code of quotient and remainder: 3 instructions, for which there is room.
fn quotient_code(divide: RegOp, d: u8, e: u8, a: u8, b: u8, items: &mut Items<Item>)
    requires { words_in items.old + 3 ≤ 64 }
    ensures { items.new ≡ items.old ++ ones (quotient_code divide d e a b) }
{
    let left = mul_add(MulAddOp::Msub, e, LINK, b, a);
    items.all(&[row(divide, LINK, a, b), left, moved(d, LINK)]);
}

/// Appends the code that makes two words of `a` and `b`, the first into `d` and the second into `e`: 3 instructions, for which there is room.
pub fn wide_code(op: WideOp, d: u8, e: u8, a: u8, b: u8, items: &mut Items<Item>)
    requires { words_in items.old + 3 ≤ 64 }
    ensures { items.new ≡ items.old ++ ones (wide_code op d e a b) }
{
    match op {
        WideOp::Mul => product_code(RegOp::Smulh, d, e, a, b, items),
        WideOp::MulU => product_code(RegOp::Umulh, d, e, a, b, items),
        WideOp::Div => quotient_code(RegOp::Sdiv, d, e, a, b, items),
        WideOp::DivU => quotient_code(RegOp::Udiv, d, e, a, b, items),
    }
}

// Appends the code of both words of a product by the link: 2 instructions, for which there is room. `e` is written last where it is `a`.
fn product_by_link(high: RegOp, d: u8, e: u8, a: u8, items: &mut Items<Item>)
    requires { words_in items.old + 2 ≤ 64 }
    ensures { items.new ≡ items.old ++ ones (product_by_link high d e a) }
{
    let first = product(d, a, LINK);
    let second = row(high, e, a, LINK);
    if e == a {
        items.all(&[first, second]);
    } else {
        items.all(&[second, first]);
    }
}

// Appends the code of quotient and remainder by the link: at most 4 instructions, for which there is room.
fn quotient_by_link(divide: RegOp, d: u8, e: u8, a: u8, items: &mut Items<Item>)
    requires { words_in items.old + 4 ≤ 64 }
    ensures { items.new ≡ items.old ++ ones (quotient_by_link divide d e a) }
{
    if e == a {
        let left = mul_add(MulAddOp::Msub, e, d, LINK, a);
        items.all(&[row(divide, d, a, LINK), left]);
    } else {
        let left = mul_add(MulAddOp::Msub, LINK, e, LINK, a);
        items.all(&[row(divide, e, a, LINK), left, moved(d, e), moved(e, LINK)]);
    }
}

/// Appends the code that makes two words of `a` and the word in the link: at most 4 instructions, for which there is room.
pub fn wide_by_link(op: WideOp, d: u8, e: u8, a: u8, items: &mut Items<Item>)
    requires { words_in items.old + 4 ≤ 64 }
    ensures { items.new ≡ items.old ++ ones (wide_by_link op d e a) }
{
    match op {
        WideOp::Mul => product_by_link(RegOp::Smulh, d, e, a, items),
        WideOp::MulU => product_by_link(RegOp::Umulh, d, e, a, items),
        WideOp::Div => quotient_by_link(RegOp::Sdiv, d, e, a, items),
        WideOp::DivU => quotient_by_link(RegOp::Udiv, d, e, a, items),
    }
}
