// The operations on two words that set no carry, from two registers or from a register and a number.

ghost use Rattle.std.specs.Prelude.{◌≡◌, ◌+◌, ◌≤◌, ◌++◌, ◌∷◌, true, false};
ghost use Rattle.lg_selx_values.specs.Items.{ones, words_in};
ghost use Rattle.lg_selx_values.specs.BinaryCode.{ordered, commuting, added, difference, product, compared, shifted, high_half, division, is_dividend, divided, cond_of, register_code, with_number, is_near, added_number, less_number, compared_number, product_number, shifted_number, divided_number, number_form_code};

use crate::moves::{
    RAX, RCX, RDX, SCRATCH, after_move, after_number, again, ext, imm, moved, one, sign,
};
use crate::{Item, half_number, lea, mov, row};
use lg_base::word::is_half;
use lg_op::BinaryOp;
use lg_sel::Items;
use lg_x86::{Cond, ImmOp, Instr, RegRmOp, RmRegOp, ShiftOp, UnaryOp};

/// Appends the code of `d = a op b`, where `d` is not `b` or the order of the words does not matter: at most 2 instructions, for which there is
/// room.
pub(crate) fn ordered(op: RmRegOp, d: u8, a: u8, b: u8, items: &mut Items<Item>)
    requires { words_in items.old + 2 ≤ 64 }
    ensures { items.new ≡ items.old ++ ones (ordered op d a b) }
{
    after_move(d, a, &[row(op, d, b)], items);
}

/// Appends the code of an operation in which the order of the words does not matter: at most 2 instructions, for which there is room.
pub(crate) fn commuting(op: RmRegOp, d: u8, a: u8, b: u8, items: &mut Items<Item>)
    requires { words_in items.old + 2 ≤ 64 }
    ensures { items.new ≡ items.old ++ ones (commuting op d a b) }
{
    if d == b {
        items.one(row(op, d, a));
    } else {
        ordered(op, d, a, b, items);
    }
}

// Appends the code of `d = a + b`: at most 2 instructions, for which there is room. Where `d` is neither it is `lea`.
fn added(d: u8, a: u8, b: u8, items: &mut Items<Item>)
    requires { words_in items.old + 2 ≤ 64 }
    ensures { items.new ≡ items.old ++ ones (added d a b) }
{
    if d == a || d == b {
        commuting(RmRegOp::Add, d, a, b, items);
    } else {
        items.one(Instr::Lea2 {
            reg: d,
            base: a,
            index: b,
        });
    }
}

// Appends the code of `d = a - b`: at most 2 instructions, for which there is room. Where `d` is `b` it is the negative of `b - a`.
fn difference(d: u8, a: u8, b: u8, items: &mut Items<Item>)
    requires { words_in items.old + 2 ≤ 64 }
    ensures { items.new ≡ items.old ++ ones (difference d a b) }
{
    if d == b {
        items.all(&[row(RmRegOp::Sub, d, a), one(UnaryOp::Neg, d)]);
    } else {
        ordered(RmRegOp::Sub, d, a, b, items);
    }
}

// Appends the code of `d = a * b`: at most 2 instructions, for which there is room.
fn product(d: u8, a: u8, b: u8, items: &mut Items<Item>)
    requires { words_in items.old + 2 ≤ 64 }
    ensures { items.new ≡ items.old ++ ones (product d a b) }
{
    if d == b {
        items.one(ext(RegRmOp::Imul, d, a));
    } else {
        after_move(d, a, &[ext(RegRmOp::Imul, d, b)], items);
    }
}

// `d` gets 1 in its low byte where the condition holds, else 0.
fn told(cond: Cond, d: u8) -> Instr
    ensures { result ≡ Instr.Set cond d }
{
    Instr::Set { cond, rm: d }
}

// A byte is extended to a word.
fn widened(d: u8) -> Instr
    ensures { result ≡ Instr.RegRm (RegRmOp.Ext8u) d d }
{
    ext(RegRmOp::Ext8u, d, d)
}

// Appends the code of a comparison: 3 instructions, for which there is room.
fn compared(cond: Cond, d: u8, a: u8, b: u8, items: &mut Items<Item>)
    requires { words_in items.old + 3 ≤ 64 }
    ensures { items.new ≡ items.old ++ ones (compared cond d a b) }
{
    items.all(&[row(RmRegOp::Cmp, a, b), told(cond, d), widened(d)]);
}

// Appends the code of a shift by a register, whose count goes to rcx: at most 3 instructions, for which there is room.
#[tactic(auto, using(crate::proofs::EmissionLemmas::ones_after, crate::proofs::EmissionLemmas::one_words))]
fn shifted(op: UnaryOp, d: u8, a: u8, b: u8, items: &mut Items<Item>)
    requires { words_in items.old + 3 ≤ 64 }
    ensures { items.new ≡ items.old ++ ones (shifted op d a b) }
{
    items.one(mov(RCX, b));
    after_move(d, a, &[one(op, d)], items);
}

// Returns the high half of a dividend: the sign of rax, or 0.
fn high_half(signed: bool) -> Instr
    ensures { result ≡ high_half signed }
{
    if signed {
        sign()
    } else {
        Instr::Movi32 { reg: RDX, imm: 0 }
    }
}

// A division by a register.
fn division(signed: bool, b: u8) -> Instr
    ensures { result ≡ division signed b }
{
    if signed {
        one(UnaryOp::Idiv, b)
    } else {
        one(UnaryOp::Div, b)
    }
}

// Returns whether a register is rax or rdx, which a division takes.
fn is_dividend(r: u8) -> bool
    ensures { result ≡ is_dividend r }
{
    r == RAX || r == RDX
}

// Appends the code of a quotient or its remainder, which is in `r`: at most 7 instructions, for which there is room.
#[tactic(auto, using(crate::proofs::EmissionLemmas::ones_twice, crate::proofs::EmissionLemmas::after_words))]
fn divided(signed: bool, frame: u32, r: u8, d: u8, a: u8, b: u8, items: &mut Items<Item>)
    requires low { 272 ≤ frame }
    requires high { frame ≤ 65808 }
    requires room { words_in items.old + 7 ≤ 64 }
    ensures { items.new ≡ items.old ++ ones (divided signed frame r d a b) }
{
    if is_dividend(b) {
        items.all(&[
            mov(RDX, b),
            mov(RAX, a),
            mov(SCRATCH, RDX),
            high_half(signed),
            division(signed, SCRATCH),
            mov(d, r),
            again(frame),
        ]);
    } else {
        after_move(RAX, a, &[high_half(signed), division(signed, b)], items);
        moved(d, r, items);
    }
}

// Returns the condition of a comparison; of an operation that is none it is that of `ne`.
fn cond_of(op: BinaryOp) -> Cond
    ensures { result ≡ cond_of op }
{
    match op {
        BinaryOp::Lt => Cond::Less,
        BinaryOp::LtU => Cond::Below,
        BinaryOp::Le => Cond::LessOrEqual,
        BinaryOp::LeU => Cond::BelowOrEqual,
        BinaryOp::Ge => Cond::GreaterOrEqual,
        BinaryOp::GeU => Cond::AboveOrEqual,
        BinaryOp::Gt => Cond::Greater,
        BinaryOp::GtU => Cond::Above,
        BinaryOp::Eq => Cond::Equal,
        _ => Cond::NotEqual,
    }
}

/// Appends the code of `d = a op b`: at most 7 instructions, for which there is room.
pub(crate) fn register_code(op: BinaryOp, frame: u32, d: u8, a: u8, b: u8, items: &mut Items<Item>)
    requires low { 272 ≤ frame }
    requires high { frame ≤ 65808 }
    requires room { words_in items.old + 7 ≤ 64 }
    ensures { items.new ≡ items.old ++ ones (register_code op frame d a b) }
{
    match op {
        BinaryOp::Add => added(d, a, b, items),
        BinaryOp::Sub => difference(d, a, b, items),
        BinaryOp::Rsb => difference(d, b, a, items),
        BinaryOp::Mul => product(d, a, b, items),
        BinaryOp::And => commuting(RmRegOp::And, d, a, b, items),
        BinaryOp::Or => commuting(RmRegOp::Or, d, a, b, items),
        BinaryOp::Xor => commuting(RmRegOp::Xor, d, a, b, items),
        BinaryOp::Lsh => shifted(UnaryOp::Shl, d, a, b, items),
        BinaryOp::Rsh => shifted(UnaryOp::Sar, d, a, b, items),
        BinaryOp::RshU => shifted(UnaryOp::Shr, d, a, b, items),
        BinaryOp::Div => divided(true, frame, RAX, d, a, b, items),
        BinaryOp::DivU => divided(false, frame, RAX, d, a, b, items),
        BinaryOp::Rem => divided(true, frame, RDX, d, a, b, items),
        BinaryOp::RemU => divided(false, frame, RDX, d, a, b, items),
        _ => compared(cond_of(op), d, a, b, items),
    }
}

/// Appends the code of a row with a number, which is in the instruction where 32 bits hold it, and else in rbp: at most 4 instructions, for which there is
/// room.
#[tactic(auto, using(crate::proofs::EmissionLemmas::ones_twice, crate::proofs::EmissionLemmas::moved_words))]
pub(crate) fn with_number(
    op: ImmOp,
    alu: RmRegOp,
    frame: u32,
    d: u8,
    a: u8,
    value: u64,
    items: &mut Items<Item>,
)
    requires low { 272 ≤ frame }
    requires high { frame ≤ 65808 }
    requires room { words_in items.old + 4 ≤ 64 }
    ensures { items.new ≡ items.old ++ ones (with_number op alu frame d a value) }
{
    if is_half(value) {
        after_move(d, a, &[imm(op, d, value)], items);
    } else {
        moved(d, a, items);
        after_number(SCRATCH, value, &[row(alu, d, SCRATCH), again(frame)], items);
    }
}

// Returns whether `lea` makes the sum of `a` and a number for `d`: another register, and 32 bits.
fn is_near(d: u8, a: u8, value: u64) -> bool
    ensures { result ≡ is_near d a value }
{
    d != a && is_half(value)
}

// Appends the code of `d = a + value`: at most 4 instructions, for which there is room.
fn added_number(frame: u32, d: u8, a: u8, value: u64, items: &mut Items<Item>)
    requires low { 272 ≤ frame }
    requires high { frame ≤ 65808 }
    requires room { words_in items.old + 4 ≤ 64 }
    ensures { items.new ≡ items.old ++ ones (added_number frame d a value) }
{
    if is_near(d, a, value) {
        items.one(lea(d, a, half_number(value)));
    } else {
        with_number(ImmOp::Addi, RmRegOp::Add, frame, d, a, value, items);
    }
}

// Appends the code of `d = a - value`: at most 4 instructions, for which there is room.
fn less_number(frame: u32, d: u8, a: u8, value: u64, items: &mut Items<Item>)
    requires low { 272 ≤ frame }
    requires high { frame ≤ 65808 }
    requires room { words_in items.old + 4 ≤ 64 }
    ensures { items.new ≡ items.old ++ ones (less_number frame d a value) }
{
    let added = value.wrapping_neg();
    if is_near(d, a, added) {
        items.one(lea(d, a, half_number(added)));
    } else {
        with_number(ImmOp::Subi, RmRegOp::Sub, frame, d, a, value, items);
    }
}

// Appends the code of a comparison with a number: at most 6 instructions, for which there is room.
#[tactic(auto, using(crate::proofs::EmissionLemmas::ones_twice, crate::proofs::EmissionLemmas::moved_words))]
fn compared_number(cond: Cond, frame: u32, d: u8, a: u8, value: u64, items: &mut Items<Item>)
    requires low { 272 ≤ frame }
    requires high { frame ≤ 65808 }
    requires room { words_in items.old + 6 ≤ 64 }
    ensures { items.new ≡ items.old ++ ones (compared_number cond frame d a value) }
{
    if is_half(value) {
        items.all(&[imm(ImmOp::Cmpi, a, value), told(cond, d), widened(d)]);
    } else {
        moved(d, a, items);
        let compare = row(RmRegOp::Cmp, d, SCRATCH);
        after_number(
            SCRATCH,
            value,
            &[compare, told(cond, d), widened(d), again(frame)],
            items,
        );
    }
}

// Appends the code of a shift by a number modulo 64: at most 2 instructions, for which there is room.
fn shifted_number(op: ShiftOp, d: u8, a: u8, value: u64, items: &mut Items<Item>)
    requires { words_in items.old + 2 ≤ 64 }
    ensures { items.new ≡ items.old ++ ones (shifted_number op d a value) }
{
    let shift = Instr::Shift {
        op,
        rm: d,
        count: (value % 64) as u8,
    };
    after_move(d, a, &[shift], items);
}

// Appends the code of a quotient by a number or its remainder, which is in `r`: at most 6 instructions, for which there is room.
#[tactic(auto, using(crate::proofs::EmissionLemmas::ones_twice, crate::proofs::EmissionLemmas::moved_words))]
fn divided_number(
    signed: bool,
    frame: u32,
    r: u8,
    d: u8,
    a: u8,
    value: u64,
    items: &mut Items<Item>,
)
    requires low { 272 ≤ frame }
    requires high { frame ≤ 65808 }
    requires room { words_in items.old + 6 ≤ 64 }
    ensures { items.new ≡ items.old ++ ones (divided_number signed frame r d a value) }
{
    moved(RAX, a, items);
    let high = high_half(signed);
    if is_dividend(d) {
        let divide = division(signed, SCRATCH);
        after_number(
            SCRATCH,
            value,
            &[high, divide, mov(d, r), again(frame)],
            items,
        );
    } else {
        after_number(d, value, &[high, division(signed, d), mov(d, r)], items);
    }
}

// Appends the code that turns `d` and adds a number: at most 5 instructions, for which there is room.
#[tactic(auto, using(crate::proofs::EmissionLemmas::ones_after, crate::proofs::EmissionLemmas::one_words))]
fn turned_number(frame: u32, d: u8, value: u64, items: &mut Items<Item>)
    requires low { 272 ≤ frame }
    requires high { frame ≤ 65808 }
    requires room { words_in items.old + 5 ≤ 64 }
    ensures { items.new ≡ items.old ++ ones (Instr.Unary (UnaryOp.Neg) d ∷ with_number (ImmOp.Addi) (RmRegOp.Add) frame d d value) }
{
    items.one(one(UnaryOp::Neg, d));
    with_number(ImmOp::Addi, RmRegOp::Add, frame, d, d, value, items);
}

// Appends the code of `d = value - a`: at most 6 instructions, for which there is room.
#[tactic(auto, using(crate::proofs::EmissionLemmas::ones_twice, crate::proofs::EmissionLemmas::moved_words))]
fn taken_from(frame: u32, d: u8, a: u8, value: u64, items: &mut Items<Item>)
    requires low { 272 ≤ frame }
    requires high { frame ≤ 65808 }
    requires room { words_in items.old + 6 ≤ 64 }
    ensures { items.new ≡ items.old ++ ones (number_form_code (BinaryOp.Rsb) frame d a value) }
{
    moved(d, a, items);
    turned_number(frame, d, value, items);
}

// Appends the code of `d = a * value`: at most 3 instructions, for which there is room.
fn product_number(frame: u32, d: u8, a: u8, value: u64, items: &mut Items<Item>)
    requires low { 272 ≤ frame }
    requires high { frame ≤ 65808 }
    requires room { words_in items.old + 3 ≤ 64 }
    ensures { items.new ≡ items.old ++ ones (product_number frame d a value) }
{
    if d == a {
        after_number(
            SCRATCH,
            value,
            &[ext(RegRmOp::Imul, d, SCRATCH), again(frame)],
            items,
        );
    } else {
        after_number(d, value, &[ext(RegRmOp::Imul, d, a)], items);
    }
}

/// Appends the code of `d = a op value`: at most 6 instructions, for which there is room.
pub(crate) fn number_form_code(
    op: BinaryOp,
    frame: u32,
    d: u8,
    a: u8,
    value: u64,
    items: &mut Items<Item>,
)
    requires low { 272 ≤ frame }
    requires high { frame ≤ 65808 }
    requires room { words_in items.old + 6 ≤ 64 }
    ensures { items.new ≡ items.old ++ ones (number_form_code op frame d a value) }
{
    match op {
        BinaryOp::Add => added_number(frame, d, a, value, items),
        BinaryOp::Sub => less_number(frame, d, a, value, items),
        BinaryOp::Rsb => taken_from(frame, d, a, value, items),
        BinaryOp::Mul => product_number(frame, d, a, value, items),
        BinaryOp::And => with_number(ImmOp::Andi, RmRegOp::And, frame, d, a, value, items),
        BinaryOp::Or => with_number(ImmOp::Ori, RmRegOp::Or, frame, d, a, value, items),
        BinaryOp::Xor => with_number(ImmOp::Xori, RmRegOp::Xor, frame, d, a, value, items),
        BinaryOp::Lsh => shifted_number(ShiftOp::Shli, d, a, value, items),
        BinaryOp::Rsh => shifted_number(ShiftOp::Sari, d, a, value, items),
        BinaryOp::RshU => shifted_number(ShiftOp::Shri, d, a, value, items),
        BinaryOp::Div => divided_number(true, frame, RAX, d, a, value, items),
        BinaryOp::DivU => divided_number(false, frame, RAX, d, a, value, items),
        BinaryOp::Rem => divided_number(true, frame, RDX, d, a, value, items),
        BinaryOp::RemU => divided_number(false, frame, RDX, d, a, value, items),
        _ => compared_number(cond_of(op), frame, d, a, value, items),
    }
}
