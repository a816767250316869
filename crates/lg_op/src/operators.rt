// What the operations of the instruction set make of words.

ghost use Rattle.std.specs.Prelude.{◌≡◌, ◌⊎◌, ◌≤◌, ◌<◌, Bool, if◌then◌else◌};
ghost use Rattle.lg_op.specs.Operators.{binary_value, partial_value, sets_carry, carry_in, is_sum, value_with_carry, carry_made, holds, branch_sum_value, branch_sum_goes, wide_value, unary_value, keeps_carry, width, extended_by_type, store_width, divides};

use crate::carry::Carry;
use crate::{BinaryOp, BranchSumOp, Condition, StoreType, UnaryOp, ValueType, WideOp};
use lg_base::wide::{mul_high, mul_high_u, sign_part, swap_bytes, zero_part};
use lg_base::word::{
    SIGN_BIT, difference_overflows_signed, divide_signed, less_signed, remain_signed,
    shift_right_signed, sum_overflows_signed,
};

// Returns whether a signed quotient is a word.
fn divides(a: u64, b: u64) -> bool
    ensures { result ≡ divides a b }
{
    !(b == 0 || (a == SIGN_BIT && b == 0xFFFF_FFFF_FFFF_FFFF))
}

// Returns the word of a quotient or a remainder, or `None` if it is undefined; None of the others.
#[inline(always)]
fn partial(op: BinaryOp, a: u64, b: u64) -> Option<u64>
    ensures { result ≡ partial_value op a b }
{
    match op {
        BinaryOp::Div if divides(a, b) => Some(divide_signed(a, b)),
        BinaryOp::DivU if b != 0 => Some(a / b),
        BinaryOp::Rem if divides(a, b) => Some(remain_signed(a, b)),
        BinaryOp::RemU if b != 0 => Some(a % b),
        _ => None,
    }
}

/// Returns the word of two words, for an operation with two operands and one result that sets no carry. A shift is by its count modulo 64. None where it is
/// undefined: a zero divisor, and the signed quotient or remainder of the least word by -1; and for operations that set the carry.
#[inline(always)]
pub fn binary(op: BinaryOp, a: u64, b: u64) -> Option<u64>
    ensures { result ≡ binary_value op a b }
{
    match op {
        BinaryOp::Add => Some(a.wrapping_add(b)),
        BinaryOp::Sub => Some(a.wrapping_sub(b)),
        BinaryOp::Rsb => Some(b.wrapping_sub(a)),
        BinaryOp::Mul => Some(a.wrapping_mul(b)),
        BinaryOp::And => Some(a & b),
        BinaryOp::Or => Some(a | b),
        BinaryOp::Xor => Some(a ^ b),
        BinaryOp::Lt => Some(u64::from(less_signed(a, b))),
        BinaryOp::LtU => Some(u64::from(a < b)),
        BinaryOp::Le => Some(u64::from(!less_signed(b, a))),
        BinaryOp::LeU => Some(u64::from(a <= b)),
        BinaryOp::Ge => Some(u64::from(!less_signed(a, b))),
        BinaryOp::GeU => Some(u64::from(a >= b)),
        BinaryOp::Gt => Some(u64::from(less_signed(b, a))),
        BinaryOp::GtU => Some(u64::from(a > b)),
        BinaryOp::Eq => Some(u64::from(a == b)),
        BinaryOp::Ne => Some(u64::from(a != b)),
        BinaryOp::Lsh => Some(a << (b % 64)),
        BinaryOp::Rsh => Some(shift_right_signed(a, (b % 64) as u32)),
        BinaryOp::RshU => Some(a >> (b % 64)),
        _ => partial(op, a, b),
    }
}

/// Returns whether an operation sets the carry: `addc`, `subc`, `addx` and `subx`.
pub fn sets_carry(op: BinaryOp) -> bool
    ensures { result ≡ sets_carry op }
{
    matches!(
        op,
        BinaryOp::Addc | BinaryOp::Subc | BinaryOp::Addx | BinaryOp::Subx
    )
}

/// Returns the carry that an operation takes: none for `addc` and `subc`, that of its own family for `addx` and `subx`; None where it is
/// undefined or of the other family.
pub fn carry_in(op: BinaryOp, carry: Carry) -> Option<bool>
    ensures { result ≡ carry_in op carry }
{
    match (op, carry) {
        (BinaryOp::Addx, Carry::Sum(bit)) => Some(bit),
        (BinaryOp::Subx, Carry::Difference(bit)) => Some(bit),
        (BinaryOp::Addc | BinaryOp::Subc, _) => Some(false),
        _ => None,
    }
}

// Returns whether an operation with a carry adds.
fn is_sum(op: BinaryOp) -> bool
    ensures { result ≡ is_sum op }
{
    matches!(op, BinaryOp::Addc | BinaryOp::Addx)
}

/// Returns the word of an operation that sets the carry: the sum with the carry, or the difference less the borrow, modulo 2^64.
pub fn with_carry(op: BinaryOp, a: u64, b: u64, bit: bool) -> u64
    ensures { result ≡ value_with_carry op a b (if bit then 1 else 0) }
{
    if is_sum(op) {
        a.wrapping_add(b).wrapping_add(u64::from(bit))
    } else {
        a.wrapping_sub(b).wrapping_sub(u64::from(bit))
    }
}

/// Returns the carry that `addc`, `addx`, `subc` and `subx` leave, for the carry `bit` that they take: that of the sum, or the borrow of the whole
/// difference.
pub fn carry_out(op: BinaryOp, a: u64, b: u64, bit: bool) -> Carry
    ensures { result ≡ carry_made op a b (if bit then 1 else 0) }
{
    if is_sum(op) {
        Carry::Sum(u128::from(a) + u128::from(b) + u128::from(bit) >= 1 << 64)
    } else {
        Carry::Difference(u128::from(a) < u128::from(b) + u128::from(bit))
    }
}

/// Returns whether a condition holds of O2 and O3: whether the branch goes.
#[inline(always)]
pub fn holds(condition: Condition, a: u64, b: u64) -> bool
    ensures { result ≡ holds condition a b }
{
    match condition {
        Condition::Lt => less_signed(a, b),
        Condition::LtU => a < b,
        Condition::Le => !less_signed(b, a),
        Condition::LeU => a <= b,
        Condition::Ge => !less_signed(a, b),
        Condition::GeU => a >= b,
        Condition::Gt => less_signed(b, a),
        Condition::GtU => a > b,
        Condition::Eq => a == b,
        Condition::Ne => a != b,
        Condition::Ms => a & b != 0,
        Condition::Mc => a & b == 0,
    }
}

/// Returns the wrapped sum or difference of a branch that adds or subtracts.
pub fn branch_sum(op: BranchSumOp, a: u64, b: u64) -> u64
    ensures { result ≡ branch_sum_value op a b }
{
    match op {
        BranchSumOp::OverflowAdd
        | BranchSumOp::OverflowAddU
        | BranchSumOp::FitAdd
        | BranchSumOp::FitAddU => a.wrapping_add(b),
        BranchSumOp::OverflowSub
        | BranchSumOp::OverflowSubU
        | BranchSumOp::FitSub
        | BranchSumOp::FitSubU => a.wrapping_sub(b),
    }
}

/// Returns whether such a branch goes: where the exact result does not fit a word, or where it does.
pub fn branch_sum_goes(op: BranchSumOp, a: u64, b: u64) -> bool
    ensures { result ≡ branch_sum_goes op a b }
{
    match op {
        BranchSumOp::OverflowAdd => sum_overflows_signed(a, b),
        BranchSumOp::OverflowAddU => a > u64::MAX - b,
        BranchSumOp::OverflowSub => difference_overflows_signed(a, b),
        BranchSumOp::OverflowSubU => a < b,
        BranchSumOp::FitAdd => !sum_overflows_signed(a, b),
        BranchSumOp::FitAddU => a <= u64::MAX - b,
        BranchSumOp::FitSub => !difference_overflows_signed(a, b),
        BranchSumOp::FitSubU => a >= b,
    }
}

/// Returns the two words of a product of 128 bits, low and high, or of a quotient and a remainder, or `None` if these are undefined.
pub fn wide(op: WideOp, a: u64, b: u64) -> Option<(u64, u64)>
    ensures { result ≡ wide_value op a b }
{
    match op {
        WideOp::Mul => Some((
            a.wrapping_mul(b),
            mul_high(a.cast_signed(), b.cast_signed()).cast_unsigned(),
        )),
        WideOp::MulU => Some((a.wrapping_mul(b), mul_high_u(a, b))),
        WideOp::Div => {
            if divides(a, b) {
                Some((divide_signed(a, b), remain_signed(a, b)))
            } else {
                None
            }
        }
        WideOp::DivU => { if b != 0 { Some((a / b, a % b)) } else { None } }
    }
}

/// Returns what an operation makes of one word, O2.
pub fn unary(op: UnaryOp, a: u64) -> u64
    ensures { result ≡ unary_value op a }
{
    match op {
        UnaryOp::Neg => a.wrapping_neg(),
        UnaryOp::Com => !a,
        UnaryOp::Mov => a,
        UnaryOp::ExtrC => sign_part(a, 1),
        UnaryOp::ExtrUc => zero_part(a, 1),
        UnaryOp::ExtrS => sign_part(a, 2),
        UnaryOp::ExtrUs => zero_part(a, 2),
        UnaryOp::ExtrI => sign_part(a, 4),
        UnaryOp::ExtrUi => zero_part(a, 4),
        UnaryOp::HtonrUs => swap_bytes(a, 2),
        UnaryOp::HtonrUi => swap_bytes(a, 4),
        UnaryOp::HtonrUl => swap_bytes(a, 8),
    }
}

/// Returns whether an operation of one word keeps the carry, as `movr` does alone.
pub fn keeps_carry(op: UnaryOp) -> bool
    ensures { result ≡ keeps_carry op }
{
    matches!(op, UnaryOp::Mov)
}

/// Returns how many bytes a type reads.
pub fn width(value_type: ValueType) -> u32
    ensures value { result ≡ width value_type }
    ensures sizes { (result ≡ 1) ⊎ ((result ≡ 2) ⊎ ((result ≡ 4) ⊎ (result ≡ 8))) }
{
    match value_type {
        ValueType::Char | ValueType::UnsignedChar => 1,
        ValueType::Short | ValueType::UnsignedShort => 2,
        ValueType::Int | ValueType::UnsignedInt => 4,
        ValueType::Long => 8,
    }
}

/// Returns the low 1, 2, 4 or 8 bytes of a word, by the type, extended to a word as the type says: by their sign, or by zeros.
pub fn extended_by_type(value_type: ValueType, a: u64) -> u64
    ensures { result ≡ extended_by_type value_type a }
{
    match value_type {
        ValueType::Char => sign_part(a, 1),
        ValueType::UnsignedChar => zero_part(a, 1),
        ValueType::Short => sign_part(a, 2),
        ValueType::UnsignedShort => zero_part(a, 2),
        ValueType::Int => sign_part(a, 4),
        ValueType::UnsignedInt => zero_part(a, 4),
        ValueType::Long => a,
    }
}

/// Returns how many bytes a type writes.
pub fn store_width(store_type: StoreType) -> u32
    ensures value { result ≡ store_width store_type }
    ensures sizes { (result ≡ 1) ⊎ ((result ≡ 2) ⊎ ((result ≡ 4) ⊎ (result ≡ 8))) }
{
    match store_type {
        StoreType::Char => 1,
        StoreType::Short => 2,
        StoreType::Int => 4,
        StoreType::Long => 8,
    }
}
