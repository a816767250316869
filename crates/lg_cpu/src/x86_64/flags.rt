// What the instructions make of the flags.

ghost use Rattle.std.specs.Prelude.{◌≡◌, ◌<◌, ◌≢◌};
ghost use Rattle.lg_base.specs.Words.{carry_out, borrow_out, differ};
ghost use Rattle.lg_cpu.specs.X86Operators.{overflow_of, zero_of, sign_of, no_flags, flags_of, bit, overflows_sum, overflows_difference};
ghost use Rattle.lg_cpu.specs.X86Operators.{sum_flags, difference_flags, bit_flags, product_flags, negation_flags};
ghost use Rattle.lg_cpu.specs.X86Operators.{last_out, shift_overflow, shift_flags, turned, both, either, condition_holds};

use crate::x86_64::operators::shift_value;
use lg_base::Flags;
use lg_base::word::SIGN_BIT;
use lg_x86::{Cond, ShiftOp};

// OF, ZF and SF, where they are defined; the flags of other processors read as undefined.
fn overflow_of(flags: Flags) -> Option<bool>
    ensures { result ≡ overflow_of flags }
{
    match flags {
        Flags::Rflags { overflow, .. } => overflow,
        _ => None,
    }
}

fn zero_of(flags: Flags) -> Option<bool>
    ensures { result ≡ zero_of flags }
{
    match flags {
        Flags::Rflags { zero, .. } => zero,
        _ => None,
    }
}

fn sign_of(flags: Flags) -> Option<bool>
    ensures { result ≡ sign_of flags }
{
    match flags {
        Flags::Rflags { sign, .. } => sign,
        _ => None,
    }
}

/// No flag is defined.
pub fn no_flags() -> Flags
    ensures { result ≡ no_flags }
{
    Flags::Rflags {
        sign: None,
        zero: None,
        carry: None,
        overflow: None,
    }
}

// ZF and SF by a result.
fn flags_of(carry: Option<bool>, overflow: Option<bool>, result_word: u64) -> Flags
    ensures { result ≡ flags_of carry overflow result_word }
{
    Flags::Rflags {
        sign: Some(result_word >= SIGN_BIT),
        zero: Some(result_word == 0),
        carry,
        overflow,
    }
}

/// Returns whether a sum of two words and a carry does not fit a word.
#[inline(always)]
pub fn carry_out(a: u64, b: u64, carry: bool) -> bool
    ensures { result ≡ carry_out a b (bit carry) }
{
    a as u128 + b as u128 + u128::from(carry) >= 0x1_0000_0000_0000_0000
}

/// Returns whether a difference of two words and a borrow is below 0.
#[inline(always)]
pub fn borrow_out(a: u64, b: u64, carry: bool) -> bool
    ensures { result ≡ borrow_out a b (bit carry) }
{
    (a as u128) < b as u128 + u128::from(carry)
}

fn overflows_sum(a: u64, b: u64, sum: u64) -> bool
    ensures { result ≡ overflows_sum a b sum }
{
    if (a >= SIGN_BIT) != (b >= SIGN_BIT) {
        false
    } else {
        (a >= SIGN_BIT) != (sum >= SIGN_BIT)
    }
}

fn overflows_difference(a: u64, b: u64, difference: u64) -> bool
    ensures { result ≡ overflows_difference a b difference }
{
    if (a >= SIGN_BIT) != (b >= SIGN_BIT) {
        (a >= SIGN_BIT) != (difference >= SIGN_BIT)
    } else {
        false
    }
}

/// Returns the flags after a sum with a carry.
#[inline(always)]
pub fn sum_flags(a: u64, b: u64, carry: bool, sum: u64) -> Flags
    ensures { result ≡ sum_flags a b (bit carry) sum }
{
    flags_of(
        Some(carry_out(a, b, carry)),
        Some(overflows_sum(a, b, sum)),
        sum,
    )
}

/// Returns the flags after a difference with a borrow.
#[inline(always)]
pub fn difference_flags(a: u64, b: u64, carry: bool, difference: u64) -> Flags
    ensures { result ≡ difference_flags a b (bit carry) difference }
{
    flags_of(
        Some(borrow_out(a, b, carry)),
        Some(overflows_difference(a, b, difference)),
        difference,
    )
}

/// Returns the flags after an operation on bits: neither carry nor overflow.
#[inline(always)]
pub fn bit_flags(bits: u64) -> Flags
    ensures { result ≡ bit_flags bits }
{
    flags_of(Some(false), Some(false), bits)
}

/// CF and OF say whether the high half of a product is needed.
pub fn product_flags(needed: bool) -> Flags
    ensures { result ≡ product_flags needed }
{
    Flags::Rflags {
        sign: None,
        zero: None,
        carry: Some(needed),
        overflow: Some(needed),
    }
}

/// Returns the flags after a subtraction of a word from 0 (volume 2, NEG).
pub fn negation_flags(a: u64) -> Flags
    ensures { result ≡ negation_flags a }
{
    flags_of(Some(a != 0), Some(a == SIGN_BIT), 0u64.wrapping_sub(a))
}

// Returns the last bit that is shifted out.
fn last_out(op: ShiftOp, a: u64, count: u32) -> bool
    requires some { count ≢ 0 }
    requires few { count < 64 }
    ensures { result ≡ last_out op a count }
{
    match op {
        ShiftOp::Shli => (a >> (64 - count)) % 2 == 1,
        ShiftOp::Shri | ShiftOp::Sari => (a >> (count - 1)) % 2 == 1,
    }
}

fn shift_overflow(op: ShiftOp, a: u64) -> bool
    ensures { result ≡ shift_overflow op a }
{
    match op {
        ShiftOp::Shli => (shift_value(op, a, 1) >= SIGN_BIT) != last_out(op, a, 1),
        ShiftOp::Shri => a >= SIGN_BIT,
        ShiftOp::Sari => false,
    }
}

/// Returns the flags after a shift by a count below 64: by 0 they stay, and OF is defined for a count of 1 alone (volume 2, SAL/SAR/SHL/SHR).
pub fn shift_flags(op: ShiftOp, flags: Flags, a: u64, count: u32) -> Flags
    requires { count < 64 }
    ensures { result ≡ shift_flags op flags a count }
{
    if count == 0 {
        return flags;
    }
    let overflow = if count == 1 {
        Some(shift_overflow(op, a))
    } else {
        None
    };
    flags_of(
        Some(last_out(op, a, count)),
        overflow,
        shift_value(op, a, count),
    )
}

fn turned(a: Option<bool>) -> Option<bool>
    ensures { result ≡ turned a }
{
    match a {
        Some(a) => Some(!a),
        None => None,
    }
}

fn either(a: Option<bool>, b: Option<bool>) -> Option<bool>
    ensures { result ≡ both either a b }
{
    match (a, b) {
        (Some(a), Some(b)) => Some(a || b),
        _ => None,
    }
}

fn differ(a: Option<bool>, b: Option<bool>) -> Option<bool>
    ensures { result ≡ both differ a b }
{
    match (a, b) {
        (Some(a), Some(b)) => Some(a != b),
        _ => None,
    }
}

/// Whether a condition holds, and None where a flag that it names is undefined.
#[inline(always)]
pub fn condition_holds(cond: Cond, flags: Flags) -> Option<bool>
    ensures { result ≡ condition_holds cond flags }
{
    let (carry, zero) = (flags.carry(), zero_of(flags));
    let (sign, overflow) = (sign_of(flags), overflow_of(flags));
    match cond {
        Cond::Overflow => overflow,
        Cond::NoOverflow => turned(overflow),
        Cond::Below => carry,
        Cond::AboveOrEqual => turned(carry),
        Cond::Equal => zero,
        Cond::NotEqual => turned(zero),
        Cond::BelowOrEqual => either(carry, zero),
        Cond::Above => turned(either(carry, zero)),
        Cond::Sign => sign,
        Cond::NoSign => turned(sign),
        Cond::Less => differ(sign, overflow),
        Cond::GreaterOrEqual => turned(differ(sign, overflow)),
        Cond::LessOrEqual => either(zero, differ(sign, overflow)),
        Cond::Greater => turned(either(zero, differ(sign, overflow))),
    }
}
