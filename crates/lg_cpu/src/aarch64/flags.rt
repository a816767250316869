// What the instructions make of the flags.

ghost use Rattle.std.specs.Prelude.{◌≡◌, ◌≤◌};
ghost use Rattle.lg_base.specs.Flags.{negative_flag, zero_flag, carry_flag, overflow_flag};
ghost use Rattle.lg_base.specs.Words.{is_negative, carry_out, borrow_out};
ghost use Rattle.lg_cpu.specs.A64Operators.{result_flags, sum_leaves, difference_leaves, sum_of, difference_of, sum_flags, difference_flags};
ghost use Rattle.lg_cpu.specs.A64Operators.{condition_holds};

use lg_a64::Cond;
use lg_base::Flags;
use lg_base::word::SIGN_BIT;

// Returns the highest bit.
fn is_negative(a: u64) -> bool
    ensures { result ≡ is_negative a }
{
    a >= SIGN_BIT
}

// N, Z, C and V; the flags of other processors read as 0.
fn negative_flag(flags: Flags) -> bool
    ensures { result ≡ negative_flag flags }
{
    match flags {
        Flags::Nzcv { negative, .. } => negative,
        _ => false,
    }
}

fn zero_flag(flags: Flags) -> bool
    ensures { result ≡ zero_flag flags }
{
    match flags {
        Flags::Nzcv { zero, .. } => zero,
        _ => false,
    }
}

/// C; the flags of other processors read as 0.
#[inline(always)]
pub fn carry_flag(flags: Flags) -> bool
    ensures { result ≡ carry_flag flags }
{
    match flags {
        Flags::Nzcv { carry, .. } => carry,
        _ => false,
    }
}

fn overflow_flag(flags: Flags) -> bool
    ensures { result ≡ overflow_flag flags }
{
    match flags {
        Flags::Nzcv { overflow, .. } => overflow,
        _ => false,
    }
}

/// N and Z of a result, with C and V.
#[inline(always)]
pub fn result_flags(word: u64, carry: bool, overflow: bool) -> Flags
    ensures { result ≡ result_flags word carry overflow }
{
    Flags::Nzcv {
        negative: is_negative(word),
        zero: word == 0,
        carry,
        overflow,
    }
}

fn sum_leaves(a: u64, b: u64, sum: u64) -> bool
    ensures { result ≡ sum_leaves a b sum }
{
    is_negative(a) == is_negative(b) && is_negative(a) != is_negative(sum)
}

fn difference_leaves(a: u64, b: u64, difference: u64) -> bool
    ensures { result ≡ difference_leaves a b difference }
{
    is_negative(a) != is_negative(b) && is_negative(a) != is_negative(difference)
}

/// a + b + carry modulo 2^64, where the carry is 0 or 1.
pub fn sum_of(a: u64, b: u64, carry: u64) -> u64
    requires { carry ≤ 1 }
    ensures { result ≡ sum_of a b carry }
{
    a.wrapping_add(b).wrapping_add(carry)
}

/// a - b - borrow modulo 2^64, where the borrow is 0 or 1.
pub fn difference_of(a: u64, b: u64, borrow: u64) -> u64
    requires { borrow ≤ 1 }
    ensures { result ≡ difference_of a b borrow }
{
    a.wrapping_sub(b).wrapping_sub(borrow)
}

/// Returns whether a sum of two words and a carry of 0 or 1 does not fit a word.
#[inline(always)]
pub fn carry_out(a: u64, b: u64, carry: u64) -> bool
    requires { carry ≤ 1 }
    ensures { result ≡ carry_out a b carry }
{
    u128::from(a) + u128::from(b) + u128::from(carry) >= 0x1_0000_0000_0000_0000
}

/// Returns whether a difference of two words and a borrow of 0 or 1 is below 0.
#[inline(always)]
pub fn borrow_out(a: u64, b: u64, borrow: u64) -> bool
    requires { borrow ≤ 1 }
    ensures { result ≡ borrow_out a b borrow }
{
    u128::from(a) < u128::from(b) + u128::from(borrow)
}

/// Returns the flags after a sum with a carry of 0 or 1.
#[inline(always)]
pub fn sum_flags(a: u64, b: u64, carry: u64) -> Flags
    requires { carry ≤ 1 }
    ensures { result ≡ sum_flags a b carry }
{
    let sum = sum_of(a, b, carry);
    let leaves = sum_leaves(a, b, sum);
    let out = carry_out(a, b, carry);
    result_flags(sum, out, leaves)
}

/// Returns the flags after a difference with a borrow of 0 or 1.
#[inline(always)]
pub fn difference_flags(a: u64, b: u64, borrow: u64) -> Flags
    requires { borrow ≤ 1 }
    ensures { result ≡ difference_flags a b borrow }
{
    let difference = difference_of(a, b, borrow);
    let leaves = difference_leaves(a, b, difference);
    let out = borrow_out(a, b, borrow);
    result_flags(difference, !out, leaves)
}

/// Returns whether a condition holds.
#[inline(always)]
pub fn condition_holds(cond: Cond, flags: Flags) -> bool
    ensures { result ≡ condition_holds cond flags }
{
    match cond {
        Cond::Eq => zero_flag(flags),
        Cond::Ne => !zero_flag(flags),
        Cond::Cs => carry_flag(flags),
        Cond::Cc => !carry_flag(flags),
        Cond::Mi => negative_flag(flags),
        Cond::Pl => !negative_flag(flags),
        Cond::Vs => overflow_flag(flags),
        Cond::Vc => !overflow_flag(flags),
        Cond::Hi => carry_flag(flags) && !zero_flag(flags),
        Cond::Ls => !(carry_flag(flags) && !zero_flag(flags)),
        Cond::Ge => negative_flag(flags) == overflow_flag(flags),
        Cond::Lt => negative_flag(flags) != overflow_flag(flags),
        Cond::Gt => !zero_flag(flags) && negative_flag(flags) == overflow_flag(flags),
        Cond::Le => !(!zero_flag(flags) && negative_flag(flags) == overflow_flag(flags)),
    }
}
