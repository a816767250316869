// The flags, computed where they are read.

ghost use Rattle.std.specs.Prelude.{◌≡◌, Some};
ghost use Rattle.lg_base.specs.Flags.{carry_of};
ghost use Rattle.lg_base.specs.Words.{add_words, sub_words};
ghost use Rattle.lg_cpu.specs.X86Operators.{sum_flags, difference_flags, bit_flags, condition_holds};

use crate::x86_64::flags::{
    bit_flags, borrow_out, carry_out, condition_holds, difference_flags, sum_flags,
};
use lg_base::Flags;
use lg_base::word::{SIGN_BIT, less_signed};
use lg_x86::Cond;
use std::marker::Model;

/// What set the flags last.
#[derive(Clone, Copy)]
pub enum Setter {
    /// An instruction whose flags are kept as they are.
    Known,
    /// The sum of the words `a` and `b`.
    Sum,
    /// The difference of the words `a` and `b`.
    Difference,
    /// An operation on bits with the result `a`.
    Bits,
}

/// The flags, kept as the operands of what set them last: most flags are set again before an instruction reads them. Contracts see the flags.
#[derive(Drop)]
pub struct LazyFlags {
    setter: Setter,
    a: u64,
    b: u64,
    known: Flags,
}

impl Model for LazyFlags {
    ghost use Rattle.lg_base.specs.declared.flags.Flags.{Flags};
    ghost use Rattle.lg_cpu.specs.X86LazyFlags.{lazy_flags};

    ghost Value = { Flags };

    ghost view = { λ f. lazy_flags f.setter f.a f.b f.known };
}

impl LazyFlags {
    /// Makes these flags.
    pub fn of(flags: Flags) -> LazyFlags
        ensures { result ≡ flags }
    {
        LazyFlags {
            setter: Setter::Known,
            a: 0,
            b: 0,
            known: flags,
        }
    }

    /// Sets these flags.
    #[inline(always)]
    pub fn set(&mut self, flags: Flags)
        ensures { self.new ≡ flags }
    {
        self.setter = Setter::Known;
        self.known = flags;
    }

    /// Sets the flags of a sum of two words.
    #[inline(always)]
    pub fn set_sum(&mut self, a: u64, b: u64)
        ensures { self.new ≡ sum_flags a b 0 (add_words a b) }
    {
        self.setter = Setter::Sum;
        self.a = a;
        self.b = b;
    }

    /// Sets the flags of a difference of two words.
    #[inline(always)]
    pub fn set_difference(&mut self, a: u64, b: u64)
        ensures { self.new ≡ difference_flags a b 0 (sub_words a b) }
    {
        self.setter = Setter::Difference;
        self.a = a;
        self.b = b;
    }

    /// Sets the flags of an operation on bits with this result.
    #[inline(always)]
    pub fn set_bits(&mut self, bits: u64)
        ensures { self.new ≡ bit_flags bits }
    {
        self.setter = Setter::Bits;
        self.a = bits;
    }

    /// Returns the flags.
    #[inline(never)]
    pub fn get(&self) -> Flags
        ensures { result ≡ self.now }
    {
        match self.setter {
            Setter::Known => self.known,
            Setter::Sum => sum_flags(self.a, self.b, false, self.a.wrapping_add(self.b)),
            Setter::Difference => {
                difference_flags(self.a, self.b, false, self.a.wrapping_sub(self.b))
            }
            Setter::Bits => bit_flags(self.a),
        }
    }

    /// Returns the carry, or `None` if it is undefined.
    #[inline(always)]
    pub fn carry(&self) -> Option<bool>
        ensures { result ≡ carry_of self.now }
    {
        match self.setter {
            Setter::Known => self.known.carry(),
            Setter::Sum => Some(carry_out(self.a, self.b, false)),
            Setter::Difference => Some(borrow_out(self.a, self.b, false)),
            Setter::Bits => Some(false),
        }
    }

    /// Returns whether a condition holds, or `None` if a flag that it names is undefined.
    #[inline(always)]
    pub fn holds(&self, cond: Cond) -> Option<bool>
        ensures { result ≡ condition_holds cond self.now }
    {
        match self.setter {
            Setter::Difference => Some(difference_holds(cond, self.a, self.b)),
            Setter::Bits => condition_holds(cond, bit_flags(self.a)),
            _ => condition_holds(cond, self.get()),
        }
    }
}

// Returns whether a condition holds after a difference of two words: all but four are comparisons of the words.
#[inline(always)]
fn difference_holds(cond: Cond, a: u64, b: u64) -> bool
    ensures { condition_holds cond (difference_flags a b 0 (sub_words a b)) ≡ Some result }
{
    let difference = a.wrapping_sub(b);
    match cond {
        Cond::Overflow => less_signed(a, b) != (difference >= SIGN_BIT),
        Cond::NoOverflow => less_signed(a, b) == (difference >= SIGN_BIT),
        Cond::Below => a < b,
        Cond::AboveOrEqual => a >= b,
        Cond::Equal => a == b,
        Cond::NotEqual => a != b,
        Cond::BelowOrEqual => a <= b,
        Cond::Above => a > b,
        Cond::Sign => difference >= SIGN_BIT,
        Cond::NoSign => difference < SIGN_BIT,
        Cond::Less => less_signed(a, b),
        Cond::GreaterOrEqual => !less_signed(a, b),
        Cond::LessOrEqual => !less_signed(b, a),
        Cond::Greater => less_signed(b, a),
    }
}
