// The flags, computed where they are read.

ghost use Rattle.std.specs.Prelude.{◌≡◌, false};
ghost use Rattle.lg_base.specs.Flags.{carry_flag};
ghost use Rattle.lg_cpu.specs.A64Operators.{sum_flags, difference_flags, result_flags, condition_holds};

use crate::aarch64::flags::{
    borrow_out, carry_flag, carry_out, condition_holds, difference_flags, result_flags, sum_flags,
};
use lg_a64::Cond;
use lg_base::Flags;
use lg_base::word::{SIGN_BIT, less_signed};
use std::marker::Model;

/// What set the flags last.
#[derive(Clone, Copy)]
pub enum Setter {
    /// An instruction whose flags are kept as they are.
    Known,
    /// The sum of the words `a` and `b`.
    Sum,
    /// The difference of the words `a` and `b`.
    Difference,
    /// An operation on bits with the result `a`.
    Bits,
}

/// The flags, kept as the operands of what set them last: most flags are set again before an instruction reads them. Contracts see the flags.
#[derive(Drop)]
pub struct LazyFlags {
    setter: Setter,
    a: u64,
    b: u64,
    known: Flags,
}

impl Model for LazyFlags {
    ghost use Rattle.lg_base.specs.declared.flags.Flags.{Flags};
    ghost use Rattle.lg_cpu.specs.A64LazyFlags.{lazy_flags};

    ghost Value = { Flags };

    ghost view = { λ f. lazy_flags f.setter f.a f.b f.known };
}

impl LazyFlags {
    /// Makes these flags.
    pub fn of(flags: Flags) -> LazyFlags
        ensures { result ≡ flags }
    {
        LazyFlags {
            setter: Setter::Known,
            a: 0,
            b: 0,
            known: flags,
        }
    }

    /// Sets these flags.
    #[inline(always)]
    pub fn set(&mut self, flags: Flags)
        ensures { self.new ≡ flags }
    {
        self.setter = Setter::Known;
        self.known = flags;
    }

    /// Sets the flags of a sum of two words.
    #[inline(always)]
    pub fn set_sum(&mut self, a: u64, b: u64)
        ensures { self.new ≡ sum_flags a b 0 }
    {
        self.setter = Setter::Sum;
        self.a = a;
        self.b = b;
    }

    /// Sets the flags of a difference of two words.
    #[inline(always)]
    pub fn set_difference(&mut self, a: u64, b: u64)
        ensures { self.new ≡ difference_flags a b 0 }
    {
        self.setter = Setter::Difference;
        self.a = a;
        self.b = b;
    }

    /// Sets the flags of an operation on bits with this result.
    #[inline(always)]
    pub fn set_bits(&mut self, bits: u64)
        ensures { self.new ≡ result_flags bits false false }
    {
        self.setter = Setter::Bits;
        self.a = bits;
    }

    /// Returns the flags.
    #[inline(never)]
    pub fn get(&self) -> Flags
        ensures { result ≡ self.now }
    {
        match self.setter {
            Setter::Known => self.known,
            Setter::Sum => sum_flags(self.a, self.b, 0),
            Setter::Difference => difference_flags(self.a, self.b, 0),
            Setter::Bits => result_flags(self.a, false, false),
        }
    }

    /// Returns C.
    #[inline(always)]
    pub fn carry(&self) -> bool
        ensures { result ≡ carry_flag self.now }
    {
        match self.setter {
            Setter::Known => carry_flag(self.known),
            Setter::Sum => carry_out(self.a, self.b, 0),
            Setter::Difference => !borrow_out(self.a, self.b, 0),
            Setter::Bits => false,
        }
    }

    /// Returns whether a condition holds.
    #[inline(always)]
    pub fn holds(&self, cond: Cond) -> bool
        ensures { result ≡ condition_holds cond self.now }
    {
        match self.setter {
            Setter::Difference => difference_holds(cond, self.a, self.b),
            Setter::Bits => condition_holds(cond, result_flags(self.a, false, false)),
            _ => condition_holds(cond, self.get()),
        }
    }
}

// Returns whether a condition holds after a difference of two words: all but four are comparisons of the words.
#[inline(always)]
fn difference_holds(cond: Cond, a: u64, b: u64) -> bool
    ensures { result ≡ condition_holds cond (difference_flags a b 0) }
{
    let difference = a.wrapping_sub(b);
    match cond {
        Cond::Eq => a == b,
        Cond::Ne => a != b,
        Cond::Cs => a >= b,
        Cond::Cc => a < b,
        Cond::Mi => difference >= SIGN_BIT,
        Cond::Pl => difference < SIGN_BIT,
        Cond::Vs => less_signed(a, b) != (difference >= SIGN_BIT),
        Cond::Vc => less_signed(a, b) == (difference >= SIGN_BIT),
        Cond::Hi => a > b,
        Cond::Ls => a <= b,
        Cond::Ge => !less_signed(a, b),
        Cond::Lt => less_signed(a, b),
        Cond::Gt => less_signed(b, a),
        Cond::Le => !less_signed(b, a),
    }
}
