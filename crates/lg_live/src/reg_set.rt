// Sets of registers.

ghost use Rattle.std.specs.Prelude.{◌≡◌, ◌||◌, nat_lt, false, ⊤, [], ◌∷◌, codes};
ghost use Rattle.lg_op.specs.declared.operand.Reg.{Reg};
ghost use Rattle.lg_op.specs.Operands.{number_of};
ghost use Rattle.lg_live.specs.Registers.{bit_of, is_same};

use bitflags::{Flag, Flags, bitflag_items};
use lg_op::Reg;

/// A set of the registers R0, R1, R2, V0, V1 and V2.
#[derive(Clone, Copy, PartialEq, Eq, Debug)]
pub struct RegSet(u8);

bitflag_items! {
    impl RegSet: u8 {
        const R0 = 1;
        const R1 = 2;
        const R2 = 4;
        const V0 = 8;
        const V1 = 16;
        const V2 = 32;
    }
}

impl Flags for RegSet {
    type Bits = u8;

    ghost exact = { ⊤ };

    ghost table = { (codes "R0", 1) ∷ (codes "R1", 2) ∷ (codes "R2", 4) ∷ (codes "V0", 8) ∷ (codes "V1", 16) ∷ (codes "V2", 32) ∷ [] };

    ghost set_of = { λ set. set.0 };

    fn flags<'a>() -> &'a [Flag<RegSet>] {
        RegSet::FLAGS
    }

    fn bits(&self) -> u8 {
        self.0
    }

    fn from_bits_retain(bits: u8) -> RegSet {
        RegSet(bits)
    }
}

// Returns the bit of a register, and 0 for FP.
fn bit_of(reg: Reg) -> u8
    ensures { result ≡ bit_of reg }
{
    match reg {
        Reg::R0 => 1,
        Reg::R1 => 2,
        Reg::R2 => 4,
        Reg::V0 => 8,
        Reg::V1 => 16,
        Reg::V2 => 32,
        Reg::Fp => 0,
    }
}

impl RegSet {
    ghost use Rattle.lg_live.specs.RegSets.{has, IsSmall};

    /// Returns the set without registers.
    pub fn none() -> RegSet
        ensures none { (r : Reg) → has result r ≡ false }
        ensures small { IsSmall result }
    {
        RegSet(0)
    }

    /// Returns the set of all six registers.
    pub fn all() -> RegSet
        ensures all { (r : Reg) → has result r ≡ nat_lt (number_of r) 6 }
        ensures small { IsSmall result }
    {
        RegSet(63)
    }

    /// Returns whether a register is in the set. FP is in none.
    pub fn has(self, reg: Reg) -> bool
        ensures { result ≡ has self reg }
    {
        self.0 & bit_of(reg) != 0
    }

    /// Returns the set with a register more. FP is in none.
    pub fn with(self, reg: Reg) -> RegSet
        ensures more { (r : Reg) → has result r ≡ (has self r || is_same reg r) }
        ensures small { IsSmall self → IsSmall result }
    {
        RegSet(self.0 | bit_of(reg))
    }
}
