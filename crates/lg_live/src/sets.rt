// Sets of registers, joined and parted.

ghost use Rattle.std.specs.Prelude.{◌≡◌, ◌||◌, ◌&&◌, not, ◌<◌, ◌≤◌};
ghost use Rattle.lg_op.specs.declared.operand.Reg.{Reg};
ghost use Rattle.lg_live.specs.RegSets.{has};
ghost use Rattle.lg_live.specs.Graphs.{any_register};

use crate::reg_set::RegSet;
use bitflags::Flags;

/// Returns the registers of two sets.
pub fn union(a: RegSet, b: RegSet) -> RegSet
    ensures registers { (r : Reg) → has result r ≡ (has a r || has b r) }
    ensures byte { result.0 < 256 }
    ensures grows { a.0 ≤ result.0 }
{
    a.union(b)
}

/// Returns whether two sets have a common register.
pub fn meets(a: RegSet, b: RegSet) -> bool
    ensures { result ≡ any_register (λ q. has a q && has b q) }
{
    (a.bits() & b.bits()) % 64 != 0
}

/// Returns the registers of a set that are not in another.
pub fn difference(a: RegSet, b: RegSet) -> RegSet
    ensures registers { (r : Reg) → has result r ≡ (has a r && not (has b r)) }
{
    a.difference(b)
}
