// From a unit to code.

ghost use Rattle.std.specs.Prelude.{◌≡◌, ◌≤◌, length, IfOk};
ghost use Rattle.lg_asm.specs.Addresses.{AreInside};
ghost use Rattle.lg_base.specs.Layout.{most_code};

use lg_asm::{Code, assemble, assemble_with};
use lg_base::{Stop, Target};
use lg_node::{Label, Unit, check};
use std::alloc::Global;

// The most bytes of code.
const MOST_CODE: u32 = 65_536;

/// Makes the code of a unit: the check of its nodes gives the shape that the assembler wants.
pub fn code_of(alloc: Global, unit: &Unit, target: Target) -> Result<Code, Stop>
    requires { AreInside unit.now.nodes (length unit.now.image) }
    ensures { IfOk result (λ c. length c.bytes ≤ most_code) }
{
    let shape = check(alloc, unit)?;
    assemble(alloc, unit, &shape, target, MOST_CODE)
}

/// Makes the code of a unit whose functions at these labels are called from outside.
pub fn code_with(
    alloc: Global,
    unit: &Unit,
    target: Target,
    entries: &[Label],
) -> Result<Code, Stop>
    requires { AreInside unit.now.nodes (length unit.now.image) }
    ensures { IfOk result (λ c. length c.bytes ≤ most_code) }
{
    let shape = check(alloc, unit)?;
    assemble_with(alloc, unit, &shape, target, MOST_CODE, entries)
}
