// The operands of nodes, as registers of the processor.

ghost use Rattle.std.specs.Prelude.{◌≡◌};
ghost use Rattle.lg_selr.specs.Memory.Accesses.{register};

use lg_carry::memory::operands::named;
use lg_op::Operand;
use lg_selr_values::register_of;

// Returns the register of an operand that is one, and else that of FP.
pub(crate) fn register(operand: Operand) -> u8
    ensures { result ≡ register operand }
{
    register_of(named(operand))
}
