// What the code of a node that computes values takes of it.

ghost use Rattle.std.specs.Prelude.{◌≡◌};
ghost use Rattle.lg_carry.specs.Values.Parts.{operand_in};

use lg_op::Operand;

/// Returns an operand by its place, and the number 0 where there is none.
pub fn operand_in(operands: &[Operand], index: usize) -> Operand
    ensures { result ≡ operand_in operands.now index }
{
    match operands.get(index) {
        Some(operand) => *operand,
        None => Operand::Number(0),
    }
}
