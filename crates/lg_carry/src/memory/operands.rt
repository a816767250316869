// The operands of nodes that read and write memory and pass arguments.

ghost use Rattle.std.specs.Prelude.{◌≡◌};
ghost use Rattle.lg_meaning.specs.Steps.{operand_at, slot};
ghost use Rattle.lg_carry.specs.Memory.Operands.{named, number};

use lg_op::{Node, Operand, Reg};

/// Returns an operand of a node, by its place from 0, and the number 0 where there is none.
pub fn operand(node: &Node, index: usize) -> Operand
    ensures { result ≡ operand_at node.now index }
{
    match node.operands.as_slice().get(index) {
        Some(operand) => *operand,
        None => Operand::Number(0),
    }
}

/// Returns the register that an operand names, and FP where it names none.
pub fn named(operand: Operand) -> Reg
    ensures { result ≡ named operand }
{
    match operand {
        Operand::Reg(reg) => reg,
        _ => Reg::Fp,
    }
}

/// Returns the number that an operand gives, of 64 bits: itself, or the address of a host function; and 0 where it gives none.
pub fn number(operand: Operand) -> u64
    ensures { result ≡ number operand }
{
    match operand {
        Operand::Number(value) => value,
        Operand::Host(name) => name.address(),
        _ => 0,
    }
}

/// Returns the argument of its function that a node names, by its number from 0, and 0 where the operand names none.
pub fn slot(operand: Operand) -> u32
    ensures { result ≡ slot operand }
{
    match operand {
        Operand::Slot(index) => index,
        _ => 0,
    }
}
