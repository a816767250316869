// The temporaries that the code of a node asks for.

ghost use Rattle.std.specs.Prelude.{◌≡◌, ℕ, [], true, false};
ghost use Rattle.lg_sel.specs.Needs.{takes_none};
ghost use Rattle.lg_sela_values.specs.ValueItems.{value_needs};
ghost use Rattle.lg_temp.specs.Chosen.{is_named};

use lg_op::{BinaryOp, LastOperand, Node, Op};
use lg_temp::{Need, Needs};

/// Returns what the temporaries of a node's code need: one register that is any, at the remainders by an immediate, and none elsewhere. No need names a
/// register.
pub fn needs(node: &Node) -> Needs
    ensures value { result ≡ value_needs node.now.op }
    ensures unnamed { (r : ℕ) → is_named result r ≡ false }
    ensures none { takes_none node.now.op node.now.operands ≡ true → result ≡ [] }
{
    match node.op {
        Op::Binary(BinaryOp::Rem | BinaryOp::RemU, LastOperand::Immediate) => {
            Needs::of(&[Need::Any])
        }
        _ => Needs::of(&[]),
    }
}
