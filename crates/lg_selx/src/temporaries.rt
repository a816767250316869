// The temporaries that the code of a node asks for.

ghost use Rattle.std.specs.Prelude.{◌≡◌, false};
ghost use Rattle.std.specs.List.{list_any};
ghost use Rattle.lg_selx.specs.Selected.{needs, is_any, is_store};
ghost use Rattle.lg_selx.specs.Memory.Accesses.{store_needs};

use lg_op::{Addressing, BinaryOp, LastOperand, Node, Op};
use lg_temp::{Need, Needs};

// The low word of a product, and a quotient.
const RAX: u8 = 0;

// The count of a shift.
const RCX: u8 = 1;

// The high word of a product, and a remainder.
const RDX: u8 = 2;

// What a store needs: one register that is any, but at an address that is a register.
fn store_needs(at: Addressing) -> Needs
    ensures { result ≡ store_needs at }
{
    match at {
        Addressing::Register => Needs::of(&[]),
        _ => Needs::of(&[Need::Any]),
    }
}

/// Returns what the temporaries of a node's code need: rax and rdx at quotients, remainders and products in two words, rcx at shifts by a register, and one
/// register that is any at stores whose address is no register; nothing elsewhere. Only stores ask for a register that is any.
pub fn needs(node: &Node) -> Needs
    ensures value { result ≡ needs node.now.op }
    ensures no_any { is_store node.now.op ≡ false → list_any is_any result ≡ false }
{
    match node.op {
        Op::Binary(BinaryOp::Lsh | BinaryOp::Rsh | BinaryOp::RshU, LastOperand::Register) => {
            Needs::of(&[Need::Only(RCX)])
        }
        Op::Binary(BinaryOp::Div | BinaryOp::DivU | BinaryOp::Rem | BinaryOp::RemU, _)
        | Op::Wide(_, _) => Needs::of(&[Need::Only(RAX), Need::Only(RDX)]),
        Op::Store(_, at) => store_needs(at),
        _ => Needs::of(&[]),
    }
}
