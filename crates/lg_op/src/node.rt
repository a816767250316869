// Nodes.

ghost use Rattle.std.specs.Prelude.{◌≡◌, ◌↔◌, IsTrue};
ghost use Rattle.lg_op.specs.Forms.{admit};
ghost use Rattle.lg_op.specs.Nodes.{InForm, IsApart};

use crate::form::Form;
use crate::op::{Op, PlainOp};
use crate::operand::{Operand, Operands};

/// An instruction of a text: an operation with its operands, and the line on which it stands.
#[derive(Clone, Copy, Debug)]
pub struct Node {
    /// The operation.
    pub op: Op,
    /// The line of the operation's name in the text, from 1.
    pub line: u32,
    /// Its operands, in order.
    pub operands: Operands,
}

impl Node {
    /// Returns whether the operands are those of the operation's row in the instruction table, and the two results of `qmul`, `qdiv` and `va_arg` two
    /// registers.
    pub fn is_in_form(&self) -> bool
        ensures { IsTrue result ↔ InForm self.now }
    {
        let operands = self.operands.as_slice();
        admit(self.op.forms(), operands) && is_apart(self.op, operands)
    }
}

// Returns whether operands are those of the forms, one by one.
fn admit(forms: &[Form], operands: &[Operand]) -> bool
    ensures { result ≡ admit forms.now operands.now }
{
    match forms {
        [] => operands.is_empty(),
        [form, forms @ ..] => match operands {
            [] => false,
            [operand, operands @ ..] => form.admits(*operand) && admit(forms, operands),
        },
    }
}

// Returns whether an operation with two results has two registers for them.
fn is_apart(op: Op, operands: &[Operand]) -> bool
    ensures { IsTrue result ↔ IsApart op operands.now }
{
    match (op, operands) {
        (Op::Wide(_, _) | Op::Plain(PlainOp::VaArg), [a, b, ..]) => a != b,
        _ => true,
    }
}
