// Which operations only make words.

ghost use Rattle.std.specs.Prelude.{◌≡◌, not};
ghost use Rattle.lg_live.specs.Definitions.{defines, feeding};
ghost use Rattle.lg_op.specs.Operators.{sets_carry};

use lg_node::{BinaryOp, Op, PlainOp};

/// What is sought of the registers at each node.
#[derive(Clone, Copy, PartialEq, Eq)]
pub enum Sought {
    /// The registers that are live: some node may read them.
    Live,
    /// The registers that are needed: their words can reach a node that is no definition.
    Needed,
}

// Returns whether an operation sets the carry.
fn sets_carry(op: BinaryOp) -> bool
    ensures { result ≡ sets_carry op }
{
    matches!(
        op,
        BinaryOp::Addc | BinaryOp::Subc | BinaryOp::Addx | BinaryOp::Subx
    )
}

/// Returns whether an operation only makes words: it may go where none of the registers that it writes is needed.
pub fn defines(op: Op) -> bool
    ensures { result ≡ defines op }
{
    match op {
        Op::Binary(op, _) => !sets_carry(op),
        Op::Wide(_, _)
        | Op::Unary(_)
        | Op::Plain(PlainOp::Movi)
        | Op::Load(_, _)
        | Op::Retval(_)
        | Op::Getarg(_) => true,
        _ => false,
    }
}

/// Returns whether what an operation reads counts only where what it writes is required.
pub fn feeding(sought: Sought, op: Op) -> bool
    ensures { result ≡ feeding sought op }
{
    match sought {
        Sought::Live => false,
        Sought::Needed => defines(op),
    }
}
