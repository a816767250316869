// Steps on a stack of values.

use lg_op::BinaryOp;

/// A step of working an expression out, on a stack of words of 64 bits.
#[derive(Clone, Copy)]
pub enum Step {
    /// A number goes onto the stack.
    Number(u64),
    /// The argument goes onto the stack.
    Argument,
    /// 0 less the topmost value takes its place.
    Negate,
    /// What an operation makes of the two topmost values, the topmost one last, takes their place.
    Operation(BinaryOp),
}
