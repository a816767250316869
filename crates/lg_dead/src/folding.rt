// What nodes become by the numbers that are known.

ghost use Rattle.std.specs.Prelude.{◌≡◌, if◌then◌else◌, None};
ghost use Rattle.lg_op.specs.declared.op.LastOperand.{LastOperand};
ghost use Rattle.lg_op.specs.declared.op.Op.TheVariants as variant;
ghost use Rattle.lg_op.specs.Nodes.{InForm};
ghost use Rattle.lg_op.specs.Operators.{sets_carry, binary_value};
ghost use Rattle.lg_dead.specs.Known.{both_known, made, last_known, as_movi, as_immediate, with_immediate, with_third, folded};
ghost use Rattle.lg_dead.specs.Tables.{known_of};

use crate::known::Known;
use lg_op::operators::{binary, sets_carry, unary};
use lg_op::{BinaryOp, LastOperand, Node, Op, Operand, Operands, PlainOp, UnaryOp};

// Returns the word of two words that are known.
fn made_of_two(op: BinaryOp, a: Option<u64>, b: Option<u64>) -> Option<u64>
    ensures { result ≡ (if sets_carry op then None else both_known a b (binary_value op)) }
{
    if sets_carry(op) {
        return None;
    }
    match a {
        Some(a) => match b {
            Some(b) => binary(op, a, b),
            None => None,
        },
        None => None,
    }
}

// Returns the word that an operation makes of its operands.
fn made_binary(known: &Known, op: BinaryOp, operands: &[Operand]) -> Option<u64>
    ensures { (last : LastOperand) → result ≡ made (known_of known.now) (variant.Binary op last) operands.now }
{
    match operands {
        [_, a, b] => made_of_two(op, known.number_in(*a), known.number_in(*b)),
        _ => None,
    }
}

// Returns the word that an operation makes of its operand.
fn made_unary(known: &Known, op: UnaryOp, operands: &[Operand]) -> Option<u64>
    ensures { result ≡ made (known_of known.now) (variant.Unary op) operands.now }
{
    match operands {
        [_, a] => match known.number_in(*a) {
            Some(word) => Some(unary(op, word)),
            None => None,
        },
        _ => None,
    }
}

// Returns the word that a node makes of words that are known.
fn made(known: &Known, node: &Node) -> Option<u64>
    ensures { result ≡ made (known_of known.now) node.now.op node.now.operands }
{
    match node.op {
        Op::Binary(op, _) => made_binary(known, op, node.operands.as_slice()),
        Op::Unary(op) => made_unary(known, op, node.operands.as_slice()),
        _ => None,
    }
}

// Returns the number of a last operand that is a register which is known.
fn last_known(known: &Known, node: &Node) -> Option<u64>
    ensures { result ≡ last_known (known_of known.now) node.now.op node.now.operands }
{
    match node.op {
        Op::Binary(op, LastOperand::Register) => match node.operands.as_slice() {
            [_, _, Operand::Reg(register)] => {
                if sets_carry(op) {
                    None
                } else {
                    known.of(*register)
                }
            }
            _ => None,
        },
        Op::Branch(_, LastOperand::Register) => match node.operands.as_slice() {
            [_, _, Operand::Reg(register)] => known.of(*register),
            _ => None,
        },
        _ => None,
    }
}

// The `movi` of a number into a node's first operand.
fn as_movi(node: &Node, number: u64) -> Node
    ensures { result ≡ as_movi node.now number }
{
    let into = match node.operands.as_slice() {
        [into, ..] => *into,
        [] => Operand::Number(0),
    };
    Node {
        op: Op::Plain(PlainOp::Movi),
        operands: Operands::of(&[into, Operand::Number(number)]),
        line: node.line,
    }
}

// Returns the operation with an immediate.
fn with_immediate(op: Op) -> Op
    ensures { result ≡ with_immediate op }
{
    match op {
        Op::Binary(op, _) => Op::Binary(op, LastOperand::Immediate),
        Op::Branch(condition, _) => Op::Branch(condition, LastOperand::Immediate),
        op => op,
    }
}

// Three operands the last of which is this number.
fn with_third(operands: Operands, number: u64) -> Operands
    ensures { result ≡ with_third operands number }
{
    match operands.as_slice() {
        [a, b, _] => Operands::of(&[*a, *b, Operand::Number(number)]),
        _ => operands,
    }
}

// A node with its last operand as a number.
fn as_immediate(node: &Node, number: u64) -> Node
    ensures { result ≡ as_immediate node.now number }
{
    Node {
        op: with_immediate(node.op),
        operands: with_third(node.operands, number),
        line: node.line,
    }
}

/// Returns what a node becomes where these numbers are known before it: a `movi` of the word that it makes, or the node with its last operand as a number.
#[inline(never)]
pub fn folded(known: &Known, node: &Node) -> Node
    requires form { InForm node.now }
    ensures node { result ≡ folded (known_of known.now) node.now }
    ensures form { InForm result }
{
    match made(known, node) {
        Some(number) => as_movi(node, number),
        None => match last_known(known, node) {
            Some(number) => as_immediate(node, number),
            None => *node,
        },
    }
}
