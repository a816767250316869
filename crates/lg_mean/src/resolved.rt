// Nodes with their operands looked up: the registers by their numbers, the words of constants, and the nodes of labels.

ghost use Rattle.std.specs.Prelude.{◌≡◌, length, IfSome};
ghost use Rattle.lg_meaning.specs.Steps.{Text};
ghost use Rattle.lg_op.specs.declared.op.Op.TheVariants as op_of;
ghost use Rattle.lg_op.specs.declared.op.ControlOp.TheVariants as control;
ghost use Rattle.lg_op.specs.declared.op.PlainOp.TheVariants as plain;
ghost use Rattle.lg_op.specs.declared.op.LastOperand.{LastOperand};
ghost use Rattle.lg_op.specs.declared.op.LastOperand.TheVariants as last_operand;
ghost use Rattle.lg_mean.specs.Says.{AreKnown, IsKnown};
ghost use Rattle.lg_mean.specs.Resolved.{IsRegister, IsSource, IsPairOf, IsResolved};

use crate::access::is_indexed;
use crate::machine::{node_of_label, number_of, operand};
use lg_node::{
    Addressing, BinaryOp, Condition, ControlOp, LastOperand, Node, NodeList, Op, Operand, PlainOp,
    StoreType, UnaryOp, ValueType,
};
use lg_op::operators;

/// The place of an operand that is a constant.
pub(crate) const CONSTANT: u8 = 7;

/// The place of the frame pointer.
pub(crate) const FRAME: u8 = 6;

/// What a resolved node does, by the fields of `ResolvedNode`.
#[derive(Clone, Copy)]
pub(crate) enum Act {
    /// `first` = `second` op `third`.
    Binary(BinaryOp),
    /// The same for an operation that sets the carry.
    WithCarry(BinaryOp),
    /// `first` = op `second`.
    Unary(UnaryOp),
    /// `first` = `number`.
    Move,
    /// Goes to `target` where `second` and `third` pass a test.
    Branch(Condition),
    /// Goes to `target`.
    Jump,
    /// `first` = the bytes at `third`.
    Load(ValueType),
    /// `first` = the bytes at `second` + `third`.
    LoadSum(ValueType),
    /// The bytes at `third` = `first`.
    Store(StoreType),
    /// The bytes at `third` + `second` = `first`.
    StoreSum(StoreType),
    /// None of these: the node itself has to be executed.
    Other,
}

/// A node with its operands looked up. The numbers of registers are 0 to 5 for R0, R1, R2, V0, V1 and V2, and 6 for the frame pointer;
/// `third` may be 7, for `number`.
#[derive(Clone, Copy)]
pub(crate) struct ResolvedNode {
    pub(crate) act: Act,
    pub(crate) first: u8,
    pub(crate) second: u8,
    pub(crate) third: u8,
    pub(crate) target: u32,
    pub(crate) number: u64,
}

// A node that has to be executed by its operands.
const OTHER: ResolvedNode = ResolvedNode {
    act: Act::Other,
    first: 0,
    second: 0,
    third: 0,
    target: 0,
    number: 0,
};

// An operand that is a register or a constant: its place, and the word of the constant.
#[derive(Clone, Copy)]
struct OperandPlace {
    place: u8,
    number: u64,
}

// Returns the number of the register that an operand is.
fn register(operand: Operand) -> Option<u8>
    ensures { IfSome result (IsRegister operand) }
{
    match operand {
        Operand::Reg(reg) => Some(number_of(reg) as u8),
        _ => None,
    }
}

// Returns the place of an operand that is a register or a constant.
fn source(labels: &[u64], operand: Operand) -> Option<OperandPlace>
    requires { IsKnown (length labels.now) operand }
    ensures { IfSome result (λ x. IsSource labels.now operand x.place x.number) }
{
    let number = match operand {
        Operand::Reg(reg) => {
            return Some(OperandPlace {
                place: number_of(reg) as u8,
                number: 0,
            });
        }
        Operand::Number(number) => number,
        Operand::Label(label) => labels[label.0 as usize],
        Operand::Host(name) => name.address(),
        Operand::Slot(_) => return None,
    };
    Some(OperandPlace {
        place: CONSTANT,
        number,
    })
}

// Returns the word of an operand that is a constant.
fn constant(labels: &[u64], operand: Operand) -> Option<u64>
    requires { IsKnown (length labels.now) operand }
    ensures { IfSome result (λ x. IsSource labels.now operand 7 x) }
{
    let found = source(labels, operand)?;
    if found.place == CONSTANT {
        Some(found.number)
    } else {
        None
    }
}

// A resolved node of an operation with two operands or of a branch, or None where an operand is of another kind.
fn pair(act: Act, node: &Node, labels: &[u64]) -> Option<ResolvedNode>
    requires known { AreKnown (length labels.now) node.now }
    ensures { IfSome result (λ q. (q.act ≡ act) × IsPairOf labels.now node.now q) }
{
    let second = register(operand(node, 1))?;
    let third = source(labels, operand(node, 2))?;
    Some(ResolvedNode {
        act,
        first: 0,
        second,
        third: third.place,
        target: 0,
        number: third.number,
    })
}

// O1 = O2 op O3.
fn resolved_binary(op: BinaryOp, node: &Node, labels: &[u64]) -> Option<ResolvedNode>
    requires known { AreKnown (length labels.now) node.now }
    requires op { (last : LastOperand) × (node.now.op ≡ op_of.Binary op last) }
    ensures { IfSome result (λ q. (t : Text) → t.addresses ≡ labels.now → IsResolved t node.now q) }
{
    let act = if operators::sets_carry(op) {
        Act::WithCarry(op)
    } else {
        Act::Binary(op)
    };
    let first = register(operand(node, 0))?;
    let pair = pair(act, node, labels)?;
    Some(ResolvedNode { first, ..pair })
}

// O1 = op O2.
fn resolved_unary(op: UnaryOp, node: &Node) -> Option<ResolvedNode>
    requires { node.now.op ≡ op_of.Unary op }
    ensures { IfSome result (λ q. (t : Text) → IsResolved t node.now q) }
{
    let first = register(operand(node, 0))?;
    let second = register(operand(node, 1))?;
    Some(ResolvedNode {
        act: Act::Unary(op),
        first,
        second,
        ..OTHER
    })
}

// O1 = an immediate.
fn resolved_move(node: &Node, labels: &[u64]) -> Option<ResolvedNode>
    requires known { AreKnown (length labels.now) node.now }
    requires op { node.now.op ≡ op_of.Plain plain.Movi }
    ensures { IfSome result (λ q. (t : Text) → t.addresses ≡ labels.now → IsResolved t node.now q) }
{
    let first = register(operand(node, 0))?;
    let number = constant(labels, operand(node, 1))?;
    Some(ResolvedNode {
        act: Act::Move,
        first,
        number,
        ..OTHER
    })
}

// Goes to O1 where O2 and O3 pass a test.
fn resolved_branch(
    condition: Condition,
    node: &Node,
    nodes: &NodeList,
    labels: &[u64],
) -> Option<ResolvedNode>
    requires known { AreKnown (length labels.now) node.now }
    requires same { length labels.now ≡ length nodes.now.words }
    requires op { (last : LastOperand) × (node.now.op ≡ op_of.Branch condition last) }
    ensures { IfSome result (λ q. (t : Text) → t.addresses ≡ labels.now → t.places ≡ nodes.now.places → IsResolved t node.now q) }
{
    let target = node_of_label(nodes, operand(node, 0));
    let pair = pair(Act::Branch(condition), node, labels)?;
    Some(ResolvedNode { target, ..pair })
}

// Goes to O1.
fn resolved_jump(node: &Node, nodes: &NodeList, labels: &[u64]) -> ResolvedNode
    requires known { AreKnown (length labels.now) node.now }
    requires same { length labels.now ≡ length nodes.now.words }
    requires op { node.now.op ≡ op_of.Control control.Jmp last_operand.Immediate }
    ensures { (t : Text) → t.places ≡ nodes.now.places → IsResolved t node.now result }
{
    ResolvedNode {
        act: Act::Jump,
        target: node_of_label(nodes, operand(node, 0)),
        ..OTHER
    }
}

// O1 = the bytes at O2, or at O2 + O3.
fn resolved_load(
    value_type: ValueType,
    addressing: Addressing,
    node: &Node,
    labels: &[u64],
) -> Option<ResolvedNode>
    requires known { AreKnown (length labels.now) node.now }
    requires op { node.now.op ≡ op_of.Load value_type addressing }
    ensures { IfSome result (λ q. (t : Text) → t.addresses ≡ labels.now → IsResolved t node.now q) }
{
    let first = register(operand(node, 0))?;
    if is_indexed(addressing) {
        let pair = pair(Act::LoadSum(value_type), node, labels)?;
        return Some(ResolvedNode { first, ..pair });
    }
    let third = source(labels, operand(node, 1))?;
    Some(ResolvedNode {
        act: Act::Load(value_type),
        first,
        third: third.place,
        number: third.number,
        ..OTHER
    })
}

// Returns the bytes at O1 = O2, or those at O1 + O2 = O3.
fn resolved_store(
    store_type: StoreType,
    addressing: Addressing,
    node: &Node,
    labels: &[u64],
) -> Option<ResolvedNode>
    requires known { AreKnown (length labels.now) node.now }
    requires op { node.now.op ≡ op_of.Store store_type addressing }
    ensures { IfSome result (λ q. (t : Text) → t.addresses ≡ labels.now → IsResolved t node.now q) }
{
    let third = source(labels, operand(node, 0))?;
    let second = register(operand(node, 1))?;
    if is_indexed(addressing) {
        return Some(ResolvedNode {
            act: Act::StoreSum(store_type),
            first: register(operand(node, 2))?,
            second,
            third: third.place,
            number: third.number,
            ..OTHER
        });
    }
    Some(ResolvedNode {
        act: Act::Store(store_type),
        first: second,
        third: third.place,
        number: third.number,
        ..OTHER
    })
}

// A node with its operands looked up, or None where it is none of the most frequent ones.
fn frequent(node: &Node, nodes: &NodeList, labels: &[u64]) -> Option<ResolvedNode>
    requires known { AreKnown (length labels.now) node.now }
    requires same { length labels.now ≡ length nodes.now.words }
    ensures { IfSome result (λ q. (t : Text) → t.addresses ≡ labels.now → t.places ≡ nodes.now.places → IsResolved t node.now q) }
{
    match node.op {
        Op::Binary(op, _) => resolved_binary(op, node, labels),
        Op::Branch(condition, _) => resolved_branch(condition, node, nodes, labels),
        Op::Control(ControlOp::Jmp, LastOperand::Immediate) => {
            Some(resolved_jump(node, nodes, labels))
        }
        Op::Unary(op) => resolved_unary(op, node),
        Op::Plain(PlainOp::Movi) => resolved_move(node, labels),
        Op::Load(value_type, addressing) => resolved_load(value_type, addressing, node, labels),
        Op::Store(store_type, addressing) => resolved_store(store_type, addressing, node, labels),
        _ => None,
    }
}

/// A node of a text with its operands looked up.
pub(crate) fn resolved(node: &Node, nodes: &NodeList, labels: &[u64]) -> ResolvedNode
    requires known { AreKnown (length labels.now) node.now }
    requires same { length labels.now ≡ length nodes.now.words }
    ensures { (t : Text) → t.addresses ≡ labels.now → t.places ≡ nodes.now.places → IsResolved t node.now result }
{
    match frequent(node, nodes, labels) {
        Some(node) => node,
        None => OTHER,
    }
}
