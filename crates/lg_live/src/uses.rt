// The registers that a node reads and writes.

ghost use Rattle.std.specs.Prelude.{◌≡◌, ◌<◌, ◌||◌, ◌&&◌, Some, length, slice_get, IfSome};
ghost use Rattle.lg_op.specs.declared.node.Node.{Node};
ghost use Rattle.lg_op.specs.declared.operand.Reg.{Reg};
ghost use Rattle.lg_live.specs.RegSets.{has, IsSmall};
ghost use Rattle.lg_live.specs.Uses.{is_for, is_register, names, is_call, is_read, is_written};

use crate::reg_set::RegSet;
use lg_node::NodeList;
use lg_op::{ControlOp, Form, LastOperand, Node, Op, Operand, PlainOp, Reg};

/// What a node does with a register.
#[derive(Clone, Copy, PartialEq, Eq)]
pub enum Access {
    /// It reads the register.
    Read,
    /// It writes the register.
    Write,
}

// Returns whether an operand of this form is for this access.
fn is_for(access: Access, form: Form) -> bool
    ensures { result ≡ is_for access form }
{
    match (access, form) {
        (_, Form::Update) | (Access::Read, Form::Read) | (Access::Write, Form::Write) => true,
        _ => false,
    }
}

// A set with the register that an operand of this form names for this access.
fn with_named(found: RegSet, access: Access, form: Form, operand: Operand) -> RegSet
    ensures registers { (r : Reg) → has result r ≡ (has found r || (is_for access form && is_register r operand)) }
    ensures small { IsSmall found → IsSmall result }
{
    match operand {
        Operand::Reg(reg) if is_for(access, form) => found.with(reg),
        _ => found,
    }
}

// A set with the registers that operands name for this access.
fn named(access: Access, forms: &[Form], operands: &[Operand], found: RegSet) -> RegSet
    ensures registers { (r : Reg) → has result r ≡ (has found r || names access forms.now operands.now r) }
    ensures small { IsSmall found → IsSmall result }
{
    match forms {
        [] => found,
        [form, forms @ ..] => match operands {
            [] => found,
            [operand, operands @ ..] => {
                let found = with_named(found, access, *form, *operand);
                named(access, forms, operands, found)
            }
        },
    }
}

// Returns whether an operation calls.
fn is_call(op: Op) -> bool
    ensures { result ≡ is_call op }
{
    matches!(op, Op::Control(ControlOp::Call | ControlOp::Finish, _))
}

// A set with the register that an operand is.
fn with_register(found: RegSet, operand: Operand) -> RegSet
    ensures registers { (r : Reg) → has result r ≡ (has found r || is_register r operand) }
    ensures small { IsSmall found → IsSmall result }
{
    match operand {
        Operand::Reg(reg) => found.with(reg),
        _ => found,
    }
}

// Returns the registers that a node reads, by the forms of its operands.
#[inline(never)]
fn reads_by_forms(node: &Node) -> RegSet
    ensures registers { (r : Reg) → has result r ≡ is_read node.now r }
    ensures small { IsSmall result }
{
    named(
        Access::Read,
        node.op.forms(),
        node.operands.as_slice(),
        RegSet::none(),
    )
}

/// Returns the registers of R0 to V2 that a node reads.
#[inline(always)]
pub fn reads(node: &Node) -> RegSet
    ensures registers { (r : Reg) → has result r ≡ is_read node.now r }
    ensures small { IsSmall result }
{
    let none = RegSet::none();
    match (node.op, node.operands.as_slice()) {
        (Op::Binary(_, LastOperand::Register) | Op::Branch(_, LastOperand::Register), [_, a, b]) =>
            { with_register(with_register(none, *b), *a) }
        (Op::Binary(_, LastOperand::Immediate) | Op::Branch(_, LastOperand::Immediate), [_, a, _])
        | (Op::Unary(_), [_, a]) => with_register(none, *a),
        (Op::Plain(PlainOp::Movi), [_, _]) => none,
        _ => reads_by_forms(node),
    }
}

// Returns the registers that a node writes, by the forms of its operands.
#[inline(never)]
fn writes_by_forms(node: &Node) -> RegSet
    ensures registers { (r : Reg) → has result r ≡ is_written node.now r }
    ensures small { IsSmall result }
{
    let written = named(
        Access::Write,
        node.op.forms(),
        node.operands.as_slice(),
        RegSet::none(),
    );
    if is_call(node.op) {
        written.with(Reg::R0).with(Reg::R1).with(Reg::R2)
    } else {
        written
    }
}

/// Returns the registers of R0 to V2 that a node writes. A call writes R0, R1 and R2.
#[inline(always)]
pub fn writes(node: &Node) -> RegSet
    ensures registers { (r : Reg) → has result r ≡ is_written node.now r }
    ensures small { IsSmall result }
{
    let none = RegSet::none();
    match (node.op, node.operands.as_slice()) {
        (Op::Binary(_, _), [d, _, _]) | (Op::Unary(_) | Op::Plain(PlainOp::Movi), [d, _]) => {
            with_register(none, *d)
        }
        (Op::Branch(_, _), [_, _, _]) => none,
        _ => writes_by_forms(node),
    }
}

/// What a node reads and writes, of R0 to V2.
#[derive(Clone, Copy, Debug, PartialEq, Eq)]
pub struct Uses {
    /// The registers that it reads.
    pub reads: RegSet,
    /// The registers that it writes.
    pub writes: RegSet,
}

// What a node of one of the common forms reads and writes.
#[inline(always)]
fn common(node: &Node) -> Option<Uses>
    ensures reads { IfSome result (λ u. (r : Reg) → has u.reads r ≡ is_read node.now r) }
    ensures writes { IfSome result (λ u. (r : Reg) → has u.writes r ≡ is_written node.now r) }
{
    let none = RegSet::none();
    let (reads, writes) = match (node.op, node.operands.as_slice()) {
        (Op::Binary(_, LastOperand::Register), [d, a, b]) => (
            with_register(with_register(none, *b), *a),
            with_register(none, *d),
        ),
        (Op::Binary(_, LastOperand::Immediate), [d, a, _]) | (Op::Unary(_), [d, a]) => {
            (with_register(none, *a), with_register(none, *d))
        }
        (Op::Plain(PlainOp::Movi), [d, _]) => (none, with_register(none, *d)),
        (Op::Branch(_, LastOperand::Register), [_, a, b]) => {
            (with_register(with_register(none, *b), *a), none)
        }
        (Op::Branch(_, LastOperand::Immediate), [_, a, _]) => (with_register(none, *a), none),
        _ => return None,
    };
    Some(Uses { reads, writes })
}

// What any node of a list reads and writes.
#[inline(never)]
fn any_uses(nodes: &NodeList, index: u32) -> Uses
    requires { index < length nodes.now.nodes }
    ensures reads { (n : Node) → slice_get nodes.now.nodes index ≡ Some n → (r : Reg) → has result.reads r ≡ is_read n r }
    ensures writes { (n : Node) → slice_get nodes.now.nodes index ≡ Some n → (r : Reg) → has result.writes r ≡ is_written n r }
{
    let node = nodes.node(index);
    Uses {
        reads: reads_by_forms(&node),
        writes: writes_by_forms(&node),
    }
}

/// Returns what the node of an index reads and writes, which is below the number of nodes.
#[inline(always)]
pub fn uses_at(nodes: &NodeList, index: u32) -> Uses
    requires { index < length nodes.now.nodes }
    ensures reads { (n : Node) → slice_get nodes.now.nodes index ≡ Some n → (r : Reg) → has result.reads r ≡ is_read n r }
    ensures writes { (n : Node) → slice_get nodes.now.nodes index ≡ Some n → (r : Reg) → has result.writes r ≡ is_written n r }
{
    match common(&nodes.node(index)) {
        Some(uses) => uses,
        None => any_uses(nodes, index),
    }
}
