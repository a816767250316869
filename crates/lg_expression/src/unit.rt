// The nodes of an expression, and the unit that works it out and prints its value.

ghost use Rattle.std.specs.Prelude.{◌≡◌, ◌<◌, ◌≤◌, length, IfOk, IsTrue, OnOk};
ghost use Rattle.lg_op.specs.Nodes.{InForm};
ghost use Rattle.lg_node.specs.Nodes.{with_node};
ghost use Rattle.lg_expression.specs.Steps.{finds};
ghost use Rattle.lg_expression.specs.declared.step.Step.TheVariants.{Operation};
ghost use Rattle.lg_expression.specs.Units.{AreInside, aside, format, head, node, nodes_of, put_nodes, start, start_with_format, step_nodes, tail, unit_nodes, waiting};

use crate::expression::{Expression, behind};
use crate::step::Step;
use lg_base::{DataImage, HostName, OutOfMemory};
use lg_node::{
    Addressing, BinaryOp, ControlOp, Label, LastOperand, Node, NodeList, Op, Operand, Operands,
    Place, PlainOp, Reg, StoreType, UnaryOp, Unit, ValueType,
};
use std::alloc::Global;

// The most nodes of a unit.
const MOST_NODES: u32 = 1_048_576;

// Where the first value waits: the offset from FP of a function's first local of 256 bytes, which lies 128 + 256 bytes below FP.
const WAITING: u64 = 0xffff_ffff_ffff_fe80;

const FP: Operand = Operand::Reg(Reg::Fp);
// a value that is fetched, the topmost value, and the argument, which calls keep
const R0: Operand = Operand::Reg(Reg::R0);

const V0: Operand = Operand::Reg(Reg::V0);

const V1: Operand = Operand::Reg(Reg::V1);

// Appends a node.
fn put(nodes: &mut NodeList, op: Op, operands: &[Operand]) -> Result<(), OutOfMemory>
    requires few { length operands.now ≤ 4 }
    requires form { InForm (node op operands.now) }
    ensures { OnOk result (nodes.new ≡ with_node nodes.old (node op operands.now)) }
{
    if nodes.len() >= MOST_NODES {
        return Err(OutOfMemory);
    }
    nodes.push(Node {
        op,
        operands: Operands::of(operands),
        line: 1,
    })
}

// Where the value of a place on the stack waits (32).
fn waiting(place: u32) -> Operand
    requires { place < 32 }
    ensures { result ≡ waiting place }
{
    Operand::Number(WAITING + 8 * u64::from(place))
}

// Makes room for a value on top of this many: the topmost one waits in the frame.
fn put_aside(nodes: &mut NodeList, values: u32) -> Result<(), OutOfMemory>
    requires { values < 32 }
    ensures { OnOk result (nodes.new ≡ put_nodes nodes.old (aside values)) }
{
    match values.checked_sub(1) {
        None => Ok(()),
        Some(place) => put(
            nodes,
            Op::Store(StoreType::Long, Addressing::RegisterImmediate),
            &[waiting(place), FP, V0],
        ),
    }
}

// Appends the nodes of an operation on the two topmost of n values: the one below waits in the frame.
fn put_operation(nodes: &mut NodeList, values: u32, op: BinaryOp) -> Result<(), OutOfMemory>
    requires least { 2 ≤ values }
    requires most { values ≤ 32 }
    ensures { OnOk result (nodes.new ≡ put_nodes nodes.old (step_nodes values (Operation op))) }
{
    let operands = [R0, FP, waiting(values - 2)];
    put(
        nodes,
        Op::Load(ValueType::Long, Addressing::RegisterImmediate),
        &operands,
    )?;
    put(nodes, Op::Binary(op, LastOperand::Register), &[V0, R0, V0])
}

// Appends the nodes of a step, where this many values are on the stack.
fn put_step(nodes: &mut NodeList, values: u32, step: Step) -> Result<(), OutOfMemory>
    requires finds { IsTrue (finds values step) }
    requires most { values ≤ 32 }
    ensures { OnOk result (nodes.new ≡ put_nodes nodes.old (step_nodes values step)) }
{
    match step {
        Step::Number(number) => {
            put_aside(nodes, values)?;
            put(
                nodes,
                Op::Plain(PlainOp::Movi),
                &[V0, Operand::Number(number)],
            )
        }
        Step::Argument => {
            put_aside(nodes, values)?;
            put(nodes, Op::Unary(UnaryOp::Mov), &[V0, V1])
        }
        Step::Negate => put(nodes, Op::Unary(UnaryOp::Neg), &[V0, V0]),
        Step::Operation(op) => put_operation(nodes, values, op),
    }
}

/// Appends the nodes that work an expression out: the argument is in V1, and the value comes into V0. R0 is used, and the first 256 bytes of locals.
pub fn put_expression(nodes: &mut NodeList, expression: &Expression) -> Result<(), OutOfMemory>
    ensures { OnOk result (nodes.new ≡ put_nodes nodes.old (nodes_of 0 expression.now)) }
{
    let mut values = 0u32;
    for step in expression.steps() {
        put_step(nodes, values, *step)?;
        values = behind(values, *step);
    }
    Ok(())
}

// Begins the function, and puts the number that the second word of the run says into V1.
fn put_head(nodes: &mut NodeList) -> Result<(), OutOfMemory>
    ensures { OnOk result (nodes.new ≡ put_nodes nodes.old head) }
{
    put(nodes, Op::Plain(PlainOp::Prolog), &[])?;
    put(nodes, Op::Plain(PlainOp::Arg), &[Operand::Slot(0)])?;
    put(nodes, Op::Plain(PlainOp::Arg), &[Operand::Slot(1)])?;
    put(
        nodes,
        Op::Plain(PlainOp::Allocai),
        &[Operand::Number(256), Operand::Slot(0)],
    )?;
    put(nodes, Op::Getarg(ValueType::Long), &[V1, Operand::Slot(1)])?;
    put(
        nodes,
        Op::Load(ValueType::Long, Addressing::RegisterImmediate),
        &[V1, V1, Operand::Number(8)],
    )?;
    put(nodes, Op::Plain(PlainOp::Prepare), &[])?;
    put(
        nodes,
        Op::Control(ControlOp::Pusharg, LastOperand::Register),
        &[V1],
    )?;
    put(
        nodes,
        Op::Control(ControlOp::Finish, LastOperand::Immediate),
        &[Operand::Host(HostName::Atoi)],
    )?;
    put(nodes, Op::Retval(ValueType::Long), &[V1])?;
    Ok(())
}

// Prints V0 by the format at a label, and ends the function.
fn put_tail(nodes: &mut NodeList, format: Label) -> Result<(), OutOfMemory>
    ensures { OnOk result (nodes.new ≡ put_nodes nodes.old (tail format)) }
{
    put(nodes, Op::Plain(PlainOp::Prepare), &[])?;
    put(
        nodes,
        Op::Control(ControlOp::Pusharg, LastOperand::Immediate),
        &[Operand::Label(format)],
    )?;
    put(nodes, Op::Plain(PlainOp::Ellipsis), &[])?;
    put(
        nodes,
        Op::Control(ControlOp::Pusharg, LastOperand::Register),
        &[V0],
    )?;
    put(
        nodes,
        Op::Control(ControlOp::Finish, LastOperand::Immediate),
        &[Operand::Host(HostName::Printf)],
    )?;
    put(nodes, Op::Plain(PlainOp::Ret), &[])?;
    put(nodes, Op::Plain(PlainOp::Epilog), &[])?;
    Ok(())
}

// The one label of a unit, which is bound at the first byte of the data part.
fn put_format(nodes: &mut NodeList) -> Result<Label, OutOfMemory>
    requires { nodes.old ≡ start }
    ensures label { IfOk result (λ label. label.0 ≡ 0) }
    ensures nodes { OnOk result (nodes.new ≡ start_with_format) }
{
    let label = nodes.fresh()?;
    let _ = nodes.bind(label, Place::Image(0));
    Ok(label)
}

// The nodes of a unit.
fn put_unit(nodes: &mut NodeList, expression: &Expression) -> Result<(), OutOfMemory>
    requires { nodes.old ≡ start }
    ensures { OnOk result (nodes.new ≡ unit_nodes expression.now) }
{
    let label = put_format(nodes)?;
    put_head(nodes)?;
    put_expression(nodes, expression)?;
    put_tail(nodes, label)?;
    Ok(())
}

/// Returns the unit of an expression: it takes its argument from the second word of the run, as `atoi` reads it, and prints the value and a line feed.
pub fn unit_of(alloc: Global, expression: &Expression) -> Result<Unit, OutOfMemory>
    ensures nodes { IfOk result (λ u. u.nodes ≡ unit_nodes expression.now) }
    ensures image { IfOk result (λ u. u.image ≡ format) }
    ensures inside { IfOk result AreInside }
{
    let image = DataImage::of(alloc, b"%ld\n\0")?;
    let mut nodes = NodeList::new(alloc);
    match put_unit(&mut nodes, expression) {
        Ok(()) => Ok(Unit { nodes, image }),
        Err(error) => Err(error),
    }
}
