// The points of a text: its nodes, and after them a gate for each function, through which its jumps to taken labels go.

ghost use Rattle.std.specs.Prelude.{◌≡◌, ◌↔◌, ◌<◌, ◌+◌, ◌⊎◌, ℕ, true, Some, length, slice_get, slice_index_or, IfOk, false, not, ◌&&◌};
ghost use Rattle.lg_op.specs.declared.operand.Reg.{Reg};
ghost use Rattle.lg_live.specs.RegSets.{has};
ghost use Rattle.lg_live.specs.Uses.{is_read};
ghost use Rattle.lg_live.specs.Definitions.{feeding};
ghost use Rattle.lg_node.specs.Functions.{home};
ghost use Rattle.lg_node.specs.Shapes.{way_of, target_of, IsShapeOf};
ghost use Rattle.lg_live.specs.Points.{falls_by, aims_by, gathers_by, node_within, gate_of, jump_of, join_of, IsTakenBy, IsMarkedBesides, AreMarked, IsMarkedAt, IsPoint, ArePoints};

use crate::definitions::{Sought, feeding};
use crate::link::Link;
use crate::point::Point;
use crate::reg_set::RegSet;
use crate::uses::uses_at;
use lg_base::OutOfMemory;
use lg_node::{ControlOp, Label, LastOperand, Node, NodeList, Op, Operand, Place, PlainOp, Shape};
use std::alloc::Global;

// Returns whether an operation goes on to the next node.
fn falls(op: Op) -> bool
    ensures { result ≡ falls_by (way_of op) }
{
    !matches!(
        op,
        Op::Control(ControlOp::Jmp | ControlOp::Ret, _) | Op::Plain(PlainOp::Ret | PlainOp::Epilog)
    )
}

// Returns whether an operation goes to the label that is its first operand.
fn aims(op: Op) -> bool
    ensures { result ≡ aims_by (way_of op) }
{
    matches!(
        op,
        Op::Control(ControlOp::Jmp, LastOperand::Immediate) | Op::Branch(_, _) | Op::BranchSum(_, _)
    )
}

// Returns whether an operation goes to any taken label.
fn gathers(op: Op) -> bool
    ensures { result ≡ gathers_by (way_of op) }
{
    matches!(op, Op::Control(ControlOp::Jmp, LastOperand::Register))
}

// Returns the node at which a place is.
fn node_within(place: Option<Place>, count: u32) -> Link
    ensures { result ≡ node_within count place }
{
    match place {
        Some(Place::Node(index)) if index < count => Link::to(index as usize),
        _ => Link::none(),
    }
}

// Returns the place of the label that is the first operand.
fn target_of(nodes: &NodeList, operands: &[Operand]) -> Option<Place>
    ensures { result ≡ target_of nodes.now.places operands.now }
{
    match operands {
        [Operand::Label(label), ..] => nodes.place_of(*label),
        _ => None,
    }
}

// Returns the `prolog` of the function of a node.
fn home(nodes: &NodeList, shape: &Shape, index: u32) -> Option<u32>
    requires { IsShapeOf nodes.now shape.now }
    ensures { result ≡ home nodes.now.nodes index }
{
    match shape.function_of(index) {
        Some(function) => Some(shape.entry(function)),
        None => None,
    }
}

// Marks the node at which a place is.
fn mark(marks: &mut [bool], node: Link)
    ensures { IsMarkedBesides marks.old marks.new (λ k. node ≡ Some k) }
{
    if let Some(node) = node.point() {
        if node < marks.len() {
            marks[node] = true;
        }
    }
}

// Marks the node at which a label is bound, where it is taken.
fn mark_label(nodes: &NodeList, shape: &Shape, marks: &mut [bool], label: u32)
    requires label { label < length nodes.now.words }
    requires count { length marks.old ≡ length nodes.now.nodes }
    ensures { IsMarkedBesides marks.old marks.new (λ k. IsTakenBy nodes.now shape.now k label) }
{
    if shape.taken(Label(label)) {
        mark(marks, node_within(nodes.place(Label(label)), nodes.len()));
    }
}

// Of each node whether a taken label is bound at it.
fn marked(alloc: Global, nodes: &NodeList, shape: &Shape) -> Result<Vec<bool>, OutOfMemory>
    ensures { IfOk result (λ marks. AreMarked nodes.now shape.now marks.items) }
{
    let mut marks = vec![in alloc; false; nodes.len() as usize]?;
    for label in 0..nodes.labels() {
        mark_label(nodes, shape, &mut marks, label);
    }
    Ok(marks)
}

// Returns the gate of the function of a node, where it is asked for.
#[tactic(auto, using(crate::proofs::PointLemmas::no_gate))]
fn gate_of(nodes: &NodeList, shape: &Shape, index: u32, asked: bool) -> Link
    requires { IsShapeOf nodes.now shape.now }
    ensures { result ≡ gate_of nodes.now asked (home nodes.now.nodes index) }
{
    if !asked {
        return Link::none();
    }
    match home(nodes, shape, index) {
        Some(prolog) => Link::to(nodes.len() as usize + prolog as usize),
        None => Link::none(),
    }
}

// Where a node jumps.
fn jump_of(nodes: &NodeList, shape: &Shape, index: u32, node: &Node) -> Link
    requires { IsShapeOf nodes.now shape.now }
    ensures { result ≡ jump_of nodes.now (home nodes.now.nodes index) node.now }
{
    if aims(node.op) {
        node_within(target_of(nodes, node.operands.as_slice()), nodes.len())
    } else {
        gate_of(nodes, shape, index, gathers(node.op))
    }
}

// Returns the gate through which jumps to taken labels reach a node.
#[tactic(auto, using(crate::proofs::PointLemmas::no_join))]
fn join_of(nodes: &NodeList, shape: &Shape, index: u32, marked: bool) -> Link
    requires { IsShapeOf nodes.now shape.now }
    ensures { result ≡ join_of nodes.now (home nodes.now.nodes index) index marked }
{
    if !marked {
        return Link::none();
    }
    match home(nodes, shape, index) {
        Some(prolog) if prolog < index => Link::to(nodes.len() as usize + prolog as usize),
        _ => Link::none(),
    }
}

// A set, where something holds.
fn kept_where(holds: bool, set: RegSet) -> RegSet
    ensures { (r : Reg) → has result r ≡ (has set r && holds) }
{
    if holds { set } else { RegSet::none() }
}

// Returns the point of a node.
fn point(
    nodes: &NodeList,
    shape: &Shape,
    sought: Sought,
    marked: bool,
    index: u32,
    node: &Node,
) -> Point
    requires shape { IsShapeOf nodes.now shape.now }
    requires marked { IsMarkedAt nodes.now shape.now index marked }
    requires node { slice_get nodes.now.nodes index ≡ Some node.now }
    ensures { IsPoint (feeding sought) nodes.now shape.now index node.now result }
{
    let uses = uses_at(nodes, index);
    let feeds = feeding(sought, node.op);
    Point {
        reads: kept_where(!feeds, uses.reads),
        feeds: kept_where(feeds, uses.reads),
        writes: uses.writes,
        falls: falls(node.op) && index as usize + 1 < nodes.len() as usize,
        jumps: jump_of(nodes, shape, index, node),
        joins: join_of(nodes, shape, index, marked),
    }
}

/// Returns the points of a text, where this is sought.
pub fn points_of(
    alloc: Global,
    nodes: &NodeList,
    shape: &Shape,
    sought: Sought,
) -> Result<Vec<Point>, OutOfMemory>
    requires { IsShapeOf nodes.now shape.now }
    ensures { IfOk result (λ points. ArePoints (feeding sought) nodes.now shape.now points.items) }
{
    let marks = marked(alloc, nodes, shape)?;
    let mut points = Vec::with_capacity(alloc, nodes.len() as usize)?;
    for index in 0..nodes.len() {
        let node = nodes.node(index);
        let marked = marks[index as usize];
        points.push(point(nodes, shape, sought, marked, index, &node))?;
    }
    Ok(points)
}
