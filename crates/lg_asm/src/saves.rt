// How many of V0, V1 and V2 the frames of a text save.

ghost use Rattle.std.specs.Prelude.{◌≡◌, ◌<◌, ◌≤◌, ◌==◌, ◌||◌, ℕ, false, max, length, slice_index_or, Some, IfOk};
ghost use Rattle.lg_asm.specs.Lowered.{saves_for, saves_by, saves_for_function, frame_saves, marked_from, is_marked, is_outward};
ghost use Rattle.lg_carry.specs.Entries.{is_align, is_jump, entry_at};
ghost use Rattle.lg_meaning.specs.Steps.{function_here, node_in, node_of_label, operand_at};

use lg_base::OutOfMemory;
use lg_carry::memory::operands::operand;
use lg_live::{Live, RegSet};
use lg_node::{Label, NodeList, Place, Shape};
use lg_op::{ControlOp, LastOperand, Node, Op, Operand, PlainOp, Reg};
use std::alloc::Global;

// Up to the last one that is live.
fn saves_for(live: RegSet) -> u32
    ensures value { result ≡ saves_for live }
    ensures few { result ≤ 3 }
{
    if live.has(Reg::V2) {
        3
    } else if live.has(Reg::V1) {
        2
    } else if live.has(Reg::V0) {
        1
    } else {
        0
    }
}

// Where these are live after a node: at the return of a call.
fn saves_by(node: &Node, live: RegSet) -> u32
    ensures value { result ≡ saves_by (Some node.now) live }
    ensures few { result ≤ 3 }
{
    match node.op {
        Op::Control(ControlOp::Call | ControlOp::Finish, _) => saves_for(live),
        _ => 0,
    }
}

// Returns the larger of two numbers.
fn larger(a: u32, b: u32) -> u32
    ensures { result ≡ max a b }
{
    if a < b { b } else { a }
}

/// Returns how many of V0, V1 and V2 the frames of a text save: up to the last one that is live at the return of a call. `live` has a set for each node.
pub(crate) fn frame_saves(nodes: &NodeList, live: &Live) -> u32
    requires { length live.now.behind ≡ length nodes.now.nodes }
    ensures { result ≡ frame_saves nodes.now.nodes live.now }
{
    nodes.what_holds();
    let mut saves = 0;
    'nodes: for index in 0..nodes.len() {
        saves = larger(saves, saves_by(&nodes.node(index), live.after(index)));
    }
    saves
}

// Returns the node of the label to which a `jmpi` leads.
fn target_of(nodes: &NodeList, node: &Node) -> u32
    ensures { result ≡ node_of_label nodes.now.places (operand_at node.now 0) }
{
    let Operand::Label(label) = operand(node, 0) else {
        return 0;
    };
    match nodes.place_of(label) {
        Some(Place::Node(index)) => index,
        _ => 0,
    }
}

// Returns whether an operation is `.align`.
fn is_align(op: Op) -> bool
    ensures { result ≡ is_align op }
{
    matches!(op, Op::Plain(PlainOp::Align))
}

// Returns whether it is a `jmpi`.
fn is_jump(op: Op) -> bool
    ensures { result ≡ is_jump op }
{
    matches!(op, Op::Control(ControlOp::Jmp, LastOperand::Immediate))
}

/// Returns the first node of the function with which a run begins: the first function, or that to which a `jmpi` before every function leads.
pub(crate) fn entry_of(nodes: &NodeList) -> u32
    ensures { result ≡ entry_at nodes.now 0 }
{
    nodes.what_holds();
    'nodes: for index in 0..nodes.len() {
        let node = nodes.node(index);
        if is_jump(node.op) {
            return target_of(nodes, &node);
        }
        if !is_align(node.op) {
            return index;
        }
    }
    nodes.len()
}

// Marks the node of a label that is bound at this place.
fn mark(marks: &mut Vec<bool>, place: Option<Place>)
    ensures count { length marks.new.items ≡ length marks.old.items }
    ensures marked { (k : ℕ) → k < length marks.old.items
        → slice_index_or marks.new.items k false ≡ ((k == node_in place) || slice_index_or marks.old.items k false) }
{
    let index = match place {
        Some(Place::Node(index)) => index,
        _ => 0,
    };
    if (index as usize) < marks.len() {
        marks[index as usize] = true;
    }
}

/// Returns marks of the nodes at which these labels are bound. Of no labels it takes no memory.
pub(crate) fn marks_of(
    alloc: Global,
    nodes: &NodeList,
    entries: &[Label],
) -> Result<Vec<bool>, OutOfMemory>
    ensures { IfOk result (λ marks. is_marked nodes.now marks.items ≡ is_outward nodes.now entries.now) }
{
    nodes.what_holds();
    if entries.is_empty() {
        return Ok(Vec::new(alloc));
    }
    let mut marks = vec![in alloc; false; nodes.len() as usize + 1]?;
    for index in 0..entries.len() {
        mark(&mut marks, nodes.place_of(entries[index]));
    }
    Ok(marks)
}

// Returns whether a function is called from outside that begins at a node: at the entry or at a marked node.
fn is_outward(node: u32, entry: u32, marks: &[bool]) -> bool
    ensures { result ≡ marked_from entry marks.now node }
{
    node == entry || marks.get(node as usize).copied().unwrap_or(false)
}

/// Returns how many of V0, V1 and V2 the frames of a node's function save: this many, and all three where it is called from outside, as that is which begins at
/// the entry, and those that begin at marked nodes.
pub(crate) fn function_saves(
    shape: &Shape,
    index: u32,
    entry: u32,
    marks: &[bool],
    saved: u32,
) -> u32
    ensures { result ≡ saves_for_function (marked_from entry marks.now) saved (function_here shape.now.functions index) }
{
    match shape.function_of(index) {
        Some(function) => {
            if is_outward(shape.entry(function), entry, marks) {
                3
            } else {
                saved
            }
        }
        None => saved,
    }
}
