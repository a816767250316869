// Which moves do nothing.

ghost use Rattle.std.specs.Prelude.{◌≡◌, ◌<◌, if◌then◌else◌, not, None, Some, Option, false, length, slice_get, IfOk};
ghost use Rattle.lg_op.specs.declared.node.Node.{Node};
ghost use Rattle.lg_op.specs.declared.operand.Reg.{Reg};
ghost use Rattle.lg_carry.specs.Carries.{leaps};
ghost use Rattle.lg_opt.specs.Moves.{after_at, is_idle, move_of};
ghost use Rattle.lg_opt.specs.SourceTables.{source_of, AreStays};
ghost use Rattle.lg_opt.specs.Targets.{AreLabelsAt};

use crate::labels::{is_labelled, labels_at};
use crate::sources::{Sources, is_movr, move_of};
use lg_base::OutOfMemory;
use lg_node::{ControlOp, Label, Node, NodeList, Op, PlainOp};
use std::alloc::Global;

/// Returns whether an operation is a branch, jump, call or return: after them a straight run is over.
pub fn leaps(op: Op) -> bool
    ensures { result ≡ leaps op }
{
    match op {
        Op::Branch(_, _) | Op::BranchSum(_, _) => true,
        Op::Control(ControlOp::Pusharg, _) => false,
        Op::Control(_, _) => true,
        Op::Plain(PlainOp::Ret | PlainOp::Epilog) => true,
        _ => false,
    }
}

// The sources at a node, of those after the node before: none where a label is bound at it.
fn meet(sources: &mut Sources, labelled: bool)
    ensures { (r : Reg) → source_of sources.new r ≡ (if labelled then None else source_of sources.old r) }
{
    if labelled {
        *sources = Sources::none();
    }
}

// The sources after a node, of those at it.
fn pass(sources: &mut Sources, node: &Node)
    ensures { (r : Reg) → source_of sources.new r ≡ after_at (source_of sources.old) (Some node.now) r }
{
    if leaps(node.op) {
        *sources = Sources::none();
    } else {
        sources.pass(node);
    }
}

// Returns whether a node is no move that does nothing.
fn stays_here(sources: &Sources, node: &Node) -> bool
    ensures { result ≡ not (is_idle (source_of sources.now) (move_of node.now.op node.now.operands)) }
{
    match move_of(node) {
        None => true,
        Some(pair) => !sources.is_idle(pair),
    }
}

// Returns whether a node is no move that does nothing, and the sources after it, of those at it.
#[inline(never)]
fn look_closely(sources: &mut Sources, node: &Node) -> bool
    ensures stays { result ≡ not (is_idle (source_of sources.old) (move_of node.now.op node.now.operands)) }
    ensures behind { (r : Reg) → source_of sources.new r ≡ after_at (source_of sources.old) (Some node.now) r }
{
    let stays = stays_here(sources, node);
    pass(sources, node);
    stays
}

// The same of the node of an index: where no register was moved a look at its operation says it, unless it is a move.
#[inline(always)]
#[tactic(auto, using(crate::proofs::SourceLemmas::none_idle))]
fn look(sources: &mut Sources, nodes: &NodeList, index: u32) -> bool
    requires { index < length nodes.now.nodes }
    ensures stays { (n : Node) → slice_get nodes.now.nodes index ≡ Some n → result ≡ not (is_idle (source_of sources.old) (move_of n.op n.operands)) }
    ensures behind { (n : Node) → slice_get nodes.now.nodes index ≡ Some n
        → (r : Reg) → source_of sources.new r ≡ after_at (source_of sources.old) (Some n) r }
{
    if sources.is_none() && !is_movr(nodes.node(index).op) {
        return true;
    }
    look_closely(sources, &nodes.node(index))
}

// Of each node whether it stays, by the labels that are at the nodes.
fn staying(
    alloc: Global,
    nodes: &NodeList,
    labels: &[Option<Label>],
) -> Result<Vec<bool>, OutOfMemory>
    requires count { length labels.now ≡ length nodes.now.nodes }
    requires labels { AreLabelsAt nodes.now labels.now }
    ensures { IfOk result (λ table. (length table.items ≡ length nodes.now.nodes) × AreStays nodes.now table.items) }
{
    let mut table = Vec::with_capacity(alloc, nodes.len() as usize)?;
    let mut sources = Sources::none();
    for index in 0..nodes.len() {
        meet(&mut sources, is_labelled(labels, index));
        table.push(look(&mut sources, nodes, index))?;
    }
    Ok(table)
}

/// Of each node whether it stays: all but the moves that do nothing.
pub fn stays_of(alloc: Global, nodes: &NodeList) -> Result<Vec<bool>, OutOfMemory>
    ensures { IfOk result (λ table. (length table.items ≡ length nodes.now.nodes) × AreStays nodes.now table.items) }
{
    let labels = labels_at(alloc, nodes)?;
    staying(alloc, nodes, &labels)
}
