// The checks of a text that has been read.

ghost use Rattle.std.specs.Prelude.{◌≡◌, None, Some, Err, length, slice_get, OnOk, IfOk, IfErr};
ghost use Rattle.lg_base.specs.declared.refusal.Refusal.{Refusal};
ghost use Rattle.lg_op.specs.Nodes.{InForm};
ghost use Rattle.lg_node.specs.Tables.{AreTables};
ghost use Rattle.lg_node.specs.Walks.{walk_at, walk_after, IsWithinLimits};
ghost use Rattle.lg_node.specs.Labels.{taken_labels};
ghost use Rattle.lg_node.specs.Shapes.{shape_of, IsShapeOf, IsChecked};
ghost use Rattle.lg_node.specs.Checks.{refusal_at, end_refusal, NoneBefore, IsAccepted, IsRefusedAtNode, IsRefused};

use crate::node_list::NodeList;
use crate::ranges::Ranges;
use crate::refusals::{is_quiet, refusal_kind};
use crate::shape::Shape;
use crate::tables::Tables;
use crate::taken::taken_labels;
use crate::unit::Unit;
use crate::walk::Walk;
use lg_base::{OutOfMemory, Refusal, RefusalKind, Stop};
use lg_op::Node;
use std::alloc::Global;

// Why the node of an index is refused.
#[tactic(auto, unfolding(crate::specs::Checks::refusal_at))]
fn refusal_at(
    nodes: &NodeList,
    tables: &Tables,
    walk: Walk,
    index: u32,
    node: &Node,
) -> Option<Refusal>
    requires node { slice_get nodes.now.nodes index ≡ Some node.now }
    requires form { InForm node.now }
    requires tables { AreTables nodes.now tables.now }
    requires walk { walk ≡ walk_at nodes.now.nodes index }
    requires limits { IsWithinLimits walk }
    ensures { result ≡ refusal_at nodes.now index }
{
    match refusal_kind(nodes, tables, walk, index, node) {
        Some(kind) => Some(Refusal {
            kind,
            line: node.line,
        }),
        None => None,
    }
}

// Moves past the node of an index, or says why that is refused: all is looked at.
#[inline(never)]
fn pass_any(
    nodes: &NodeList,
    tables: &Tables,
    walk: &mut Walk,
    index: u32,
    node: &Node,
) -> Result<(), Refusal>
    requires node { slice_get nodes.now.nodes index ≡ Some node.now }
    requires form { InForm node.now }
    requires tables { AreTables nodes.now tables.now }
    requires walk { walk.old ≡ walk_at nodes.now.nodes index }
    requires limits { IsWithinLimits walk.old }
    ensures walk { OnOk result (walk.new ≡ walk_after walk.old index node.now) }
    ensures none { OnOk result (refusal_at nodes.now index ≡ None) }
    ensures refused { IfErr result (λ r. refusal_at nodes.now index ≡ Some r) }
{
    match refusal_at(nodes, tables, *walk, index, node) {
        Some(refusal) => Err(refusal),
        None => {
            walk.pass(index, node);
            Ok(())
        }
    }
}

// Moves past the node of an index, or says why that is refused. Most nodes change nothing and are not refused, which is seen at once.
#[inline(always)]
fn pass_node(
    nodes: &NodeList,
    tables: &Tables,
    walk: &mut Walk,
    index: u32,
    node: &Node,
) -> Result<(), Refusal>
    requires node { slice_get nodes.now.nodes index ≡ Some node.now }
    requires form { InForm node.now }
    requires tables { AreTables nodes.now tables.now }
    requires walk { walk.old ≡ walk_at nodes.now.nodes index }
    requires limits { IsWithinLimits walk.old }
    ensures walk { OnOk result (walk.new ≡ walk_after walk.old index node.now) }
    ensures none { OnOk result (refusal_at nodes.now index ≡ None) }
    ensures refused { IfErr result (λ r. refusal_at nodes.now index ≡ Some r) }
{
    if is_quiet(walk, node.op, node.operands.as_slice()) {
        return Ok(());
    }
    pass_any(nodes, tables, walk, index, node)
}

// What is known at the end of nodes none of which is refused, or why the first one is that is.
fn walk_to_end(nodes: &NodeList, tables: &Tables) -> Result<Walk, Refusal>
    requires { AreTables nodes.now tables.now }
    ensures walk { IfOk result (λ walk. walk ≡ walk_at nodes.now.nodes (length nodes.now.nodes)) }
    ensures none { OnOk result (NoneBefore nodes.now (length nodes.now.nodes)) }
    ensures refused { IfErr result (λ r. IsRefusedAtNode nodes.now r) }
{
    let mut walk = Walk::new();
    for index in 0..nodes.len() {
        let node = nodes.node_at(index);
        pass_node(nodes, tables, &mut walk, index, node)?;
    }
    Ok(walk)
}

// Why a text is refused at its end.
fn end_refusal(nodes: &NodeList, walk: Walk) -> Option<Refusal>
    requires { walk ≡ walk_at nodes.now.nodes (length nodes.now.nodes) }
    ensures { result ≡ end_refusal nodes.now.nodes }
{
    if let Some(entry) = walk.function {
        return Some(Refusal {
            kind: RefusalKind::FunctionOpen,
            line: nodes.node(entry).line,
        });
    }
    if walk.begun {
        return None;
    }
    Some(Refusal {
        kind: RefusalKind::NoCode,
        line: 1,
    })
}

// Why a text is refused, if it is.
fn first_refusal(nodes: &NodeList, tables: &Tables) -> Result<(), Refusal>
    requires { AreTables nodes.now tables.now }
    ensures accepted { OnOk result (IsAccepted nodes.now) }
    ensures refused { IfErr result (λ r. IsRefused nodes.now r) }
{
    let walk = walk_to_end(nodes, tables)?;
    match end_refusal(nodes, walk) {
        None => Ok(()),
        Some(refusal) => Err(refusal),
    }
}

// Returns the shape of accepted nodes, where these labels are taken.
fn shape_of(alloc: Global, nodes: &NodeList, taken: Vec<bool>) -> Result<Shape, OutOfMemory>
    requires { IsAccepted nodes.now }
    ensures { IfOk result (λ shape. shape ≡ shape_of nodes.now.nodes taken.items) }
{
    let ranges = Ranges::of(alloc, nodes)?;
    Ok(Shape::from_ranges(ranges, taken))
}

// Returns the shape of nodes, or why they are refused.
fn checked(alloc: Global, nodes: &NodeList) -> Result<Result<Shape, Refusal>, OutOfMemory>
    ensures { IfOk result (λ checked. IsChecked nodes.now checked) }
{
    let tables = Tables::of(alloc, nodes)?;
    if let Err(refusal) = first_refusal(nodes, &tables) {
        return Ok(Err(refusal));
    }
    let taken = taken_labels(alloc, nodes, &tables.homes)?;
    let shape = shape_of(alloc, nodes, taken)?;
    Ok(Ok(shape))
}

/// Returns the shape of a text that has been read, or why it is refused: by the first node that is refused, with that node's line and the
/// first of these kinds that refuses it, `LabelMissing`, `NotInFunction`, `FunctionOpen`, `TargetOutside`, `BadCall`, `TooManyArgs` and
/// `FrameTooBig`; else at its end, by `FunctionOpen` with the line of the `prolog` that is open, or by `NoCode` with line 1.
pub fn check(alloc: Global, unit: &Unit) -> Result<Shape, Stop>
    ensures shape { IfOk result (λ shape. IsShapeOf unit.now.nodes shape) }
    ensures taken { IfOk result (λ shape. shape.taken ≡ taken_labels unit.now.nodes) }
    ensures refused { (r : Refusal) → result ≡ Err (Stop.Refused r) → IsRefused unit.now.nodes r }
{
    match checked(alloc, &unit.nodes) {
        Ok(Ok(shape)) => Ok(shape),
        Ok(Err(refusal)) => Err(Stop::Refused(refusal)),
        Err(OutOfMemory) => Err(Stop::OutOfMemory),
    }
}

/// Returns the shape of nodes that a text was rewritten to, which are not refused. The taken labels stay those of the text.
pub fn reshape(alloc: Global, nodes: &NodeList, old: &Shape) -> Result<Shape, OutOfMemory>
    requires { IsAccepted nodes.now }
    ensures shape { IfOk result (λ shape. IsShapeOf nodes.now shape) }
    ensures taken { IfOk result (λ shape. shape.taken ≡ old.now.taken) }
{
    let taken = old.clone_taken(alloc)?;
    shape_of(alloc, nodes, taken)
}
