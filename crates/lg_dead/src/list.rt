// The nodes of a text, folded.

ghost use Rattle.std.specs.Prelude.{◌≡◌, ◌<◌, ◌≤◌, ◌-◌, ◌^◌, ℕ, true, false, if◌then◌else◌, None, Some, [], length, OnOk, IfOk};
ghost use Rattle.lg_op.specs.declared.operand.Reg.{Reg};
ghost use Rattle.lg_op.specs.declared.operand.Reg.TheVariants.{R0, R1, R2, V0, V1, V2};
ghost use Rattle.lg_op.specs.Nodes.{InForm};
ghost use Rattle.lg_node.specs.Nodes.{with_node};
ghost use Rattle.lg_node.specs.Shapes.{IsShapeOf};
ghost use Rattle.lg_opt.specs.Rewritings.{marked, unbound, IsOrigin, KeepsOthers, KeepsLabels, CarriesAddresses, RunsAreDropped};
ghost use Rattle.lg_opt.specs.Targets.{AreLabelsAt};
ghost use Rattle.lg_dead.specs.Known.{folded, known_at, HasNoFolds};
ghost use Rattle.lg_dead.specs.Folds.{IsFoldedNode, IsFoldedTo};
ghost use Rattle.lg_dead.specs.Lists.{AreFolded, IsFoldedList};
ghost use Rattle.lg_dead.specs.Tables.{known_of};

use crate::folding::folded;
use crate::known::Known;
use lg_base::OutOfMemory;
use lg_node::{Label, Node, NodeList, Shape};
use lg_opt::Rewritten;
use lg_opt::labels::{is_labelled, labels_at};
use lg_opt::moves::leaps;
use lg_opt::rebuilding::{bind_moved, numbers, origin, unbound};
use std::alloc::Global;

// What is known at a node, of what is known after the node before: nothing where a label is bound at it.
fn meet(known: &mut Known, labelled: bool)
    ensures { (r : Reg) → known_of known.new r ≡ (if labelled then None else known_of known.old r) }
{
    if labelled {
        *known = Known::none();
    }
}

// What is known after a node, of what is known at it.
fn pass(known: &mut Known, node: &Node)
    ensures r0 { known_of known.new R0 ≡ known_at (known_of known.old) (Some node.now) R0 }
    ensures r1 { known_of known.new R1 ≡ known_at (known_of known.old) (Some node.now) R1 }
    ensures r2 { known_of known.new R2 ≡ known_at (known_of known.old) (Some node.now) R2 }
    ensures v0 { known_of known.new V0 ≡ known_at (known_of known.old) (Some node.now) V0 }
    ensures v1 { known_of known.new V1 ≡ known_at (known_of known.old) (Some node.now) V1 }
    ensures v2 { known_of known.new V2 ≡ known_at (known_of known.old) (Some node.now) V2 }
{
    if leaps(node.op) {
        *known = Known::none();
    } else {
        known.pass(node);
    }
}

// Appends a node, and continues after it.
#[inline(always)]
fn push_on(list: &mut NodeList, known: &mut Known, new: &Node) -> Result<(), OutOfMemory>
    requires room { length list.old.nodes < 2 ^ 32 - 1 }
    requires form { InForm new.now }
    ensures list { OnOk result (list.new ≡ with_node list.old new.now) }
    ensures known { OnOk result ((r : Reg) → known_of known.new r ≡ known_at (known_of known.old) (Some new.now) r) }
{
    list.push(*new)?;
    pass(known, new);
    Ok(())
}

// Appends what a node becomes, and continues after that. Where nothing is known nothing can be folded.
#[inline(always)]
fn push_next(list: &mut NodeList, known: &mut Known, node: &Node) -> Result<(), OutOfMemory>
    requires room { length list.old.nodes < 2 ^ 32 - 1 }
    requires form { InForm node.now }
    ensures list { OnOk result (list.new ≡ with_node list.old (folded (known_of known.old) node.now)) }
    ensures known { OnOk result
        ((r : Reg) → known_of known.new r ≡ known_at (known_of known.old) (Some (folded (known_of known.old) node.now)) r) }
{
    if known.is_none() {
        push_on(list, known, node)
    } else {
        let new = folded(known, node);
        push_on(list, known, &new)
    }
}

// Appends the nodes, folded.
fn push_folded(
    list: &mut NodeList,
    nodes: &NodeList,
    labels: &[Option<Label>],
) -> Result<(), OutOfMemory>
    requires empty { list.old.nodes ≡ [] }
    requires count { length labels.now ≡ length nodes.now.nodes }
    requires labels { AreLabelsAt nodes.now labels.now }
    ensures list { OnOk result (list.new ≡ record list.old { nodes = list.new.nodes }) }
    ensures folded { OnOk result (AreFolded nodes.now list.new.nodes (length nodes.now.nodes)) }
{
    let mut known = Known::none();
    for index in 0..nodes.len() {
        let node = nodes.node(index);
        meet(&mut known, is_labelled(labels, index));
        push_next(list, &mut known, &node)?;
    }
    Ok(())
}

// Of each node that it stays.
fn all_stay(alloc: Global, nodes: &NodeList) -> Result<Vec<bool>, OutOfMemory>
    ensures count { IfOk result (λ table. length table.items ≡ length nodes.now.nodes) }
    ensures stays { IfOk result (λ table. (i : ℕ) → i < length nodes.now.nodes → marked table.items i ≡ true) }
{
    Ok(vec![in alloc; true; nodes.len() as usize]?)
}

// Appends the nodes, folded, to a list that has the labels, and binds these where they were.
fn fill(
    alloc: Global,
    list: &mut NodeList,
    nodes: &NodeList,
    stays: &[bool],
) -> Result<(), OutOfMemory>
    requires list { list.old ≡ unbound nodes.now.words }
    requires count { length stays.now ≡ length nodes.now.nodes }
    requires stays { (i : ℕ) → i < length nodes.now.nodes → marked stays.now i ≡ true }
    ensures { OnOk result (IsFoldedTo nodes.now list.new) }
{
    nodes.what_holds();
    let labels = labels_at(alloc, nodes)?;
    push_folded(list, nodes, &labels)?;
    let numbers = numbers(alloc, stays)?;
    bind_moved(list, nodes, &numbers);
    Ok(())
}

// Returns the folded nodes, with the labels where they were.
fn folded_nodes(alloc: Global, nodes: &NodeList, stays: &[bool]) -> Result<NodeList, OutOfMemory>
    requires count { length stays.now ≡ length nodes.now.nodes }
    requires stays { (i : ℕ) → i < length nodes.now.nodes → marked stays.now i ≡ true }
    ensures { IfOk result (λ m. IsFoldedTo nodes.now m) }
{
    match unbound(alloc, nodes) {
        Ok(mut list) => match fill(alloc, &mut list, nodes, stays) {
            Ok(()) => Ok(list),
            Err(error) => Err(error),
        },
        Err(error) => Err(error),
    }
}

// Returns the folded nodes, with their shape, which is the old one's.
fn folded_list(alloc: Global, nodes: &NodeList, shape: &Shape) -> Result<Rewritten, OutOfMemory>
    requires { IsShapeOf nodes.now shape.now }
    ensures { IfOk result (λ r. IsFoldedList nodes.now shape.now r.nodes r.shape r.origin.items) }
{
    nodes.what_holds();
    let stays = all_stay(alloc, nodes)?;
    let origin = origin(alloc, &stays)?;
    let shape = shape.copy(alloc)?;
    match folded_nodes(alloc, nodes, &stays) {
        Ok(nodes) => Ok(Rewritten {
            nodes,
            shape,
            origin,
        }),
        Err(error) => Err(error),
    }
}

/// Folds the numbers that are known in each straight run: a node that makes a word of words that are known becomes the `movi` of that word, and one
/// whose last operand is a register that is known gets the number in its place. Every node and label stays where it is. Time and memory go by the
/// number of nodes and labels.
///
/// No node of the result can be folded. The new run makes a step at each step of the old one.
pub fn fold(alloc: Global, nodes: &NodeList, shape: &Shape) -> Result<Rewritten, OutOfMemory>
    requires { IsShapeOf nodes.now shape.now }
    ensures shape { IfOk result (λ r. IsShapeOf r.nodes r.shape) }
    ensures taken { IfOk result (λ r. r.shape.taken ≡ shape.now.taken) }
    ensures origin { IfOk result (λ r. IsOrigin IsFoldedNode nodes.now r.nodes r.origin.items) }
    ensures others { IfOk result (λ r. KeepsOthers (λ o. false) nodes.now r.origin.items) }
    ensures few { IfOk result (λ r. length r.nodes.nodes ≤ length nodes.now.nodes) }
    ensures labels { IfOk result (λ r. KeepsLabels nodes.now r.nodes r.origin.items) }
    ensures folds { IfOk result (λ r. HasNoFolds r.nodes) }
    ensures addresses { IfOk result (λ r. CarriesAddresses nodes.now r.nodes) }
    ensures runs { IfOk result (λ r. RunsAreDropped nodes.now shape.now r.nodes r.shape r.origin.items) }
    ensures made { IfOk result (λ r. IsFoldedTo nodes.now r.nodes) }
{
    nodes.what_holds();
    folded_list(alloc, nodes, shape)
}
