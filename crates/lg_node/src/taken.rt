// The labels that are taken.

ghost use Rattle.std.specs.Prelude.{◌≡◌, ◌<◌, ◌&&◌, ◌||◌, ℕ, false, length, slice_index_or, IfOk};
ghost use Rattle.std.specs.List.{list_any};
ghost use Rattle.lg_node.specs.Labels.{is_label, names_address, is_taken, taken_labels};
ghost use Rattle.lg_node.specs.Tables.{AreHomes, AreNamed};

use crate::labels::{is_inside_some, takes_address};
use crate::node_list::NodeList;
use lg_base::OutOfMemory;
use lg_op::{Label, Node, Operand};
use std::alloc::Global;

// Marks the label that an operand is.
fn mark_operand(marks: &mut [bool], operand: Operand)
    ensures { (label : ℕ) → label < length marks.old
        → slice_index_or marks.new label false ≡ (slice_index_or marks.old label false || is_label label operand) }
{
    if let Operand::Label(label) = operand {
        if (label.0 as usize) < marks.len() {
            marks[label.0 as usize] = true;
        }
    }
}

// Marks the labels that are among the operands.
fn mark_operands(marks: &mut [bool], operands: &[Operand])
    ensures { (label : ℕ) → label < length marks.old
        → slice_index_or marks.new label false ≡ (slice_index_or marks.old label false || list_any (is_label label) operands.now) }
{
    for operand in operands {
        mark_operand(marks, *operand);
    }
}

// Marks the labels whose addresses a node names.
fn mark_node(marks: &mut [bool], node: &Node)
    ensures { (label : ℕ) → label < length marks.old
        → slice_index_or marks.new label false ≡ (slice_index_or marks.old label false || names_address label node.now) }
{
    if takes_address(node.op) {
        mark_operands(marks, node.operands.as_slice());
    }
}

// Of each label whether some node names its address.
fn named(alloc: Global, nodes: &NodeList) -> Result<Vec<bool>, OutOfMemory>
    ensures { IfOk result (λ marks. AreNamed nodes.now marks.items) }
{
    let mut marks = vec![in alloc; false; nodes.labels() as usize]?;
    for index in 0..nodes.len() {
        mark_node(&mut marks, nodes.node_at(index));
    }
    Ok(marks)
}

// Returns whether a label is taken, by the tables.
fn is_taken(nodes: &NodeList, named: &[bool], homes: &[Option<u32>], label: u32) -> bool
    requires label { label < length nodes.now.places }
    requires named { AreNamed nodes.now named.now }
    requires homes { AreHomes nodes.now.nodes homes.now }
    ensures { result ≡ is_taken nodes.now label }
{
    named[label as usize] && is_inside_some(homes, nodes.place_of(Label(label)))
}

/// Of each label whether it is taken, by the table of the nodes' functions.
pub fn taken_labels(
    alloc: Global,
    nodes: &NodeList,
    homes: &[Option<u32>],
) -> Result<Vec<bool>, OutOfMemory>
    requires { AreHomes nodes.now.nodes homes.now }
    ensures { IfOk result (λ taken. taken.items ≡ taken_labels nodes.now) }
{
    let named = named(alloc, nodes)?;
    let mut taken = Vec::new(alloc);
    for label in 0..nodes.labels() {
        taken.push(is_taken(nodes, &named, homes, label))?;
    }
    Ok(taken)
}
