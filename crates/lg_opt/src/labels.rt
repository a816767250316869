// Labels by the nodes at which they are bound.

ghost use Rattle.std.specs.Prelude.{◌≡◌, ◌<◌, ℕ, Some, None, if◌then◌else◌, length, slice_index_or, IfOk};
ghost use Rattle.lg_node.specs.Labels.{is_at, is_labelled};
ghost use Rattle.lg_node.specs.Nodes.{LabelledNodes};
ghost use Rattle.lg_opt.specs.Targets.{AreLabelsAt};

use lg_base::OutOfMemory;
use lg_node::{Label, NodeList, Place};
use std::alloc::Global;

// Notes a label at the node at which it is bound.
fn note(table: &mut Vec<Option<Label>>, label: Label, place: Option<Place>)
    ensures count { length table.new.items ≡ length table.old.items }
    ensures noted { (k : ℕ) → k < length table.old.items
        → slice_index_or table.new.items k None ≡ (if is_at k place then Some label else slice_index_or table.old.items k None) }
{
    if let Some(Place::Node(index)) = place {
        if (index as usize) < table.len() {
            table[index as usize] = Some(label);
        }
    }
}

/// Of each node a label that is bound at it, if there is one.
pub fn labels_at(alloc: Global, nodes: &NodeList) -> Result<Vec<Option<Label>>, OutOfMemory>
    ensures count { IfOk result (λ table. length table.items ≡ length nodes.now.nodes) }
    ensures labels { IfOk result (λ table. AreLabelsAt nodes.now table.items) }
{
    let mut table = vec![in alloc; None; nodes.len() as usize]?;
    for index in 0..nodes.labels() {
        note(&mut table, Label(index), nodes.place(Label(index)));
    }
    Ok(table)
}

/// Returns whether a label is bound at a node, by the table.
pub fn is_labelled(labels: &[Option<Label>], index: u32) -> bool
    requires { index < length labels.now }
    ensures { (l : LabelledNodes) → AreLabelsAt l labels.now → result ≡ is_labelled l.places index }
{
    labels[index as usize].is_some()
}
