// What a check has to know of all nodes before it looks at the first.

ghost use Rattle.std.specs.Prelude.{◌≡◌, ◌<◌, ◌==◌, ◌&&◌, ◌||◌, false, length, slice_index_or, IfOk};
ghost use Rattle.lg_node.specs.Labels.{is_at};
ghost use Rattle.lg_node.specs.Tables.{AreHomes, AreMarks, AreTables};

use crate::node_list::NodeList;
use crate::place::Place;
use crate::walk::{home_of, open_after};
use lg_base::OutOfMemory;
use lg_op::Label;
use std::alloc::Global;

/// The function of each node, and whether a label is bound at it.
#[derive(Drop)]
pub struct Tables {
    /// Of each node the `prolog` of its function.
    pub homes: Vec<Option<u32>>,
    /// Of each node whether a label is bound at it.
    pub labelled: Vec<bool>,
}

impl Tables {
    /// Returns the tables of these nodes.
    pub fn of(alloc: Global, nodes: &NodeList) -> Result<Tables, OutOfMemory>
        ensures { IfOk result (λ t. AreTables nodes.now t) }
    {
        let homes = homes(alloc, nodes)?;
        let labelled = labelled(alloc, nodes)?;
        Ok(Tables { homes, labelled })
    }
}

/// Returns the function of each node, by its `prolog`.
pub fn homes(alloc: Global, nodes: &NodeList) -> Result<Vec<Option<u32>>, OutOfMemory>
    ensures { IfOk result (λ homes. AreHomes nodes.now.nodes homes.items) }
{
    let count = nodes.len() as usize;
    let mut homes = Vec::with_capacity(alloc, count)?;
    let mut current = None;
    for index in 0..nodes.len() {
        let op = nodes.node_at(index).op;
        let home = home_of(current, index, op);
        homes.push_reserved(home);
        current = open_after(home, op);
    }
    Ok(homes)
}

// Marks the node at which a label is bound.
fn mark(marks: &mut [bool], place: Option<Place>)
    ensures { (i : _) → i < length marks.old → slice_index_or marks.new i false ≡ (slice_index_or marks.old i false || is_at i place) }
{
    if let Some(Place::Node(index)) = place {
        if (index as usize) < marks.len() {
            marks[index as usize] = true;
        }
    }
}

// Of each node whether a label is bound at it.
fn labelled(alloc: Global, nodes: &NodeList) -> Result<Vec<bool>, OutOfMemory>
    ensures { IfOk result (λ marks. AreMarks nodes.now marks.items) }
{
    let mut marks = vec![in alloc; false; nodes.len() as usize]?;
    for label in 0..nodes.labels() {
        mark(&mut marks, nodes.place(Label(label)));
    }
    Ok(marks)
}
