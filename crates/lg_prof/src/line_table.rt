// The lines of places.

ghost use Rattle.std.specs.Prelude.{◌≡◌, ◌<◌, ◌≤◌, ℕ, IfOk, OnOk, Some, length, slice_get};
ghost use Rattle.lg_prof.specs.Places.{AreLines, ArePlaced};

use lg_base::{OutOfMemory, Places};
use lg_node::NodeList;
use std::alloc::Global;
use std::marker::Model;

/// For each place of the code the line of the node whose bytes hold it.
#[derive(Drop)]
pub struct LineTable {
    lines: Vec<u32>,
}

impl Model for LineTable {
    ghost use Rattle.std.specs.Prelude.{ℕ, List};

    ghost Value = { List ℕ };

    ghost view = { λ t. t.lines.items };
}

// Appends a line as often as makes this many.
fn fill(lines: &mut Vec<u32>, count: u32, line: u32) -> Result<(), OutOfMemory>
    requires { length lines.old.items ≤ count }
    ensures long { OnOk result (length lines.new.items ≡ count) }
    ensures kept { OnOk result ((p : ℕ) → p < length lines.old.items → slice_get lines.new.items p ≡ slice_get lines.old.items p) }
    ensures filled { OnOk result ((p : ℕ) → length lines.old.items ≤ p → p < count → slice_get lines.new.items p ≡ Some line) }
{
    Ok(lines.resize(count as usize, line)?)
}

impl LineTable {
    /// Returns the lines of the places of nodes, in one run over the nodes. It takes 4 bytes for each byte of the code.
    pub fn new(alloc: Global, nodes: &NodeList, places: &Places) -> Result<LineTable, OutOfMemory>
        requires { ArePlaced nodes.now.nodes places.now.items }
        ensures { IfOk result (λ t. AreLines nodes.now.nodes places.now.items t) }
    {
        let mut lines = Vec::new(alloc);
        for index in 0..nodes.len() {
            fill(&mut lines, places.get(index + 1), nodes.node(index).line)?;
        }
        Ok(LineTable { lines })
    }

    /// Returns the lines, each at its place.
    pub fn as_slice(&self) -> &[u32]
        ensures { result.now ≡ self.now }
    {
        &self.lines
    }
}
