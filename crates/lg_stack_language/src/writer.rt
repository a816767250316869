// The nodes of a unit as they are written.

ghost use Rattle.std.specs.Prelude.{◌≡◌, OnOk, OnErr};
ghost use Rattle.lg_op.specs.Nodes.{InForm};
ghost use Rattle.lg_node.specs.Nodes.{with_node};
ghost use Rattle.lg_stack_language.specs.Units.{AreInside};

use lg_base::OutOfMemory;
use lg_node::{Label, Node, NodeList, Place};
use std::alloc::Global;
use std::marker::Model;

// The most nodes and labels of a unit.
const MOST: u32 = 1_048_576;

/// Nodes, no label of which is bound after the end of the data part.
#[derive(Drop)]
pub(crate) struct Writer {
    nodes: NodeList,
}

impl Model for Writer {
    ghost use Rattle.lg_node.specs.Nodes.{LabelledNodes};
    ghost use Rattle.lg_stack_language.specs.Units.{AreInside};

    ghost Value = { LabelledNodes };

    ghost view = { λ w. w.nodes };

    ghost invariant = { λ w. AreInside w.nodes };
}

impl Writer {
    /// No nodes and no labels.
    pub fn new(alloc: Global) -> Writer {
        Writer {
            nodes: NodeList::new(alloc),
        }
    }

    /// Appends a node, which is in form. At Err nothing changes.
    pub fn put(&mut self, node: Node) -> Result<(), OutOfMemory>
        requires { InForm node }
        ensures ok { OnOk result (self.new ≡ with_node self.old node) }
        ensures err { OnErr result (self.new ≡ self.old) }
    {
        if self.nodes.len() >= MOST {
            return Err(OutOfMemory);
        }
        self.nodes.push(node)
    }

    /// A new label, that no other call gives.
    pub fn fresh(&mut self) -> Result<Label, OutOfMemory> {
        if self.nodes.labels() >= MOST {
            return Err(OutOfMemory);
        }
        self.nodes.fresh()
    }

    /// Binds a label at the node that comes next. False where it is bound already, and then nothing changes.
    pub fn bind_here(&mut self, label: Label) -> bool {
        let place = Place::Node(self.nodes.len());
        label.0 < self.nodes.labels() && self.nodes.bind(label, place)
    }

    /// Binds a label at the first byte of the data part. False where it is bound already, and then nothing changes.
    pub fn bind_format(&mut self, label: Label) -> bool {
        label.0 < self.nodes.labels() && self.nodes.bind(label, Place::Image(0))
    }

    /// Returns the list of the nodes.
    pub fn into_nodes(self) -> NodeList
        ensures value { result ≡ self }
        ensures inside { AreInside result }
    {
        let Writer { nodes } = self;
        nodes
    }
}
