// A text with what its steps look up.

ghost use Rattle.std.specs.Prelude.{◌≡◌, length};
ghost use Rattle.lg_meaning.specs.Steps.{jump_target, entry_target};
ghost use Rattle.lg_mean.specs.Programs.{text_of, IsTableOf};

use crate::functions::function_here;
use crate::labels::Labels;
use lg_node::laws::accepted_nodes_have_functions;
use lg_node::{NodeList, Shape};
use std::marker::Model;

/// The nodes of a text, their shape, and their labels with the tables of where those lead.
#[derive(Drop)]
pub(crate) struct Program<'a> {
    nodes: &'a NodeList,
    shape: &'a Shape,
    labels: &'a Labels,
}

impl<'a> Model for Program<'a> {
    ghost use Rattle.lg_mean.specs.Programs.{KnownText, IsTableOf};

    ghost Value = { KnownText };

    ghost view = { λ p. record { nodes = p.nodes.now; shape = p.shape.now; labels = p.labels.now } };

    ghost invariant = { λ p. IsTableOf p.nodes.now p.shape.now p.labels.now };
}

impl<'a> Program<'a> {
    // Returns the nodes, with the tables of their labels.
    pub(crate) fn new(nodes: &'a NodeList, shape: &'a Shape, labels: &'a Labels) -> Program<'a>
        requires { IsTableOf nodes.now shape.now labels.now }
        ensures { result ≡ record { nodes = nodes.now; shape = shape.now; labels = labels.now } }
    {
        Program {
            nodes,
            shape,
            labels,
        }
    }

    // Returns the nodes. There is an address for each of their labels.
    pub(crate) fn nodes(&self) -> &NodeList
        ensures value { result.now ≡ self.now.nodes }
        ensures same { length self.now.labels.addresses ≡ length self.now.nodes.words }
    {
        self.nodes
    }

    // Returns the shape of the nodes.
    pub(crate) fn shape(&self) -> &Shape
        ensures { result.now ≡ self.now.shape }
    {
        self.shape
    }

    // Returns the address of each label.
    pub(crate) fn addresses(&self) -> &[u64]
        ensures { result.now ≡ self.now.labels.addresses }
    {
        self.labels.addresses()
    }

    // Returns the node to which `jmpr` goes from a node with a word.
    pub(crate) fn jump_target(&self, at: u32, word: u64) -> Option<u32>
        ensures { result ≡ jump_target (text_of self.now) at word }
    {
        accepted_nodes_have_functions();
        let function = function_here(self.shape, at)?;
        self.labels.jump(function.entry, word)
    }

    // Returns the node of the `prolog` to which a call of a word goes.
    pub(crate) fn entry_target(&self, word: u64) -> Option<u32>
        ensures { result ≡ entry_target (text_of self.now) word }
    {
        self.labels.call(word)
    }
}
