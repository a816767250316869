// The nodes of a text and its labels.

ghost use Rattle.std.specs.Prelude.{◌≡◌, ◌↔◌, ◌<◌, ◌≤◌, ◌+◌, ◌-◌, ◌^◌, ℕ, Bool, false, IsTrue, Some, None, [], length, slice_get, slice_index_or, OnOk, OnErr, IfOk, IfSome, IfNone};
ghost use Rattle.std.specs.List.{All};
ghost use Rattle.lg_node.specs.Labels.{is_at, place_of};
ghost use Rattle.lg_node.specs.NextLabels.{NextAt, NoneAt};
ghost use Rattle.lg_op.specs.Nodes.{InForm};
ghost use Rattle.lg_node.specs.Nodes.{IsWithin, MayStand, with_node, mentioned, number_of, with_place, is_word};
ghost use Rattle.lg_node.specs.Unused.{IsUnused, is_mentioned, numbered, with_label};

use crate::bindings::Bindings;
use crate::place::Place;
use crate::unused::numbered;
use indexmap::IndexSet;
use lg_base::OutOfMemory;
use lg_op::{Label, Node};
use std::alloc::Global;
use std::marker::Model;

/// A list of nodes, and the labels that are mentioned in it, each with its word and the place at which it is bound.
pub struct NodeList {
    alloc: Global,
    nodes: Vec<Node>,
    words: IndexSet<Vec<u8>>,
    bindings: Bindings,
}

impl Model for NodeList {
    ghost use Rattle.lg_node.specs.Nodes.{LabelledNodes};

    ghost Value = { LabelledNodes };

    ghost use Rattle.lg_node.specs.NodeLists.{view_of, IsNodeList};

    ghost view = { view_of };

    ghost invariant = { IsNodeList };
}

// Written out, and not derived, so that an owner's proof has one call in the place of the drops of all parts.
impl Drop for NodeList {
    fn drop(self) {
        let NodeList {
            alloc: _,
            nodes: _nodes,
            words: _words,
            bindings: _bindings,
        } = self;
    }
}

impl NodeList {
    /// Returns the list of no nodes and no labels. No memory is taken yet.
    pub fn new(alloc: Global) -> NodeList
        ensures { result ≡ record { nodes = []; words = []; places = [] } }
    {
        NodeList {
            alloc,
            nodes: Vec::new(alloc),
            words: IndexSet::new(alloc),
            bindings: Bindings::new(alloc),
        }
    }

    /// Returns the list of no nodes and no labels, with memory for this many nodes.
    pub fn with_room(alloc: Global, nodes: u32) -> Result<NodeList, OutOfMemory>
        ensures { IfOk result (λ l. l ≡ record { nodes = []; words = []; places = [] }) }
    {
        let bindings = Bindings::with_room(alloc, nodes)?;
        let nodes = Vec::with_capacity(alloc, nodes as usize)?;
        Ok(NodeList {
            alloc,
            nodes,
            words: IndexSet::new(alloc),
            bindings,
        })
    }

    /// Returns a list of the same nodes, with the same labels at the same places, in memory of its own.
    pub fn copy(&self, alloc: Global) -> Result<NodeList, OutOfMemory>
        ensures { IfOk result (λ l. l ≡ self.now) }
    {
        let nodes = Vec::from_slice(alloc, &self.nodes)?;
        let bindings = self.bindings.copy(alloc)?;
        let words = self.words.clone()?;
        Ok(NodeList {
            alloc,
            nodes,
            words,
            bindings,
        })
    }

    /// Appends a node. The node is in form, and there are fewer than 2^32 - 1 nodes. At Err nothing changes.
    #[inline(always)]
    pub fn push(&mut self, node: Node) -> Result<(), OutOfMemory>
        requires room { length self.old.nodes < 2 ^ 32 - 1 }
        requires form { InForm node }
        ensures ok { OnOk result (self.new ≡ with_node self.old node) }
        ensures err { OnErr result (self.new ≡ self.old) }
    {
        self.nodes.push(node)?;
        match self.bindings.add_node() {
            Ok(()) => return Ok(()),
            Err(OutOfMemory) => {
                let _ = self.nodes.pop();
                return Err(OutOfMemory);
            }
        }
    }

    /// Returns how many nodes there are.
    pub fn len(&self) -> u32
        ensures { result ≡ length self.now.nodes }
    {
        self.nodes.len() as u32
    }

    /// Returns whether there is no node.
    pub fn is_empty(&self) -> bool
        ensures { IsTrue result ↔ (length self.now.nodes ≡ 0) }
    {
        self.nodes.len() == 0
    }

    /// Returns the node of an index, which is below `len`. It is in form.
    pub fn node(&self, index: u32) -> Node
        requires { index < length self.now.nodes }
        ensures node { Some result ≡ slice_get self.now.nodes index }
        ensures form { InForm result }
    {
        self.nodes[index as usize]
    }

    /// Returns the node of an index, which is below `len`, where it is. It is in form.
    #[inline]
    pub fn node_at(&self, index: u32) -> &Node
        requires { index < length self.now.nodes }
        ensures node { Some result.now ≡ slice_get self.now.nodes index }
        ensures form { InForm result.now }
    {
        &self.nodes[index as usize]
    }

    /// The label of a word, which has the form of a word of a text: the one that the word has, or a new one at its first mention.
    /// There are fewer than 2^32 - 1 labels. At Err nothing changes.
    pub fn label(&mut self, word: &[u8]) -> Result<Label, OutOfMemory>
        requires room { length self.old.words < 2 ^ 32 - 1 }
        requires word { IsTrue (is_word word.now) }
        ensures number { IfOk result (λ l. l.0 ≡ number_of self.old.words word.now) }
        ensures ok { OnOk result (self.new ≡ mentioned self.old word.now) }
        ensures err { OnErr result (self.new ≡ self.old) }
    {
        if let Some(index) = self.words.get_index_of(word) {
            return Ok(Label(index as u32));
        }
        let key = Vec::from_slice(self.alloc, word)?;
        self.bindings.add_label()?;
        match self.words.insert_full(key) {
            Ok((index, _)) => return Ok(Label(index as u32)),
            Err(_) => {
                self.bindings.drop_label();
                return Err(OutOfMemory);
            }
        }
    }

    // Returns whether a label has this word.
    fn has_word(&self, word: &[u8]) -> bool
        ensures { result ≡ is_mentioned self.now.words word.now }
    {
        self.words.contains(word)
    }

    // Returns the first number, from the count of labels on, whose word no label has.
    fn unused(&self) -> Option<u32>
        ensures { IfSome result (λ number. IsUnused self.now.words number) }
    {
        for number in self.labels()..u32::MAX {
            if !self.has_word(&numbered(number)) {
                return Some(number);
            }
        }
        None
    }

    /// A label with a word of its own: `_` and ten digits, those of the first number, from the count of labels on, whose word no label has. It is a
    /// new label, which is not bound; `label` gives it to those alone who ask for exactly this word. A text can write such a word as well, so the list
    /// of a text's nodes may have some of them, which are passed over. There are fewer than 2^32 - 1 labels. At Err nothing changes; it comes also
    /// where no number below 2^32 - 1 is left, which more than 2^31 labels would have to use up.
    pub fn fresh(&mut self) -> Result<Label, OutOfMemory>
        requires room { length self.old.words < 2 ^ 32 - 1 }
        ensures number { IfOk result (λ l. l.0 ≡ length self.old.words) }
        ensures ok { OnOk result ((n : ℕ) × IsUnused self.old.words n × (self.new ≡ with_label self.old (numbered n))) }
        ensures err { OnErr result (self.new ≡ self.old) }
    {
        match self.unused() {
            Some(number) => self.label(&numbered(number)),
            None => Err(OutOfMemory),
        }
    }

    /// Returns how many labels there are.
    pub fn labels(&self) -> u32
        ensures count { result ≡ length self.now.words }
        ensures places { length self.now.places ≡ length self.now.words }
    {
        self.words.len() as u32
    }

    /// Binds a label, which is below `labels`, to a place; a place that is a node is at most `len`. False exactly where the label
    /// is bound already, and then nothing changes.
    pub fn bind(&mut self, label: Label, place: Place) -> bool
        requires label { label.0 < length self.old.words }
        requires place { IsWithin (length self.old.nodes) place }
        ensures free { IsTrue result ↔ (slice_get self.old.places label.0 ≡ Some None) }
        ensures bound { IsTrue result → self.new ≡ with_place self.old label.0 place }
        ensures kept { result ≡ false → self.new ≡ self.old }
    {
        self.bindings.bind(label, place)
    }

    /// Returns the place at which a label, which is below `labels`, is bound, or `None` exactly when it is not bound. A place that is a node
    /// is at most `len`.
    pub fn place(&self, label: Label) -> Option<Place>
        requires { label.0 < length self.now.words }
        ensures place { Some result ≡ slice_get self.now.places label.0 }
        ensures within { IfSome result (λ p. IsWithin (length self.now.nodes) p) }
    {
        self.bindings.place(label)
    }

    /// Returns the place at which a label is bound, or `None` exactly when it is not bound or there is no such label.
    pub fn place_of(&self, label: Label) -> Option<Place>
        ensures { result ≡ place_of self.now.places label }
    {
        if label.0 < self.labels() {
            self.place(label)
        } else {
            None
        }
    }

    /// Returns the first label that is bound at the node of an index, or after the last, in the order of first mention. The index is at most `len`.
    pub fn first_at(&self, index: u32) -> Option<Label>
        requires { index ≤ length self.now.nodes }
        ensures found { IfSome result (λ l. NextAt self.now.places index 0 l.0) }
        ensures none { IfNone result (NoneAt self.now.places index 0) }
    {
        self.bindings.first_at(index)
    }

    /// Returns the label that comes next at the node at which a label, which is below `labels` and bound at a node or after the last, is bound,
    /// in the order of first mention; None after the last.
    pub fn next_at(&self, label: Label) -> Option<Label>
        requires label { label.0 < length self.now.words }
        requires bound { (i : ℕ) × IsTrue (is_at i (slice_index_or self.now.places label.0 None)) }
        ensures found { (i : ℕ) → IsTrue (is_at i (slice_index_or self.now.places label.0 None))
            → IfSome result (λ l. NextAt self.now.places i (label.0 + 1) l.0) }
        ensures none { (i : ℕ) → IsTrue (is_at i (slice_index_or self.now.places label.0 None)) → IfNone result (NoneAt self.now.places i (label.0 + 1)) }
    {
        self.bindings.next_at(label)
    }

    /// Returns the word of a label, which is below `labels`. It has the form of a word of a text.
    pub fn word(&self, label: Label) -> &[u8]
        requires { label.0 < length self.now.words }
        ensures text { Some result.now ≡ slice_get self.now.words label.0 }
        ensures form { IsTrue (is_word result.now) }
    {
        &self.words.as_slice()[label.0 as usize]
    }

    /// What holds of every list: there are fewer than 2^32 nodes, each of them in form, and each label has a word of a text and a place, which
    /// is at most `len` where it is a node. The call does nothing: its contract is the law.
    pub fn what_holds(&self)
        ensures few { length self.now.nodes < 2 ^ 32 }
        ensures formed { All InForm self.now.nodes }
        ensures words { All (λ w. IsTrue (is_word w)) self.now.words }
        ensures places { length self.now.places ≡ length self.now.words }
        ensures placed { All (MayStand (length self.now.nodes)) self.now.places }
    {
        self.bindings.are_placed();
    }
}
