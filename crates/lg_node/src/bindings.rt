// The places at which labels are bound, and the labels of each node.

ghost use Rattle.std.specs.Prelude.{◌≡◌, ◌↔◌, ◌<◌, ◌≤◌, ◌+◌, ◌++◌, ℕ, List, Option, true, false, IsTrue, Some, None, [], ◌∷◌, length, slice_get, slice_set, slice_index_or, IfSome, IfNone, OnOk, OnErr, IfOk};
ghost use Rattle.std.specs.List.{All};
ghost use Rattle.lg_node.specs.Labels.{is_at};
ghost use Rattle.lg_node.specs.Nodes.{IsWithin, MayStand};
ghost use Rattle.lg_node.specs.NextLabels.{NextAt, NoneAt};

use crate::chain::{Ends, link};
use crate::place::Place;
use lg_base::OutOfMemory;
use lg_op::Label;
use std::alloc::Global;
use std::marker::Model;

/// The place of each label of some nodes. The labels of a node are in a chain, in the order of their numbers.
pub struct Bindings {
    places: Vec<Option<Place>>,
    next: Vec<Option<Label>>,
    ends: Vec<Option<Ends>>,
    end: Option<Ends>,
}

impl Model for Bindings {
    ghost use Rattle.lg_node.specs.Chains.{BoundLabels, bindings_of, AreBindings};

    ghost Value = { BoundLabels };

    ghost view = { bindings_of };

    ghost invariant = { AreBindings };
}

// Written out, and not derived, so that an owner's proof has one call in the place of the drops of all parts.
impl Drop for Bindings {
    fn drop(self) {
        let Bindings {
            places: _places,
            next: _next,
            ends: _ends,
            end: _,
        } = self;
    }
}

impl Bindings {
    /// No nodes and no labels. No memory is taken yet.
    pub fn new(alloc: Global) -> Bindings
        ensures { result ≡ record { places = []; nodes = 0 } }
    {
        Bindings {
            places: Vec::new(alloc),
            next: Vec::new(alloc),
            ends: Vec::new(alloc),
            end: None,
        }
    }

    /// No nodes and no labels, with memory for this many nodes.
    pub fn with_room(alloc: Global, nodes: u32) -> Result<Bindings, OutOfMemory>
        ensures { IfOk result (λ b. b ≡ record { places = []; nodes = 0 }) }
    {
        let ends = Vec::with_capacity(alloc, nodes as usize)?;
        Ok(Bindings {
            places: Vec::new(alloc),
            next: Vec::new(alloc),
            ends,
            end: None,
        })
    }

    /// The same places, in memory of their own.
    pub fn copy(&self, alloc: Global) -> Result<Bindings, OutOfMemory>
        ensures { IfOk result (λ b. b ≡ self.now) }
    {
        let places = Vec::from_slice(alloc, &self.places)?;
        let next = Vec::from_slice(alloc, &self.next)?;
        let ends = Vec::from_slice(alloc, &self.ends)?;
        Ok(Bindings {
            places,
            next,
            ends,
            end: self.end,
        })
    }

    /// Makes room for one node more, at which the labels stand that were bound after the last. At Err nothing changes.
    pub fn add_node(&mut self) -> Result<(), OutOfMemory>
        ensures ok { OnOk result (self.new ≡ record self.old { nodes = self.old.nodes + 1 }) }
        ensures err { OnErr result (self.new ≡ self.old) }
    {
        match self.ends.push(self.end) {
            Ok(()) => {
                self.end = None;
                Ok(())
            }
            Err(_) => Err(OutOfMemory),
        }
    }

    /// Appends a label that is not bound. At Err nothing changes.
    pub fn add_label(&mut self) -> Result<(), OutOfMemory>
        ensures ok { OnOk result (self.new ≡ record self.old { places = self.old.places ++ None ∷ [] }) }
        ensures err { OnErr result (self.new ≡ self.old) }
    {
        self.next.push(None)?;
        match self.places.push(None) {
            Ok(()) => return Ok(()),
            Err(_) => return Err(OutOfMemory),
        }
    }

    /// Takes the last label away, which is not bound.
    pub fn drop_label(&mut self)
        requires { (before : List (Option Place)) × (self.old.places ≡ before ++ None ∷ []) }
        ensures { (before : List (Option Place)) → self.old.places ≡ before ++ None ∷ [] → self.new ≡ record self.old { places = before } }
    {
        let _ = self.places.pop();
    }

    /// Binds a label to a place; a place that is a node is at most the number of nodes. False exactly where the label is bound already, and
    /// then nothing changes.
    pub fn bind(&mut self, label: Label, place: Place) -> bool
        requires label { label.0 < length self.old.places }
        requires place { IsWithin self.old.nodes place }
        ensures free { IsTrue result ↔ (slice_get self.old.places label.0 ≡ Some None) }
        ensures bound { IsTrue result → self.new ≡ record self.old { places = slice_set self.old.places label.0 (Some place) } }
        ensures kept { result ≡ false → self.new ≡ self.old }
    {
        let index = label.0 as usize;
        if self.places[index].is_some() {
            return false;
        }
        self.places[index] = Some(place);
        if let Place::Node(node) = place {
            let node = node as usize;
            if node < self.ends.len() {
                let ends = link(&mut self.next, self.ends[node], label);
                self.ends[node] = Some(ends);
            } else {
                let ends = link(&mut self.next, self.end, label);
                self.end = Some(ends);
            }
        }
        true
    }

    /// Returns the place at which a label is bound, or `None` if it is not bound.
    pub fn place(&self, label: Label) -> Option<Place>
        requires { label.0 < length self.now.places }
        ensures place { Some result ≡ slice_get self.now.places label.0 }
        ensures within { IfSome result (λ p. IsWithin self.now.nodes p) }
    {
        self.places[label.0 as usize]
    }

    /// Returns the first label that is bound at a node, or after the last.
    pub fn first_at(&self, node: u32) -> Option<Label>
        requires { node ≤ self.now.nodes }
        ensures found { IfSome result (λ l. NextAt self.now.places node 0 l.0) }
        ensures none { IfNone result (NoneAt self.now.places node 0) }
    {
        let node = node as usize;
        let ends = if node < self.ends.len() {
            self.ends[node]
        } else {
            self.end
        };
        match ends {
            Some(ends) => Some(ends.first),
            None => None,
        }
    }

    /// Returns the label that comes next at the node at which a label is bound, which is at a node or after the last; None after the last label.
    pub fn next_at(&self, label: Label) -> Option<Label>
        requires label { label.0 < length self.now.places }
        requires bound { (i : ℕ) × (is_at i (slice_index_or self.now.places label.0 None) ≡ true) }
        ensures found { (i : ℕ) → is_at i (slice_index_or self.now.places label.0 None) ≡ true
            → IfSome result (λ l. NextAt self.now.places i (label.0 + 1) l.0) }
        ensures none { (i : ℕ) → is_at i (slice_index_or self.now.places label.0 None) ≡ true → IfNone result (NoneAt self.now.places i (label.0 + 1)) }
    {
        self.next[label.0 as usize]
    }

    /// What holds of all places: a place that is a node is at most the number of nodes. The call does nothing: its contract is the law.
    pub fn are_placed(&self)
        ensures { All (MayStand self.now.nodes) self.now.places }
    {
        let _ = &self.places;
    }
}
