// The labels of a text: their addresses, and where words lead that are such addresses.

ghost use Rattle.std.specs.Prelude.{◌≡◌, ◌<◌, ◌+◌, ◌&&◌, ℕ, length, nat_eq, if◌then◌else◌, slice_get, Option, Some, None, IfOk, OnOk};
ghost use Rattle.std.specs.HashMap.{get};
ghost use Rattle.std.specs.Map.{lookup};
ghost use Rattle.lg_node.specs.Shapes.{IsShapeOf};
ghost use Rattle.lg_node.specs.declared.place.Place.TheVariants as place;
ghost use Rattle.lg_meaning.specs.Steps.{later, begins, function_here};
ghost use Rattle.lg_meaning.specs.Texts.{text};
ghost use Rattle.lg_mean.specs.Programs.{pair_eq, is_jump_key, jump_entry, entry_after, LeadsAmong, AreResolved, IsTableOf};

use crate::functions::{begins, function_here};
use crate::resolved::{ResolvedNode, resolved};
use indexmap::IndexMap;
use lg_base::OutOfMemory;
use lg_node::laws::{accepted_nodes_are_well_shaped, accepted_nodes_have_functions};
use lg_node::{Function, Label, LabelAddresses, NodeList, Place, Shape};
use std::alloc::Global;
use std::marker::Model;

/// The addresses of a text's labels, the nodes to which they lead, and each node with its operands looked up.
pub(crate) struct Labels {
    addresses: LabelAddresses,
    jumps: IndexMap<(u32, u64), u32>,
    calls: IndexMap<u64, u32>,
    resolved: Vec<ResolvedNode>,
}

impl Model for Labels {
    ghost use Rattle.lg_mean.specs.Programs.{LabelTable};

    ghost Value = { LabelTable };

    ghost view = { λ l. record { addresses = l.addresses; jumps = l.jumps.entries; calls = l.calls.entries; resolved = l.resolved.items } };
}

// Written out, and not derived, so that an owner's proof has one call in the place of the drops of all parts.
impl Drop for Labels {
    fn drop(self) {
        let Labels {
            addresses: _addresses,
            jumps: _jumps,
            calls: _calls,
            resolved: _resolved,
        } = self;
    }
}

// Returns the later of a node and one that may be there.
fn later(node: u32, other: Option<u32>) -> u32
    ensures { Some result ≡ later (Some node) other }
{
    match other {
        Some(other) if node < other => other,
        _ => node,
    }
}

// Notes that a label with this address is bound at a node, in the function that begins at `entry` after its `prolog`, or where no
// `jmpr` goes.
fn note_jump(
    jumps: &mut IndexMap<(u32, u64), u32>,
    entry: Option<u32>,
    address: u64,
    node: u32,
) -> Result<(), OutOfMemory>
    ensures { OnOk result ((key : ℕ × ℕ) → get pair_eq jumps.new key ≡ (if is_jump_key entry address key then later (Some node)
        (get pair_eq jumps.old key) else get pair_eq jumps.old key)) }
{
    if let Some(entry) = entry {
        let before = jumps.get(&(entry, address)).copied();
        jumps.insert((entry, address), later(node, before))?;
    }
    Ok(())
}

// Notes that a label with this address is bound at a node, where it begins a function.
fn note_call(
    calls: &mut IndexMap<u64, u32>,
    begins: bool,
    address: u64,
    node: u32,
) -> Result<(), OutOfMemory>
    ensures { OnOk result ((key : ℕ) → get nat_eq calls.new key ≡ (if begins && nat_eq address key then later (Some node) (get nat_eq calls.old key)
        else get nat_eq calls.old key)) }
{
    if begins {
        let before = calls.get(&address).copied();
        calls.insert(address, later(node, before))?;
    }
    Ok(())
}

// Returns the `prolog` of a function, where a node of it is after that.
fn entry_after(function: Option<Function>, node: u32) -> Option<u32>
    ensures { result ≡ entry_after function node }
{
    match function {
        Some(function) if function.entry < node => Some(function.entry),
        _ => None,
    }
}

// Returns the `prolog` of the function in which `jmpr` can go to a label that is bound at a node.
fn jump_entry(
    nodes: &NodeList,
    shape: &Shape,
    addresses: &[u64],
    label: u32,
    node: u32,
) -> Option<u32>
    ensures { result ≡ jump_entry (text nodes.now shape.now addresses.now) label node }
{
    if shape.taken(Label(label)) {
        entry_after(function_here(shape, node), node)
    } else {
        None
    }
}

// The tables of a text, while they are made.
#[derive(Drop)]
struct Tables {
    jumps: IndexMap<(u32, u64), u32>,
    calls: IndexMap<u64, u32>,
}

impl Tables {
    // Notes where a label leads that is bound at a node.
    fn note_node(
        &mut self,
        nodes: &NodeList,
        shape: &Shape,
        addresses: &[u64],
        label: u32,
        node: u32,
    ) -> Result<(), OutOfMemory>
        requires shape { IsShapeOf nodes.now shape.now }
        requires label { label < length addresses.now }
        requires bound { slice_get nodes.now.places label ≡ Some (Some (place.Node node)) }
        requires before { LeadsAmong nodes.now (text nodes.now shape.now addresses.now) self.old.jumps.entries self.old.calls.entries label }
        ensures { OnOk result (LeadsAmong nodes.now (text nodes.now shape.now addresses.now) self.new.jumps.entries self.new.calls.entries (label + 1)) }
    {
        accepted_nodes_have_functions();
        let address = addresses[label as usize];
        let entry = jump_entry(nodes, shape, addresses, label, node);
        note_jump(&mut self.jumps, entry, address, node)?;
        note_call(&mut self.calls, begins(shape, node), address, node)?;
        Ok(())
    }

    // Notes where a label leads.
    fn note(
        &mut self,
        nodes: &NodeList,
        shape: &Shape,
        addresses: &[u64],
        label: u32,
    ) -> Result<(), OutOfMemory>
        requires shape { IsShapeOf nodes.now shape.now }
        requires same { length addresses.now ≡ length nodes.now.words }
        requires label { label < length nodes.now.words }
        requires before { LeadsAmong nodes.now (text nodes.now shape.now addresses.now) self.old.jumps.entries self.old.calls.entries label }
        ensures { OnOk result (LeadsAmong nodes.now (text nodes.now shape.now addresses.now) self.new.jumps.entries self.new.calls.entries (label + 1)) }
    {
        match nodes.place(Label(label)) {
            Some(Place::Node(node)) => self.note_node(nodes, shape, addresses, label, node),
            Some(Place::Image(_)) => Ok(()),
            None => Ok(()),
        }
    }

    // Returns the tables of a text.
    fn of(
        alloc: Global,
        nodes: &NodeList,
        shape: &Shape,
        addresses: &[u64],
    ) -> Result<Tables, OutOfMemory>
        requires shape { IsShapeOf nodes.now shape.now }
        requires same { length addresses.now ≡ length nodes.now.words }
        ensures { IfOk result (λ t. LeadsAmong nodes.now (text nodes.now shape.now addresses.now) t.jumps.entries t.calls.entries (length nodes.now.places)) }
    {
        let mut tables = Tables {
            jumps: IndexMap::new(alloc),
            calls: IndexMap::new(alloc),
        };
        for label in 0..nodes.labels() {
            tables.note(nodes, shape, addresses, label)?;
        }
        Ok(tables)
    }
}

// Each node of accepted ones with its operands looked up.
fn resolved_nodes(
    alloc: Global,
    nodes: &NodeList,
    shape: &Shape,
    addresses: &[u64],
) -> Result<Vec<ResolvedNode>, OutOfMemory>
    requires shape { IsShapeOf nodes.now shape.now }
    requires same { length addresses.now ≡ length nodes.now.words }
    ensures { IfOk result (λ v. AreResolved nodes.now.nodes (text nodes.now shape.now addresses.now) v.items) }
{
    accepted_nodes_are_well_shaped();
    nodes.what_holds();
    let mut found = Vec::with_capacity(alloc, nodes.len() as usize)?;
    for index in 0..nodes.len() {
        let node = resolved(nodes.node_at(index), nodes, addresses);
        found.push_reserved(node);
    }
    Ok(found)
}

impl Labels {
    /// Returns the labels of accepted nodes with their shape, and with an address for each label.
    pub(crate) fn of(
        alloc: Global,
        nodes: &NodeList,
        shape: &Shape,
        addresses: &LabelAddresses,
    ) -> Result<Labels, OutOfMemory>
        requires shape { IsShapeOf nodes.now shape.now }
        requires same { length addresses.now ≡ length nodes.now.words }
        ensures addresses { IfOk result (λ l. l.addresses ≡ addresses.now) }
        ensures table { IfOk result (λ l. IsTableOf nodes.now shape.now l) }
    {
        let addresses = LabelAddresses::of(alloc, addresses.as_slice())?;
        let tables = Tables::of(alloc, nodes, shape, addresses.as_slice())?;
        let resolved = resolved_nodes(alloc, nodes, shape, addresses.as_slice())?;
        Ok(Labels {
            addresses,
            jumps: tables.jumps,
            calls: tables.calls,
            resolved,
        })
    }

    // Returns the address of each label.
    pub(crate) fn addresses(&self) -> &[u64]
        ensures { result.now ≡ self.now.addresses }
    {
        self.addresses.as_slice()
    }

    // Returns the node to which `jmpr` goes with a word, in the function that begins at a node.
    pub(crate) fn jump(&self, entry: u32, word: u64) -> Option<u32>
        ensures { result ≡ lookup (pair_eq (entry, word)) self.now.jumps }
    {
        self.jumps.get(&(entry, word)).copied()
    }

    // A node with its operands looked up.
    #[inline(always)]
    pub(crate) fn node(&self, index: u32) -> &ResolvedNode
        requires { index < length self.now.resolved }
        ensures { Some result.now ≡ slice_get self.now.resolved index }
    {
        &self.resolved[index as usize]
    }

    // Returns the node to which a call of a word goes.
    pub(crate) fn call(&self, word: u64) -> Option<u32>
        ensures { result ≡ lookup (nat_eq word) self.now.calls }
    {
        self.calls.get(&word).copied()
    }
}
