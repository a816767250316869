// Addresses of labels for a text that no code is made of.

ghost use Rattle.std.specs.Prelude.{◌≡◌, ◌*◌, ◌<◌, ◌^◌, length, IfOk};
ghost use Rattle.lg_node.specs.Nodes.{MayStand};
ghost use Rattle.lg_meaning.specs.Addresses.{AreAddresses, plain_address, plain_addresses};

use lg_base::OutOfMemory;
use lg_base::layout::{CODE_BASE, DATA_BASE};
use lg_meaning::laws::plain_addresses_are_addresses;
use lg_node::{Label, LabelAddresses, NodeList, Place};
use std::alloc::Global;

// Returns the plain address of a label that is bound at a place.
fn plain_address(place: Option<Place>) -> u64
    ensures { result ≡ plain_address place }
{
    match place {
        Some(Place::Node(node)) => CODE_BASE + 256 * node as u64,
        Some(Place::Image(at)) => DATA_BASE + at as u64,
        None => 0,
    }
}

/// Returns the plain addresses of a text's labels: 0x10000000 + 256 i for a label that is bound at node i, 0x20000000 + k for one that is bound
/// at byte k of the data part, and 0 for one that is not bound. They are addresses of the labels over code of 256 bytes for each node.
pub fn plain_addresses(alloc: Global, nodes: &NodeList) -> Result<LabelAddresses, OutOfMemory>
    ensures value { IfOk result (λ addresses. addresses ≡ plain_addresses nodes.now) }
    ensures addresses { IfOk result (λ addresses. AreAddresses nodes.now (256 * length nodes.now.nodes) addresses) }
{
    plain_addresses_are_addresses();
    let mut addresses = Vec::new(alloc);
    for label in 0..nodes.labels() {
        addresses.push(plain_address(nodes.place(Label(label))))?;
    }
    Ok(LabelAddresses::from_vec(addresses))
}
