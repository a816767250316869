// Moves that do nothing are dropped.

ghost use Rattle.std.specs.Prelude.{◌≡◌, ◌≤◌, length, IfOk};
ghost use Rattle.lg_node.specs.Shapes.{IsShapeOf};
ghost use Rattle.lg_opt.specs.Moves.{HasNoIdleMoves, is_movr};
ghost use Rattle.lg_opt.specs.Rewritings.{IsOrigin, IsSameNode, KeepsOthers, KeepsLabels, CarriesAddresses, RunsAreDropped, IsDroppedTo};

use crate::moves::stays_of;
use crate::rewritten::{Rewritten, remade};
use lg_base::OutOfMemory;
use lg_node::{NodeList, Shape};
use std::alloc::Global;

// Returns the nodes without the moves that do nothing.
fn dropped(alloc: Global, nodes: NodeList, shape: Shape) -> Result<Rewritten, OutOfMemory>
    requires { IsShapeOf nodes shape }
    ensures { IfOk result (λ r. IsDroppedTo nodes shape r.nodes r.shape r.origin.items) }
{
    nodes.what_holds();
    match stays_of(alloc, &nodes) {
        Ok(stays) => remade(alloc, nodes, shape, &stays, &[]),
        Err(error) => Err(error),
    }
}

/// Drops each move that does nothing: of a register to itself, and of one to another where an earlier move of the same straight run has moved one
/// of the two into the other and neither was written since. A label of a dropped node moves to the next that stays. The shape is that of the
/// nodes. Time and memory go by the number of nodes and labels.
///
/// Every node but a `movr` stays. The new run makes a step where the old one is at a node that stays, and rests at the others, over any addresses of the
/// labels in the new nodes.
pub fn drop_moves(alloc: Global, nodes: &NodeList, shape: &Shape) -> Result<Rewritten, OutOfMemory>
    requires { IsShapeOf nodes.now shape.now }
    ensures shape { IfOk result (λ r. IsShapeOf r.nodes r.shape) }
    ensures taken { IfOk result (λ r. r.shape.taken ≡ shape.now.taken) }
    ensures origin { IfOk result (λ r. IsOrigin IsSameNode nodes.now r.nodes r.origin.items) }
    ensures others { IfOk result (λ r. KeepsOthers is_movr nodes.now r.origin.items) }
    ensures few { IfOk result (λ r. length r.nodes.nodes ≤ length nodes.now.nodes) }
    ensures labels { IfOk result (λ r. KeepsLabels nodes.now r.nodes r.origin.items) }
    ensures moves { IfOk result (λ r. HasNoIdleMoves r.nodes) }
    ensures addresses { IfOk result (λ r. CarriesAddresses nodes.now r.nodes) }
    ensures runs { IfOk result (λ r. RunsAreDropped nodes.now shape.now r.nodes r.shape r.origin.items) }
    ensures made { IfOk result (λ r. IsDroppedTo nodes.now shape.now r.nodes r.shape r.origin.items) }
{
    let shape = shape.copy(alloc)?;
    let nodes = nodes.copy(alloc)?;
    without_idle_moves(alloc, nodes, shape)
}

/// `drop_moves` of nodes that are passed: where nothing is dropped they are returned, with no copy.
pub fn without_idle_moves(
    alloc: Global,
    nodes: NodeList,
    shape: Shape,
) -> Result<Rewritten, OutOfMemory>
    requires { IsShapeOf nodes shape }
    ensures shape { IfOk result (λ r. IsShapeOf r.nodes r.shape) }
    ensures taken { IfOk result (λ r. r.shape.taken ≡ shape.taken) }
    ensures origin { IfOk result (λ r. IsOrigin IsSameNode nodes r.nodes r.origin.items) }
    ensures others { IfOk result (λ r. KeepsOthers is_movr nodes r.origin.items) }
    ensures few { IfOk result (λ r. length r.nodes.nodes ≤ length nodes.nodes) }
    ensures labels { IfOk result (λ r. KeepsLabels nodes r.nodes r.origin.items) }
    ensures moves { IfOk result (λ r. HasNoIdleMoves r.nodes) }
    ensures addresses { IfOk result (λ r. CarriesAddresses nodes r.nodes) }
    ensures runs { IfOk result (λ r. RunsAreDropped nodes shape r.nodes r.shape r.origin.items) }
    ensures made { IfOk result (λ r. IsDroppedTo nodes shape r.nodes r.shape r.origin.items) }
{
    nodes.what_holds();
    dropped(alloc, nodes, shape)
}
