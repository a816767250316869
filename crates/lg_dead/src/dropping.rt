// Definitions that nothing needs are dropped.

ghost use Rattle.std.specs.Prelude.{◌≡◌, ◌≤◌, List, length, IfOk};
ghost use Rattle.lg_live.specs.Definitions.{defines};
ghost use Rattle.lg_live.specs.Needs.{AreNeeded};
ghost use Rattle.lg_live.specs.declared.reg_set.RegSet.{RegSet};
ghost use Rattle.lg_node.specs.Shapes.{IsShapeOf};
ghost use Rattle.lg_opt.specs.Rewritings.{IsOrigin, IsSameNode, KeepsOthers, KeepsLabels, CarriesAddresses, RunsAreDropped};
ghost use Rattle.lg_dead.specs.Known.{HasNoFolds};
ghost use Rattle.lg_dead.specs.Dead.{AllAreOfUse};
ghost use Rattle.lg_dead.specs.Dropping.{AreStays, IsDroppedTo};

use crate::staying::staying;
use lg_base::OutOfMemory;
use lg_live::needs::needs;
use lg_node::{NodeList, Shape};
use lg_opt::Rewritten;
use lg_opt::rewritten::remade;
use std::alloc::Global;

// Of each node whether it stays: all but the definitions that nothing needs.
fn stays_of(alloc: Global, nodes: &NodeList, shape: &Shape) -> Result<Vec<bool>, OutOfMemory>
    requires { IsShapeOf nodes.now shape.now }
    ensures count { IfOk result (λ table. length table.items ≡ length nodes.now.nodes) }
    ensures stays { IfOk result (λ table. (sets : List RegSet) × AreNeeded nodes.now shape.now sets × AreStays nodes.now sets table.items) }
{
    let needs = needs(alloc, nodes, shape)?;
    staying(alloc, nodes, &needs)
}

// Returns the nodes without the definitions that nothing needs.
fn dropped(alloc: Global, nodes: NodeList, shape: Shape) -> Result<Rewritten, OutOfMemory>
    requires { IsShapeOf nodes shape }
    ensures { IfOk result (λ r. IsDroppedTo nodes shape r.nodes r.shape r.origin.items) }
{
    nodes.what_holds();
    match stays_of(alloc, &nodes, &shape) {
        Ok(stays) => remade(alloc, nodes, shape, &stays, &[]),
        Err(error) => Err(error),
    }
}

/// Drops each definition whose words can reach no node that is no definition, in one pass. A label of a dropped node moves to the next that stays. The shape
/// is that of the nodes. Time and memory go by the number of nodes and labels.
///
/// Every other node stays, and those definitions that are of use; so none is dead. The new run makes a step where the old one is at a node that stays, and
/// rests at the others, over any addresses of the labels in the new nodes.
pub fn drop_dead(alloc: Global, nodes: &NodeList, shape: &Shape) -> Result<Rewritten, OutOfMemory>
    requires { IsShapeOf nodes.now shape.now }
    ensures shape { IfOk result (λ r. IsShapeOf r.nodes r.shape) }
    ensures taken { IfOk result (λ r. r.shape.taken ≡ shape.now.taken) }
    ensures origin { IfOk result (λ r. IsOrigin IsSameNode nodes.now r.nodes r.origin.items) }
    ensures others { IfOk result (λ r. KeepsOthers defines nodes.now r.origin.items) }
    ensures few { IfOk result (λ r. length r.nodes.nodes ≤ length nodes.now.nodes) }
    ensures labels { IfOk result (λ r. KeepsLabels nodes.now r.nodes r.origin.items) }
    ensures of_use { IfOk result (λ r. AllAreOfUse r.nodes r.shape) }
    ensures folds { IfOk result (λ r. HasNoFolds nodes.now → HasNoFolds r.nodes) }
    ensures addresses { IfOk result (λ r. CarriesAddresses nodes.now r.nodes) }
    ensures runs { IfOk result (λ r. RunsAreDropped nodes.now shape.now r.nodes r.shape r.origin.items) }
    ensures made { IfOk result (λ r. IsDroppedTo nodes.now shape.now r.nodes r.shape r.origin.items) }
{
    let shape = shape.copy(alloc)?;
    let nodes = nodes.copy(alloc)?;
    without_dead_definitions(alloc, nodes, shape)
}

/// `drop_dead` of nodes that are passed: where nothing is dropped they are returned, with no copy.
pub fn without_dead_definitions(
    alloc: Global,
    nodes: NodeList,
    shape: Shape,
) -> Result<Rewritten, OutOfMemory>
    requires { IsShapeOf nodes shape }
    ensures shape { IfOk result (λ r. IsShapeOf r.nodes r.shape) }
    ensures taken { IfOk result (λ r. r.shape.taken ≡ shape.taken) }
    ensures origin { IfOk result (λ r. IsOrigin IsSameNode nodes r.nodes r.origin.items) }
    ensures others { IfOk result (λ r. KeepsOthers defines nodes r.origin.items) }
    ensures few { IfOk result (λ r. length r.nodes.nodes ≤ length nodes.nodes) }
    ensures labels { IfOk result (λ r. KeepsLabels nodes r.nodes r.origin.items) }
    ensures of_use { IfOk result (λ r. AllAreOfUse r.nodes r.shape) }
    ensures folds { IfOk result (λ r. HasNoFolds nodes → HasNoFolds r.nodes) }
    ensures addresses { IfOk result (λ r. CarriesAddresses nodes r.nodes) }
    ensures runs { IfOk result (λ r. RunsAreDropped nodes shape r.nodes r.shape r.origin.items) }
    ensures made { IfOk result (λ r. IsDroppedTo nodes shape r.nodes r.shape r.origin.items) }
{
    nodes.what_holds();
    dropped(alloc, nodes, shape)
}
