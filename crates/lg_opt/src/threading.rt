// Jumps to jumps are threaded, and jumps to what follows are dropped.

ghost use Rattle.std.specs.Prelude.{◌≡◌, ◌≤◌, ℕ, false, length, IfOk};
ghost use Rattle.lg_node.specs.Checks.{IsAccepted};
ghost use Rattle.lg_node.specs.ShapeLaws.{has_target};
ghost use Rattle.lg_node.specs.Shapes.{IsShapeOf};
ghost use Rattle.lg_opt.specs.Hops.{HasNoIdleJumps, is_jump, jump_at};
ghost use Rattle.lg_opt.specs.Moves.{HasNoIdleMoves};
ghost use Rattle.lg_opt.specs.Rewritings.{IsOrigin, IsThreadedNode, KeepsOthers, KeepsLabels, CarriesAddresses, RunsAreThreaded, AreTables, IsThreadedTo};

use crate::drops::{ends, staying};
use crate::hops::any_jumps;
use crate::labels::labels_at;
use crate::rewritten::{Rewritten, remade};
use crate::targets::targets;
use lg_base::OutOfMemory;
use lg_node::{Label, NodeList, Shape};
use std::alloc::Global;

// Which nodes stay, and which targets they get.
#[derive(Drop)]
struct Tables {
    stays: Vec<bool>,
    targets: Vec<Option<Label>>,
}

// Which nodes stay and which targets they get where no node jumps: all, and none.
#[tactic(auto, using(crate::proofs::NoJumpLemmas::no_tables))]
fn unchanged(alloc: Global, nodes: &NodeList) -> Result<Tables, OutOfMemory>
    requires { (i : ℕ) → jump_at nodes.now i ≡ false }
    ensures { IfOk result (λ t. AreTables nodes.now t.stays.items t.targets.items) }
{
    Ok(Tables {
        stays: vec![in alloc; true; nodes.len() as usize]?,
        targets: Vec::new(alloc),
    })
}

// Which nodes stay and which targets they get.
fn led(alloc: Global, nodes: &NodeList) -> Result<Tables, OutOfMemory>
    requires { IsAccepted nodes.now }
    ensures { IfOk result (λ t. AreTables nodes.now t.stays.items t.targets.items) }
{
    nodes.what_holds();
    let ends = ends(alloc, nodes)?;
    let stays = staying(alloc, nodes, &ends)?;
    let labels = labels_at(alloc, nodes)?;
    let targets = targets(alloc, nodes, &ends, &labels)?;
    Ok(Tables { stays, targets })
}

// Which nodes stay, and which targets they get: where no node jumps nothing changes.
fn tables_of(alloc: Global, nodes: &NodeList) -> Result<Tables, OutOfMemory>
    requires { IsAccepted nodes.now }
    ensures { IfOk result (λ t. AreTables nodes.now t.stays.items t.targets.items) }
{
    if any_jumps(nodes) {
        led(alloc, nodes)
    } else {
        unchanged(alloc, nodes)
    }
}

// Returns the nodes with their jumps threaded.
fn threaded(alloc: Global, nodes: NodeList, shape: Shape) -> Result<Rewritten, OutOfMemory>
    requires { IsShapeOf nodes shape }
    ensures { IfOk result (λ r. IsThreadedTo nodes shape r.nodes r.shape r.origin.items) }
{
    nodes.what_holds();
    match tables_of(alloc, &nodes) {
        Ok(tables) => remade(alloc, nodes, shape, &tables.stays, &tables.targets),
        Err(error) => Err(error),
    }
}

/// Leads each branch and `jmpi` that goes to a `jmpi` to where that leads in the end, unless the jumps from there turn for ever, and drops each
/// `jmpi` that leads to the node that follows, until nothing is left to do. A label of a dropped node moves to the next that stays. The shape is
/// that of the nodes. Memory goes by the number of nodes and labels, and time by that and at most 32 passes over a table of the nodes.
///
/// Every node but a `jmpi` stays. The new run follows the old one over any addresses of the labels in the new nodes, and steps at each node that is no
/// `jmpi`; between two times at which the old run is at one node, it steps at a branch, jump, call or return.
pub fn thread(alloc: Global, nodes: &NodeList, shape: &Shape) -> Result<Rewritten, OutOfMemory>
    requires { IsShapeOf nodes.now shape.now }
    ensures shape { IfOk result (λ r. IsShapeOf r.nodes r.shape) }
    ensures taken { IfOk result (λ r. r.shape.taken ≡ shape.now.taken) }
    ensures origin { IfOk result (λ r. IsOrigin IsThreadedNode nodes.now r.nodes r.origin.items) }
    ensures others { IfOk result (λ r. KeepsOthers is_jump nodes.now r.origin.items) }
    ensures few { IfOk result (λ r. length r.nodes.nodes ≤ length nodes.now.nodes) }
    ensures labels { IfOk result (λ r. KeepsLabels nodes.now r.nodes r.origin.items) }
    ensures jumps { IfOk result (λ r. HasNoIdleJumps r.nodes has_target) }
    ensures moves { IfOk result (λ r. HasNoIdleMoves nodes.now → HasNoIdleMoves r.nodes) }
    ensures addresses { IfOk result (λ r. CarriesAddresses nodes.now r.nodes) }
    ensures runs { IfOk result (λ r. RunsAreThreaded nodes.now shape.now r.nodes r.shape) }
    ensures made { IfOk result (λ r. IsThreadedTo nodes.now shape.now r.nodes r.shape r.origin.items) }
{
    let shape = shape.copy(alloc)?;
    let nodes = nodes.copy(alloc)?;
    with_threaded_jumps(alloc, nodes, shape)
}

/// `thread` of nodes that are passed: where nothing is threaded they are returned, with no copy.
pub fn with_threaded_jumps(
    alloc: Global,
    nodes: NodeList,
    shape: Shape,
) -> Result<Rewritten, OutOfMemory>
    requires { IsShapeOf nodes shape }
    ensures shape { IfOk result (λ r. IsShapeOf r.nodes r.shape) }
    ensures taken { IfOk result (λ r. r.shape.taken ≡ shape.taken) }
    ensures origin { IfOk result (λ r. IsOrigin IsThreadedNode nodes r.nodes r.origin.items) }
    ensures others { IfOk result (λ r. KeepsOthers is_jump nodes r.origin.items) }
    ensures few { IfOk result (λ r. length r.nodes.nodes ≤ length nodes.nodes) }
    ensures labels { IfOk result (λ r. KeepsLabels nodes r.nodes r.origin.items) }
    ensures jumps { IfOk result (λ r. HasNoIdleJumps r.nodes has_target) }
    ensures moves { IfOk result (λ r. HasNoIdleMoves nodes → HasNoIdleMoves r.nodes) }
    ensures addresses { IfOk result (λ r. CarriesAddresses nodes r.nodes) }
    ensures runs { IfOk result (λ r. RunsAreThreaded nodes shape r.nodes r.shape) }
    ensures made { IfOk result (λ r. IsThreadedTo nodes shape r.nodes r.shape r.origin.items) }
{
    nodes.what_holds();
    threaded(alloc, nodes, shape)
}
