// The four rewrites, one after the other.

ghost use Rattle.std.specs.Prelude.{◌≡◌, ◌<◌, ◌≤◌, ℕ, length, map, slice_index, IfOk};
ghost use Rattle.lg_node.specs.Shapes.{IsShapeOf};
ghost use Rattle.lg_opt.specs.Moves.{HasNoIdleMoves};
ghost use Rattle.lg_opt.specs.Rewritings.{IsOrigin, IsSameNode, KeepsOthers, KeepsLabels, CarriesAddresses, RunsAreFollowed};
ghost use Rattle.lg_dead.specs.Folds.{IsFoldedNode, ComesFolded};
ghost use Rattle.lg_dead.specs.Known.{HasNoFolds};
ghost use Rattle.lg_dead.specs.Dead.{AllAreOfUse, HasNoDeadButMoves};
ghost use Rattle.lg_dead.specs.Rewritten.{is_droppable, ComesNeeded, ComesMoved, AreFinal, RunsRest};

use crate::dropping::without_dead_definitions;
use crate::list::fold;
use lg_base::{Origin, OutOfMemory};
use lg_node::{NodeList, Shape};
use lg_opt::{Rewritten, with_threaded_jumps, without_idle_moves};
use std::alloc::Global;

// Where nodes come from that were rewritten twice, node by node.
fn joined_each(alloc: Global, first: &Origin, second: &Origin) -> Result<Origin, OutOfMemory>
    requires { (k : ℕ) → k < length second.now.items → slice_index second.now.items k < length first.now.items }
    ensures { IfOk result (λ o. o.items ≡ map (slice_index first.now.items) second.now.items) }
{
    let mut origin = Origin::with_room(alloc, second.len())?;
    for index in 0..second.len() {
        origin.push(first.get(second.get(index)));
    }
    Ok(origin)
}

// Where nodes come from that were rewritten twice: where the second rewriting keeps all nodes, from where the first ones do.
#[tactic(auto, using(crate::proofs::JoinLemmas::all_kept))]
fn joined(alloc: Global, first: Origin, second: &Origin) -> Result<Origin, OutOfMemory>
    requires within { (k : ℕ) → k < length second.now.items → slice_index second.now.items k < length first.items }
    requires rises { (i k : ℕ) → i < k → k < length second.now.items → slice_index second.now.items i < slice_index second.now.items k }
    ensures { IfOk result (λ o. o.items ≡ map (slice_index first.items) second.now.items) }
{
    if second.len() == first.len() {
        return Ok(first);
    }
    joined_each(alloc, &first, second)
}

// Folds the numbers that are known, and drops the definitions that nothing needs then. Folding leaves every node in its place.
fn without_dead(alloc: Global, nodes: &NodeList, shape: &Shape) -> Result<Rewritten, OutOfMemory>
    requires { IsShapeOf nodes.now shape.now }
    ensures shape { IfOk result (λ r. IsShapeOf r.nodes r.shape) }
    ensures taken { IfOk result (λ r. r.shape.taken ≡ shape.now.taken) }
    ensures origin { IfOk result (λ r. IsOrigin IsFoldedNode nodes.now r.nodes r.origin.items) }
    ensures folded { IfOk result (λ r. ComesFolded IsSameNode nodes.now r.nodes r.origin.items) }
    ensures others { IfOk result (λ r. KeepsOthers is_droppable nodes.now r.origin.items) }
    ensures few { IfOk result (λ r. length r.nodes.nodes ≤ length nodes.now.nodes) }
    ensures labels { IfOk result (λ r. KeepsLabels nodes.now r.nodes r.origin.items) }
    ensures folds { IfOk result (λ r. HasNoFolds r.nodes) }
    ensures of_use { IfOk result (λ r. AllAreOfUse r.nodes r.shape) }
    ensures addresses { IfOk result (λ r. CarriesAddresses nodes.now r.nodes) }
    ensures runs { IfOk result (λ r. RunsRest nodes.now shape.now r.nodes r.shape) }
    ensures made { IfOk result (λ r. ComesNeeded nodes.now r.nodes r.shape r.origin.items) }
{
    let Rewritten {
        nodes,
        shape,
        origin: _,
    } = fold(alloc, nodes, shape)?;
    without_dead_definitions(alloc, nodes, shape)
}

// Drops the moves that do nothing besides.
fn without_moves(alloc: Global, nodes: &NodeList, shape: &Shape) -> Result<Rewritten, OutOfMemory>
    requires { IsShapeOf nodes.now shape.now }
    ensures shape { IfOk result (λ r. IsShapeOf r.nodes r.shape) }
    ensures taken { IfOk result (λ r. r.shape.taken ≡ shape.now.taken) }
    ensures origin { IfOk result (λ r. IsOrigin IsFoldedNode nodes.now r.nodes r.origin.items) }
    ensures folded { IfOk result (λ r. ComesFolded IsSameNode nodes.now r.nodes r.origin.items) }
    ensures others { IfOk result (λ r. KeepsOthers is_droppable nodes.now r.origin.items) }
    ensures few { IfOk result (λ r. length r.nodes.nodes ≤ length nodes.now.nodes) }
    ensures labels { IfOk result (λ r. KeepsLabels nodes.now r.nodes r.origin.items) }
    ensures moves { IfOk result (λ r. HasNoIdleMoves r.nodes) }
    ensures folds { IfOk result (λ r. HasNoFolds r.nodes) }
    ensures dead { IfOk result (λ r. HasNoDeadButMoves r.nodes r.shape) }
    ensures addresses { IfOk result (λ r. CarriesAddresses nodes.now r.nodes) }
    ensures runs { IfOk result (λ r. RunsRest nodes.now shape.now r.nodes r.shape) }
    ensures made { IfOk result (λ r. ComesMoved nodes.now r.nodes r.shape r.origin.items) }
{
    let Rewritten {
        nodes: needed,
        shape: needed_shape,
        origin: needed_origin,
    } = without_dead(alloc, nodes, shape)?;
    needed.what_holds();
    let Rewritten {
        nodes,
        shape,
        origin,
    } = without_idle_moves(alloc, needed, needed_shape)?;
    match joined(alloc, needed_origin, &origin) {
        Ok(origin) => Ok(Rewritten {
            nodes,
            shape,
            origin,
        }),
        Err(error) => Err(error),
    }
}

/// Rewrites the nodes of a text: folds the numbers that are known, drops the definitions that nothing needs and the moves that do nothing, and threads
/// the jumps. The shape is that of the nodes. Time and memory go by the number of nodes and labels, but for the passes of `thread`.
///
/// The new nodes have no needless move, no jump or branch to a jump but where the jumps turn, and no jump to what follows; none of them can be folded,
/// and none but a `movr` is a dead definition. Every node stays that is neither a definition nor a `jmpi`, and so does each definition that is
/// needed, unless it is a move that does nothing. Over any addresses of the labels in the new
/// nodes the new run follows the old one, and turns with it.
pub fn rewrite(alloc: Global, nodes: &NodeList, shape: &Shape) -> Result<Rewritten, OutOfMemory>
    requires { IsShapeOf nodes.now shape.now }
    ensures taken { IfOk result (λ r. r.shape.taken ≡ shape.now.taken) }
    ensures rewritten { IfOk result (λ r. AreFinal nodes.now r.nodes r.shape r.origin.items) }
    ensures addresses { IfOk result (λ r. CarriesAddresses nodes.now r.nodes) }
    ensures runs { IfOk result (λ r. RunsAreFollowed nodes.now shape.now r.nodes r.shape) }
{
    let Rewritten {
        nodes: moved,
        shape: moved_shape,
        origin: moved_origin,
    } = without_moves(alloc, nodes, shape)?;
    moved.what_holds();
    let Rewritten {
        nodes,
        shape,
        origin,
    } = with_threaded_jumps(alloc, moved, moved_shape)?;
    match joined(alloc, moved_origin, &origin) {
        Ok(origin) => Ok(Rewritten {
            nodes,
            shape,
            origin,
        }),
        Err(error) => Err(error),
    }
}
