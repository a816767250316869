// What a rewriting answers.

ghost use Rattle.std.specs.Prelude.{◌≡◌, ◌<◌, ◌^◌, ◌&&◌, is_none, length, IfOk};
ghost use Rattle.std.specs.List.{list_all};
ghost use Rattle.lg_node.specs.Checks.{IsAccepted};
ghost use Rattle.lg_node.specs.Shapes.{IsShapeOf};
ghost use Rattle.lg_opt.specs.Remaining.{origins, rewritten};
ghost use Rattle.lg_opt.specs.Rewritings.{marked, target_in, TargetsAreOfJumps};

use crate::rebuilding::{all_stay, none_given, origin, rebuilt};
use lg_base::{Origin, OutOfMemory};
use lg_node::{Label, NodeList, Shape, reshape};
use std::alloc::Global;

/// Nodes that others were rewritten to.
#[derive(Drop)]
pub struct Rewritten {
    /// The nodes.
    pub nodes: NodeList,
    /// Their shape, with the taken labels of the nodes that they were rewritten from.
    pub shape: Shape,
    /// Of each node the index of the one that it corresponds to, rising.
    pub origin: Origin,
}

/// Rewritten nodes with their shape, where these stay of the nodes that they were rewritten from.
pub fn finished(
    alloc: Global,
    nodes: NodeList,
    old: &Shape,
    stays: &[bool],
) -> Result<Rewritten, OutOfMemory>
    requires accepted { IsAccepted nodes }
    requires few { length stays.now < 2 ^ 32 }
    ensures nodes { IfOk result (λ r. r.nodes ≡ nodes) }
    ensures shape { IfOk result (λ r. IsShapeOf nodes r.shape) }
    ensures taken { IfOk result (λ r. r.shape.taken ≡ old.now.taken) }
    ensures origin { IfOk result (λ r. r.origin.items ≡ origins (marked stays.now) (length stays.now)) }
{
    match reshape(alloc, &nodes, old) {
        Ok(shape) => handed_back(alloc, nodes, shape, stays),
        Err(error) => Err(error),
    }
}

// The same nodes, with their shape.
fn handed_back(
    alloc: Global,
    nodes: NodeList,
    shape: Shape,
    stays: &[bool],
) -> Result<Rewritten, OutOfMemory>
    requires { length stays.now < 2 ^ 32 }
    ensures nodes { IfOk result (λ r. r.nodes ≡ nodes) }
    ensures shape { IfOk result (λ r. r.shape ≡ shape) }
    ensures origin { IfOk result (λ r. r.origin.items ≡ origins (marked stays.now) (length stays.now)) }
{
    match origin(alloc, stays) {
        Ok(origin) => Ok(Rewritten {
            nodes,
            shape,
            origin,
        }),
        Err(error) => Err(error),
    }
}

// Returns the nodes that stay, with their targets and the labels in their new places, in a list of their own, with their shape.
fn made_anew(
    alloc: Global,
    nodes: &NodeList,
    shape: &Shape,
    stays: &[bool],
    targets: &[Option<Label>],
) -> Result<Rewritten, OutOfMemory>
    requires count { length stays.now ≡ length nodes.now.nodes }
    requires targets { TargetsAreOfJumps nodes.now targets.now }
    requires accepted { IsAccepted (rewritten nodes.now (marked stays.now) (target_in targets.now)) }
    ensures nodes { IfOk result (λ r. r.nodes ≡ rewritten nodes.now (marked stays.now) (target_in targets.now)) }
    ensures shape { IfOk result (λ r. IsShapeOf r.nodes r.shape) }
    ensures taken { IfOk result (λ r. r.shape.taken ≡ shape.now.taken) }
    ensures origin { IfOk result (λ r. r.origin.items ≡ origins (marked stays.now) (length stays.now)) }
{
    nodes.what_holds();
    match rebuilt(alloc, nodes, stays, targets) {
        Ok(list) => finished(alloc, list, shape, stays),
        Err(error) => Err(error),
    }
}

// Returns whether all nodes stay, and none gets another target.
fn is_unchanged(stays: &[bool], targets: &[Option<Label>]) -> bool
    ensures { result ≡ (list_all (λ s. s) stays.now && list_all is_none targets.now) }
{
    all_stay(stays) && none_given(targets)
}

/// Returns the nodes that stay, with their targets and the labels in their new places, with their shape. Where all stay as they are it is the same list.
#[tactic(auto, using(crate::proofs::WholeLemmas::whole))]
pub fn remade(
    alloc: Global,
    nodes: NodeList,
    shape: Shape,
    stays: &[bool],
    targets: &[Option<Label>],
) -> Result<Rewritten, OutOfMemory>
    requires count { length stays.now ≡ length nodes.nodes }
    requires targets { TargetsAreOfJumps nodes targets.now }
    requires shaped { IsShapeOf nodes shape }
    requires accepted { IsAccepted (rewritten nodes (marked stays.now) (target_in targets.now)) }
    ensures nodes { IfOk result (λ r. r.nodes ≡ rewritten nodes (marked stays.now) (target_in targets.now)) }
    ensures shape { IfOk result (λ r. IsShapeOf r.nodes r.shape) }
    ensures taken { IfOk result (λ r. r.shape.taken ≡ shape.taken) }
    ensures origin { IfOk result (λ r. r.origin.items ≡ origins (marked stays.now) (length stays.now)) }
{
    nodes.what_holds();
    if is_unchanged(stays, targets) {
        handed_back(alloc, nodes, shape, stays)
    } else {
        made_anew(alloc, &nodes, &shape, stays, targets)
    }
}
