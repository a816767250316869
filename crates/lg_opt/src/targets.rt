// The targets of threaded branches and jumps.

ghost use Rattle.std.specs.Prelude.{◌≡◌, ◌<◌, length, IfOk};
ghost use Rattle.lg_node.specs.Checks.{IsAccepted};
ghost use Rattle.lg_node.specs.ShapeLaws.{has_target};
ghost use Rattle.lg_opt.specs.Goals.{AreEnds};
ghost use Rattle.lg_opt.specs.Hops.{AreWithin};
ghost use Rattle.lg_opt.specs.Rewritings.{target_in};
ghost use Rattle.lg_opt.specs.Targets.{AreLabelsAt, AreTargets, IsTargetAt};

use crate::hops::{is_jump, target_node};
use lg_base::OutOfMemory;
use lg_node::{ControlOp, Label, LastOperand, NodeList, Op};
use std::alloc::Global;

// Returns whether an operation is a branch or a jump, whose first operand is its target.
fn has_target(op: Op) -> bool
    ensures { result ≡ has_target op }
{
    matches!(
        op,
        Op::Branch(_, _) | Op::BranchSum(_, _) | Op::Control(ControlOp::Jmp, LastOperand::Immediate)
    )
}

// Another target of a node, by the tables of the ends of jumps and of the labels at nodes.
fn target_at(nodes: &NodeList, ends: &[u32], labels: &[Option<Label>], index: u32) -> Option<Label>
    requires accepted { IsAccepted nodes.now }
    requires index { index < length nodes.now.nodes }
    requires ends_count { length ends.now ≡ length nodes.now.nodes }
    requires within { AreWithin ends.now }
    requires ends { AreEnds nodes.now ends.now }
    requires labels_count { length labels.now ≡ length nodes.now.nodes }
    requires labels { AreLabelsAt nodes.now labels.now }
    ensures { IsTargetAt nodes.now index result }
{
    nodes.what_holds();
    let node = nodes.node(index);
    if !has_target(node.op) {
        return None;
    }
    let target = target_node(nodes, &node);
    let end = ends[target as usize];
    if end == target {
        return None;
    }
    if is_jump(nodes.node(end).op) {
        return None;
    }
    labels[end as usize]
}

/// Of each branch and jump another target: a label where the jumps from its own lead in the end, unless they turn, or its own leads to none.
pub fn targets(
    alloc: Global,
    nodes: &NodeList,
    ends: &[u32],
    labels: &[Option<Label>],
) -> Result<Vec<Option<Label>>, OutOfMemory>
    requires accepted { IsAccepted nodes.now }
    requires ends_count { length ends.now ≡ length nodes.now.nodes }
    requires within { AreWithin ends.now }
    requires ends { AreEnds nodes.now ends.now }
    requires labels_count { length labels.now ≡ length nodes.now.nodes }
    requires labels { AreLabelsAt nodes.now labels.now }
    ensures { IfOk result (λ table. AreTargets nodes.now (target_in table.items)) }
{
    let mut table = Vec::new(alloc);
    for index in 0..nodes.len() {
        table.push(target_at(nodes, ends, labels, index))?;
    }
    Ok(table)
}
