// Which definitions are needed.

ghost use Rattle.std.specs.Prelude.{◌≡◌, Some, length, IfOk};
ghost use Rattle.lg_op.specs.declared.operand.Reg.{Reg};
ghost use Rattle.lg_live.specs.RegSets.{has};
ghost use Rattle.lg_dead.specs.Dead.{stays_at, needs_in};
ghost use Rattle.lg_dead.specs.Dropping.{AreStays};

use lg_base::OutOfMemory;
use lg_live::definitions::defines;
use lg_live::sets::meets;
use lg_live::{RegSet, writes};
use lg_node::{Node, NodeList};
use std::alloc::Global;

// Returns the registers that are needed before a node, by the table; after the last there are none.
fn needed_at(needs: &[RegSet], index: u64) -> RegSet
    ensures { (r : Reg) → has result r ≡ needs_in needs.now index r }
{
    match needs.get(index as usize) {
        Some(set) => *set,
        None => RegSet::none(),
    }
}

// Returns whether a node is none of the definitions of registers that are not among these.
fn stays_here(node: &Node, next: RegSet) -> bool
    ensures { result ≡ stays_at (has next) (Some node.now) }
{
    !defines(node.op) || meets(writes(node), next)
}

/// Of each node whether it stays: all but the definitions of registers that are not needed after them.
pub fn staying(alloc: Global, nodes: &NodeList, needs: &[RegSet]) -> Result<Vec<bool>, OutOfMemory>
    ensures { IfOk result (λ table. (length table.items ≡ length nodes.now.nodes) × AreStays nodes.now needs.now table.items) }
{
    let mut table = Vec::with_capacity(alloc, nodes.len() as usize)?;
    for index in 0..nodes.len() {
        let node = nodes.node(index);
        let next = needed_at(needs, index as u64 + 1);
        table.push(stays_here(&node, next))?;
    }
    Ok(table)
}
