// Where jumps lead: a table with the node to which the jumps from each node lead in the end.

ghost use Rattle.std.specs.Prelude.{◌≡◌, ◌<◌, ◌+◌, ◌==◌, ◌||◌, not, ℕ, true, false, length, IsTrue, IfOk};
ghost use Rattle.lg_node.specs.Nodes.{LabelledNodes};
ghost use Rattle.lg_opt.specs.Hops.{AreHops, AreLeads, AreWithin, JumpsWithin, hop, is_jump, jump_at};
ghost use Rattle.lg_opt.specs.Targets.{target_node};

use lg_base::OutOfMemory;
use lg_node::{ControlOp, LastOperand, Node, NodeList, Op, Operand, Place};
use std::alloc::Global;

// Returns whether some lead changed, or this one did.
fn has_changed(changed: bool, new: u32, old: u32) -> bool
    ensures { result ≡ (changed || not (new == old)) }
{
    changed || new != old
}

// Where twice as many jumps lead, or more: each lead is followed once. Whether some lead changed.
fn double(table: &mut [u32]) -> bool
    requires { AreWithin table.old }
    ensures within { AreWithin table.new }
    ensures leads { (l : LabelledNodes) (w : ℕ) → AreLeads l w table.old → AreLeads l (w + w) table.new }
    ensures still { result ≡ false → table.new ≡ table.old }
{
    let mut changed = false;
    for index in 0..table.len() {
        let next = table[index];
        table[index] = table[next as usize];
        changed = has_changed(changed, table[index], next);
    }
    changed
}

/// Returns the node to which a branch or jump goes.
pub fn target_node(nodes: &NodeList, node: &Node) -> u32
    ensures { result ≡ target_node nodes.now node.now }
{
    match node.operands.as_slice() {
        [Operand::Label(label), ..] => match nodes.place_of(*label) {
            Some(Place::Node(target)) => target,
            _ => 0,
        },
        _ => 0,
    }
}

/// Returns the node to which a jump goes; another node stays.
pub fn hop(nodes: &NodeList, index: u32) -> u32
    requires inside { index < length nodes.now.nodes }
    ensures { result ≡ hop nodes.now index }
{
    let node = nodes.node(index);
    if is_jump(node.op) {
        target_node(nodes, &node)
    } else {
        index
    }
}

/// Returns whether an operation is an unconditional jump to a label.
pub fn is_jump(op: Op) -> bool
    ensures { result ≡ is_jump op }
{
    matches!(op, Op::Control(ControlOp::Jmp, LastOperand::Immediate))
}

/// Returns whether some node is an unconditional jump to a label.
pub fn any_jumps(nodes: &NodeList) -> bool
    ensures none { result ≡ false → (i : ℕ) → jump_at nodes.now i ≡ false }
    ensures some { IsTrue result → (i : ℕ) × (jump_at nodes.now i ≡ true) }
{
    for index in 0..nodes.len() {
        if is_jump(nodes.node(index).op) {
            return true;
        }
    }
    false
}

// Of each node where the jump at it goes.
fn hops(alloc: Global, nodes: &NodeList) -> Result<Vec<u32>, OutOfMemory>
    ensures { IfOk result (λ table. (length table.items ≡ length nodes.now.nodes) × AreHops nodes.now table.items) }
{
    let mut table = Vec::with_capacity(alloc, nodes.len() as usize)?;
    for index in 0..nodes.len() {
        table.push(hop(nodes, index))?;
    }
    Ok(table)
}

/// Of each node where the jumps from it lead: at least as many jumps on as there are nodes. So it leads to the node that is no jump where the jumps
/// end, and to a jump where they never do.
pub fn leads(alloc: Global, nodes: &NodeList) -> Result<Vec<u32>, OutOfMemory>
    requires within { JumpsWithin nodes.now }
    ensures { IfOk result
        (λ table. (length table.items ≡ length nodes.now.nodes) × AreWithin table.items × AreLeads nodes.now (length nodes.now.nodes) table.items) }
{
    let mut table = hops(alloc, nodes)?;
    let count = nodes.len() as u64;
    let mut far: u64 = 1;
    while far < count {
        if !double(&mut table) {
            return Ok(table);
        }
        far = far + far;
    }
    Ok(table)
}
