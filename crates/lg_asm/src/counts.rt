// The choices of nodes, and how many registers are saved for them.

ghost use Rattle.std.specs.Prelude.{◌≡◌, ◌≤◌, Some, ◌<◌, length, count_by, IfOk};
ghost use Rattle.lg_asm.specs.Assembled.{ArePushed};
ghost use Rattle.lg_asm.specs.NodeChoices.{needs_on, node_choices, choices_at, set_after, is_spill, spills_of, spills_in};
ghost use Rattle.lg_base.specs.declared.target.Target.{Target};
ghost use Rattle.lg_live.specs.RegSets.{has};
ghost use Rattle.lg_node.specs.Checks.{IsAccepted};
ghost use Rattle.lg_node.specs.Preparations.{pushed};

use crate::node::{first, pushed_after};
use lg_base::{OutOfMemory, Target};
use lg_live::{Live, RegSet};
use lg_node::NodeList;
use lg_op::Node;
use lg_sel::choices_for;
use lg_temp::{Choice, Choices, Needs};
use std::alloc::Global;

/// Returns the registers that are live after a node.
pub(crate) fn set_after(live: &Live, index: u32) -> RegSet
    requires { index < length live.now.behind }
    ensures { result ≡ set_after live.now index }
{
    live.after(index)
}

// What the temporaries of a node's code need on a target.
fn needs(target: Target, node: &Node) -> Needs
    ensures { result ≡ needs_on target node.now.op }
{
    match target {
        Target::Aarch64 => lg_sela::needs(node),
        Target::Riscv64 => lg_selr::needs(node),
        Target::X86_64 => lg_selx::needs(node),
    }
}

/// Returns the choices of a node after which these registers are live and before which this many arguments are pushed.
pub(crate) fn node_choices(target: Target, node: &Node, live_after: RegSet, passed: u32) -> Choices
    requires { passed ≤ 16 }
    ensures { node_choices target (has live_after) passed node.now ≡ Some result }
{
    choices_for(
        target,
        &needs(target, node),
        node,
        live_after,
        first(passed),
    )
}

// Returns how many of these choices are saved.
fn spills(choices: &[Choice]) -> u32
    requires { length choices.now ≤ 3 }
    ensures { result ≡ count_by is_spill choices.now }
{
    choices
        .iter()
        .filter(|choice| matches!(choice, Choice::Spill { .. }))
        .count() as u32
}

// Returns how many registers are saved for the temporaries of a node, before which this many arguments are pushed.
#[inline(never)]
fn saved_by(nodes: &NodeList, live: &Live, target: Target, index: u32, passed: u32) -> u32
    requires index { index < length nodes.now.nodes }
    requires live { length live.now.behind ≡ length nodes.now.nodes }
    requires passed { passed ≡ pushed nodes.now.nodes index }
    requires few { passed ≤ 16 }
    ensures { result ≡ spills_of (choices_at target nodes.now.nodes live.now index) }
{
    let live_after = set_after(live, index);
    let choices = node_choices(target, &nodes.node(index), live_after, passed);
    spills(choices.as_slice())
}

// The same: most nodes have no temporaries.
fn saved_at(nodes: &NodeList, live: &Live, target: Target, index: u32, passed: u32) -> u32
    requires index { index < length nodes.now.nodes }
    requires live { length live.now.behind ≡ length nodes.now.nodes }
    requires passed { passed ≡ pushed nodes.now.nodes index }
    requires few { passed ≤ 16 }
    ensures { result ≡ spills_of (choices_at target nodes.now.nodes live.now index) }
{
    if needs(target, &nodes.node(index)).as_slice().is_empty() {
        0
    } else {
        saved_by(nodes, live, target, index, passed)
    }
}

/// How many arguments are pushed before each node, and how many registers are saved for the temporaries of all nodes.
#[derive(Drop)]
pub(crate) struct Counts {
    /// The arguments that are pushed before each node.
    pub(crate) passed: Vec<u8>,
    /// The registers that are saved.
    pub(crate) spills: u32,
}

/// The counts of the nodes of an accepted text, of whose registers these are live. There is no memory either where more than 4,294,967,295 registers
/// are saved.
pub(crate) fn counted(
    alloc: Global,
    nodes: &NodeList,
    live: &Live,
    target: Target,
) -> Result<Counts, OutOfMemory>
    requires accepted { IsAccepted nodes.now }
    requires live { length live.now.behind ≡ length nodes.now.nodes }
    ensures passed { IfOk result (λ c. ArePushed nodes.now.nodes c.passed.items (length nodes.now.nodes)) }
    ensures spills { IfOk result (λ c. c.spills ≡ spills_in target nodes.now.nodes live.now (length nodes.now.nodes)) }
{
    let mut list = Vec::with_capacity(alloc, nodes.len() as usize)?;
    let mut passed = 0;
    let mut saved: u32 = 0;
    'nodes: for index in 0..nodes.len() {
        let Some(more) = saved.checked_add(saved_at(nodes, live, target, index, passed)) else {
            return Err(OutOfMemory);
        };
        list.push(passed as u8)?;
        saved = more;
        passed = pushed_after(passed, nodes.node(index).op);
    }
    Ok(Counts {
        passed: list,
        spills: saved,
    })
}
