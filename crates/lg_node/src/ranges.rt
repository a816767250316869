// The functions of accepted nodes.

ghost use Rattle.std.specs.Prelude.{◌≡◌, ◌++◌, Some, slice_get, IfOk, OnOk};
ghost use Rattle.std.specs.Option.{option_to_list};
ghost use Rattle.lg_op.specs.Nodes.{InForm};
ghost use Rattle.lg_node.specs.Functions.{home, ended_at};
ghost use Rattle.lg_node.specs.Walks.{walk_at, IsWithinLimits};
ghost use Rattle.lg_node.specs.Checks.{IsAccepted};
ghost use Rattle.lg_node.specs.Tables.{number_in, AreRanges};

use crate::function::Function;
use crate::node_list::NodeList;
use crate::walk::{Walk, home_of, is_epilog, local_size};
use lg_base::OutOfMemory;
use lg_op::Node;
use std::alloc::Global;

/// The functions of nodes, and the number of each node's function.
#[derive(Drop)]
pub struct Ranges {
    /// The functions, in order.
    pub functions: Vec<Function>,
    /// Of each node the number of its function.
    pub numbers: Vec<Option<u32>>,
}

// Returns the function that ends at a node, where this one is open.
fn ended(
    nodes: &NodeList,
    function: Option<u32>,
    walk: Walk,
    index: u32,
    node: &Node,
) -> Option<Function>
    requires node { slice_get nodes.now.nodes index ≡ Some node.now }
    requires form { InForm node.now }
    requires walk { walk ≡ walk_at nodes.now.nodes index }
    requires function { function ≡ home nodes.now.nodes index }
    requires limits { IsWithinLimits walk }
    ensures { result ≡ ended_at nodes.now.nodes function index (Some node.now) }
{
    match function {
        Some(entry) if is_epilog(node.op) => Some(Function {
            entry,
            last: index,
            locals: walk.locals + local_size(node),
        }),
        _ => None,
    }
}

// Appends the function that ends at a node, if one does.
fn push_ended(functions: &mut Vec<Function>, ended: Option<Function>) -> Result<(), OutOfMemory>
    ensures { OnOk result (functions.new.items ≡ functions.old.items ++ option_to_list ended) }
{
    if let Some(function) = ended {
        functions.push(function)?;
    }
    Ok(())
}

// Returns the number of a node's function, where this many end before the node.
fn number_in(ended: u32, function: Option<u32>) -> Option<u32>
    ensures { result ≡ number_in ended function }
{
    match function {
        Some(_) => Some(ended),
        None => None,
    }
}

impl Ranges {
    /// Returns the functions of these nodes, which are accepted.
    pub fn of(alloc: Global, nodes: &NodeList) -> Result<Ranges, OutOfMemory>
        requires { IsAccepted nodes.now }
        ensures { IfOk result (λ r. AreRanges nodes.now.nodes r) }
    {
        let count = nodes.len() as usize;
        let mut functions = Vec::new(alloc);
        let mut numbers = Vec::with_capacity(alloc, count)?;
        let mut walk = Walk::new();
        for index in 0..nodes.len() {
            let node = nodes.node_at(index);
            let home = home_of(walk.function, index, node.op);
            numbers.push_reserved(number_in(functions.len() as u32, home));
            push_ended(&mut functions, ended(nodes, home, walk, index, node))?;
            walk.pass(index, node);
        }
        Ok(Ranges { functions, numbers })
    }
}
