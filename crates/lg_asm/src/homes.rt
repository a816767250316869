// How many homes of register arguments functions read.

ghost use Rattle.std.specs.Prelude.{◌≡◌, ◌+◌, ◌<◌, ◌≤◌, max, length, slice_range};
ghost use Rattle.lg_asm.specs.Lowered.{stored_homes};
ghost use Rattle.lg_carry.specs.Homes.{homes_to, homes_by, homes_of};
ghost use Rattle.lg_node.specs.Shapes.{IsShapeOf};

use lg_carry::memory::operands::{operand, slot};
use lg_node::{NodeList, Shape};
use lg_op::{Node, Op, PlainOp};

// Those up to that of an argument; a function has no more than 16 arguments.
fn homes_to(argument: u32) -> u32
    ensures value { result ≡ homes_to argument }
{
    if argument < 16 { argument + 1 } else { 0 }
}

// Those that a node reads.
fn homes_by(node: &Node) -> u32
    ensures { result ≡ homes_by node.now.op node.now }
{
    match node.op {
        Op::Getarg(_) => homes_to(slot(operand(node, 1))),
        Op::Plain(PlainOp::VaArg) => 16,
        _ => 0,
    }
}

// Returns the larger of two numbers.
fn larger(a: u32, b: u32) -> u32
    ensures { result ≡ max a b }
{
    if a < b { b } else { a }
}

// Those that nodes read, from one to another one, both included.
fn homes_of(list: &NodeList, first: u32, last: u32) -> u32
    requires order { first ≤ last }
    requires within { last < length list.now.nodes }
    ensures { result ≡ homes_of (slice_range list.now.nodes first (last + 1)) }
{
    list.what_holds();
    let mut homes = 0;
    'nodes: for index in first..last + 1 {
        homes = larger(homes, homes_by(&list.node(index)));
    }
    homes
}

/// Returns how many homes the code of a node stores: at a `prolog` those that its function reads, so that each function's nodes are seen once, and none at
/// other nodes. The shape is that of the nodes.
pub(crate) fn stored_homes(list: &NodeList, shape: &Shape, index: u32) -> u32
    requires shape { IsShapeOf list.now shape.now }
    requires index { index < length list.now.nodes }
    ensures { result ≡ stored_homes list.now.nodes shape.now index }
{
    let Op::Plain(PlainOp::Prolog) = list.node(index).op else {
        return 0;
    };
    match shape.function_of(index) {
        Some(function) => homes_of(list, shape.entry(function), shape.last(function)),
        None => 0,
    }
}
