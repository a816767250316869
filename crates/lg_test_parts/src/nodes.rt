// Lists of nodes, with labels as they are mentioned and bound.

ghost use Rattle.std.specs.Prelude.{◌≡◌, []};

use crate::units::read;
use lg_base::{OutOfMemory, Stop};
use lg_node::*;
use std::alloc::Global;
use std::test::Fail;

// Whether words are labels in the order in which they come, and a label is bound once, to what comes next.
fn are_numbered_and_bound(nodes: &mut NodeList) -> Result<bool, OutOfMemory>
    requires words { nodes.old.words ≡ [] }
    requires nodes { nodes.old.nodes ≡ [] }
{
    let main = nodes.label(b"main")?;
    let other = nodes.label(b"loop")?;
    let again = nodes.label(b"main")?;
    let are_counted = (main, other, again, nodes.labels()) == (Label(0), Label(1), main, 2);
    let is_told = nodes.word(other) == b"loop".as_slice();
    nodes.push(Node {
        op: Op::Plain(PlainOp::Prolog),
        operands: Operands::of(&[]),
        line: 3,
    })?;
    let first = nodes.bind(other, Place::Node(1));
    let second = nodes.bind(other, Place::Image(0));
    let places = (nodes.place(main), nodes.place(other));
    let is_bound = first && !second && places == (None, Some(Place::Node(1)));
    Ok(are_counted && is_told && is_bound && (nodes.len(), nodes.node(0).line) == (1, 3))
}

// The same in a list of its own.
fn is_list_right(alloc: Global) -> Result<bool, OutOfMemory> {
    let mut nodes = NodeList::new(alloc);
    are_numbered_and_bound(&mut nodes)
}

// A function with a local of 12 bytes and a label whose address is taken, a node a line.
const FUNCTION: &[u8] = b"prolog\nallocai 12 $l\nmovi %r0 there\nthere: epilog";

// Returns the shape of a unit, made anew once it is checked.
fn shape_again(alloc: Global, unit: &Unit) -> Result<Shape, Stop> {
    let shape = check(alloc, unit)?;
    let again = reshape(alloc, &unit.nodes, &shape)?;
    Ok(again)
}

// Returns whether a shape is that of the function.
fn is_of_function(shape: &Shape) -> bool {
    shape.functions() == 1
        && (shape.entry(0), shape.last(0)) == (0, 3)
        && (shape.locals(0), shape.frame(0)) == (16, 288)
        && (shape.function_of(3), shape.function_of(4)) == (Some(0), None)
        && (shape.taken(Label(0)), shape.taken(Label(1))) == (true, false)
}

// Whether the function is shaped so.
fn is_function_shaped(alloc: Global) -> Result<bool, Stop> {
    let unit = read(alloc, FUNCTION)?;
    let shape = shape_again(alloc, &unit)?;
    Ok(is_of_function(&shape))
}

#[test]
fn numbers_words_and_shapes_functions(rt: HostRuntime) -> Result<(), Fail> {
    assert!(rt; is_list_right(rt.alloc())?);
    assert!(rt; is_function_shaped(rt.alloc())?);
    Ok(())
}
