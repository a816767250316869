// Where labels lead.

ghost use Rattle.std.specs.Prelude.{◌≡◌};
ghost use Rattle.lg_node.specs.Tables.{AreHomes};
ghost use Rattle.lg_node.specs.Functions.{home};
ghost use Rattle.lg_node.specs.Labels.{is_code, is_entry, is_inside, is_inside_some, takes_address};

use crate::node_list::NodeList;
use crate::place::Place;
use crate::walk::is_prolog;
use lg_op::{ControlOp, LastOperand, Op, PlainOp};

/// Returns whether a place is in the code.
pub fn is_code(place: Option<Place>) -> bool
    ensures { result ≡ is_code place }
{
    matches!(place, Some(Place::Node(_)))
}

/// Returns whether a place is a `prolog`.
pub fn is_entry(nodes: &NodeList, place: Option<Place>) -> bool
    ensures { result ≡ is_entry nodes.now.nodes place }
{
    match place {
        Some(Place::Node(index)) => index < nodes.len() && is_prolog(nodes.node(index).op),
        _ => false,
    }
}

/// Returns the function of a node, by the table.
pub fn home_in(homes: &[Option<u32>], index: u32) -> Option<u32>
    ensures { (nodes : _) → AreHomes nodes homes.now → result ≡ home nodes index }
{
    homes.get(index as usize).copied().flatten()
}

/// Returns whether a place is a node of a function after its `prolog`.
pub fn is_inside(homes: &[Option<u32>], function: u32, place: Option<Place>) -> bool
    ensures { (nodes : _) → AreHomes nodes homes.now → result ≡ is_inside nodes function place }
{
    match place {
        Some(Place::Node(index)) => match home_in(homes, index) {
            Some(home) => home == function && index != function,
            None => false,
        },
        _ => false,
    }
}

/// Returns whether a place is a node of some function after its `prolog`.
pub fn is_inside_some(homes: &[Option<u32>], place: Option<Place>) -> bool
    ensures { (nodes : _) → AreHomes nodes homes.now → result ≡ is_inside_some nodes place }
{
    match place {
        Some(Place::Node(index)) => match home_in(homes, index) {
            Some(home) => index != home,
            None => false,
        },
        _ => false,
    }
}

/// Returns whether an operation may have the address of a node as an immediate.
pub fn takes_address(op: Op) -> bool
    ensures { result ≡ takes_address op }
{
    matches!(
        op,
        Op::Plain(PlainOp::Movi)
            | Op::Control(ControlOp::Pusharg | ControlOp::Ret, LastOperand::Immediate)
    )
}
