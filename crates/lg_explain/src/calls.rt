// Labels that stand where a call is being prepared.

ghost use Rattle.std.specs.Prelude.{◌≡◌, ◌<◌, length, is_some};
ghost use Rattle.std.specs.Option.{option_flatten};
ghost use Rattle.lg_explain.specs.Blames.{bad_call_at, first_in, label_at};
ghost use Rattle.lg_explain.specs.Calls.{is_bad, variadic_after, varies_by};
ghost use Rattle.lg_node.specs.Labels.{is_labelled};

use lg_node::refusals::{breaks_preparation, is_ellipsis, is_out_of_turn, needs_preparation};
use lg_node::{ControlOp, Label, NodeList, Op, PlainOp};

// Returns whether an operation is out of place: of a call that is being prepared it is known whether an `ellipsis` came.
fn is_bad(call: Option<bool>, varies: bool, labelled: bool, op: Op) -> bool
    ensures { result ≡ is_bad call varies labelled op }
{
    match call {
        None => {
            needs_preparation(op) || (varies && is_ellipsis(op)) || is_out_of_turn(varies, op)
        }
        Some(variadic) => {
            labelled
                || breaks_preparation(op)
                || (variadic && is_ellipsis(op))
                || is_out_of_turn(varies, op)
        }
    }
}

// What is known of it after an operation.
fn variadic_after(call: Option<bool>, op: Op) -> Option<bool>
    ensures { result ≡ variadic_after call op }
{
    match (call, op) {
        (_, Op::Plain(PlainOp::Prepare)) => Some(false),
        (_, Op::Control(ControlOp::Finish, _)) => None,
        (Some(_), Op::Plain(PlainOp::Ellipsis)) => Some(true),
        _ => call,
    }
}

// Returns whether the open function has variable arguments, after an operation.
fn varies_by(varies: bool, call: Option<bool>, op: Op) -> bool
    ensures { result ≡ varies_by varies call op }
{
    match (call, op) {
        (_, Op::Plain(PlainOp::Prolog)) => false,
        (None, Op::Plain(PlainOp::Ellipsis)) => true,
        _ => varies,
    }
}

// Returns the first label that is bound at a node.
fn label_at(nodes: &NodeList, index: u32) -> Option<Label>
    requires { index < length nodes.now.nodes }
    ensures label { result ≡ label_at nodes.now.places index }
    ensures labelled { is_labelled nodes.now.places index ≡ is_some result }
{
    nodes.first_at(index)
}

/// Returns the label that is bound at the first node that is out of place in the preparing of a call, where a call is being prepared there.
pub fn first_between(nodes: &NodeList) -> Option<Label>
    ensures { result ≡ option_flatten (first_in (bad_call_at nodes.now) nodes.now) }
{
    let mut call = None;
    let mut varies = false;
    for index in 0..nodes.len() {
        let op = nodes.node(index).op;
        let label = label_at(nodes, index);
        if is_bad(call, varies, label.is_some(), op) {
            return if call.is_some() { label } else { None };
        }
        varies = varies_by(varies, call, op);
        call = variadic_after(call, op);
    }
    None
}
