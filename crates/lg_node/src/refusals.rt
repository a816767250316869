// Why a node is refused.

ghost use Rattle.std.specs.Prelude.{◌≡◌, ◌+◌, ◌<◌, ◌^◌, None, Some, length, slice_get};
ghost use Rattle.std.specs.List.{find, list_any};
ghost use Rattle.lg_op.specs.Nodes.{InForm};
ghost use Rattle.lg_node.specs.Labels.{is_labelled};
ghost use Rattle.lg_node.specs.Tables.{AreHomes, AreTables};
ghost use Rattle.lg_node.specs.Walks.{walk_at, is_quiet, IsWithinLimits};
ghost use Rattle.lg_node.specs.Checks.{is_missing, may_stand_outside, is_label, is_astray, any_by_form, needs_preparation, breaks_preparation, is_ellipsis, is_out_of_turn, is_bad_call, is_too_many, is_too_big, refuses, kinds};

use crate::labels::{home_in, is_code, is_entry, is_inside, takes_address};
use crate::node_list::NodeList;
use crate::preparation::Preparation;
use crate::tables::Tables;
use crate::walk::{Walk, is_arg, is_mark, is_prolog, local_size};
use lg_base::RefusalKind;
use lg_op::{ControlOp, Form, LastOperand, Node, Op, Operand, PlainOp};

/// Returns whether an operand is a label that nothing binds.
pub fn is_missing(nodes: &NodeList, operand: Operand) -> bool
    ensures { result ≡ is_missing nodes.now.places operand }
{
    match operand {
        Operand::Label(label) => nodes.place_of(label).is_none(),
        _ => false,
    }
}

// Returns whether a node names a label that nothing binds.
fn names_missing(nodes: &NodeList, operands: &[Operand]) -> bool
    ensures { result ≡ list_any (is_missing nodes.now.places) operands.now }
{
    operands.iter().any(|operand| is_missing(nodes, *operand))
}

// Returns whether an operation may be outside of every function.
fn may_stand_outside(op: Op, begun: bool) -> bool
    ensures { result ≡ may_stand_outside op begun }
{
    match op {
        Op::Plain(PlainOp::Align) => true,
        Op::Control(ControlOp::Jmp, LastOperand::Immediate) => !begun,
        _ => false,
    }
}

/// Returns whether an operand leads where it may not.
pub fn is_astray(
    nodes: &NodeList,
    homes: &[Option<u32>],
    home: Option<u32>,
    op: Op,
    form: Form,
    operand: Operand,
) -> bool
    requires { AreHomes nodes.now.nodes homes.now }
    ensures { result ≡ is_astray nodes.now home op form operand }
{
    let Operand::Label(label) = operand else {
        return false;
    };
    let place = nodes.place_of(label);
    match (form, home) {
        (Form::Target, None) => !is_entry(nodes, place),
        (Form::Target, Some(function)) => !is_inside(homes, function, place),
        (Form::Callee, _) => !is_entry(nodes, place),
        (Form::Immediate, _) => is_code(place) && !takes_address(op),
        _ => false,
    }
}

// Returns whether an operand is a label.
fn is_label(operand: Operand) -> bool
    ensures { result ≡ is_label operand }
{
    matches!(operand, Operand::Label(_))
}

// Returns whether a node names a label.
fn names_label(operands: &[Operand]) -> bool
    ensures { result ≡ list_any is_label operands.now }
{
    operands.iter().any(|operand| is_label(*operand))
}

// Returns whether one of the operands leads where it may not, form by form.
fn leads_astray(
    nodes: &NodeList,
    homes: &[Option<u32>],
    home: Option<u32>,
    op: Op,
    forms: &[Form],
    operands: &[Operand],
) -> bool
    requires { AreHomes nodes.now.nodes homes.now }
    ensures { result ≡ any_by_form (is_astray nodes.now home op) forms.now operands.now }
{
    match forms {
        [] => false,
        [form, forms @ ..] => match operands {
            [] => false,
            [operand, operands @ ..] => {
                is_astray(nodes, homes, home, op, *form, *operand)
                    || leads_astray(nodes, homes, home, op, forms, operands)
            }
        },
    }
}

// Returns whether one of the operands leads where it may not: most nodes name no label.
fn goes_astray(
    nodes: &NodeList,
    homes: &[Option<u32>],
    home: Option<u32>,
    op: Op,
    forms: &[Form],
    operands: &[Operand],
) -> bool
    requires { AreHomes nodes.now.nodes homes.now }
    ensures { result ≡ any_by_form (is_astray nodes.now home op) forms.now operands.now }
{
    names_label(operands) && leads_astray(nodes, homes, home, op, forms, operands)
}

/// Returns whether an operation is only where a call is being prepared.
pub fn needs_preparation(op: Op) -> bool
    ensures { result ≡ needs_preparation op }
{
    matches!(op, Op::Control(ControlOp::Pusharg | ControlOp::Finish, _))
}

/// Returns whether an operation may not be where a call is being prepared.
pub fn breaks_preparation(op: Op) -> bool
    ensures { result ≡ breaks_preparation op }
{
    matches!(
        op,
        Op::Branch(_, _)
            | Op::BranchSum(_, _)
            | Op::Control(ControlOp::Jmp | ControlOp::Call | ControlOp::Ret, _)
            | Op::Plain(PlainOp::Prepare | PlainOp::Ret | PlainOp::Epilog)
    )
}

/// Returns whether an operation is `ellipsis`.
pub fn is_ellipsis(op: Op) -> bool
    ensures { result ≡ is_ellipsis op }
{
    matches!(op, Op::Plain(PlainOp::Ellipsis))
}

/// Returns whether an operation may not be after a function's own `ellipsis`, or only there.
pub fn is_out_of_turn(varies: bool, op: Op) -> bool
    ensures { result ≡ is_out_of_turn varies op }
{
    if varies {
        is_arg(op)
    } else {
        matches!(op, Op::Plain(PlainOp::VaStart))
    }
}

// Returns whether an operation is out of place in the preparing of a call, or in a function with or without variable arguments.
fn is_bad_call(call: Option<Preparation>, varies: bool, labelled: bool, op: Op) -> bool
    ensures { result ≡ is_bad_call call varies labelled op }
{
    match call {
        None => {
            needs_preparation(op) || (varies && is_ellipsis(op)) || is_out_of_turn(varies, op)
        }
        Some(call) => {
            labelled
                || breaks_preparation(op)
                || (call.variadic && is_ellipsis(op))
                || is_out_of_turn(varies, op)
        }
    }
}

// Returns whether an operation is the 17th argument of a function or of a call.
fn is_too_many(args: u32, call: Option<Preparation>, op: Op) -> bool
    ensures { result ≡ is_too_many args call op }
{
    if is_arg(op) && args >= 16 {
        return true;
    }
    match (call, op) {
        (Some(call), Op::Control(ControlOp::Pusharg, _)) => call.pushed >= 16,
        _ => false,
    }
}

// Returns whether a function has more than 65,536 bytes of locals with a local of this size.
fn is_too_big(locals: u32, size: u32) -> bool
    requires { locals + size < 2 ^ 32 }
    ensures { result ≡ is_too_big locals size }
{
    locals + size > 65_536
}

// Returns whether a label is bound at a node.
fn is_labelled(tables: &Tables, index: u32) -> bool
    ensures { (l : _) → AreTables l tables.now → index < length l.nodes → result ≡ is_labelled l.places index }
{
    tables
        .labelled
        .get(index as usize)
        .copied()
        .unwrap_or(false)
}

/// Returns whether nothing refuses a node, as is seen at once: it computes, loads, stores or branches within a function, where no call is prepared, and names
/// no label.
pub(crate) fn is_quiet(walk: &Walk, op: Op, operands: &[Operand]) -> bool
    ensures { result ≡ is_quiet walk.now op operands.now }
{
    walk.function.is_some() && walk.call.is_none() && !is_mark(op) && !names_label(operands)
}

// The kinds that refuse a node, in the order in which they come at one node.
static KINDS: [RefusalKind; 7] = [
    RefusalKind::LabelMissing,
    RefusalKind::NotInFunction,
    RefusalKind::FunctionOpen,
    RefusalKind::TargetOutside,
    RefusalKind::BadCall,
    RefusalKind::TooManyArgs,
    RefusalKind::FrameTooBig,
];

// Returns whether the node of an index is refused by a kind.
fn refuses(
    nodes: &NodeList,
    tables: &Tables,
    walk: Walk,
    index: u32,
    node: &Node,
    kind: RefusalKind,
) -> bool
    requires node { slice_get nodes.now.nodes index ≡ Some node.now }
    requires form { InForm node.now }
    requires tables { AreTables nodes.now tables.now }
    requires walk { walk ≡ walk_at nodes.now.nodes index }
    requires limits { IsWithinLimits walk }
    ensures { result ≡ refuses nodes.now index node.now kind }
{
    let op = node.op;
    let operands = node.operands.as_slice();
    let home = home_in(&tables.homes, index);
    match kind {
        RefusalKind::LabelMissing => names_missing(nodes, operands),
        RefusalKind::NotInFunction => home.is_none() && !may_stand_outside(op, walk.begun),
        RefusalKind::FunctionOpen => is_prolog(op) && walk.function.is_some(),
        RefusalKind::TargetOutside => {
            goes_astray(nodes, &tables.homes, home, op, op.forms(), operands)
        }
        RefusalKind::BadCall => {
            is_bad_call(walk.call, walk.varies, is_labelled(tables, index), op)
        }
        RefusalKind::TooManyArgs => is_too_many(walk.args, walk.call, op),
        RefusalKind::FrameTooBig => is_too_big(walk.locals, local_size(node)),
        _ => false,
    }
}

// Returns the first kind that refuses the node of an index.
fn first_kind(
    nodes: &NodeList,
    tables: &Tables,
    walk: Walk,
    index: u32,
    node: &Node,
) -> Option<RefusalKind>
    requires node { slice_get nodes.now.nodes index ≡ Some node.now }
    requires form { InForm node.now }
    requires tables { AreTables nodes.now tables.now }
    requires walk { walk ≡ walk_at nodes.now.nodes index }
    requires limits { IsWithinLimits walk }
    ensures { result ≡ find (refuses nodes.now index node.now) kinds }
{
    KINDS
        .iter()
        .copied()
        .find(|kind| refuses(nodes, tables, walk, index, node, *kind))
}

/// Why the node of an index is refused. Most nodes are not, which is seen at once.
#[inline(always)]
#[tactic(auto, using(crate::proofs::QuietLemmas::quiet))]
pub fn refusal_kind(
    nodes: &NodeList,
    tables: &Tables,
    walk: Walk,
    index: u32,
    node: &Node,
) -> Option<RefusalKind>
    requires node { slice_get nodes.now.nodes index ≡ Some node.now }
    requires form { InForm node.now }
    requires tables { AreTables nodes.now tables.now }
    requires walk { walk ≡ walk_at nodes.now.nodes index }
    requires limits { IsWithinLimits walk }
    ensures { result ≡ find (refuses nodes.now index node.now) kinds }
{
    if is_quiet(&walk, node.op, node.operands.as_slice()) {
        None
    } else {
        first_kind(nodes, tables, walk, index, node)
    }
}
