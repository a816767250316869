// Labels that lead nowhere, or where they may not.

ghost use Rattle.std.specs.Prelude.{◌≡◌};
ghost use Rattle.std.specs.List.{find};
ghost use Rattle.lg_explain.specs.Blames.{astray_at, first_in, found_by_form, label_in, missing_at, missing_in};
ghost use Rattle.lg_node.specs.Checks.{is_astray, is_missing};
ghost use Rattle.lg_node.specs.Tables.{AreHomes};

use lg_node::labels::home_in;
use lg_node::refusals::{is_astray, is_missing};
use lg_node::{Form, Label, NodeList, Op, Operand};

// Returns the label that an operand is.
fn label_in(operand: Operand) -> Option<Label>
    ensures { result ≡ label_in operand }
{
    match operand {
        Operand::Label(label) => Some(label),
        _ => None,
    }
}

// ---- labels that nothing binds

// Returns the first of them among operands.
fn missing_operand(nodes: &NodeList, operands: &[Operand]) -> Option<Operand>
    ensures { result ≡ find (is_missing nodes.now.places) operands.now }
{
    operands
        .iter()
        .copied()
        .find(|operand| is_missing(nodes, *operand))
}

// That label.
fn missing_in(nodes: &NodeList, operands: &[Operand]) -> Option<Label>
    ensures { result ≡ missing_in nodes.now.places operands.now }
{
    match missing_operand(nodes, operands) {
        Some(operand) => label_in(operand),
        None => None,
    }
}

/// Returns the first label of the nodes that nothing binds.
pub fn first_missing(nodes: &NodeList) -> Option<Label>
    ensures { result ≡ first_in (missing_at nodes.now) nodes.now }
{
    for index in 0..nodes.len() {
        let node = nodes.node(index);
        if let Some(label) = missing_in(nodes, node.operands.as_slice()) {
            return Some(label);
        }
    }
    None
}

// ---- labels that lead where they may not

// Returns the first of the operands that does, by its form.
fn astray_in(
    nodes: &NodeList,
    homes: &[Option<u32>],
    home: Option<u32>,
    op: Op,
    forms: &[Form],
    operands: &[Operand],
) -> Option<Label>
    requires { AreHomes nodes.now.nodes homes.now }
    ensures { result ≡ found_by_form (is_astray nodes.now home op) forms.now operands.now }
{
    match forms {
        [] => None,
        [form, forms @ ..] => match operands {
            [] => None,
            [operand, operands @ ..] => {
                if is_astray(nodes, homes, home, op, *form, *operand) {
                    label_in(*operand)
                } else {
                    astray_in(nodes, homes, home, op, forms, operands)
                }
            }
        },
    }
}

/// Returns the first label of the nodes that leads where it may not. The table has the function of each node.
pub fn first_astray(nodes: &NodeList, homes: &[Option<u32>]) -> Option<Label>
    requires { AreHomes nodes.now.nodes homes.now }
    ensures { result ≡ first_in (astray_at nodes.now) nodes.now }
{
    for index in 0..nodes.len() {
        let node = nodes.node(index);
        let home = home_in(homes, index);
        let operands = node.operands.as_slice();
        if let Some(label) = astray_in(nodes, homes, home, node.op, node.op.forms(), operands) {
            return Some(label);
        }
    }
    None
}
