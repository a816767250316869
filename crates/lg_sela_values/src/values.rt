// The nodes that compute values.

ghost use Rattle.std.specs.Prelude.{◌≡◌, ◌+◌, ◌<◌, ◌≤◌, [], ◌∷◌, ◌++◌, length};
ghost use Rattle.lg_base.specs.declared.target.Target.TheVariants.{Aarch64};
ghost use Rattle.lg_sela_values.specs.Items.{words_in};
ghost use Rattle.lg_carry.specs.Values.Parts.{register_for, HaveSlots};
ghost use Rattle.lg_sela_values.specs.ValueItems.{load_items, binary_items, wide_items, body_items, value_items};

use crate::binary::{number_form_code, register_code, second_register};
use crate::unary::{retval_code, unary_code};
use crate::wide_values::{wide_by_link, wide_code};
use crate::{Item, LINK, put_number, register_of, restore, save};
use lg_carry::values::operand_in;
use lg_op::{BinaryOp, Label, Node, Op, Operand, PlainOp, Reg, WideOp};
use lg_sel::Items;
use lg_temp::{Choice, Choices};

// Returns the register of an operand that is one, and else 0.
fn register_for(operand: Operand) -> u8
    ensures { result ≡ register_for Aarch64 operand }
{
    match operand {
        Operand::Reg(reg) => register_of(reg),
        _ => 0,
    }
}

// Appends the code that puts the word of an immediate into a register: at most 4 instructions, for which there is room. Of a register
// nothing is appended.
fn load_items(rd: u8, x: Operand, items: &mut Items<Item>)
    requires { words_in items.old + 4 ≤ 64 }
    ensures { items.new ≡ items.old ++ load_items rd x }
{
    match x {
        Operand::Number(value) => put_number(rd, value, items),
        Operand::Host(name) => put_number(rd, name.address(), items),
        Operand::Label(Label(label)) => items.push(Item::Address {
            rd: rd,
            label: label,
        }),
        Operand::Reg(_) | Operand::Slot(_) => {}
    }
}

// Appends the code of `d = a op x`, where `u` is the temporary: at most 6 instructions, for which there is room.
#[tactic(auto, using(crate::proofs::EmissionLemmas::load_words))]
fn binary_items(op: BinaryOp, u: u8, d: u8, a: u8, x: Operand, items: &mut Items<Item>)
    requires { words_in items.old + 6 ≤ 64 }
    ensures { items.new ≡ items.old ++ binary_items op u d a x }
{
    match x {
        Operand::Reg(b) => register_code(op, d, a, register_of(b), items),
        Operand::Number(value) => number_form_code(op, u, d, a, value, items),
        Operand::Host(_) | Operand::Label(_) | Operand::Slot(_) => {
            let second = second_register(op, u);
            load_items(second, x, items);
            register_code(op, d, a, second, items);
        }
    }
}

// Appends the code of `d, e = a op x`: at most 8 instructions, for which there is room.
#[tactic(auto, using(crate::proofs::EmissionLemmas::load_words))]
fn wide_items(op: WideOp, d: u8, e: u8, a: u8, x: Operand, items: &mut Items<Item>)
    requires { words_in items.old + 8 ≤ 64 }
    ensures { items.new ≡ items.old ++ wide_items op d e a x }
{
    match x {
        Operand::Reg(b) => wide_code(op, d, e, a, register_of(b), items),
        Operand::Number(_) | Operand::Host(_) | Operand::Label(_) | Operand::Slot(_) => {
            load_items(LINK, x, items);
            wide_by_link(op, d, e, a, items);
        }
    }
}

// Appends the code of an operation with its operands, where `u` is the temporary: at most 8 instructions, for which there is room.
fn body_items(op: Op, operands: &[Operand], u: u8, items: &mut Items<Item>)
    requires { words_in items.old + 8 ≤ 64 }
    ensures { items.new ≡ items.old ++ body_items op operands.now u }
{
    let x = operand_in(operands, 0);
    let y = operand_in(operands, 1);
    let z = operand_in(operands, 2);
    match op {
        Op::Binary(o, _) => binary_items(o, u, register_for(x), register_for(y), z, items),
        Op::Wide(o, _) => wide_items(
            o,
            register_for(x),
            register_for(y),
            register_for(z),
            operand_in(operands, 3),
            items,
        ),
        Op::Unary(o) => unary_code(o, register_for(x), register_for(y), items),
        Op::Plain(PlainOp::Movi | PlainOp::VaStart) => load_items(register_for(x), y, items),
        Op::Retval(value) => retval_code(value, register_for(x), items),
        _ => {}
    }
}

// Appends the code of a node with a temporary, which is saved and restored or not: at most 10 instructions, for which there is room.
fn chosen_items(node: &Node, choice: &Choice, items: &mut Items<Item>)
    requires slots { HaveSlots (choice.now ∷ []) }
    requires room { words_in items.old + 10 ≤ 64 }
    ensures { items.new ≡ items.old ++ value_items node.now (choice.now ∷ []) }
{
    let operands = node.operands.as_slice();
    match *choice {
        Choice::Free(reg) | Choice::Own(reg) => body_items(node.op, operands, reg, items),
        Choice::Spill { reg, slot } => {
            items.one(save(reg, slot));
            body_items(node.op, operands, reg, items);
            items.one(restore(reg, slot));
        }
    }
}

/// Appends the code of a node that computes a value, or two: at most 10 instructions, for which there is room. Of every other node no code
/// is appended but saves and restores. There is a choice at most.
pub fn value_items(node: &Node, choices: &Choices, items: &mut Items<Item>)
    requires few { length choices.now ≤ 1 }
    requires slots { HaveSlots choices.now }
    requires room { words_in items.old + 10 ≤ 64 }
    ensures { items.new ≡ items.old ++ value_items node.now choices.now }
{
    match choices.as_slice() {
        [] => body_items(node.op, node.operands.as_slice(), 0, items),
        [choice, ..] => chosen_items(node, choice, items),
    }
}
