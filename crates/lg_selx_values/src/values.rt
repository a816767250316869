// The nodes that compute values.

ghost use Rattle.std.specs.Prelude.{◌≡◌, ◌+◌, ◌*◌, ◌<◌, ◌≤◌, [], ◌++◌, length};
ghost use Rattle.lg_base.specs.declared.target.Target.TheVariants.{X86_64};
ghost use Rattle.lg_op.specs.Operators.{sets_carry};
ghost use Rattle.lg_selx_values.specs.Items.{ones, words_in};
ghost use Rattle.lg_carry.specs.Values.Parts.{register_for, HaveSlots};
ghost use Rattle.lg_selx_values.specs.ValueItems.{load_items, binary_code, binary_number_code, binary_items, wide_items, body_items, saved_items, value_items};

use crate::binary::{number_form_code, register_code};
use crate::carry::{carry_number_code, carry_register_code};
use crate::unary::{retval_code, unary_code};
use crate::wide_values::{wide_code, wide_number_code};
use crate::{Item, put_number, register_of, restore, save};
use lg_carry::values::operand_in;
use lg_op::operators::sets_carry;
use lg_op::{BinaryOp, Label, Node, Op, Operand, PlainOp, Reg, WideOp};
use lg_sel::Items;
use lg_temp::{Choice, Choices};

// Returns the register of an operand that is one, and else 0.
fn register_for(operand: Operand) -> u8
    ensures { result ≡ register_for X86_64 operand }
{
    match operand {
        Operand::Reg(reg) => register_of(reg),
        _ => 0,
    }
}

// Appends the instruction that puts the word of an immediate into a register. There is room for it. Of a register nothing is appended.
fn load_items(reg: u8, x: Operand, items: &mut Items<Item>)
    requires { words_in items.old < 64 }
    ensures { items.new ≡ items.old ++ load_items reg x }
{
    match x {
        Operand::Number(value) => put_number(reg, value, items),
        Operand::Host(name) => put_number(reg, name.address(), items),
        Operand::Label(Label(label)) => items.push(Item::Address { reg, label }),
        Operand::Reg(_) | Operand::Slot(_) => {}
    }
}

// Appends the code of `d = a op b`, with the carry where the operation sets it: at most 7 instructions, for which there is room.
fn binary_code(op: BinaryOp, frame: u32, d: u8, a: u8, b: u8, items: &mut Items<Item>)
    requires low { 272 ≤ frame }
    requires high { frame ≤ 65808 }
    requires room { words_in items.old + 7 ≤ 64 }
    ensures { items.new ≡ items.old ++ ones (binary_code op frame d a b) }
{
    if sets_carry(op) {
        carry_register_code(op, frame, d, a, b, items);
    } else {
        register_code(op, frame, d, a, b, items);
    }
}

// Appends that of `d = a op value`: at most 6 instructions, for which there is room.
fn binary_number_code(op: BinaryOp, frame: u32, d: u8, a: u8, value: u64, items: &mut Items<Item>)
    requires low { 272 ≤ frame }
    requires high { frame ≤ 65808 }
    requires room { words_in items.old + 6 ≤ 64 }
    ensures { items.new ≡ items.old ++ ones (binary_number_code op frame d a value) }
{
    if sets_carry(op) {
        carry_number_code(op, frame, d, a, value, items);
    } else {
        number_form_code(op, frame, d, a, value, items);
    }
}

// Appends the code of `d = a op x`: at most 7 instructions, for which there is room. `x` is no label.
fn binary_items(op: BinaryOp, frame: u32, d: u8, a: u8, x: Operand, items: &mut Items<Item>)
    requires low { 272 ≤ frame }
    requires high { frame ≤ 65808 }
    requires room { words_in items.old + 7 ≤ 64 }
    ensures { items.new ≡ items.old ++ binary_items op frame d a x }
{
    match x {
        Operand::Reg(b) => binary_code(op, frame, d, a, register_of(b), items),
        Operand::Number(value) => binary_number_code(op, frame, d, a, value, items),
        Operand::Host(name) => binary_number_code(op, frame, d, a, name.address(), items),
        Operand::Label(_) | Operand::Slot(_) => {}
    }
}

// Appends the code of `d, e = a op x`: at most 8 instructions, for which there is room. `x` is no label.
fn wide_items(op: WideOp, frame: u32, d: u8, e: u8, a: u8, x: Operand, items: &mut Items<Item>)
    requires low { 272 ≤ frame }
    requires high { frame ≤ 65808 }
    requires room { words_in items.old + 8 ≤ 64 }
    ensures { items.new ≡ items.old ++ wide_items op frame d e a x }
{
    match x {
        Operand::Reg(b) => wide_code(op, frame, d, e, a, register_of(b), items),
        Operand::Number(value) => wide_number_code(op, frame, d, e, a, value, items),
        Operand::Host(name) => wide_number_code(op, frame, d, e, a, name.address(), items),
        Operand::Label(_) | Operand::Slot(_) => {}
    }
}

// Appends the code of an operation with its operands: at most 8 instructions, for which there is room.
fn body_items(frame: u32, op: Op, operands: &[Operand], items: &mut Items<Item>)
    requires low { 272 ≤ frame }
    requires high { frame ≤ 65808 }
    requires room { words_in items.old + 8 ≤ 64 }
    ensures { items.new ≡ items.old ++ body_items frame op operands.now }
{
    let x = operand_in(operands, 0);
    let y = operand_in(operands, 1);
    let z = operand_in(operands, 2);
    let last = operand_in(operands, 3);
    let d = register_for(x);
    match op {
        Op::Binary(o, _) => binary_items(o, frame, d, register_for(y), z, items),
        Op::Wide(o, _) => wide_items(o, frame, d, register_for(y), register_for(z), last, items),
        Op::Unary(o) => unary_code(o, d, register_for(y), items),
        Op::Plain(PlainOp::Movi | PlainOp::VaStart) => load_items(d, y, items),
        Op::Retval(value) => retval_code(value, d, items),
        _ => {}
    }
}

// Appends the code of a node with each register that is saved: at most 8 instructions and two for each choice, for which there is room.
#[tactic(auto, using(crate::proofs::EmissionLemmas::one_words, crate::proofs::RoomLemmas::saved_words))]
fn saved_items(frame: u32, node: &Node, choices: &[Choice], items: &mut Items<Item>)
    requires low { 272 ≤ frame }
    requires high { frame ≤ 65808 }
    requires slots { HaveSlots choices.now }
    requires room { words_in items.old + 8 + 2 * length choices.now ≤ 64 }
    ensures { items.new ≡ items.old ++ saved_items choices.now (body_items frame node.now.op node.now.operands) }
{
    match choices {
        [] => body_items(frame, node.op, node.operands.as_slice(), items),
        [Choice::Spill { reg, slot }, rest @ ..] => {
            items.one(save(*reg, *slot));
            saved_items(frame, node, rest, items);
            items.one(restore(*reg, *slot));
        }
        [Choice::Free(_) | Choice::Own(_), rest @ ..] => saved_items(frame, node, rest, items),
    }
}

/// Appends the code of a node that computes a value, or two, in a function with such a frame: at most 12 instructions, for which there is
/// room. Of every other node no code is appended but saves and restores. There are two choices at most.
pub fn value_items(node: &Node, frame: u32, choices: &Choices, items: &mut Items<Item>)
    requires low { 272 ≤ frame }
    requires high { frame ≤ 65808 }
    requires few { length choices.now ≤ 2 }
    requires slots { HaveSlots choices.now }
    requires room { words_in items.old + 12 ≤ 64 }
    ensures { items.new ≡ items.old ++ value_items frame node.now choices.now }
{
    saved_items(frame, node, choices.as_slice(), items);
}
