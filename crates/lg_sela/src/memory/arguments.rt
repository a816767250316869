// The arguments of calls and of functions.

ghost use Rattle.std.specs.Prelude.{◌≡◌, ◌+◌, ◌<◌, ◌≤◌, []};
ghost use Rattle.lg_sela_values.specs.declared.items.Item.TheVariants as item;
ghost use Rattle.lg_sela_values.specs.Items.{ones, words_in};
ghost use Rattle.lg_sela.specs.Memory.ArgumentCode.{home_distance, stack_count, home_load, argument_load, argument_code};
ghost use Rattle.lg_sela.specs.Memory.PushCode.{into, stack_push, onto_stack, push_code};
ghost use Rattle.lg_sela.specs.Memory.VariableArgumentCode.{argument_offset, next_argument_code};

use crate::memory::accesses::{load_row, scaled};
use crate::memory::operands::register;
use lg_a64::{BitfieldOp, ImmOp, Instr, MulAddOp, RegOp, ScaledOp, UnscaledOp};
use lg_base::Target;
use lg_carry::memory::operands::{operand, slot};
use lg_op::operators::width;
use lg_op::{Node, Operand, ValueType};
use lg_sel::Items;
use lg_sela_values::{
    FRAME_POINTER, Item, LINK, ZERO, bitfield, imm, mul_add, put_number, register_of, row,
};
use lg_va::home;

// The stack pointer, 31 as the base of an address.
const STACK_POINTER: u8 = 31;

// The word of an operand into a register: at most 4 instructions.
fn put_into(rd: u8, operand: Operand, items: &mut Items<Item>)
    requires { items.old ≡ [] }
    ensures code { items.new ≡ into rd operand }
    ensures few { words_in items.new ≤ 4 }
{
    match operand {
        Operand::Reg(reg) => items.one(row(RegOp::Orr, rd, ZERO, register_of(reg))),
        Operand::Number(value) => put_number(rd, value, items),
        Operand::Host(name) => put_number(rd, name.address(), items),
        Operand::Label(label) => items.push(Item::Address {
            rd: rd,
            label: label.0,
        }),
        Operand::Slot(_) => {}
    }
}

// The word of a register into the stack word of an argument, which is the ninth or a later one, of at most 16.
fn stack_push(index: u32, register: u8) -> Instr
    requires { index < 16 }
    ensures { item.One result ≡ stack_push index register }
{
    scaled(
        ScaledOp::Str64,
        register,
        STACK_POINTER,
        index.saturating_sub(8) as u16,
    )
}

fn put_onto_stack(index: u32, operand: Operand, items: &mut Items<Item>)
    requires few { index < 16 }
    requires empty { items.old ≡ [] }
    ensures { items.new ≡ onto_stack index operand }
{
    match operand {
        Operand::Reg(reg) => items.one(stack_push(index, register_of(reg))),
        _ => {
            put_into(LINK, operand, items);
            items.one(stack_push(index, LINK));
        }
    }
}

/// Appends the code of a node that passes an argument to no items: 1 to 5 instructions. The argument's number counts from 0, and is
/// below 16.
pub fn put_argument(node: &Node, index: u32, items: &mut Items<Item>)
    requires few { index < 16 }
    requires empty { items.old ≡ [] }
    ensures { items.new ≡ push_code index node.now }
{
    if index < 8 {
        put_into(index as u8, operand(node, 0), items);
    } else {
        put_onto_stack(index, operand(node, 0), items);
    }
}

// Returns how far below FP the home of an argument is, in bytes. Its number is below 8.
fn home_distance(index: u32) -> u16
    requires { index < 8 }
    ensures { result ≡ home_distance index }
{
    (-home(Target::Aarch64, index)) as u16
}

// Returns how many accesses above FP an argument is in the caller's stack words. Its number is from 8 to 15.
fn stack_count(t: ValueType, index: u32) -> u16
    requires above { 8 ≤ index }
    requires few { index < 16 }
    ensures { result ≡ stack_count t index }
{
    (home(Target::Aarch64, index) as u32 / width(t)) as u16
}

// An argument into a register from its home: a word by the row that counts bytes, others by way of the link. The number is below 8.
fn put_home_load(t: ValueType, rd: u8, index: u32, items: &mut Items<Item>)
    requires few { index < 8 }
    requires empty { items.old ≡ [] }
    ensures { items.new ≡ ones (home_load t rd index) }
{
    match t {
        ValueType::Long => items.one(Instr::Unscaled {
            op: UnscaledOp::Ldur,
            rt: rd,
            rn: FRAME_POINTER,
            imm: -i32::from(home_distance(index)),
        }),
        _ => {
            items.one(imm(ImmOp::Subi, LINK, FRAME_POINTER, home_distance(index)));
            items.one(scaled(load_row(t), rd, LINK, 0));
        }
    }
}

// An argument into a register: from its home, or from the caller's stack word. The number is below 16.
fn put_argument_load(t: ValueType, rd: u8, index: u32, items: &mut Items<Item>)
    requires few { index < 16 }
    requires empty { items.old ≡ [] }
    ensures { items.new ≡ ones (argument_load t rd index) }
{
    if index < 8 {
        put_home_load(t, rd, index, items);
    } else {
        items.one(scaled(load_row(t), rd, FRAME_POINTER, stack_count(t, index)));
    }
}

/// Appends the code of a node that reads an argument of its function to no items: one or two instructions, or none where no function has
/// this many arguments.
pub fn put_getarg(node: &Node, t: ValueType, items: &mut Items<Item>)
    requires { items.old ≡ [] }
    ensures { items.new ≡ ones (argument_code t node.now) }
{
    let index = slot(operand(node, 1));
    if index < 16 {
        put_argument_load(t, register(operand(node, 0)), index, items);
    }
}

// The argument by an address in a register, 40 bytes below it, into the register.
fn load_argument(register: u8) -> Instr
    ensures { result ≡ Instr.Unscaled (UnscaledOp.Ldur) register register argument_offset }
{
    Instr::Unscaled {
        op: UnscaledOp::Ldur,
        rt: register,
        rn: register,
        imm: -40,
    }
}

/// Appends the code of a node that reads the next variable argument of its function to no items: 7 instructions.
pub fn put_next_argument(node: &Node, items: &mut Items<Item>)
    requires { items.old ≡ [] }
    ensures { items.new ≡ ones (next_argument_code node.now) }
{
    let to = register(operand(node, 0));
    let list = register(operand(node, 1));
    items.all(&[
        bitfield(BitfieldOp::Sbfm, LINK, list, 3, 3),
        bitfield(BitfieldOp::Ubfm, LINK, LINK, 60, 59),
        imm(ImmOp::Addi, LINK, LINK, 8),
        imm(ImmOp::Subi, to, list, 1),
        mul_add(MulAddOp::Msub, to, to, LINK, FRAME_POINTER),
        imm(ImmOp::Addi, list, list, 1),
        load_argument(to),
    ]);
}
