// The arguments of calls and of functions.

ghost use Rattle.std.specs.Prelude.{◌≡◌, [], ◌<◌};
ghost use Rattle.lg_selr_values.specs.declared.items.Item.TheVariants as item;
ghost use Rattle.lg_selr_values.specs.Items.{ones};
ghost use Rattle.lg_selr.specs.Memory.ArgumentCode.{argument_offset, argument_code};
ghost use Rattle.lg_selr.specs.Memory.PushCode.{into, stack_push, onto_stack, push_code};
ghost use Rattle.lg_selr.specs.Memory.VariableArgumentCode.{next_argument_code};

use crate::memory::accesses::load_row;
use crate::memory::operands::register;
use lg_base::Target;
use lg_carry::memory::operands::{operand, slot};
use lg_op::{Node, Operand, ValueType};
use lg_rv::{ImmOp, Instr, RegOp, ShiftOp, StoreOp};
use lg_sel::Items;
use lg_selr_values::{
    FRAME_POINTER, Item, LINK, STACK_POINTER, imm, put_number, register_of, row, shift,
};
use lg_va::home;

// The word of an operand into a register.
#[tactic(auto, using(lg_selr_values::proofs::EmissionLemmas::number_few))]
fn put_into(rd: u8, operand: Operand, items: &mut Items<Item>)
    requires { items.old ≡ [] }
    ensures { items.new ≡ into rd operand }
{
    match operand {
        Operand::Reg(reg) => items.one(imm(ImmOp::Addi, rd, register_of(reg), 0)),
        Operand::Number(value) => put_number(rd, value, items),
        Operand::Host(name) => put_number(rd, name.address(), items),
        Operand::Label(label) => items.push(Item::Address {
            rd: rd,
            label: label.0,
        }),
        Operand::Slot(_) => {}
    }
}

// The word of a register into the stack word of an argument, which is the ninth or a later one, of at most 16.
fn stack_push(index: u32, register: u8) -> Instr
    requires { index < 16 }
    ensures { item.One result ≡ stack_push index register }
{
    Instr::Store {
        op: StoreOp::Sd,
        rs1: STACK_POINTER,
        rs2: register,
        imm: 8 * index.saturating_sub(8) as i32,
    }
}

#[tactic(auto, using(crate::proofs::OfMemory::EmissionLemmas::into_few))]
fn put_onto_stack(index: u32, operand: Operand, items: &mut Items<Item>)
    requires few { index < 16 }
    requires empty { items.old ≡ [] }
    ensures { items.new ≡ onto_stack index operand }
{
    match operand {
        Operand::Reg(reg) => items.one(stack_push(index, register_of(reg))),
        _ => {
            put_into(LINK, operand, items);
            items.one(stack_push(index, LINK));
        }
    }
}

/// Appends the code of a node that passes an argument to no items: 1 to 9 instructions. The argument's number counts from 0, and is
/// below 16.
pub fn put_argument(node: &Node, index: u32, items: &mut Items<Item>)
    requires few { index < 16 }
    requires empty { items.old ≡ [] }
    ensures { items.new ≡ push_code index node.now }
{
    if index < 8 {
        put_into(10 + index as u8, operand(node, 0), items);
    } else {
        put_onto_stack(index, operand(node, 0), items);
    }
}

// Returns how far an argument is from FP, in bytes. Its number is below 16.
fn argument_offset(index: u32) -> i32
    requires { index < 16 }
    ensures { result ≡ argument_offset index }
{
    home(Target::Riscv64, index)
}

/// Appends the code of a node that reads an argument of its function to no items: one instruction, or none where no function has so
/// many arguments.
pub fn put_getarg(node: &Node, t: ValueType, items: &mut Items<Item>)
    requires { items.old ≡ [] }
    ensures { items.new ≡ ones (argument_code t node.now) }
{
    let index = slot(operand(node, 1));
    if index < 16 {
        let rd = register(operand(node, 0));
        items.one(imm(load_row(t), rd, FRAME_POINTER, argument_offset(index)));
    }
}

/// Appends the code of a node that reads the next variable argument of its function to no items: 8 instructions. Where the code runs the number
/// of the argument is below 16, and its place is `factor * (number - 1) - 40` bytes from FP, with a factor of -8 below 8, and else of 8.
pub fn put_next_argument(node: &Node, items: &mut Items<Item>)
    requires { items.old ≡ [] }
    ensures { items.new ≡ ones (next_argument_code node.now) }
{
    let rd = register(operand(node, 0));
    let list = register(operand(node, 1));
    items.all(&[
        imm(ImmOp::Andi, LINK, list, 8),
        shift(ShiftOp::Slli, LINK, LINK, 1),
        imm(ImmOp::Addi, LINK, LINK, -8),
        imm(ImmOp::Addi, rd, list, -1),
        row(RegOp::Mul, rd, rd, LINK),
        row(RegOp::Add, rd, rd, FRAME_POINTER),
        imm(ImmOp::Ld, rd, rd, -40),
        imm(ImmOp::Addi, list, list, 1),
    ]);
}
