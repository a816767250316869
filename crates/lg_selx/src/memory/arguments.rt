// The arguments of calls and of functions.

ghost use Rattle.std.specs.Prelude.{◌≡◌, ◌+◌, ◌<◌, ◌≤◌, [], ◌∷◌, slice_index};
ghost use Rattle.lg_base.specs.Conventions.{argument_registers};
ghost use Rattle.lg_base.specs.declared.target.Target.TheVariants.{X86_64};
ghost use Rattle.lg_selx_values.specs.declared.items.Item.TheVariants as item;
ghost use Rattle.lg_selx_values.specs.Items.{ones, words_in};
ghost use Rattle.lg_selx.specs.Memory.ArgumentCode.{argument_offset, argument_load, argument_code};
ghost use Rattle.lg_selx.specs.Memory.PushCode.{into, stack_push, onto_stack, push_code};
ghost use Rattle.lg_selx.specs.Memory.VariableArgumentCode.{next_code, next_argument_code};

use crate::control::pointer_again;
use crate::memory::accesses::load_row;
use crate::memory::operands::register;
use lg_base::Target;
use lg_carry::memory::operands::{operand, slot};
use lg_op::{Node, Operand, ValueType};
use lg_sel::Items;
use lg_selx_values::{FRAME_POINTER, Item, STACK_POINTER, lea, mov, put_number, register_of, row};
use lg_va::home;
use lg_x86::{ImmOp, Instr, LoadOp, RegRmOp, RmRegOp, ShiftOp, StoreOp};

// The word of an operand into a register: at most one instruction.
fn put_into(reg: u8, operand: Operand, items: &mut Items<Item>)
    requires { items.old ≡ [] }
    ensures code { items.new ≡ into reg operand }
    ensures few { words_in items.new ≤ 1 }
{
    match operand {
        Operand::Reg(from) => items.one(mov(reg, register_of(from))),
        Operand::Number(value) => put_number(reg, value, items),
        Operand::Host(name) => put_number(reg, name.address(), items),
        Operand::Label(label) => items.push(Item::Address {
            reg: reg,
            label: label.0,
        }),
        Operand::Slot(_) => {}
    }
}

// The word of a register into the stack word of an argument, which is the seventh or a later one, of at most 16.
fn stack_push(index: u32, reg: u8) -> Instr
    requires { index < 16 }
    ensures { item.One result ≡ stack_push index reg }
{
    Instr::Store {
        op: StoreOp::St64,
        base: STACK_POINTER,
        disp: 8 * index.saturating_sub(6) as i32,
        reg,
    }
}

// A word that is in no register goes through FP.
#[tactic(auto, using(lg_selx_values::proofs::ItemLemmas::words_append))]
fn put_onto_stack(frame: u32, index: u32, operand: Operand, items: &mut Items<Item>)
    requires few { index < 16 }
    requires empty { items.old ≡ [] }
    requires some { 272 ≤ frame }
    requires small { frame < 0x4000_0000 }
    ensures { items.new ≡ onto_stack frame index operand }
{
    match operand {
        Operand::Reg(reg) => items.one(stack_push(index, register_of(reg))),
        _ => {
            put_into(FRAME_POINTER, operand, items);
            items.one(stack_push(index, FRAME_POINTER));
            items.one(pointer_again(frame));
        }
    }
}

// Returns the register of an argument, which is one of the first six.
fn argument_register(index: u32) -> u8
    requires { index < 6 }
    ensures { result ≡ slice_index (argument_registers X86_64) index }
{
    match index {
        0 => 7,
        1 => 6,
        2 => 2,
        3 => 1,
        4 => 8,
        _ => 9,
    }
}

/// Appends the code of a node that passes an argument to no items: 1 to 3 instructions. The argument's number counts from 0, and is
/// below 16; `frame` is the size of the frame of the node's function in bytes, from 272 to 0x3FFF_FFFF.
pub fn put_argument(node: &Node, frame: u32, index: u32, items: &mut Items<Item>)
    requires few { index < 16 }
    requires empty { items.old ≡ [] }
    requires some { 272 ≤ frame }
    requires small { frame < 0x4000_0000 }
    ensures { items.new ≡ push_code frame index node.now }
{
    if index < 6 {
        put_into(argument_register(index), operand(node, 0), items);
    } else {
        put_onto_stack(frame, index, operand(node, 0), items);
    }
}

// Returns how far an argument is from FP, in bytes. Its number is below 16.
fn argument_offset(index: u32) -> i32
    requires { index < 16 }
    ensures { result ≡ argument_offset index }
{
    home(Target::X86_64, index)
}

// An argument into a register: from its home, or from the caller's stack word. The number is below 16.
fn argument_load(t: ValueType, reg: u8, index: u32) -> Instr
    requires { index < 16 }
    ensures { result ∷ [] ≡ argument_load t reg index }
{
    Instr::Load {
        op: load_row(t),
        reg,
        base: FRAME_POINTER,
        disp: argument_offset(index),
    }
}

/// Appends the code of a node that reads an argument of its function to no items: one instruction, or none where no function has this many arguments. It is
/// the same in every frame.
pub fn put_getarg(node: &Node, t: ValueType, items: &mut Items<Item>)
    requires { items.old ≡ [] }
    ensures { items.new ≡ ones (argument_code 0 t node.now) }
{
    let index = slot(operand(node, 1));
    if index < 16 {
        items.one(argument_load(t, register(operand(node, 0)), index));
    }
}

// A register is combined with a number.
fn imm(op: ImmOp, reg: u8, number: i32) -> Instr
    ensures { result ≡ Instr.Imm op reg number }
{
    Instr::Imm {
        op,
        rm: reg,
        imm: number,
    }
}

// A register is shifted by a count.
fn shift(op: ShiftOp, reg: u8, count: u8) -> Instr
    ensures { result ≡ Instr.Shift op reg count }
{
    Instr::Shift { op, rm: reg, count }
}

// The argument whose number is in `next` into `reg`, and the number after it into `next`: the first 6 arguments lie below the address that is 32 bytes below
// FP, by as many words as the number says, and the others above it.
fn next_code(reg: u8, next: u8) -> [Instr; 8]
    ensures { result ≡ next_code reg next }
{
    [
        lea(reg, next, -6),
        shift(ShiftOp::Sari, reg, 63),
        imm(ImmOp::Ori, reg, 1),
        Instr::RegRm {
            op: RegRmOp::Imul,
            reg,
            rm: next,
        },
        shift(ShiftOp::Shli, reg, 3),
        row(RmRegOp::Add, reg, FRAME_POINTER),
        Instr::Load {
            op: LoadOp::Ld64,
            reg,
            base: reg,
            disp: -32,
        },
        imm(ImmOp::Addi, next, 1),
    ]
}

/// Appends the code of a node that reads the next variable argument of its function to no items: 8 instructions.
pub fn put_next_argument(node: &Node, items: &mut Items<Item>)
    requires { items.old ≡ [] }
    ensures { items.new ≡ ones (next_argument_code node.now) }
{
    let reg = register(operand(node, 0));
    let next = register(operand(node, 1));
    items.all(&next_code(reg, next));
}
