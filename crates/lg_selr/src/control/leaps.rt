// Jumps, calls and returns.

ghost use Rattle.std.specs.Prelude.{◌≡◌, ◌<◌, ◌≤◌, []};
ghost use Rattle.lg_selr.specs.Control.ControlItems.{label_items, jump_items, call_items, result_items, ret_items, register_leap_items, leap_items};
ghost use Rattle.lg_selr.specs.Control.HostCalls.{host_code};
ghost use Rattle.lg_selr_values.specs.Items.{words_in};

use crate::control::frames::put_return;
use crate::control::operands::put_word;
use lg_base::HostName;
use lg_op::{ControlOp, Label, LastOperand, Operand};
use lg_rv::{ImmOp, Instr, UpperOp};
use lg_sel::{Items, Reach};
use lg_selr_values::{CARRY, Item, LINK, ZERO, high_part, imm, low_part, register_of};

// Returns the call of a host function: the address of its entry goes into the link, and the jump there links.
fn host_code(name: HostName) -> [Instr; 2]
    ensures { result ≡ host_code name }
{
    let entry = name.address();
    let lui = Instr::Upper {
        op: UpperOp::Lui,
        rd: LINK,
        imm: high_part(entry),
    };
    [lui, imm(ImmOp::Jalr, LINK, LINK, low_part(entry))]
}

// Appends a jump to a label to none, which puts the address after it into rd, by way of base where it is far.
fn put_label(reach: Reach, rd: u8, base: u8, label: Label, items: &mut Items<Item>)
    requires { items.old ≡ [] }
    ensures { items.new ≡ label_items reach rd base label }
{
    let label = label.0;
    match reach {
        Reach::Far => items.push(Item::FarJump { rd, base, label }),
        Reach::Short | Reach::Near => items.push(Item::Jump { rd, label }),
    }
}

// Appends the items of `jmpi` to none.
fn put_jump(reach: Reach, operands: &[Operand], items: &mut Items<Item>)
    requires { items.old ≡ [] }
    ensures { items.new ≡ jump_items reach operands.now }
{
    match operands {
        [Operand::Label(label)] => put_label(reach, ZERO, CARRY, *label, items),
        _ => {}
    }
}

// Appends the items of `calli` and `finishi` to none.
fn put_call(reach: Reach, operands: &[Operand], items: &mut Items<Item>)
    requires { items.old ≡ [] }
    ensures { items.new ≡ call_items reach operands.now }
{
    match operands {
        [Operand::Label(label)] => put_label(reach, LINK, LINK, *label, items),
        [Operand::Host(name)] => items.all(&host_code(*name)),
        _ => {}
    }
}

// Appends the items of `jmpr`, `callr` and `finishr` to none: a jump to the word of a register, which puts the address after it into rd.
fn put_register_leap(rd: u8, operands: &[Operand], items: &mut Items<Item>)
    requires { items.old ≡ [] }
    ensures { items.new ≡ register_leap_items rd operands.now }
{
    match operands {
        [Operand::Reg(reg)] => items.one(imm(ImmOp::Jalr, rd, register_of(*reg), 0)),
        _ => {}
    }
}

// Puts the word of a result into x10.
fn put_result(operand: Operand, items: &mut Items<Item>)
    requires { items.old ≡ [] }
    ensures items { items.new ≡ result_items operand }
    ensures few { words_in items.new ≤ 8 }
{
    match operand {
        Operand::Reg(reg) => items.one(imm(ImmOp::Addi, 10, register_of(reg), 0)),
        Operand::Label(label) => items.push(Item::Address {
            rd: 10,
            label: label.0,
        }),
        other => put_word(10, other, items),
    }
}

// Appends the items of `retr` and `reti` to none.
fn put_ret(frame: u32, saved: u32, operands: &[Operand], items: &mut Items<Item>)
    requires { items.old ≡ [] }
    ensures { items.new ≡ ret_items frame saved operands.now }
{
    match operands {
        [operand] => {
            put_result(*operand, items);
            put_return(frame, saved, items);
        }
        _ => {}
    }
}

// Appends the items of a jump, a call or a return to none.
pub(crate) fn put_leap(
    reach: Reach,
    frame: u32,
    saved: u32,
    op: ControlOp,
    last: LastOperand,
    operands: &[Operand],
    items: &mut Items<Item>,
)
    requires { items.old ≡ [] }
    ensures { items.new ≡ leap_items reach frame saved op last operands.now }
{
    match (op, last) {
        (ControlOp::Jmp, LastOperand::Immediate) => put_jump(reach, operands, items),
        (ControlOp::Jmp, LastOperand::Register) => put_register_leap(ZERO, operands, items),
        (ControlOp::Call | ControlOp::Finish, LastOperand::Immediate) => {
            put_call(reach, operands, items)
        }
        (ControlOp::Call | ControlOp::Finish, LastOperand::Register) => {
            put_register_leap(LINK, operands, items)
        }
        (ControlOp::Ret, _) => put_ret(frame, saved, operands, items),
        _ => {}
    }
}
