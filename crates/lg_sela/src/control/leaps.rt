// Jumps, calls and returns.

ghost use Rattle.std.specs.Prelude.{◌≡◌, ◌≤◌, []};
ghost use Rattle.lg_sela.specs.Control.ControlItems.{jump_items, call_items, result_items, ret_items, register_leap_items, leap_items};
ghost use Rattle.lg_sela_values.specs.Items.{words_in};

use crate::control::frames::put_return;
use crate::control::operands::put_word;
use lg_a64::{BranchOp, BranchRegOp, Instr, RegOp};
use lg_op::{ControlOp, LastOperand, Operand};
use lg_sel::Items;
use lg_sela_values::{Item, LINK, ZERO, register_of, row};

// The register of the result of a call, x0.
const RESULT: u8 = 0;

// A branch to the word of a register.
fn branch_to(op: BranchRegOp, rn: u8) -> Instr
    ensures { result ≡ Instr.BranchReg op rn }
{
    Instr::BranchReg { op, rn }
}

// Appends the items of `jmpi` to none.
fn put_jump(operands: &[Operand], items: &mut Items<Item>)
    requires { items.old ≡ [] }
    ensures { items.new ≡ jump_items operands.now }
{
    match operands {
        [Operand::Label(label)] => items.push(Item::Branch {
            op: BranchOp::B,
            label: label.0,
        }),
        _ => {}
    }
}

// Appends the items of `calli` and `finishi` to none: a host function's entry goes into the link, and the branch there links.
fn put_call(operands: &[Operand], items: &mut Items<Item>)
    requires { items.old ≡ [] }
    ensures { items.new ≡ call_items operands.now }
{
    match operands {
        [Operand::Label(label)] => items.push(Item::Branch {
            op: BranchOp::Bl,
            label: label.0,
        }),
        [Operand::Host(name)] => {
            put_word(LINK, Operand::Host(*name), items);
            items.one(branch_to(BranchRegOp::Blr, LINK));
        }
        _ => {}
    }
}

// Appends the items of `jmpr`, `callr` and `finishr` to none: a branch to the word of a register.
fn put_register_leap(op: BranchRegOp, operands: &[Operand], items: &mut Items<Item>)
    requires { items.old ≡ [] }
    ensures { items.new ≡ register_leap_items op operands.now }
{
    match operands {
        [Operand::Reg(reg)] => items.one(branch_to(op, register_of(*reg))),
        _ => {}
    }
}

// Puts the word of a result into its register.
fn put_result(operand: Operand, items: &mut Items<Item>)
    requires { items.old ≡ [] }
    ensures items { items.new ≡ result_items operand }
    ensures few { words_in items.new ≤ 4 }
{
    match operand {
        Operand::Reg(reg) => items.one(row(RegOp::Orr, RESULT, ZERO, register_of(reg))),
        Operand::Label(label) => items.push(Item::Address {
            rd: RESULT,
            label: label.0,
        }),
        other => put_word(RESULT, other, items),
    }
}

// Appends the items of `retr` and `reti` to none.
fn put_ret(frame: u32, saved: u32, operands: &[Operand], items: &mut Items<Item>)
    requires { items.old ≡ [] }
    ensures { items.new ≡ ret_items frame saved operands.now }
{
    match operands {
        [operand] => {
            put_result(*operand, items);
            put_return(frame, saved, items);
        }
        _ => {}
    }
}

// Appends the items of a jump, a call or a return to none.
pub(crate) fn put_leap(
    frame: u32,
    saved: u32,
    op: ControlOp,
    last: LastOperand,
    operands: &[Operand],
    items: &mut Items<Item>,
)
    requires { items.old ≡ [] }
    ensures { items.new ≡ leap_items frame saved op last operands.now }
{
    match (op, last) {
        (ControlOp::Jmp, LastOperand::Immediate) => put_jump(operands, items),
        (ControlOp::Jmp, LastOperand::Register) => {
            put_register_leap(BranchRegOp::Br, operands, items)
        }
        (ControlOp::Call | ControlOp::Finish, LastOperand::Immediate) => put_call(operands, items),
        (ControlOp::Call | ControlOp::Finish, LastOperand::Register) => {
            put_register_leap(BranchRegOp::Blr, operands, items)
        }
        (ControlOp::Ret, _) => put_ret(frame, saved, operands, items),
        _ => {}
    }
}
