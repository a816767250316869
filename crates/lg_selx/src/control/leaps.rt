// Jumps, calls and returns.

ghost use Rattle.std.specs.Prelude.{◌≡◌, ◌≤◌, [], ◌∷◌};
ghost use Rattle.lg_selx.specs.Control.ControlItems.{plain_kind, jump_items, call_items, result_items, ret_items, register_jump_items, register_call_items, leap_items};
ghost use Rattle.lg_selx.specs.Control.RegisterLeaps.{called};
ghost use Rattle.lg_selx_values.specs.Items.{words_in};

use crate::control::frames::put_return;
use lg_op::{ControlOp, LastOperand, Operand, Reg};
use lg_sel::{Items, Reach};
use lg_selx_values::{Item, JumpKind, mov, put_number, register_of};
use lg_x86::{Instr, JumpNearOp, JumpRegOp};

// The register of the result of a call, rax.
const RESULT: u8 = 0;

// The register by which a word is called, r11.
const CALLED: u8 = 11;

// A jump to the word of a register, or a call of it.
fn leap_by(op: JumpRegOp, rm: u8) -> Instr
    ensures { result ≡ Instr.JumpReg op rm }
{
    Instr::JumpReg { op, rm }
}

// A number of 32 bits, into a register.
fn number_into(reg: u8, imm: u32) -> Instr
    ensures { result ≡ Instr.Movi32 reg imm }
{
    Instr::Movi32 { reg, imm }
}

// How a jump is spelled.
fn plain_kind(reach: Reach) -> JumpKind
    ensures { result ≡ plain_kind reach }
{
    match reach {
        Reach::Short => JumpKind::Short,
        Reach::Near | Reach::Far => JumpKind::Near(JumpNearOp::Jmp32),
    }
}

// Appends a jump or call to a label to none.
fn put_led(kind: JumpKind, label: u32, items: &mut Items<Item>)
    requires { items.old ≡ [] }
    ensures { items.new ≡ Item.Jump kind label ∷ [] }
{
    items.push(Item::Jump { kind, label });
}

// Appends the items of `jmpi` to none.
fn put_jump(reach: Reach, operands: &[Operand], items: &mut Items<Item>)
    requires { items.old ≡ [] }
    ensures { items.new ≡ jump_items reach operands.now }
{
    match operands {
        [Operand::Label(label)] => put_led(plain_kind(reach), label.0, items),
        _ => {}
    }
}

// A call of the word in r11, with al = 0.
fn called() -> [Instr; 2]
    ensures { result ≡ called }
{
    [number_into(RESULT, 0), leap_by(JumpRegOp::Callr, CALLED)]
}

// Appends the items of `calli` and `finishi` to none: the entry of a host function goes into r11.
fn put_call(operands: &[Operand], items: &mut Items<Item>)
    requires { items.old ≡ [] }
    ensures { items.new ≡ call_items operands.now }
{
    match operands {
        [Operand::Label(label)] => put_led(JumpKind::Near(JumpNearOp::Call32), label.0, items),
        [Operand::Host(name)] => {
            items.one(number_into(CALLED, name.address() as u32));
            items.all(&called());
        }
        _ => {}
    }
}

// Appends the items of `jmpr` to none.
fn put_register_jump(operands: &[Operand], items: &mut Items<Item>)
    requires { items.old ≡ [] }
    ensures { items.new ≡ register_jump_items operands.now }
{
    match operands {
        [Operand::Reg(reg)] => items.one(leap_by(JumpRegOp::Jmpr, register_of(*reg))),
        _ => {}
    }
}

// Appends the items of `callr` and `finishr` to none: the word of the register goes into r11.
fn put_register_call(operands: &[Operand], items: &mut Items<Item>)
    requires { items.old ≡ [] }
    ensures { items.new ≡ register_call_items operands.now }
{
    match operands {
        [Operand::Reg(reg)] => {
            items.one(mov(CALLED, register_of(*reg)));
            items.all(&called());
        }
        _ => {}
    }
}

// Puts the word of a result into its register, which corresponds to R0.
fn put_result(operand: Operand, items: &mut Items<Item>)
    requires { items.old ≡ [] }
    ensures items { items.new ≡ result_items operand }
    ensures few { words_in items.new ≤ 1 }
{
    match operand {
        Operand::Reg(Reg::R0) => {}
        Operand::Reg(reg) => items.one(mov(RESULT, register_of(reg))),
        Operand::Label(label) => items.push(Item::Address {
            reg: RESULT,
            label: label.0,
        }),
        Operand::Number(value) => put_number(RESULT, value, items),
        Operand::Host(name) => put_number(RESULT, name.address(), items),
        _ => {}
    }
}

// Appends the items of `retr` and `reti` to none.
fn put_ret(saved: u32, operands: &[Operand], items: &mut Items<Item>)
    requires { items.old ≡ [] }
    ensures { items.new ≡ ret_items saved operands.now }
{
    match operands {
        [operand] => {
            put_result(*operand, items);
            put_return(saved, items);
        }
        _ => {}
    }
}

// Appends the items of a jump, a call or a return to none.
pub(crate) fn put_leap(
    reach: Reach,
    saved: u32,
    op: ControlOp,
    last: LastOperand,
    operands: &[Operand],
    items: &mut Items<Item>,
)
    requires { items.old ≡ [] }
    ensures { items.new ≡ leap_items reach saved op last operands.now }
{
    match (op, last) {
        (ControlOp::Jmp, LastOperand::Immediate) => put_jump(reach, operands, items),
        (ControlOp::Jmp, LastOperand::Register) => put_register_jump(operands, items),
        (ControlOp::Call | ControlOp::Finish, LastOperand::Immediate) => put_call(operands, items),
        (ControlOp::Call | ControlOp::Finish, LastOperand::Register) => {
            put_register_call(operands, items)
        }
        (ControlOp::Ret, _) => put_ret(saved, operands, items),
        _ => {}
    }
}
