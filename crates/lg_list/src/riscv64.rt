// The text of RV64IM instructions.

ghost use Rattle.std.specs.Prelude.{◌≡◌, ◌<◌, ◌≤◌, ◌+◌, ◌*◌, ◌^◌, ◌%◌, ◌++◌, codes, length};
ghost use Rattle.std.specs.Int.{w32, cast_unsigned};
ghost use Rattle.lg_list.specs.Texts.{decimal};
ghost use Rattle.lg_list.specs.Operands.{spelled, spelled_after};
ghost use Rattle.lg_list.specs.Riscv64.{is_access, register, memory, target, imm_operands, operands, text_of};

use crate::line::Line;
use crate::operand::{Operand, Register};
use lg_rv::{ImmOp, Instr};

#[tactic(auto, unfolding(crate::specs::Riscv64::target))]
fn target(at: u32, offset: i32) -> Operand
    ensures { result ≡ target at offset }
{
    Operand::Target(at.wrapping_add(offset.cast_unsigned()))
}

fn memory(base: u8, displacement: i32) -> Operand
    ensures { result ≡ memory base displacement }
{
    Operand::Memory {
        base: Register::X(base),
        displacement: i64::from(displacement),
    }
}

// Returns whether the number is a displacement from the register: `jalr` and loads.
fn is_access(op: ImmOp) -> bool
    ensures { result ≡ is_access op }
{
    matches!(
        op,
        ImmOp::Jalr
            | ImmOp::Lb
            | ImmOp::Lh
            | ImmOp::Lw
            | ImmOp::Ld
            | ImmOp::Lbu
            | ImmOp::Lhu
            | ImmOp::Lwu
    )
}

// Appends a register's number after what is before it, the letter of the register included.
#[inline(always)]
fn push_x(line: &mut Line, before_with_letter: &[u8], number: u8)
    requires before { length before_with_letter.now ≤ 3 }
    requires room { length line.old + 25 ≤ 288 }
    ensures text { line.new ≡ line.old ++ before_with_letter.now ++ decimal number }
    ensures room { length line.new ≤ length line.old + 25 }
{
    line.push(before_with_letter);
    line.push_decimal(u64::from(number));
}

// Appends two registers, the first of an instruction's operands.
#[inline(always)]
fn push_two(line: &mut Line, first: u8, second: u8)
    requires { length line.old + 50 ≤ 288 }
    ensures text { line.new ≡ line.old ++ codes " " ++ spelled (register first) ++ codes ", " ++ spelled (register second) }
    ensures room { length line.new ≤ length line.old + 50 }
{
    push_x(line, b" x", first);
    push_x(line, b", x", second);
}

// Appends a register, the first of an instruction's operands, and another operand.
#[inline(always)]
fn push_with(line: &mut Line, first: u8, other: Operand)
    requires { length line.old + 76 ≤ 288 }
    ensures text { line.new ≡ line.old ++ codes " " ++ spelled (register first) ++ codes ", " ++ spelled other }
    ensures room { length line.new ≤ length line.old + 76 }
{
    push_x(line, b" x", first);
    line.push_after(b", ", other);
}

// Appends the operands of an instruction with a number.
fn push_imm(line: &mut Line, op: ImmOp, rd: u8, rs1: u8, imm: i32)
    requires { length line.old ≤ 68 }
    ensures text { line.new ≡ line.old ++ spelled_after (codes " ") (imm_operands op rd rs1 imm) }
    ensures room { length line.new ≤ 272 }
{
    if is_access(op) {
        push_with(line, rd, memory(rs1, imm));
    } else {
        push_two(line, rd, rs1);
        line.push(b", ");
        line.push_signed(i64::from(imm));
    }
}

// Appends the operands of an instruction at an address.
fn push_operands(line: &mut Line, at: u32, instr: &Instr)
    requires { length line.old ≤ 68 }
    ensures text { line.new ≡ line.old ++ spelled_after (codes " ") (operands at instr.now) }
    ensures room { length line.new ≤ 272 }
{
    match *instr {
        Instr::Upper { rd, imm, .. } => push_with(line, rd, Operand::Unsigned(u64::from(imm))),
        Instr::Jal { rd, offset } => push_with(line, rd, target(at, offset)),
        Instr::Branch {
            rs1,
            rs2,
            offset,
            ..
        } => {
            push_two(line, rs1, rs2);
            line.push_after(b", ", target(at, offset));
        }
        Instr::Imm { op, rd, rs1, imm } => push_imm(line, op, rd, rs1, imm),
        Instr::Shift {
            rd,
            rs1,
            amount,
            ..
        } => {
            push_two(line, rd, rs1);
            line.push(b", ");
            line.push_decimal(u64::from(amount));
        }
        Instr::Store { rs1, rs2, imm, .. } => push_with(line, rs2, memory(rs1, imm)),
        Instr::Reg { rd, rs1, rs2, .. } => {
            push_two(line, rd, rs1);
            push_x(line, b", x", rs2);
        }
    }
}

/// Appends the text of an instruction at an address. The line has at most 52 bytes before and 272 after.
pub fn push_instruction(line: &mut Line, at: u32, instr: &Instr)
    requires { length line.old ≤ 52 }
    ensures text { line.new ≡ line.old ++ text_of at instr.now }
    ensures room { length line.new ≤ 272 }
{
    let name = instr.name();
    line.push(name.as_slice());
    push_operands(line, at, instr);
}
