// The text of A64 instructions.

ghost use Rattle.std.specs.Prelude.{◌≡◌, ◌<◌, ◌≤◌, ◌+◌, ◌*◌, ◌^◌, ◌%◌, ◌++◌, [], ◌∷◌, pos, codes, length};
ghost use Rattle.lg_a64.specs.Rows.{cond_row};
ghost use Rattle.lg_list.specs.Operands.{text};
ghost use Rattle.lg_list.specs.Aarch64.{general, stacked, z, s, target, width, imm_result, imm_operands, text_of};

use crate::line::Line;
use crate::operand::{Operand, Register};
use lg_a64::{Cond, ImmOp, Instr, ScaledOp};

// 31 reads as 0
fn general(number: u8) -> Register
    ensures { result ≡ general number }
{
    if number == 31 {
        Register::Xzr
    } else {
        Register::X(number)
    }
}

// 31 is the stack pointer
fn stacked(number: u8) -> Register
    ensures { result ≡ stacked number }
{
    if number == 31 {
        Register::Sp
    } else {
        Register::X(number)
    }
}

fn z(number: u8) -> Operand
    ensures { result ≡ z number }
{
    Operand::Register(general(number))
}

fn s(number: u8) -> Operand
    ensures { result ≡ s number }
{
    Operand::Register(stacked(number))
}

// memory at the sum of two registers
fn indexed(base: u8, index: u8) -> Operand
    ensures { result ≡ Operand.Indexed (stacked base) (general index) }
{
    Operand::Indexed {
        base: stacked(base),
        index: general(index),
    }
}

// the address that lies this many words from an address
#[tactic(auto, unfolding(crate::specs::Aarch64::target))]
fn target(at: u32, words: i32) -> Operand
    ensures { result ≡ target at words }
{
    Operand::Target(at.wrapping_add(words.cast_unsigned().wrapping_mul(4)))
}

// how many bytes a load or store moves
fn width(op: ScaledOp) -> u16
    ensures width { result ≡ width op }
    ensures low { 1 ≤ result }
    ensures high { result ≤ 8 }
{
    match op {
        ScaledOp::Ldr64 | ScaledOp::Str64 => 8,
        ScaledOp::Ldr32 | ScaledOp::Ldrs32 | ScaledOp::Str32 => 4,
        ScaledOp::Ldr16 | ScaledOp::Ldrs16 | ScaledOp::Str16 => 2,
        ScaledOp::Ldr8 | ScaledOp::Ldrs8 | ScaledOp::Str8 => 1,
    }
}

fn push_imm(line: &mut Line, name: &[u8], op: ImmOp, rd: u8, rn: u8, imm: u16, shifted: bool)
    requires room { length line.old ≤ 52 }
    requires name { length name.now ≤ 16 }
    ensures text { line.new ≡ line.old ++ text name.now (imm_operands op rd rn imm shifted) }
    ensures room { length line.new ≤ 272 }
{
    let rd = imm_result(op, rd);
    if shifted {
        line.push_text(
            name,
            &[
                rd,
                s(rn),
                Operand::Unsigned(u64::from(imm)),
                Operand::Unsigned(12),
            ],
        );
    } else {
        line.push_text(name, &[rd, s(rn), Operand::Unsigned(u64::from(imm))]);
    }
}

// the register that a row with a number writes
fn imm_result(op: ImmOp, rd: u8) -> Operand
    ensures { result ≡ imm_result op rd }
{
    match op {
        ImmOp::Addi | ImmOp::Subi => s(rd),
        ImmOp::Addsi | ImmOp::Subsi => z(rd),
    }
}

fn push_scaled(line: &mut Line, name: &[u8], op: ScaledOp, rt: u8, rn: u8, imm: u16)
    requires room { length line.old ≤ 52 }
    requires name { length name.now ≤ 16 }
    ensures text { line.new ≡ line.old ++ text name.now (z rt ∷ Operand.Memory (stacked rn) (pos (imm * width op)) ∷ []) }
    ensures room { length line.new ≤ 272 }
{
    let displacement = u32::from(imm) * u32::from(width(op));
    line.push_text(
        name,
        &[
            z(rt),
            Operand::Memory {
                base: stacked(rn),
                displacement: i64::from(displacement),
            },
        ],
    );
}

fn push_unscaled(line: &mut Line, name: &[u8], rt: u8, rn: u8, imm: i32)
    requires room { length line.old ≤ 52 }
    requires name { length name.now ≤ 16 }
    ensures text { line.new ≡ line.old ++ text name.now (z rt ∷ Operand.Memory (stacked rn) imm ∷ []) }
    ensures room { length line.new ≤ 272 }
{
    line.push_text(
        name,
        &[
            z(rt),
            Operand::Memory {
                base: stacked(rn),
                displacement: i64::from(imm),
            },
        ],
    );
}

fn push_wide(line: &mut Line, name: &[u8], rd: u8, imm: u16, hw: u8)
    requires room { length line.old ≤ 52 }
    requires name { length name.now ≤ 16 }
    ensures text { line.new ≡ line.old ++ text name.now (z rd ∷ Operand.Unsigned imm ∷ Operand.Unsigned hw ∷ []) }
    ensures room { length line.new ≤ 272 }
{
    line.push_text(
        name,
        &[
            z(rd),
            Operand::Unsigned(u64::from(imm)),
            Operand::Unsigned(u64::from(hw)),
        ],
    );
}

fn push_bitfield(line: &mut Line, name: &[u8], rd: u8, rn: u8, immr: u8, imms: u8)
    requires room { length line.old ≤ 52 }
    requires name { length name.now ≤ 16 }
    ensures text { line.new ≡ line.old ++ text name.now (z rd ∷ z rn ∷ Operand.Unsigned immr ∷ Operand.Unsigned imms ∷ []) }
    ensures room { length line.new ≤ 272 }
{
    line.push_text(
        name,
        &[
            z(rd),
            z(rn),
            Operand::Unsigned(u64::from(immr)),
            Operand::Unsigned(u64::from(imms)),
        ],
    );
}

// the condition's letters come last
fn push_csinc(line: &mut Line, name: &[u8], rd: u8, rn: u8, rm: u8, cond: Cond)
    requires room { length line.old ≤ 52 }
    requires name { length name.now ≤ 16 }
    ensures text { line.new ≡ line.old ++ text name.now (z rd ∷ z rn ∷ z rm ∷ []) ++ codes ", " ++ (cond_row cond).name }
    ensures room { length line.new ≤ 272 }
{
    line.push_text(name, &[z(rd), z(rn), z(rm)]);
    line.push(b", ");
    let letters = cond.name();
    line.push(letters.as_slice());
}

/// Appends the text of an instruction at an address. The line has at most 52 bytes before and 274 after.
pub fn push_instruction(line: &mut Line, at: u32, instr: &Instr)
    requires { length line.old ≤ 52 }
    ensures text { line.new ≡ line.old ++ text_of at instr.now }
    ensures room { length line.new ≤ 274 }
{
    let name = instr.name();
    let name = name.as_slice();
    match *instr {
        Instr::Reg { rd, rn, rm, .. } => line.push_text(name, &[z(rd), z(rn), z(rm)]),
        Instr::Imm {
            op,
            rd,
            rn,
            imm,
            shifted,
        } => push_imm(line, name, op, rd, rn, imm, shifted),
        Instr::Wide { rd, imm, hw, .. } => push_wide(line, name, rd, imm, hw),
        Instr::MulAdd { rd, rn, rm, ra, .. } => {
            line.push_text(name, &[z(rd), z(rn), z(rm), z(ra)])
        }
        Instr::Bitfield {
            rd,
            rn,
            immr,
            imms,
            ..
        } => push_bitfield(line, name, rd, rn, immr, imms),
        Instr::Csinc { rd, rn, rm, cond } => push_csinc(line, name, rd, rn, rm, cond),
        Instr::Reverse { rd, rn, .. } => line.push_text(name, &[z(rd), z(rn)]),
        Instr::Scaled { op, rt, rn, imm } => push_scaled(line, name, op, rt, rn, imm),
        Instr::Ldrx { rt, rn, rm } => line.push_text(name, &[z(rt), indexed(rn, rm)]),
        Instr::Unscaled { rt, rn, imm, .. } => push_unscaled(line, name, rt, rn, imm),
        Instr::Branch { words, .. } => line.push_text(name, &[target(at, words)]),
        Instr::BranchIf { words, .. } => line.push_text(name, &[target(at, words)]),
        Instr::BranchReg { rn, .. } => line.push_text(name, &[z(rn)]),
        Instr::Nop => line.push_text(name, &[]),
    }
}
