// The table of A64.

ghost use Rattle.std.specs.Prelude.{pos, ◌≤ℤ◌, IfOk, IfSome};
ghost use Rattle.lg_evidence.specs.Found.{StandsInFront};

use crate::table::{Found, Operands, spoken};
use lg_a64::{Instr, ScaledOp, decode, encode};
use std::alloc::{AllocError, Global};

/// Returns the instruction that the bytes begin with, if they begin with one.
pub fn find(alloc: Global, bytes: &[u8]) -> Result<Option<Found>, AllocError>
    ensures { IfOk result (λ answer. IfSome answer (StandsInFront bytes.now)) }
{
    match decode(bytes) {
        None => Ok(None),
        Some((instr, length)) => {
            let operation = spoken(alloc, &instr.name(), operands(&instr))?;
            let spelling = encode(&instr);
            Ok(Some(Found {
                operation,
                length,
                spelling,
            }))
        }
    }
}

// The operands are in the order of assembly text: rd rn rm ra, then numbers, then the condition.
// Displacements and distances are in bytes.
fn operands(instr: &Instr) -> Operands {
    match *instr {
        Instr::Reg { rd, rn, rm, .. } => [Some(rd.into()), Some(rn.into()), Some(rm.into()), None],
        Instr::Wide { rd, imm, hw, .. } => [
            Some(rd.into()),
            Some(imm.into()),
            Some(hw.into()),
            None,
        ],
        Instr::MulAdd { rd, rn, rm, ra, .. } => [
            Some(rd.into()),
            Some(rn.into()),
            Some(rm.into()),
            Some(ra.into()),
        ],
        Instr::Csinc { rd, rn, rm, cond } => [
            Some(rd.into()),
            Some(rn.into()),
            Some(rm.into()),
            Some(cond.number().into()),
        ],
        Instr::Reverse { rd, rn, .. } => [Some(rd.into()), Some(rn.into()), None, None],
        Instr::Ldrx { rt, rn, rm } => [Some(rt.into()), Some(rn.into()), Some(rm.into()), None],
        Instr::Branch { words, .. } => [Some(i64::from(words) * 4), None, None, None],
        Instr::BranchIf { words, .. } => [Some(i64::from(words) * 4), None, None, None],
        Instr::BranchReg { rn, .. } => [Some(rn.into()), None, None, None],
        Instr::Nop => [None; 4],
        Instr::Imm { .. } | Instr::Bitfield { .. } => two_numbers(instr),
        Instr::Scaled { .. } | Instr::Unscaled { .. } => access(instr),
    }
}

// Returns the operands of a row with two numbers.
fn two_numbers(instr: &Instr) -> Operands {
    match *instr {
        Instr::Imm {
            rd,
            rn,
            imm,
            shifted,
            ..
        } => [
            Some(rd.into()),
            Some(rn.into()),
            Some(imm.into()),
            Some(shifted.into()),
        ],
        Instr::Bitfield {
            rd,
            rn,
            immr,
            imms,
            ..
        } => [
            Some(rd.into()),
            Some(rn.into()),
            Some(immr.into()),
            Some(imms.into()),
        ],
        _ => [None; 4],
    }
}

// Returns the operands of a load or store with a displacement.
fn access(instr: &Instr) -> Operands {
    match *instr {
        Instr::Scaled { op, rt, rn, imm } => [
            Some(rt.into()),
            Some(rn.into()),
            Some(i64::from(imm) * width(op)),
            None,
        ],
        Instr::Unscaled { rt, rn, imm, .. } => [
            Some(rt.into()),
            Some(rn.into()),
            Some(imm.into()),
            None,
        ],
        _ => [None; 4],
    }
}

// the number of bytes that a load or store moves
fn width(op: ScaledOp) -> i64
    ensures low { pos 1 ≤ℤ result }
    ensures high { result ≤ℤ pos 8 }
{
    match op {
        ScaledOp::Ldr64 | ScaledOp::Str64 => 8,
        ScaledOp::Ldr32 | ScaledOp::Ldrs32 | ScaledOp::Str32 => 4,
        ScaledOp::Ldr16 | ScaledOp::Ldrs16 | ScaledOp::Str16 => 2,
        ScaledOp::Ldr8 | ScaledOp::Ldrs8 | ScaledOp::Str8 => 1,
    }
}
