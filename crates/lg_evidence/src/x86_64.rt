// The table of x86-64.

ghost use Rattle.std.specs.Prelude.{IfOk, IfSome};
ghost use Rattle.lg_evidence.specs.Found.{StandsInFront};

use crate::table::{Found, Operands, spoken};
use lg_x86::{Instr, decode, encode};
use std::alloc::{AllocError, Global};

/// Returns the instruction that the bytes begin with, if they begin with one.
pub fn find(alloc: Global, bytes: &[u8]) -> Result<Option<Found>, AllocError>
    ensures { IfOk result (λ answer. IfSome answer (StandsInFront bytes.now)) }
{
    match decode(bytes) {
        None => Ok(None),
        Some((instr, length)) => {
            let operation = operation(alloc, &instr)?;
            let spelling = encode(&instr);
            Ok(Some(Found {
                operation,
                length,
                spelling,
            }))
        }
    }
}

// Returns the name and the operands. The number of `movi64` may pass the signed numbers.
fn operation(alloc: Global, instr: &Instr) -> Result<String, AllocError> {
    let mut text = spoken(alloc, &instr.name(), operands(instr))?;
    if let Instr::Movi64 { imm, .. } = *instr {
        write!(text, " {imm}")?;
    }
    Ok(text)
}

// The operands are in the order of assembly text: what is written is first, and a base register comes
// before its displacement.
fn operands(instr: &Instr) -> Operands {
    match *instr {
        Instr::RmReg { rm, reg, .. } => [Some(rm.into()), Some(reg.into()), None, None],
        Instr::Imm { rm, imm, .. } => [Some(rm.into()), Some(imm.into()), None, None],
        Instr::RegRm { reg, rm, .. } => [Some(reg.into()), Some(rm.into()), None, None],
        Instr::Load {
            reg,
            base,
            disp,
            ..
        } => [Some(reg.into()), Some(base.into()), Some(disp.into()), None],
        Instr::Store {
            base,
            disp,
            reg,
            ..
        } => [Some(base.into()), Some(disp.into()), Some(reg.into()), None],
        Instr::Lea2 { reg, base, index } => [
            Some(reg.into()),
            Some(base.into()),
            Some(index.into()),
            None,
        ],
        Instr::Movi32 { reg, imm } => [Some(reg.into()), Some(imm.into()), None, None],
        Instr::Movs32 { rm, imm } => [Some(rm.into()), Some(imm.into()), None, None],
        Instr::Movi64 { reg, .. } => [Some(reg.into()), None, None, None],
        Instr::Unary { rm, .. } => [Some(rm.into()), None, None, None],
        Instr::Shift { rm, count, .. } => [Some(rm.into()), Some(count.into()), None, None],
        Instr::Bswap { reg } => [Some(reg.into()), None, None, None],
        Instr::Stack { reg, .. } => [Some(reg.into()), None, None, None],
        Instr::JumpIfShort { distance, .. } => [Some(distance.into()), None, None, None],
        Instr::JumpIfNear { distance, .. } => [Some(distance.into()), None, None, None],
        Instr::Set { rm, .. } => [Some(rm.into()), None, None, None],
        Instr::JumpShort { distance } => [Some(distance.into()), None, None, None],
        Instr::JumpNear { distance, .. } => [Some(distance.into()), None, None, None],
        Instr::JumpReg { rm, .. } => [Some(rm.into()), None, None, None],
        Instr::Bare { .. } => [None; 4],
    }
}
