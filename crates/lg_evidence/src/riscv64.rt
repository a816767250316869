// The table of RV64IM.

ghost use Rattle.std.specs.Prelude.{IfOk, IfSome};
ghost use Rattle.lg_evidence.specs.Found.{StandsInFront};

use crate::table::{Found, Operands, spoken};
use lg_rv::{Instr, decode, encode};
use std::alloc::{AllocError, Global};

/// Returns the instruction that the bytes begin with, if they begin with one.
pub fn find(alloc: Global, bytes: &[u8]) -> Result<Option<Found>, AllocError>
    ensures { IfOk result (λ answer. IfSome answer (StandsInFront bytes.now)) }
{
    match decode(bytes) {
        None => Ok(None),
        Some((instr, length)) => {
            let operation = spoken(alloc, &instr.name(), operands(&instr))?;
            let spelling = encode(&instr);
            Ok(Some(Found {
                operation,
                length,
                spelling,
            }))
        }
    }
}

// The operands are in the order of assembly text: a store's rs2 is first, and a base register comes
// before its displacement.
fn operands(instr: &Instr) -> Operands {
    match *instr {
        Instr::Upper { rd, imm, .. } => [Some(rd.into()), Some(imm.into()), None, None],
        Instr::Jal { rd, offset } => [Some(rd.into()), Some(offset.into()), None, None],
        Instr::Branch {
            rs1,
            rs2,
            offset,
            ..
        } => [
            Some(rs1.into()),
            Some(rs2.into()),
            Some(offset.into()),
            None,
        ],
        Instr::Imm { rd, rs1, imm, .. } => [
            Some(rd.into()),
            Some(rs1.into()),
            Some(imm.into()),
            None,
        ],
        Instr::Shift {
            rd,
            rs1,
            amount,
            ..
        } => [Some(rd.into()), Some(rs1.into()), Some(amount.into()), None],
        Instr::Store { rs1, rs2, imm, .. } => [
            Some(rs2.into()),
            Some(rs1.into()),
            Some(imm.into()),
            None,
        ],
        Instr::Reg { rd, rs1, rs2, .. } => [
            Some(rd.into()),
            Some(rs1.into()),
            Some(rs2.into()),
            None,
        ],
    }
}
