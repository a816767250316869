// What a check asks of the targets' tables.

ghost use Rattle.std.specs.Prelude.{IfOk, IfSome};
ghost use Rattle.lg_evidence.specs.Found.{StandsInFront};

use crate::{aarch64, riscv64, x86_64};
use lg_base::{Piece, Target};
use std::alloc::{AllocError, Global};
use std::str;

/// The instruction that some bytes begin with.
#[derive(Drop)]
pub struct Found {
    /// The row's name and the operands, as the evidence writes them: numbers alone, parted by blanks.
    pub operation: String,
    /// How many of the bytes are the instruction's.
    pub length: u32,
    /// The bytes that the instruction is encoded as.
    pub spelling: Piece,
}

/// Returns the instruction of a target that the bytes begin with, if they begin with one.
pub fn find(alloc: Global, target: Target, bytes: &[u8]) -> Result<Option<Found>, AllocError>
    ensures { IfOk result (λ answer. IfSome answer (StandsInFront bytes.now)) }
{
    match target {
        Target::X86_64 => x86_64::find(alloc, bytes),
        Target::Aarch64 => aarch64::find(alloc, bytes),
        Target::Riscv64 => riscv64::find(alloc, bytes),
    }
}

/// The operands of an instruction, at most four, from the front on.
pub type Operands = [Option<i64>; 4];

/// Returns a row's name and the operands as the evidence writes them.
pub fn spoken(alloc: Global, name: &Piece, operands: Operands) -> Result<String, AllocError> {
    let name = str::from_utf8(name.as_slice()).unwrap_or("a name that is no text");
    let mut text = String::from_str(alloc, name)?;
    write_operands(&mut text, &operands)?;
    Ok(text)
}

// Appends operands, each after a blank.
fn write_operands(text: &mut String, operands: &Operands) -> Result<(), AllocError> {
    for operand in operands {
        if let Some(operand) = operand {
            write!(text, " {operand}")?;
        }
    }
    Ok(())
}
