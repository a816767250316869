// The instructions of A64, by the formats of their words.

use std::{fmt, str};

/// An instruction: its row, and the numbers in its word. Registers are 0 to 31. 31 is the stack pointer as
/// `rn` of `Imm`, of loads and of stores, and as `rd` of `addi` and `subi`; elsewhere it reads as 0 and is
/// not written.
///
/// The names and fields are those of the Arm Architecture Reference Manual, "A64 Base Instruction
/// Descriptions". A name that ends in `i`, or in a number of bits, parts rows that share one there.
#[derive(Clone, Copy, PartialEq, Eq)]
pub enum Instr {
    /// `rd` gets the result of `rn` and `rm`.
    Reg {
        op: RegOp,
        rd: u8,
        rn: u8,
        rm: u8,
    },
    /// `rd` gets the result of `rn` and `imm`, 0 to 4,095, which counts 4,096 times where `shifted`.
    Imm {
        op: ImmOp,
        rd: u8,
        rn: u8,
        imm: u16,
        shifted: bool,
    },
    /// `imm` is for the bits of `rd` from `16 * hw` on, where `hw` is 0 to 3.
    Wide {
        op: WideOp,
        rd: u8,
        imm: u16,
        hw: u8,
    },
    /// `rd` gets the result of `rn`, `rm` and `ra`.
    MulAdd {
        op: MulAddOp,
        rd: u8,
        rn: u8,
        rm: u8,
        ra: u8,
    },
    /// `rd` gets a bit field of `rn`: where `imms` is at least `immr`, bits `immr` to `imms` go to bit 0 and
    /// on, and else bits 0 to `imms` go to bit `64 - immr` and on. `immr` and `imms` are 0 to 63.
    Bitfield {
        op: BitfieldOp,
        rd: u8,
        rn: u8,
        immr: u8,
        imms: u8,
    },
    /// `rd` gets `rn` where the condition holds, else `rm + 1`.
    Csinc {
        rd: u8,
        rn: u8,
        rm: u8,
        cond: Cond,
    },
    /// `rd` gets the bytes of `rn` in another order.
    Reverse {
        op: ReverseOp,
        rd: u8,
        rn: u8,
    },
    /// The address is `rn` and `imm` times the number of bytes of the access; `imm` is 0 to 4,095.
    Scaled {
        op: ScaledOp,
        rt: u8,
        rn: u8,
        imm: u16,
    },
    /// Load 64 bits at the address `rn + rm`.
    Ldrx {
        rt: u8,
        rn: u8,
        rm: u8,
    },
    /// The address is `rn + imm`, where `imm` is from -256 to 255.
    Unscaled {
        op: UnscaledOp,
        rt: u8,
        rn: u8,
        imm: i32,
    },
    /// A branch by `words` times 4 bytes, from -33,554,432 to 33,554,431.
    Branch {
        op: BranchOp,
        words: i32,
    },
    /// A branch by `words` times 4 bytes, from -262,144 to 262,143, where the condition holds.
    BranchIf {
        cond: Cond,
        words: i32,
    },
    /// A branch to the address in `rn`.
    BranchReg {
        op: BranchRegOp,
        rn: u8,
    },
    /// Nothing.
    Nop,
}

/// Prints the row's name.
impl fmt::Debug for Instr {
    fn fmt<W: fmt::Write>(&self, f: &mut fmt::Formatter<W>) -> fmt::Result {
        match str::from_utf8(self.name().as_slice()) {
            Ok(name) => f.write_str(name),
            Err(_) => Err(fmt::Error),
        }
    }
}

/// The rows with three registers.
#[derive(Clone, Copy, PartialEq, Eq)]
pub enum RegOp {
    /// Add.
    Add,
    /// Add, and set the flags.
    Adds,
    /// Subtract.
    Sub,
    /// Subtract, and set the flags.
    Subs,
    /// Add with the carry.
    Adc,
    /// Add with the carry, and set the flags.
    Adcs,
    /// Subtract with the borrow.
    Sbc,
    /// Subtract with the borrow, and set the flags.
    Sbcs,
    /// And.
    And,
    /// Or.
    Orr,
    /// Exclusive or.
    Eor,
    /// And, and set the flags.
    Ands,
    /// Or with the turned bits of `rm`.
    Orn,
    /// The product's high word, signed.
    Smulh,
    /// The product's high word, unsigned.
    Umulh,
    /// Quotient, unsigned.
    Udiv,
    /// Quotient, signed.
    Sdiv,
    /// Shift left.
    Lslv,
    /// Shift right with zeros.
    Lsrv,
    /// Shift right with the sign.
    Asrv,
}

/// The rows with a number of 12 bits.
#[derive(Clone, Copy, PartialEq, Eq)]
pub enum ImmOp {
    /// Add a number.
    Addi,
    /// Add a number, and set the flags.
    Addsi,
    /// Subtract a number.
    Subi,
    /// Subtract a number, and set the flags.
    Subsi,
}

/// The rows that move a number of 16 bits.
#[derive(Clone, Copy, PartialEq, Eq)]
pub enum WideOp {
    /// The number, and zeros beside it.
    Movz,
    /// The turned bits of what `movz` gives.
    Movn,
    /// The number, and the register's other bits as they are.
    Movk,
}

/// The rows that multiply and add.
#[derive(Clone, Copy, PartialEq, Eq)]
pub enum MulAddOp {
    /// `ra + rn * rm`.
    Madd,
    /// `ra - rn * rm`.
    Msub,
}

/// The rows that move bit fields.
#[derive(Clone, Copy, PartialEq, Eq)]
pub enum BitfieldOp {
    /// Bit-field move with the sign.
    Sbfm,
    /// Bit-field move with zeros.
    Ubfm,
}

/// The rows that reverse bytes.
#[derive(Clone, Copy, PartialEq, Eq)]
pub enum ReverseOp {
    /// Reverse the 8 bytes.
    Rev,
    /// Reverse the 4 bytes of each half.
    Rev32,
    /// Reverse the 2 bytes of each quarter.
    Rev16,
}

/// The rows that load or store at an offset from a register, counted in accesses.
#[derive(Clone, Copy, PartialEq, Eq)]
pub enum ScaledOp {
    /// Load 64 bits.
    Ldr64,
    /// Store 64 bits.
    Str64,
    /// Load 32 bits, zero-extended.
    Ldr32,
    /// Load 32 bits, sign-extended.
    Ldrs32,
    /// Store 32 bits.
    Str32,
    /// Load 16 bits, zero-extended.
    Ldr16,
    /// Load 16 bits, sign-extended.
    Ldrs16,
    /// Store 16 bits.
    Str16,
    /// Load 8 bits, zero-extended.
    Ldr8,
    /// Load 8 bits, sign-extended.
    Ldrs8,
    /// Store 8 bits.
    Str8,
}

/// The rows that load or store at a number of bytes from a register.
#[derive(Clone, Copy, PartialEq, Eq)]
pub enum UnscaledOp {
    /// Load 64 bits.
    Ldur,
    /// Store 64 bits.
    Stur,
}

/// The rows that branch by a number of words.
#[derive(Clone, Copy, PartialEq, Eq)]
pub enum BranchOp {
    /// Branch.
    B,
    /// Branch with link.
    Bl,
}

/// The rows that branch to a register.
#[derive(Clone, Copy, PartialEq, Eq)]
pub enum BranchRegOp {
    /// Branch.
    Br,
    /// Branch with link.
    Blr,
    /// Return.
    Ret,
}

/// The conditions on the flags.
#[derive(Clone, Copy, PartialEq, Eq)]
pub enum Cond {
    /// Equal.
    Eq,
    /// Not equal.
    Ne,
    /// Carry set; unsigned not less.
    Cs,
    /// Carry clear; unsigned less.
    Cc,
    /// Negative.
    Mi,
    /// Not negative.
    Pl,
    /// Overflow.
    Vs,
    /// No overflow.
    Vc,
    /// Unsigned greater.
    Hi,
    /// Unsigned not greater.
    Ls,
    /// Signed not less.
    Ge,
    /// Signed less.
    Lt,
    /// Signed greater.
    Gt,
    /// Signed not greater.
    Le,
}
