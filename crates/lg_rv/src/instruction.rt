// The instructions of RV64I and M, by the formats of their words.

use std::{fmt, str};

/// An instruction: its row, and the numbers in its word. Registers `rd`, `rs1` and `rs2` are 0 to 31.
///
/// The names and fields are those of the RISC-V unprivileged ISA, "RV32I Base Integer Instruction
/// Set", "RV64I Base Integer Instruction Set" and "M Extension".
#[derive(Clone, Copy, PartialEq, Eq)]
pub enum Instr {
    /// `imm`, 0 to 1,048,575, is bits 12 to 31 of a number of 32 bits, whose others are 0.
    Upper {
        op: UpperOp,
        rd: u8,
        imm: u32,
    },
    /// A jump by `offset` bytes, an even number from -1,048,576 to 1,048,574.
    Jal {
        rd: u8,
        offset: i32,
    },
    /// A branch by `offset` bytes, an even number from -4,096 to 4,094.
    Branch {
        op: BranchOp,
        rs1: u8,
        rs2: u8,
        offset: i32,
    },
    /// `imm` is from -2,048 to 2,047. Of `jalr` and of a load it is the displacement from `rs1`.
    Imm {
        op: ImmOp,
        rd: u8,
        rs1: u8,
        imm: i32,
    },
    /// `rs1` is shifted by `amount`, 0 to 63, and to 31 in the rows on 32 bits.
    Shift {
        op: ShiftOp,
        rd: u8,
        rs1: u8,
        amount: u8,
    },
    /// `rs2` goes to the address `rs1 + imm`, where `imm` is from -2,048 to 2,047.
    Store {
        op: StoreOp,
        rs1: u8,
        rs2: u8,
        imm: i32,
    },
    /// `rd` gets the result of `rs1` and `rs2`.
    Reg {
        op: RegOp,
        rd: u8,
        rs1: u8,
        rs2: u8,
    },
}

/// Prints the row's name.
impl fmt::Debug for Instr {
    fn fmt<W: fmt::Write>(&self, f: &mut fmt::Formatter<W>) -> fmt::Result {
        match str::from_utf8(self.name().as_slice()) {
            Ok(name) => f.write_str(name),
            Err(_) => Err(fmt::Error),
        }
    }
}

/// The rows with a number for the upper bits.
#[derive(Clone, Copy, PartialEq, Eq)]
pub enum UpperOp {
    /// Load upper immediate.
    Lui,
    /// Add upper immediate to the program counter.
    Auipc,
}

/// The rows that branch.
#[derive(Clone, Copy, PartialEq, Eq)]
pub enum BranchOp {
    /// Branch where equal.
    Beq,
    /// Branch where not equal.
    Bne,
    /// Branch where less, signed.
    Blt,
    /// Branch where not less, signed.
    Bge,
    /// Branch where less, unsigned.
    Bltu,
    /// Branch where not less, unsigned.
    Bgeu,
}

/// The rows with a signed number of 12 bits: `jalr`, loads and arithmetic.
#[derive(Clone, Copy, PartialEq, Eq)]
pub enum ImmOp {
    /// Jump to a register and a number, and link.
    Jalr,
    /// Load 8 bits, sign-extended.
    Lb,
    /// Load 16 bits, sign-extended.
    Lh,
    /// Load 32 bits, sign-extended.
    Lw,
    /// Load 64 bits.
    Ld,
    /// Load 8 bits, zero-extended.
    Lbu,
    /// Load 16 bits, zero-extended.
    Lhu,
    /// Load 32 bits, zero-extended.
    Lwu,
    /// Add a number.
    Addi,
    /// 1 where less than a number, signed.
    Slti,
    /// 1 where less than a number, unsigned.
    Sltiu,
    /// Exclusive or with a number.
    Xori,
    /// Or with a number.
    Ori,
    /// And with a number.
    Andi,
    /// Add a number, on 32 bits.
    Addiw,
}

/// The rows that shift by a number.
#[derive(Clone, Copy, PartialEq, Eq)]
pub enum ShiftOp {
    /// Shift left.
    Slli,
    /// Shift right with zeros.
    Srli,
    /// Shift right with the sign.
    Srai,
    /// Shift left, on 32 bits.
    Slliw,
    /// Shift right with zeros, on 32 bits.
    Srliw,
    /// Shift right with the sign, on 32 bits.
    Sraiw,
}

/// The rows that store.
#[derive(Clone, Copy, PartialEq, Eq)]
pub enum StoreOp {
    /// Store 8 bits.
    Sb,
    /// Store 16 bits.
    Sh,
    /// Store 32 bits.
    Sw,
    /// Store 64 bits.
    Sd,
}

/// The rows with two source registers.
#[derive(Clone, Copy, PartialEq, Eq)]
pub enum RegOp {
    /// Add.
    Add,
    /// Subtract.
    Sub,
    /// Shift left.
    Sll,
    /// 1 where less, signed.
    Slt,
    /// 1 where less, unsigned.
    Sltu,
    /// Exclusive or.
    Xor,
    /// Shift right with zeros.
    Srl,
    /// Shift right with the sign.
    Sra,
    /// Or.
    Or,
    /// And.
    And,
    /// Add, on 32 bits.
    Addw,
    /// Subtract, on 32 bits.
    Subw,
    /// Shift left, on 32 bits.
    Sllw,
    /// Shift right with zeros, on 32 bits.
    Srlw,
    /// Shift right with the sign, on 32 bits.
    Sraw,
    /// The product's low word.
    Mul,
    /// The product's high word, signed.
    Mulh,
    /// The product's high word, signed by unsigned.
    Mulhsu,
    /// The product's high word, unsigned.
    Mulhu,
    /// Quotient, signed.
    Div,
    /// Quotient, unsigned.
    Divu,
    /// Remainder, signed.
    Rem,
    /// Remainder, unsigned.
    Remu,
    /// The product, on 32 bits.
    Mulw,
    /// Quotient, signed, on 32 bits.
    Divw,
    /// Quotient, unsigned, on 32 bits.
    Divuw,
    /// Remainder, signed, on 32 bits.
    Remw,
    /// Remainder, unsigned, on 32 bits.
    Remuw,
}
