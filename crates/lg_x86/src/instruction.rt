// The instructions of x86-64, by the shapes of their spellings.

use std::{fmt, str};

/// An instruction: its row, and its operands. Registers are 0 to 15: rax, rcx, rdx, rbx, rsp, rbp, rsi,
/// rdi, and r8 to r15.
///
/// The operations are those of Intel's Software Developer's Manual, volume 2. A name that ends in `i`, or
/// in a number of bits, parts rows that share a mnemonic there.
#[derive(Clone, Copy, PartialEq, Eq)]
pub enum Instr {
    /// `rm` is combined with `reg`, 64 bits each.
    RmReg {
        op: RmRegOp,
        rm: u8,
        reg: u8,
    },
    /// `rm` is combined with a number of 32 bits, sign-extended to 64.
    Imm {
        op: ImmOp,
        rm: u8,
        imm: i32,
    },
    /// `reg` gets the result of `rm`.
    RegRm {
        op: RegRmOp,
        reg: u8,
        rm: u8,
    },
    /// `reg` gets what is at the address `base + disp`, or this address.
    Load {
        op: LoadOp,
        reg: u8,
        base: u8,
        disp: i32,
    },
    /// The low bytes of `reg` go to the address `base + disp`.
    Store {
        op: StoreOp,
        base: u8,
        disp: i32,
        reg: u8,
    },
    /// `reg` gets `base + index`. The index is not rsp, 4.
    Lea2 {
        reg: u8,
        base: u8,
        index: u8,
    },
    /// `reg` gets a number of 32 bits, zero-extended.
    Movi32 {
        reg: u8,
        imm: u32,
    },
    /// `rm` gets a number of 32 bits, sign-extended.
    Movs32 {
        rm: u8,
        imm: i32,
    },
    /// `reg` gets a number of 64 bits.
    Movi64 {
        reg: u8,
        imm: u64,
    },
    /// An operation on `rm`; of shifts the count is in cl.
    Unary {
        op: UnaryOp,
        rm: u8,
    },
    /// `rm` is shifted by `count`, 0 to 63.
    Shift {
        op: ShiftOp,
        rm: u8,
        count: u8,
    },
    /// `reg` gets its bytes in reverse order.
    Bswap {
        reg: u8,
    },
    /// `reg` goes to the stack, or comes from there.
    Stack {
        op: StackOp,
        reg: u8,
    },
    /// A jump where the condition holds, by -128 to 127 bytes from the instruction's end.
    JumpIfShort {
        cond: Cond,
        distance: i32,
    },
    /// A jump where the condition holds, by a distance in bytes from the instruction's end.
    JumpIfNear {
        cond: Cond,
        distance: i32,
    },
    /// The low byte of `rm` becomes 1 where the condition holds, else 0.
    Set {
        cond: Cond,
        rm: u8,
    },
    /// A jump by -128 to 127 bytes from the instruction's end.
    JumpShort {
        distance: i32,
    },
    /// A jump or call by a distance in bytes from the instruction's end.
    JumpNear {
        op: JumpNearOp,
        distance: i32,
    },
    /// A jump or call to the address in `rm`.
    JumpReg {
        op: JumpRegOp,
        rm: u8,
    },
    /// An operation without operands.
    Bare {
        op: BareOp,
    },
}

/// Prints the row's name.
impl fmt::Debug for Instr {
    fn fmt<W: fmt::Write>(&self, f: &mut fmt::Formatter<W>) -> fmt::Result {
        match str::from_utf8(self.name().as_slice()) {
            Ok(name) => f.write_str(name),
            Err(_) => Err(fmt::Error),
        }
    }
}

/// The rows that combine two registers.
#[derive(Clone, Copy, PartialEq, Eq)]
pub enum RmRegOp {
    /// Add.
    Add,
    /// Or.
    Or,
    /// Add with the carry.
    Adc,
    /// Subtract with the borrow.
    Sbb,
    /// And.
    And,
    /// Subtract.
    Sub,
    /// Exclusive or.
    Xor,
    /// Compare: set the flags as a subtraction does.
    Cmp,
    /// Set the flags as an and does.
    Test,
    /// Move.
    Mov,
}

/// The rows that combine a register with a number.
#[derive(Clone, Copy, PartialEq, Eq)]
pub enum ImmOp {
    /// Add.
    Addi,
    /// Or.
    Ori,
    /// Add with the carry.
    Adci,
    /// Subtract with the borrow.
    Sbbi,
    /// And.
    Andi,
    /// Subtract.
    Subi,
    /// Exclusive or.
    Xori,
    /// Compare: set the flags as a subtraction does.
    Cmpi,
}

/// The rows that make a register from another.
#[derive(Clone, Copy, PartialEq, Eq)]
pub enum RegRmOp {
    /// The low 32 bits, zero-extended.
    Ext32u,
    /// The low 32 bits, sign-extended.
    Ext32s,
    /// The low 8 bits, zero-extended.
    Ext8u,
    /// The low 16 bits, zero-extended.
    Ext16u,
    /// The low 8 bits, sign-extended.
    Ext8s,
    /// The low 16 bits, sign-extended.
    Ext16s,
    /// Multiply `reg` by `rm`.
    Imul,
}

/// The rows that load, or take an address.
#[derive(Clone, Copy, PartialEq, Eq)]
pub enum LoadOp {
    /// Load 64 bits.
    Ld64,
    /// Load 32 bits, zero-extended.
    Ld32u,
    /// Load 32 bits, sign-extended.
    Ld32s,
    /// Load 8 bits, zero-extended.
    Ld8u,
    /// Load 16 bits, zero-extended.
    Ld16u,
    /// Load 8 bits, sign-extended.
    Ld8s,
    /// Load 16 bits, sign-extended.
    Ld16s,
    /// The address itself.
    Lea,
}

/// The rows that store.
#[derive(Clone, Copy, PartialEq, Eq)]
pub enum StoreOp {
    /// Store 64 bits.
    St64,
    /// Store 32 bits.
    St32,
    /// Store 16 bits.
    St16,
    /// Store 8 bits.
    St8,
}

/// The rows with one register.
#[derive(Clone, Copy, PartialEq, Eq)]
pub enum UnaryOp {
    /// Turn each bit.
    Not,
    /// Subtract from 0.
    Neg,
    /// Multiply rax, unsigned, into rdx and rax.
    Mul,
    /// Multiply rax, signed, into rdx and rax.
    Imul1,
    /// Divide rdx and rax, unsigned: quotient in rax, remainder in rdx.
    Div,
    /// Divide rdx and rax, signed: quotient in rax, remainder in rdx.
    Idiv,
    /// Shift left.
    Shl,
    /// Shift right with zeros.
    Shr,
    /// Shift right with the sign.
    Sar,
}

/// The rows that shift by a number.
#[derive(Clone, Copy, PartialEq, Eq)]
pub enum ShiftOp {
    /// Shift left.
    Shli,
    /// Shift right with zeros.
    Shri,
    /// Shift right with the sign.
    Sari,
}

/// The rows that work on the stack.
#[derive(Clone, Copy, PartialEq, Eq)]
pub enum StackOp {
    /// Push.
    Push,
    /// Pop.
    Pop,
}

/// The rows that go by a distance of 32 bits.
#[derive(Clone, Copy, PartialEq, Eq)]
pub enum JumpNearOp {
    /// Jump.
    Jmp32,
    /// Call.
    Call32,
}

/// The rows that go to the address in a register.
#[derive(Clone, Copy, PartialEq, Eq)]
pub enum JumpRegOp {
    /// Jump.
    Jmpr,
    /// Call.
    Callr,
}

/// The rows without operands.
#[derive(Clone, Copy, PartialEq, Eq)]
pub enum BareOp {
    /// Fill rdx with the sign of rax.
    Cqo,
    /// Return.
    Ret,
    /// Nothing.
    Nop,
}

/// The conditions on the flags.
#[derive(Clone, Copy, PartialEq, Eq)]
pub enum Cond {
    /// OF is 1.
    Overflow,
    /// OF is 0.
    NoOverflow,
    /// CF is 1; unsigned less.
    Below,
    /// CF is 0; unsigned not less.
    AboveOrEqual,
    /// ZF is 1.
    Equal,
    /// ZF is 0.
    NotEqual,
    /// CF or ZF is 1; unsigned not greater.
    BelowOrEqual,
    /// CF and ZF are 0; unsigned greater.
    Above,
    /// SF is 1.
    Sign,
    /// SF is 0.
    NoSign,
    /// SF and OF differ; signed less.
    Less,
    /// SF and OF are equal; signed not less.
    GreaterOrEqual,
    /// ZF is 1, or SF and OF differ; signed not greater.
    LessOrEqual,
    /// ZF is 0, and SF and OF are equal; signed greater.
    Greater,
}
