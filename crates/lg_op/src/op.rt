// The operations of the instruction set, by families, as in the chapter on the instruction set of the manual of GNU lightning 2.
// O1, O2, O3 and O4 are the operands in order.

use std::{fmt, str};

/// What the last operand of an operation is.
#[derive(Clone, Copy, PartialEq, Eq)]
pub enum LastOperand {
    /// A register: the name has `r`.
    Register,
    /// An immediate or a label: the name has `i`.
    Immediate,
}

/// What an operation makes of O2 and O3, into the register O1.
#[derive(Clone, Copy, PartialEq, Eq)]
pub enum BinaryOp {
    /// O1 = O2 + O3.
    Add,
    /// O1 = O2 - O3.
    Sub,
    /// O1 = O3 - O2.
    Rsb,
    /// The low word of O2 * O3.
    Mul,
    /// The bits that both have.
    And,
    /// The bits that one of them has.
    Or,
    /// The bits that exactly one of them has.
    Xor,
    /// O2 shifted left by O3.
    Lsh,
    /// O2 shifted right by O3, with the sign.
    Rsh,
    /// O2 shifted right by O3, with zeros.
    RshU,
    /// The signed quotient, towards zero.
    Div,
    /// The unsigned quotient.
    DivU,
    /// The signed remainder, with the dividend's sign.
    Rem,
    /// The unsigned remainder.
    RemU,
    /// O2 + O3; the carry is the carry out.
    Addc,
    /// O2 - O3; the carry is the borrow.
    Subc,
    /// O2 + O3 + carry; the carry is the carry out.
    Addx,
    /// O2 - (O3 + carry); the carry is the borrow.
    Subx,
    /// 1 where O2 is less, signed, else 0.
    Lt,
    /// 1 where O2 is less, unsigned, else 0.
    LtU,
    /// 1 where O2 is less or equal, signed, else 0.
    Le,
    /// 1 where O2 is less or equal, unsigned, else 0.
    LeU,
    /// 1 where O2 is greater or equal, signed, else 0.
    Ge,
    /// 1 where O2 is greater or equal, unsigned, else 0.
    GeU,
    /// 1 where O2 is greater, signed, else 0.
    Gt,
    /// 1 where O2 is greater, unsigned, else 0.
    GtU,
    /// 1 where they are equal, else 0.
    Eq,
    /// 1 where they differ, else 0.
    Ne,
}

/// What an operation makes of O3 and O4, into the two registers O1 and O2, which differ.
#[derive(Clone, Copy, PartialEq, Eq)]
pub enum WideOp {
    /// The signed product of 128 bits: the low word, then the high word.
    Mul,
    /// The unsigned product of 128 bits: the low word, then the high word.
    MulU,
    /// The signed quotient, then the remainder.
    Div,
    /// The unsigned quotient, then the remainder.
    DivU,
}

/// When a branch to O1 is taken, by O2 and O3.
#[derive(Clone, Copy, PartialEq, Eq)]
pub enum Condition {
    /// O2 is less, signed.
    Lt,
    /// O2 is less, unsigned.
    LtU,
    /// O2 is less or equal, signed.
    Le,
    /// O2 is less or equal, unsigned.
    LeU,
    /// O2 is greater or equal, signed.
    Ge,
    /// O2 is greater or equal, unsigned.
    GeU,
    /// O2 is greater, signed.
    Gt,
    /// O2 is greater, unsigned.
    GtU,
    /// They are equal.
    Eq,
    /// They differ.
    Ne,
    /// They have a common bit.
    Ms,
    /// They have no common bit.
    Mc,
}

/// What a branch to O1 adds to or takes from the register O2, by O3, and when it is taken.
#[derive(Clone, Copy, PartialEq, Eq)]
pub enum BranchSumOp {
    /// O2 + O3, where the signed sum does not fit.
    OverflowAdd,
    /// O2 + O3, where the unsigned sum does not fit.
    OverflowAddU,
    /// O2 - O3, where the signed difference does not fit.
    OverflowSub,
    /// O2 - O3, where the unsigned difference does not fit.
    OverflowSubU,
    /// O2 + O3, where the signed sum fits.
    FitAdd,
    /// O2 + O3, where the unsigned sum fits.
    FitAddU,
    /// O2 - O3, where the signed difference fits.
    FitSub,
    /// O2 - O3, where the unsigned difference fits.
    FitSubU,
}

/// Jumps, calls and what is passed by them, with one operand.
#[derive(Clone, Copy, PartialEq, Eq)]
pub enum ControlOp {
    /// A jump.
    Jmp,
    /// A call without arguments.
    Call,
    /// A call with the arguments that were pushed.
    Finish,
    /// The next argument of a call.
    Pusharg,
    /// A return with a result.
    Ret,
}

/// What an operation makes of the register O2, into the register O1.
#[derive(Clone, Copy, PartialEq, Eq)]
pub enum UnaryOp {
    /// 0 - O2.
    Neg,
    /// Each bit turned.
    Com,
    /// A copy.
    Mov,
    /// The low byte, extended by its sign.
    ExtrC,
    /// The low byte, extended with zeros.
    ExtrUc,
    /// The low 2 bytes, extended by their sign.
    ExtrS,
    /// The low 2 bytes, extended with zeros.
    ExtrUs,
    /// The low 4 bytes, extended by their sign.
    ExtrI,
    /// The low 4 bytes, extended with zeros.
    ExtrUi,
    /// The low 2 bytes in reverse order, the rest 0.
    HtonrUs,
    /// The low 4 bytes in reverse order, the rest 0.
    HtonrUi,
    /// The 8 bytes in reverse order.
    HtonrUl,
}

/// The operations that come in one form.
#[derive(Clone, Copy, PartialEq, Eq)]
pub enum PlainOp {
    /// A number into a register.
    Movi,
    /// Begins a call.
    Prepare,
    /// The call is variadic; outside of a call, the function has variable arguments.
    Ellipsis,
    /// Begins a function.
    Prolog,
    /// Ends a function, and returns.
    Epilog,
    /// A return.
    Ret,
    /// The function's next argument.
    Arg,
    /// A local of O1 bytes, 1 to 65,536.
    Allocai,
    /// The next node's code begins at a multiple of O1, a power of two from 1 to 64.
    Align,
    /// The list of a function's variable arguments from its first one on.
    VaStart,
    /// The next argument of such a list.
    VaArg,
    /// The end of such a list.
    VaEnd,
}

/// How many bytes are read, and how they are extended to a word.
#[derive(Clone, Copy, PartialEq, Eq)]
pub enum ValueType {
    /// 1 byte, extended by its sign: `_c`.
    Char,
    /// 1 byte, extended with zeros: `_uc`.
    UnsignedChar,
    /// 2 bytes, extended by their sign: `_s`.
    Short,
    /// 2 bytes, extended with zeros: `_us`.
    UnsignedShort,
    /// 4 bytes, extended by their sign: `_i`.
    Int,
    /// 4 bytes, extended with zeros: `_ui`.
    UnsignedInt,
    /// 8 bytes: `_l` or nothing.
    Long,
}

/// How many bytes are written, the low ones of a word.
#[derive(Clone, Copy, PartialEq, Eq)]
pub enum StoreType {
    /// 1 byte: `_c`.
    Char,
    /// 2 bytes: `_s`.
    Short,
    /// 4 bytes: `_i`.
    Int,
    /// 8 bytes: `_l` or nothing.
    Long,
}

/// How an address is given.
#[derive(Clone, Copy, PartialEq, Eq)]
pub enum Addressing {
    /// A register: `r`.
    Register,
    /// A number: `i`.
    Immediate,
    /// The sum of two registers: `xr`.
    RegisterRegister,
    /// The sum of a register and a number: `xi`.
    RegisterImmediate,
}

/// An operation of the instruction set, or `.align`.
#[derive(Clone, Copy, PartialEq, Eq)]
pub enum Op {
    /// O1 = O2 op O3.
    Binary(BinaryOp, LastOperand),
    /// O1 and O2 = O3 op O4.
    Wide(WideOp, LastOperand),
    /// Goes to O1 where O2 and O3 meet the condition.
    Branch(Condition, LastOperand),
    /// O2 = O2 op O3, and goes to O1 where the condition holds.
    BranchSum(BranchSumOp, LastOperand),
    /// A jump, a call or what is passed by one.
    Control(ControlOp, LastOperand),
    /// O1 = op O2.
    Unary(UnaryOp),
    /// An operation that comes in one form.
    Plain(PlainOp),
    /// O1 = what is at an address, by the type.
    Load(ValueType, Addressing),
    /// The low bytes of the last operand go to an address.
    Store(StoreType, Addressing),
    /// O1 = the result of the call, by the type.
    Retval(ValueType),
    /// O1 = the argument O2, by the type.
    Getarg(ValueType),
}

/// Prints the operation's name.
impl fmt::Debug for Op {
    fn fmt<W: fmt::Write>(&self, f: &mut fmt::Formatter<W>) -> fmt::Result {
        match str::from_utf8(self.name().as_slice()) {
            Ok(name) => f.write_str(name),
            Err(_) => Err(fmt::Error),
        }
    }
}
