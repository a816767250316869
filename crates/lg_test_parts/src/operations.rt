// Names and operands of the instruction table of the manual of GNU lightning 2.

use lg_base::HostName;
use lg_op::*;

// Words, and the operations that they name.
const OPERATIONS: &[(&[u8], Option<Op>)] = &[
    (
        b"rsbi",
        Some(Op::Binary(BinaryOp::Rsb, LastOperand::Immediate)),
    ),
    (
        b"rshr",
        Some(Op::Binary(BinaryOp::Rsh, LastOperand::Register)),
    ),
    (
        b"rshi_u",
        Some(Op::Binary(BinaryOp::RshU, LastOperand::Immediate)),
    ),
    (
        b"remr_u",
        Some(Op::Binary(BinaryOp::RemU, LastOperand::Register)),
    ),
    (
        b"qdivi_u",
        Some(Op::Wide(WideOp::DivU, LastOperand::Immediate)),
    ),
    (
        b"bgtr_u",
        Some(Op::Branch(Condition::GtU, LastOperand::Register)),
    ),
    (
        b"bmci",
        Some(Op::Branch(Condition::Mc, LastOperand::Immediate)),
    ),
    (
        b"bosubr",
        Some(Op::BranchSum(BranchSumOp::OverflowSub, LastOperand::Register)),
    ),
    (
        b"bxaddi_u",
        Some(Op::BranchSum(BranchSumOp::FitAddU, LastOperand::Immediate)),
    ),
    (b"ret", Some(Op::Plain(PlainOp::Ret))),
    (
        b"reti",
        Some(Op::Control(ControlOp::Ret, LastOperand::Immediate)),
    ),
    (b"extr_uc", Some(Op::Unary(UnaryOp::ExtrUc))),
    (b"htonr_ul", Some(Op::Unary(UnaryOp::HtonrUl))),
    (b"movi", Some(Op::Plain(PlainOp::Movi))),
    (b".align", Some(Op::Plain(PlainOp::Align))),
    (b"va_arg", Some(Op::Plain(PlainOp::VaArg))),
    (
        b"ldr",
        Some(Op::Load(ValueType::Long, Addressing::Register)),
    ),
    (
        b"ldi_l",
        Some(Op::Load(ValueType::Long, Addressing::Immediate)),
    ),
    (
        b"ldxr_us",
        Some(Op::Load(ValueType::UnsignedShort, Addressing::RegisterRegister)),
    ),
    (
        b"ldxi_c",
        Some(Op::Load(ValueType::Char, Addressing::RegisterImmediate)),
    ),
    (
        b"stxi_l",
        Some(Op::Store(StoreType::Long, Addressing::RegisterImmediate)),
    ),
    (
        b"str_i",
        Some(Op::Store(StoreType::Int, Addressing::Register)),
    ),
    (b"retval_c", Some(Op::Retval(ValueType::Char))),
    (b"retval_l", Some(Op::Retval(ValueType::Long))),
    (b"getarg_ui", Some(Op::Getarg(ValueType::UnsignedInt))),
    // words that name none
    (b"", None),
    (b"add", None),
    (b"addr_u", None),
    (b"addr_l", None),
    (b"ADDR", None),
    (b"addrr", None),
    (b"addr ", None),
    (b"align", None),
    (b".aligns", None),
    (b".data", None),
    (b"ldr_ul", None),
    (b"str_uc", None),
    (b"stxr_ui", None),
    (b"retr_l", None),
    (b"movi_l", None),
    (b"rshr_l", None),
    (b"extr_l", None),
    (b"hmulr", None),
    (b"getargr", None),
    (b"jmp", None),
];

// Returns whether an operation's node with these operands is in form.
fn takes(word: &[u8], operands: &[Operand]) -> bool {
    if operands.len() > 4 {
        return false;
    }
    match Op::by_name(word) {
        Some(op) => Node {
            op,
            operands: Operands::of(operands),
            line: 1,
        }
        .is_in_form(),
        None => false,
    }
}

const R0: Operand = Operand::Reg(Reg::R0);

const V1: Operand = Operand::Reg(Reg::V1);

const FP: Operand = Operand::Reg(Reg::Fp);

const SEVEN: Operand = Operand::Number(7);

const LABEL: Operand = Operand::Label(Label(0));

const PUTS: Operand = Operand::Host(HostName::Puts);

const SLOT: Operand = Operand::Slot(0);

// Operations with operands, and whether they take them.
const TAKEN: &[(&[u8], &[Operand], bool)] = &[
    (b"addr", &[R0, R0, FP], true),
    (b"subi", &[V1, FP, LABEL], true),
    (b"qmulr", &[R0, V1, R0, FP], true),
    (b"qdivi_u", &[V1, R0, R0, SEVEN], true),
    (b"blti", &[LABEL, FP, SEVEN], true),
    (b"boaddr", &[LABEL, R0, FP], true),
    (b"jmpr", &[FP], true),
    (b"jmpi", &[LABEL], true),
    (b"calli", &[PUTS], true),
    (b"finishi", &[LABEL], true),
    (b"pushargi", &[PUTS], true),
    (b"reti", &[SEVEN], true),
    (b"movr", &[R0, FP], true),
    (b"movi", &[R0, PUTS], true),
    (b"ldr_c", &[R0, FP], true),
    (b"ldxi", &[R0, FP, SEVEN], true),
    (b"stxi_s", &[SEVEN, FP, R0], true),
    (b"sti", &[LABEL, FP], true),
    (b"retval", &[R0], true),
    (b"arg", &[SLOT], true),
    (b"getarg_c", &[R0, SLOT], true),
    (b"allocai", &[Operand::Number(65_536), SLOT], true),
    (b".align", &[Operand::Number(64)], true),
    (b"prolog", &[], true),
    (b"epilog", &[], true),
    (b"ret", &[], true),
    (b"addr", &[R0, R0], false),
    (b"addr", &[FP, R0, R0], false),
    (b"addr", &[R0, R0, SEVEN], false),
    (b"addi", &[R0, R0, R0], false),
    (b"qmulr", &[R0, R0, V1, V1], false),
    (b"qmuli_u", &[V1, V1, R0, SEVEN], false),
    (b"boaddr", &[LABEL, FP, R0], false),
    (b"jmpi", &[PUTS], false),
    (b"jmpi", &[SEVEN], false),
    (b"calli", &[SEVEN], false),
    (b"retval", &[FP], false),
    (b"movi", &[R0, SLOT], false),
    (b"stxi", &[FP, SEVEN, R0], false),
    (b"allocai", &[Operand::Number(0), SLOT], false),
    (b"allocai", &[Operand::Number(65_537), SLOT], false),
    (b".align", &[Operand::Number(128)], false),
    (b".align", &[Operand::Number(3)], false),
    (b"prolog", &[R0], false),
    (b"getarg", &[R0, SEVEN], false),
];

// Returns whether the words name these operations, or none.
fn are_named() -> bool {
    for (word, op) in OPERATIONS {
        if Op::by_name(word) != *op {
            return false;
        }
    }
    true
}

// Returns whether each operation takes the operands that it should, and no others.
fn are_taken() -> bool {
    for (word, operands, taken) in TAKEN {
        if takes(word, operands) != *taken {
            return false;
        }
    }
    true
}

#[test]
fn names_operations_and_takes_operands(rt: HostRuntime) {
    assert!(rt; are_named() && are_taken());
}
