// The table of the operations' names, by their first bytes.

ghost use Rattle.std.specs.Prelude.{◌≡◌, map};
ghost use Rattle.lg_op.specs.Names.{names_from};

use crate::op::{
    Addressing, BinaryOp, BranchSumOp, Condition, ControlOp, LastOperand, Op, PlainOp, StoreType,
    UnaryOp, ValueType, WideOp,
};

/// The names that begin with a byte, each with its operation; where the type is that of 8 bytes, both its names.
pub(crate) fn names_from(byte: u8) -> &'static [(&'static [u8], Op)]
    ensures { map (λ e. (e.0.now, e.1)) result.now ≡ names_from byte }
{
    match byte {
        b'.' => &NAMES_DOT,
        b'a' => &NAMES_A,
        b'b' => &NAMES_B,
        b'c' => &NAMES_C,
        b'd' => &NAMES_D,
        b'e' => &NAMES_E,
        b'f' => &NAMES_F,
        b'g' => &NAMES_G,
        b'h' => &NAMES_H,
        b'j' => &NAMES_J,
        b'l' => &NAMES_L,
        b'm' => &NAMES_M,
        b'n' => &NAMES_N,
        b'o' => &NAMES_O,
        b'p' => &NAMES_P,
        b'q' => &NAMES_Q,
        b'r' => &NAMES_R,
        b's' => &NAMES_S,
        b'v' => &NAMES_V,
        b'x' => &NAMES_X,
        _ => &[],
    }
}

// The names of all operations, by the first byte.
static NAMES_DOT: [(&[u8], Op); 1] = [(b".align", Op::Plain(PlainOp::Align))];

static NAMES_A: [(&[u8], Op); 10] = [
    (b"addr", Op::Binary(BinaryOp::Add, LastOperand::Register)),
    (b"addi", Op::Binary(BinaryOp::Add, LastOperand::Immediate)),
    (b"andr", Op::Binary(BinaryOp::And, LastOperand::Register)),
    (b"andi", Op::Binary(BinaryOp::And, LastOperand::Immediate)),
    (b"addcr", Op::Binary(BinaryOp::Addc, LastOperand::Register)),
    (b"addci", Op::Binary(BinaryOp::Addc, LastOperand::Immediate)),
    (b"addxr", Op::Binary(BinaryOp::Addx, LastOperand::Register)),
    (b"addxi", Op::Binary(BinaryOp::Addx, LastOperand::Immediate)),
    (b"arg", Op::Plain(PlainOp::Arg)),
    (b"allocai", Op::Plain(PlainOp::Allocai)),
];

static NAMES_B: [(&[u8], Op); 40] = [
    (b"bltr", Op::Branch(Condition::Lt, LastOperand::Register)),
    (b"blti", Op::Branch(Condition::Lt, LastOperand::Immediate)),
    (b"bltr_u", Op::Branch(Condition::LtU, LastOperand::Register)),
    (
        b"blti_u",
        Op::Branch(Condition::LtU, LastOperand::Immediate),
    ),
    (b"bler", Op::Branch(Condition::Le, LastOperand::Register)),
    (b"blei", Op::Branch(Condition::Le, LastOperand::Immediate)),
    (b"bler_u", Op::Branch(Condition::LeU, LastOperand::Register)),
    (
        b"blei_u",
        Op::Branch(Condition::LeU, LastOperand::Immediate),
    ),
    (b"bger", Op::Branch(Condition::Ge, LastOperand::Register)),
    (b"bgei", Op::Branch(Condition::Ge, LastOperand::Immediate)),
    (b"bger_u", Op::Branch(Condition::GeU, LastOperand::Register)),
    (
        b"bgei_u",
        Op::Branch(Condition::GeU, LastOperand::Immediate),
    ),
    (b"bgtr", Op::Branch(Condition::Gt, LastOperand::Register)),
    (b"bgti", Op::Branch(Condition::Gt, LastOperand::Immediate)),
    (b"bgtr_u", Op::Branch(Condition::GtU, LastOperand::Register)),
    (
        b"bgti_u",
        Op::Branch(Condition::GtU, LastOperand::Immediate),
    ),
    (b"beqr", Op::Branch(Condition::Eq, LastOperand::Register)),
    (b"beqi", Op::Branch(Condition::Eq, LastOperand::Immediate)),
    (b"bner", Op::Branch(Condition::Ne, LastOperand::Register)),
    (b"bnei", Op::Branch(Condition::Ne, LastOperand::Immediate)),
    (b"bmsr", Op::Branch(Condition::Ms, LastOperand::Register)),
    (b"bmsi", Op::Branch(Condition::Ms, LastOperand::Immediate)),
    (b"bmcr", Op::Branch(Condition::Mc, LastOperand::Register)),
    (b"bmci", Op::Branch(Condition::Mc, LastOperand::Immediate)),
    (
        b"boaddr",
        Op::BranchSum(BranchSumOp::OverflowAdd, LastOperand::Register),
    ),
    (
        b"boaddi",
        Op::BranchSum(BranchSumOp::OverflowAdd, LastOperand::Immediate),
    ),
    (
        b"boaddr_u",
        Op::BranchSum(BranchSumOp::OverflowAddU, LastOperand::Register),
    ),
    (
        b"boaddi_u",
        Op::BranchSum(BranchSumOp::OverflowAddU, LastOperand::Immediate),
    ),
    (
        b"bosubr",
        Op::BranchSum(BranchSumOp::OverflowSub, LastOperand::Register),
    ),
    (
        b"bosubi",
        Op::BranchSum(BranchSumOp::OverflowSub, LastOperand::Immediate),
    ),
    (
        b"bosubr_u",
        Op::BranchSum(BranchSumOp::OverflowSubU, LastOperand::Register),
    ),
    (
        b"bosubi_u",
        Op::BranchSum(BranchSumOp::OverflowSubU, LastOperand::Immediate),
    ),
    (
        b"bxaddr",
        Op::BranchSum(BranchSumOp::FitAdd, LastOperand::Register),
    ),
    (
        b"bxaddi",
        Op::BranchSum(BranchSumOp::FitAdd, LastOperand::Immediate),
    ),
    (
        b"bxaddr_u",
        Op::BranchSum(BranchSumOp::FitAddU, LastOperand::Register),
    ),
    (
        b"bxaddi_u",
        Op::BranchSum(BranchSumOp::FitAddU, LastOperand::Immediate),
    ),
    (
        b"bxsubr",
        Op::BranchSum(BranchSumOp::FitSub, LastOperand::Register),
    ),
    (
        b"bxsubi",
        Op::BranchSum(BranchSumOp::FitSub, LastOperand::Immediate),
    ),
    (
        b"bxsubr_u",
        Op::BranchSum(BranchSumOp::FitSubU, LastOperand::Register),
    ),
    (
        b"bxsubi_u",
        Op::BranchSum(BranchSumOp::FitSubU, LastOperand::Immediate),
    ),
];

static NAMES_C: [(&[u8], Op); 3] = [
    (
        b"callr",
        Op::Control(ControlOp::Call, LastOperand::Register),
    ),
    (
        b"calli",
        Op::Control(ControlOp::Call, LastOperand::Immediate),
    ),
    (b"comr", Op::Unary(UnaryOp::Com)),
];

static NAMES_D: [(&[u8], Op); 4] = [
    (b"divr", Op::Binary(BinaryOp::Div, LastOperand::Register)),
    (b"divi", Op::Binary(BinaryOp::Div, LastOperand::Immediate)),
    (b"divr_u", Op::Binary(BinaryOp::DivU, LastOperand::Register)),
    (
        b"divi_u",
        Op::Binary(BinaryOp::DivU, LastOperand::Immediate),
    ),
];

static NAMES_E: [(&[u8], Op); 10] = [
    (b"eqr", Op::Binary(BinaryOp::Eq, LastOperand::Register)),
    (b"eqi", Op::Binary(BinaryOp::Eq, LastOperand::Immediate)),
    (b"extr_c", Op::Unary(UnaryOp::ExtrC)),
    (b"extr_uc", Op::Unary(UnaryOp::ExtrUc)),
    (b"extr_s", Op::Unary(UnaryOp::ExtrS)),
    (b"extr_us", Op::Unary(UnaryOp::ExtrUs)),
    (b"extr_i", Op::Unary(UnaryOp::ExtrI)),
    (b"extr_ui", Op::Unary(UnaryOp::ExtrUi)),
    (b"ellipsis", Op::Plain(PlainOp::Ellipsis)),
    (b"epilog", Op::Plain(PlainOp::Epilog)),
];

static NAMES_F: [(&[u8], Op); 2] = [
    (
        b"finishr",
        Op::Control(ControlOp::Finish, LastOperand::Register),
    ),
    (
        b"finishi",
        Op::Control(ControlOp::Finish, LastOperand::Immediate),
    ),
];

static NAMES_G: [(&[u8], Op); 16] = [
    (b"ger", Op::Binary(BinaryOp::Ge, LastOperand::Register)),
    (b"gei", Op::Binary(BinaryOp::Ge, LastOperand::Immediate)),
    (b"ger_u", Op::Binary(BinaryOp::GeU, LastOperand::Register)),
    (b"gei_u", Op::Binary(BinaryOp::GeU, LastOperand::Immediate)),
    (b"gtr", Op::Binary(BinaryOp::Gt, LastOperand::Register)),
    (b"gti", Op::Binary(BinaryOp::Gt, LastOperand::Immediate)),
    (b"gtr_u", Op::Binary(BinaryOp::GtU, LastOperand::Register)),
    (b"gti_u", Op::Binary(BinaryOp::GtU, LastOperand::Immediate)),
    (b"getarg_c", Op::Getarg(ValueType::Char)),
    (b"getarg_uc", Op::Getarg(ValueType::UnsignedChar)),
    (b"getarg_s", Op::Getarg(ValueType::Short)),
    (b"getarg_us", Op::Getarg(ValueType::UnsignedShort)),
    (b"getarg_i", Op::Getarg(ValueType::Int)),
    (b"getarg_ui", Op::Getarg(ValueType::UnsignedInt)),
    (b"getarg", Op::Getarg(ValueType::Long)),
    (b"getarg_l", Op::Getarg(ValueType::Long)),
];

static NAMES_H: [(&[u8], Op); 3] = [
    (b"htonr_us", Op::Unary(UnaryOp::HtonrUs)),
    (b"htonr_ui", Op::Unary(UnaryOp::HtonrUi)),
    (b"htonr_ul", Op::Unary(UnaryOp::HtonrUl)),
];

static NAMES_J: [(&[u8], Op); 2] = [
    (b"jmpr", Op::Control(ControlOp::Jmp, LastOperand::Register)),
    (b"jmpi", Op::Control(ControlOp::Jmp, LastOperand::Immediate)),
];

static NAMES_L: [(&[u8], Op); 42] = [
    (b"lshr", Op::Binary(BinaryOp::Lsh, LastOperand::Register)),
    (b"lshi", Op::Binary(BinaryOp::Lsh, LastOperand::Immediate)),
    (b"ltr", Op::Binary(BinaryOp::Lt, LastOperand::Register)),
    (b"lti", Op::Binary(BinaryOp::Lt, LastOperand::Immediate)),
    (b"ltr_u", Op::Binary(BinaryOp::LtU, LastOperand::Register)),
    (b"lti_u", Op::Binary(BinaryOp::LtU, LastOperand::Immediate)),
    (b"ler", Op::Binary(BinaryOp::Le, LastOperand::Register)),
    (b"lei", Op::Binary(BinaryOp::Le, LastOperand::Immediate)),
    (b"ler_u", Op::Binary(BinaryOp::LeU, LastOperand::Register)),
    (b"lei_u", Op::Binary(BinaryOp::LeU, LastOperand::Immediate)),
    (b"ldr_c", Op::Load(ValueType::Char, Addressing::Register)),
    (b"ldi_c", Op::Load(ValueType::Char, Addressing::Immediate)),
    (
        b"ldxr_c",
        Op::Load(ValueType::Char, Addressing::RegisterRegister),
    ),
    (
        b"ldxi_c",
        Op::Load(ValueType::Char, Addressing::RegisterImmediate),
    ),
    (
        b"ldr_uc",
        Op::Load(ValueType::UnsignedChar, Addressing::Register),
    ),
    (
        b"ldi_uc",
        Op::Load(ValueType::UnsignedChar, Addressing::Immediate),
    ),
    (
        b"ldxr_uc",
        Op::Load(ValueType::UnsignedChar, Addressing::RegisterRegister),
    ),
    (
        b"ldxi_uc",
        Op::Load(ValueType::UnsignedChar, Addressing::RegisterImmediate),
    ),
    (b"ldr_s", Op::Load(ValueType::Short, Addressing::Register)),
    (b"ldi_s", Op::Load(ValueType::Short, Addressing::Immediate)),
    (
        b"ldxr_s",
        Op::Load(ValueType::Short, Addressing::RegisterRegister),
    ),
    (
        b"ldxi_s",
        Op::Load(ValueType::Short, Addressing::RegisterImmediate),
    ),
    (
        b"ldr_us",
        Op::Load(ValueType::UnsignedShort, Addressing::Register),
    ),
    (
        b"ldi_us",
        Op::Load(ValueType::UnsignedShort, Addressing::Immediate),
    ),
    (
        b"ldxr_us",
        Op::Load(ValueType::UnsignedShort, Addressing::RegisterRegister),
    ),
    (
        b"ldxi_us",
        Op::Load(ValueType::UnsignedShort, Addressing::RegisterImmediate),
    ),
    (b"ldr_i", Op::Load(ValueType::Int, Addressing::Register)),
    (b"ldi_i", Op::Load(ValueType::Int, Addressing::Immediate)),
    (
        b"ldxr_i",
        Op::Load(ValueType::Int, Addressing::RegisterRegister),
    ),
    (
        b"ldxi_i",
        Op::Load(ValueType::Int, Addressing::RegisterImmediate),
    ),
    (
        b"ldr_ui",
        Op::Load(ValueType::UnsignedInt, Addressing::Register),
    ),
    (
        b"ldi_ui",
        Op::Load(ValueType::UnsignedInt, Addressing::Immediate),
    ),
    (
        b"ldxr_ui",
        Op::Load(ValueType::UnsignedInt, Addressing::RegisterRegister),
    ),
    (
        b"ldxi_ui",
        Op::Load(ValueType::UnsignedInt, Addressing::RegisterImmediate),
    ),
    (b"ldr", Op::Load(ValueType::Long, Addressing::Register)),
    (b"ldr_l", Op::Load(ValueType::Long, Addressing::Register)),
    (b"ldi", Op::Load(ValueType::Long, Addressing::Immediate)),
    (b"ldi_l", Op::Load(ValueType::Long, Addressing::Immediate)),
    (
        b"ldxr",
        Op::Load(ValueType::Long, Addressing::RegisterRegister),
    ),
    (
        b"ldxr_l",
        Op::Load(ValueType::Long, Addressing::RegisterRegister),
    ),
    (
        b"ldxi",
        Op::Load(ValueType::Long, Addressing::RegisterImmediate),
    ),
    (
        b"ldxi_l",
        Op::Load(ValueType::Long, Addressing::RegisterImmediate),
    ),
];

static NAMES_M: [(&[u8], Op); 4] = [
    (b"mulr", Op::Binary(BinaryOp::Mul, LastOperand::Register)),
    (b"muli", Op::Binary(BinaryOp::Mul, LastOperand::Immediate)),
    (b"movr", Op::Unary(UnaryOp::Mov)),
    (b"movi", Op::Plain(PlainOp::Movi)),
];

static NAMES_N: [(&[u8], Op); 3] = [
    (b"ner", Op::Binary(BinaryOp::Ne, LastOperand::Register)),
    (b"nei", Op::Binary(BinaryOp::Ne, LastOperand::Immediate)),
    (b"negr", Op::Unary(UnaryOp::Neg)),
];

static NAMES_O: [(&[u8], Op); 2] = [
    (b"orr", Op::Binary(BinaryOp::Or, LastOperand::Register)),
    (b"ori", Op::Binary(BinaryOp::Or, LastOperand::Immediate)),
];

static NAMES_P: [(&[u8], Op); 4] = [
    (
        b"pushargr",
        Op::Control(ControlOp::Pusharg, LastOperand::Register),
    ),
    (
        b"pushargi",
        Op::Control(ControlOp::Pusharg, LastOperand::Immediate),
    ),
    (b"prepare", Op::Plain(PlainOp::Prepare)),
    (b"prolog", Op::Plain(PlainOp::Prolog)),
];

static NAMES_Q: [(&[u8], Op); 8] = [
    (b"qmulr", Op::Wide(WideOp::Mul, LastOperand::Register)),
    (b"qmuli", Op::Wide(WideOp::Mul, LastOperand::Immediate)),
    (b"qmulr_u", Op::Wide(WideOp::MulU, LastOperand::Register)),
    (b"qmuli_u", Op::Wide(WideOp::MulU, LastOperand::Immediate)),
    (b"qdivr", Op::Wide(WideOp::Div, LastOperand::Register)),
    (b"qdivi", Op::Wide(WideOp::Div, LastOperand::Immediate)),
    (b"qdivr_u", Op::Wide(WideOp::DivU, LastOperand::Register)),
    (b"qdivi_u", Op::Wide(WideOp::DivU, LastOperand::Immediate)),
];

static NAMES_R: [(&[u8], Op); 21] = [
    (b"rsbr", Op::Binary(BinaryOp::Rsb, LastOperand::Register)),
    (b"rsbi", Op::Binary(BinaryOp::Rsb, LastOperand::Immediate)),
    (b"rshr", Op::Binary(BinaryOp::Rsh, LastOperand::Register)),
    (b"rshi", Op::Binary(BinaryOp::Rsh, LastOperand::Immediate)),
    (b"rshr_u", Op::Binary(BinaryOp::RshU, LastOperand::Register)),
    (
        b"rshi_u",
        Op::Binary(BinaryOp::RshU, LastOperand::Immediate),
    ),
    (b"remr", Op::Binary(BinaryOp::Rem, LastOperand::Register)),
    (b"remi", Op::Binary(BinaryOp::Rem, LastOperand::Immediate)),
    (b"remr_u", Op::Binary(BinaryOp::RemU, LastOperand::Register)),
    (
        b"remi_u",
        Op::Binary(BinaryOp::RemU, LastOperand::Immediate),
    ),
    (b"retr", Op::Control(ControlOp::Ret, LastOperand::Register)),
    (b"reti", Op::Control(ControlOp::Ret, LastOperand::Immediate)),
    (b"ret", Op::Plain(PlainOp::Ret)),
    (b"retval_c", Op::Retval(ValueType::Char)),
    (b"retval_uc", Op::Retval(ValueType::UnsignedChar)),
    (b"retval_s", Op::Retval(ValueType::Short)),
    (b"retval_us", Op::Retval(ValueType::UnsignedShort)),
    (b"retval_i", Op::Retval(ValueType::Int)),
    (b"retval_ui", Op::Retval(ValueType::UnsignedInt)),
    (b"retval", Op::Retval(ValueType::Long)),
    (b"retval_l", Op::Retval(ValueType::Long)),
];

static NAMES_S: [(&[u8], Op); 26] = [
    (b"subr", Op::Binary(BinaryOp::Sub, LastOperand::Register)),
    (b"subi", Op::Binary(BinaryOp::Sub, LastOperand::Immediate)),
    (b"subcr", Op::Binary(BinaryOp::Subc, LastOperand::Register)),
    (b"subci", Op::Binary(BinaryOp::Subc, LastOperand::Immediate)),
    (b"subxr", Op::Binary(BinaryOp::Subx, LastOperand::Register)),
    (b"subxi", Op::Binary(BinaryOp::Subx, LastOperand::Immediate)),
    (b"str_c", Op::Store(StoreType::Char, Addressing::Register)),
    (b"sti_c", Op::Store(StoreType::Char, Addressing::Immediate)),
    (
        b"stxr_c",
        Op::Store(StoreType::Char, Addressing::RegisterRegister),
    ),
    (
        b"stxi_c",
        Op::Store(StoreType::Char, Addressing::RegisterImmediate),
    ),
    (b"str_s", Op::Store(StoreType::Short, Addressing::Register)),
    (b"sti_s", Op::Store(StoreType::Short, Addressing::Immediate)),
    (
        b"stxr_s",
        Op::Store(StoreType::Short, Addressing::RegisterRegister),
    ),
    (
        b"stxi_s",
        Op::Store(StoreType::Short, Addressing::RegisterImmediate),
    ),
    (b"str_i", Op::Store(StoreType::Int, Addressing::Register)),
    (b"sti_i", Op::Store(StoreType::Int, Addressing::Immediate)),
    (
        b"stxr_i",
        Op::Store(StoreType::Int, Addressing::RegisterRegister),
    ),
    (
        b"stxi_i",
        Op::Store(StoreType::Int, Addressing::RegisterImmediate),
    ),
    (b"str", Op::Store(StoreType::Long, Addressing::Register)),
    (b"str_l", Op::Store(StoreType::Long, Addressing::Register)),
    (b"sti", Op::Store(StoreType::Long, Addressing::Immediate)),
    (b"sti_l", Op::Store(StoreType::Long, Addressing::Immediate)),
    (
        b"stxr",
        Op::Store(StoreType::Long, Addressing::RegisterRegister),
    ),
    (
        b"stxr_l",
        Op::Store(StoreType::Long, Addressing::RegisterRegister),
    ),
    (
        b"stxi",
        Op::Store(StoreType::Long, Addressing::RegisterImmediate),
    ),
    (
        b"stxi_l",
        Op::Store(StoreType::Long, Addressing::RegisterImmediate),
    ),
];

static NAMES_V: [(&[u8], Op); 3] = [
    (b"va_start", Op::Plain(PlainOp::VaStart)),
    (b"va_arg", Op::Plain(PlainOp::VaArg)),
    (b"va_end", Op::Plain(PlainOp::VaEnd)),
];

static NAMES_X: [(&[u8], Op); 2] = [
    (b"xorr", Op::Binary(BinaryOp::Xor, LastOperand::Register)),
    (b"xori", Op::Binary(BinaryOp::Xor, LastOperand::Immediate)),
];
