// The names of the operations, and the operations by their names.

ghost use Rattle.std.specs.Prelude.{◌≡◌, ◌≤◌, IfSome, Some, length, map, slice_index};
ghost use Rattle.std.specs.Str.{bytes_eq};
ghost use Rattle.lg_op.specs.Names.{binary_stem, wide_stem, condition_stem, branch_sum_stem, control_stem, unary_name, plain_name, binary_end, wide_end, condition_end, branch_sum_end, value_type_end, store_type_end, addressing_middle, last_middle, stem_of, middle_of, end_of, name, IsName, named};

use crate::name_table::names_from;
use crate::op::{
    Addressing, BinaryOp, BranchSumOp, Condition, ControlOp, LastOperand, Op, PlainOp, StoreType,
    UnaryOp, ValueType, WideOp,
};
use lg_base::Piece;

// Returns the letters of the name before the operand letter.
fn binary_stem(op: BinaryOp) -> &'static [u8]
    ensures { result.now ≡ binary_stem op }
{
    match op {
        BinaryOp::Add => b"add",
        BinaryOp::Sub => b"sub",
        BinaryOp::Rsb => b"rsb",
        BinaryOp::Mul => b"mul",
        BinaryOp::And => b"and",
        BinaryOp::Or => b"or",
        BinaryOp::Xor => b"xor",
        BinaryOp::Lsh => b"lsh",
        BinaryOp::Rsh | BinaryOp::RshU => b"rsh",
        BinaryOp::Div | BinaryOp::DivU => b"div",
        BinaryOp::Rem | BinaryOp::RemU => b"rem",
        BinaryOp::Addc => b"addc",
        BinaryOp::Subc => b"subc",
        BinaryOp::Addx => b"addx",
        BinaryOp::Subx => b"subx",
        BinaryOp::Lt | BinaryOp::LtU => b"lt",
        BinaryOp::Le | BinaryOp::LeU => b"le",
        BinaryOp::Ge | BinaryOp::GeU => b"ge",
        BinaryOp::Gt | BinaryOp::GtU => b"gt",
        BinaryOp::Eq => b"eq",
        BinaryOp::Ne => b"ne",
    }
}

// Returns the letters of the name before the operand letter.
fn wide_stem(op: WideOp) -> &'static [u8]
    ensures { result.now ≡ wide_stem op }
{
    match op {
        WideOp::Mul | WideOp::MulU => b"qmul",
        WideOp::Div | WideOp::DivU => b"qdiv",
    }
}

// Returns the letters of the name before the operand letter.
fn condition_stem(op: Condition) -> &'static [u8]
    ensures { result.now ≡ condition_stem op }
{
    match op {
        Condition::Lt | Condition::LtU => b"blt",
        Condition::Le | Condition::LeU => b"ble",
        Condition::Ge | Condition::GeU => b"bge",
        Condition::Gt | Condition::GtU => b"bgt",
        Condition::Eq => b"beq",
        Condition::Ne => b"bne",
        Condition::Ms => b"bms",
        Condition::Mc => b"bmc",
    }
}

// Returns the letters of the name before the operand letter.
fn branch_sum_stem(op: BranchSumOp) -> &'static [u8]
    ensures { result.now ≡ branch_sum_stem op }
{
    match op {
        BranchSumOp::OverflowAdd | BranchSumOp::OverflowAddU => b"boadd",
        BranchSumOp::OverflowSub | BranchSumOp::OverflowSubU => b"bosub",
        BranchSumOp::FitAdd | BranchSumOp::FitAddU => b"bxadd",
        BranchSumOp::FitSub | BranchSumOp::FitSubU => b"bxsub",
    }
}

// Returns the letters of the name before the operand letter.
fn control_stem(op: ControlOp) -> &'static [u8]
    ensures { result.now ≡ control_stem op }
{
    match op {
        ControlOp::Jmp => b"jmp",
        ControlOp::Call => b"call",
        ControlOp::Finish => b"finish",
        ControlOp::Pusharg => b"pusharg",
        ControlOp::Ret => b"ret",
    }
}

// Returns the whole name.
fn unary_name(op: UnaryOp) -> &'static [u8]
    ensures { result.now ≡ unary_name op }
{
    match op {
        UnaryOp::Neg => b"negr",
        UnaryOp::Com => b"comr",
        UnaryOp::Mov => b"movr",
        UnaryOp::ExtrC => b"extr_c",
        UnaryOp::ExtrUc => b"extr_uc",
        UnaryOp::ExtrS => b"extr_s",
        UnaryOp::ExtrUs => b"extr_us",
        UnaryOp::ExtrI => b"extr_i",
        UnaryOp::ExtrUi => b"extr_ui",
        UnaryOp::HtonrUs => b"htonr_us",
        UnaryOp::HtonrUi => b"htonr_ui",
        UnaryOp::HtonrUl => b"htonr_ul",
    }
}

// Returns the whole name.
fn plain_name(op: PlainOp) -> &'static [u8]
    ensures { result.now ≡ plain_name op }
{
    match op {
        PlainOp::Movi => b"movi",
        PlainOp::Prepare => b"prepare",
        PlainOp::Ellipsis => b"ellipsis",
        PlainOp::Prolog => b"prolog",
        PlainOp::Epilog => b"epilog",
        PlainOp::Ret => b"ret",
        PlainOp::Arg => b"arg",
        PlainOp::Allocai => b"allocai",
        PlainOp::Align => b".align",
        PlainOp::VaStart => b"va_start",
        PlainOp::VaArg => b"va_arg",
        PlainOp::VaEnd => b"va_end",
    }
}

// Returns the operand letter.
fn last_middle(last: LastOperand) -> &'static [u8]
    ensures { result.now ≡ last_middle last }
{
    match last {
        LastOperand::Register => b"r",
        LastOperand::Immediate => b"i",
    }
}

// Returns the letters of the address.
fn addressing_middle(addressing: Addressing) -> &'static [u8]
    ensures { result.now ≡ addressing_middle addressing }
{
    match addressing {
        Addressing::Register => b"r",
        Addressing::Immediate => b"i",
        Addressing::RegisterRegister => b"xr",
        Addressing::RegisterImmediate => b"xi",
    }
}

// Returns the mark of an unsigned operation.
fn binary_end(op: BinaryOp) -> &'static [u8]
    ensures { result.now ≡ binary_end op }
{
    match op {
        BinaryOp::RshU
        | BinaryOp::DivU
        | BinaryOp::RemU
        | BinaryOp::LtU
        | BinaryOp::LeU
        | BinaryOp::GeU
        | BinaryOp::GtU => b"_u",
        _ => b"",
    }
}

// Returns the mark of an unsigned operation.
fn wide_end(op: WideOp) -> &'static [u8]
    ensures { result.now ≡ wide_end op }
{
    match op {
        WideOp::MulU | WideOp::DivU => b"_u",
        _ => b"",
    }
}

// Returns the mark of an unsigned operation.
fn condition_end(op: Condition) -> &'static [u8]
    ensures { result.now ≡ condition_end op }
{
    match op {
        Condition::LtU | Condition::LeU | Condition::GeU | Condition::GtU => b"_u",
        _ => b"",
    }
}

// Returns the mark of an unsigned operation.
fn branch_sum_end(op: BranchSumOp) -> &'static [u8]
    ensures { result.now ≡ branch_sum_end op }
{
    match op {
        BranchSumOp::OverflowAddU
        | BranchSumOp::OverflowSubU
        | BranchSumOp::FitAddU
        | BranchSumOp::FitSubU => b"_u",
        _ => b"",
    }
}

// Returns the mark of a type; `_l` is not written.
fn value_type_end(value_type: ValueType) -> &'static [u8]
    ensures { result.now ≡ value_type_end value_type }
{
    match value_type {
        ValueType::Char => b"_c",
        ValueType::UnsignedChar => b"_uc",
        ValueType::Short => b"_s",
        ValueType::UnsignedShort => b"_us",
        ValueType::Int => b"_i",
        ValueType::UnsignedInt => b"_ui",
        ValueType::Long => b"",
    }
}

// Returns the mark of a type; `_l` is not written.
fn store_type_end(store_type: StoreType) -> &'static [u8]
    ensures { result.now ≡ store_type_end store_type }
{
    match store_type {
        StoreType::Char => b"_c",
        StoreType::Short => b"_s",
        StoreType::Int => b"_i",
        StoreType::Long => b"",
    }
}

impl Op {
    // Returns the letters of the name before the operand letters.
    fn stem(self) -> &'static [u8]
        ensures { result.now ≡ stem_of self }
    {
        match self {
            Op::Binary(op, _) => binary_stem(op),
            Op::Wide(op, _) => wide_stem(op),
            Op::Branch(op, _) => condition_stem(op),
            Op::BranchSum(op, _) => branch_sum_stem(op),
            Op::Control(op, _) => control_stem(op),
            Op::Unary(op) => unary_name(op),
            Op::Plain(op) => plain_name(op),
            Op::Load(_, _) => b"ld",
            Op::Store(_, _) => b"st",
            Op::Retval(_) => b"retval",
            Op::Getarg(_) => b"getarg",
        }
    }

    // Returns the operand letters.
    fn middle(self) -> &'static [u8]
        ensures { result.now ≡ middle_of self }
    {
        match self {
            Op::Binary(_, last)
            | Op::Wide(_, last)
            | Op::Branch(_, last)
            | Op::BranchSum(_, last)
            | Op::Control(_, last) => last_middle(last),
            Op::Load(_, addressing) | Op::Store(_, addressing) => addressing_middle(addressing),
            _ => b"",
        }
    }

    // Returns the mark of an unsigned operation or of a type.
    fn end(self) -> &'static [u8]
        ensures { result.now ≡ end_of self }
    {
        match self {
            Op::Binary(op, _) => binary_end(op),
            Op::Wide(op, _) => wide_end(op),
            Op::Branch(op, _) => condition_end(op),
            Op::BranchSum(op, _) => branch_sum_end(op),
            Op::Load(value_type, _) | Op::Retval(value_type) | Op::Getarg(value_type) =>
                value_type_end(value_type),
            Op::Store(store_type, _) => store_type_end(store_type),
            _ => b"",
        }
    }

    /// Returns the operation's name, as a listing prints it: without a type where the type is `_l`; `.align` for that node.
    pub fn name(self) -> Piece
        ensures value { result ≡ name self }
        ensures short { length result ≤ 14 }
    {
        let mut name = Piece::new();
        name.extend(self.stem());
        name.extend(self.middle());
        name.extend(self.end());
        name
    }

    /// Returns the operation of a word: of its name, where the type of 8 bytes may be written `_l` or not at all. None exactly for every
    /// word that names no operation.
    pub fn by_name(word: &[u8]) -> Option<Op>
        ensures found { IfSome result (λ op. IsName op word.now) }
        ensures every { (op : Op) → IsName op word.now → result ≡ Some op }
    {
        named(names_from(first(word)), word)
    }
}

// Returns the first byte of a word, and 0 where there is none.
fn first(word: &[u8]) -> u8
    ensures { result ≡ slice_index word.now 0 }
{
    word.first().copied().unwrap_or(0)
}

// Returns whether a word is a name.
#[inline(always)]
fn is_same(word: &[u8], name: &[u8]) -> bool
    ensures { result ≡ bytes_eq word.now name.now }
{
    let mut rest = word;
    for b in name {
        match rest {
            [a, more @ ..] if a == b => rest = more,
            _ => return false,
        }
    }
    rest.is_empty()
}

// The operation of a word among these names.
fn named(names: &[(&[u8], Op)], word: &[u8]) -> Option<Op>
    ensures { result ≡ named word.now (map (λ e. (e.0.now, e.1)) names.now) }
{
    let mut left = names;
    while let [entry, rest @ ..] = left {
        if is_same(word, entry.0) {
            return Some(entry.1);
        }
        left = rest;
    }
    None
}
