// The forms of operands that an operation takes.

ghost use Rattle.std.specs.Prelude.{◌≡◌, ◌∷◌};
ghost use Rattle.lg_op.specs.Forms.{forms_of, control_forms, plain_forms, address_forms, store_forms, admits, is_alignment};

use crate::op::{Addressing, ControlOp, LastOperand, Op, PlainOp};
use crate::operand::{Operand, Reg};

/// What may be at an operand's place.
#[derive(Clone, Copy, Debug, PartialEq, Eq)]
pub enum Form {
    /// A register that is written: not FP.
    Write,
    /// A register that is read and written: not FP.
    Update,
    /// A register that is read.
    Read,
    /// A number, a label or a host function.
    Immediate,
    /// A label.
    Target,
    /// A label or a host function.
    Callee,
    /// An argument that `arg` makes.
    NewArgument,
    /// An argument that an earlier `arg` made.
    Argument,
    /// A local that `allocai` makes.
    NewLocal,
    /// The size of a local: a number from 1 to 65,536.
    Size,
    /// An alignment of code: a power of two from 1 to 64.
    Alignment,
    /// How many arguments with names a function has: a number, for which no word of a text stands.
    ArgumentCount,
}

// Returns whether a number is a power of two from 1 to 64.
fn is_alignment(number: u64) -> bool
    ensures { result ≡ is_alignment number }
{
    matches!(number, 1 | 2 | 4 | 8 | 16 | 32 | 64)
}

impl Form {
    /// Returns whether an operand is of this form.
    pub fn admits(self, operand: Operand) -> bool
        ensures { result ≡ admits self operand }
    {
        match (self, operand) {
            (Form::Write | Form::Update, Operand::Reg(Reg::Fp)) => false,
            (Form::Write | Form::Update | Form::Read, Operand::Reg(_)) => true,
            (Form::Immediate, Operand::Number(_) | Operand::Label(_) | Operand::Host(_)) => true,
            (Form::Target, Operand::Label(_)) => true,
            (Form::Callee, Operand::Label(_) | Operand::Host(_)) => true,
            (Form::NewArgument | Form::Argument | Form::NewLocal, Operand::Slot(_)) => true,
            (Form::Size, Operand::Number(number)) => 1 <= number && number <= 65_536,
            (Form::Alignment, Operand::Number(number)) => is_alignment(number),
            (Form::ArgumentCount, Operand::Number(_)) => true,
            _ => false,
        }
    }
}

impl Op {
    /// Returns the forms of the operation's operands, in order.
    pub fn forms(self) -> &'static [Form]
        ensures { result.now ≡ forms_of self }
    {
        match self {
            Op::Binary(_, LastOperand::Register) => &[Form::Write, Form::Read, Form::Read],
            Op::Binary(_, LastOperand::Immediate) => &[Form::Write, Form::Read, Form::Immediate],
            Op::Wide(_, LastOperand::Register) => &[
                Form::Write,
                Form::Write,
                Form::Read,
                Form::Read,
            ],
            Op::Wide(_, LastOperand::Immediate) => &[
                Form::Write,
                Form::Write,
                Form::Read,
                Form::Immediate,
            ],
            Op::Branch(_, LastOperand::Register) => &[Form::Target, Form::Read, Form::Read],
            Op::Branch(_, LastOperand::Immediate) => &[Form::Target, Form::Read, Form::Immediate],
            Op::BranchSum(_, LastOperand::Register) => &[Form::Target, Form::Update, Form::Read],
            Op::BranchSum(_, LastOperand::Immediate) => &[
                Form::Target,
                Form::Update,
                Form::Immediate,
            ],
            Op::Control(op, last) => op.forms(last),
            Op::Unary(_) => &[Form::Write, Form::Read],
            Op::Plain(op) => op.forms(),
            Op::Load(_, addressing) => addressing.load_forms(),
            Op::Store(_, addressing) => addressing.store_forms(),
            Op::Retval(_) => &[Form::Write],
            Op::Getarg(_) => &[Form::Write, Form::Argument],
        }
    }
}

impl ControlOp {
    // Returns the form of the one operand.
    fn forms(self, last: LastOperand) -> &'static [Form]
        ensures { result.now ≡ control_forms self last }
    {
        match (self, last) {
            (_, LastOperand::Register) => &[Form::Read],
            (ControlOp::Jmp, LastOperand::Immediate) => &[Form::Target],
            (ControlOp::Call | ControlOp::Finish, LastOperand::Immediate) => &[Form::Callee],
            (ControlOp::Pusharg | ControlOp::Ret, LastOperand::Immediate) => &[Form::Immediate],
        }
    }
}

impl Addressing {
    // Returns the forms of a load's operands, in order: the register comes first.
    fn load_forms(self) -> &'static [Form]
        ensures { result.now ≡ Form.Write ∷ address_forms self }
    {
        match self {
            Addressing::Register => &[Form::Write, Form::Read],
            Addressing::Immediate => &[Form::Write, Form::Immediate],
            Addressing::RegisterRegister => &[Form::Write, Form::Read, Form::Read],
            Addressing::RegisterImmediate => &[Form::Write, Form::Read, Form::Immediate],
        }
    }

    // Returns the forms of a store's operands, in order: the number of the address comes first.
    fn store_forms(self) -> &'static [Form]
        ensures { result.now ≡ store_forms self }
    {
        match self {
            Addressing::Register => &[Form::Read, Form::Read],
            Addressing::Immediate => &[Form::Immediate, Form::Read],
            Addressing::RegisterRegister => &[Form::Read, Form::Read, Form::Read],
            Addressing::RegisterImmediate => &[Form::Immediate, Form::Read, Form::Read],
        }
    }
}

impl PlainOp {
    // Returns the forms of the operands, in order.
    fn forms(self) -> &'static [Form]
        ensures { result.now ≡ plain_forms self }
    {
        match self {
            PlainOp::Movi => &[Form::Write, Form::Immediate],
            PlainOp::Arg => &[Form::NewArgument],
            PlainOp::Allocai => &[Form::Size, Form::NewLocal],
            PlainOp::Align => &[Form::Alignment],
            PlainOp::VaStart => &[Form::Write, Form::ArgumentCount],
            PlainOp::VaArg => &[Form::Write, Form::Update],
            PlainOp::VaEnd => &[Form::Read],
            PlainOp::Prepare
            | PlainOp::Ellipsis
            | PlainOp::Prolog
            | PlainOp::Epilog
            | PlainOp::Ret => &[],
        }
    }
}
