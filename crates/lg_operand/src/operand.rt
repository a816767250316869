// The operands of instructions, by the token at an operand's place and the form that the place asks.

ghost use Rattle.std.specs.Prelude.{◌≡◌, ◌≤◌, drop, true, IfOk};
ghost use Rattle.lg_op.specs.Forms.{admits};
ghost use Rattle.lg_operand.specs.Operands.{admitted, register_operand, register_at, host_operand, argument_named, local_named, differ, stays_apart, local_size, misfit};

use crate::registers::{is_float_register, register_of, register_word};
use lg_base::{HostName, RefusalKind};
use lg_lex::TokenKind;
use lg_op::{Form, Op, Operand, PlainOp};

/// Returns an operand, where its place admits it.
pub fn admitted(form: Form, operand: Operand) -> Result<Operand, RefusalKind>
    ensures value { result ≡ admitted form operand }
    ensures form { IfOk result (λ x. admits form x ≡ true) }
{
    if form.admits(operand) {
        Ok(operand)
    } else {
        Err(RefusalKind::BadOperand)
    }
}

/// Returns the operand that the text of a register is. None of the seven is one of floating point.
pub fn register_operand(form: Form, text: &[u8]) -> Result<Operand, RefusalKind>
    ensures value { result ≡ register_operand form text.now }
    ensures form { IfOk result (λ x. admits form x ≡ true) }
{
    match register_of(text) {
        Some(register) => admitted(form, Operand::Reg(register)),
        None if is_float_register(text) => Err(RefusalKind::FloatRefused),
        None => Err(RefusalKind::BadOperand),
    }
}

/// Returns the operand that a host function is, where there is one.
pub fn host_operand(form: Form, name: Option<HostName>) -> Result<Operand, RefusalKind>
    ensures value { result ≡ host_operand form name }
    ensures form { IfOk result (λ x. admits form x ≡ true) }
{
    match name {
        Some(name) => admitted(form, Operand::Host(name)),
        None => Err(RefusalKind::UnknownHost),
    }
}

/// Returns the argument that a name denotes.
pub fn argument_named(meaning: Option<Operand>) -> Result<Operand, RefusalKind>
    ensures value { result ≡ argument_named meaning }
    ensures form { IfOk result (λ x. admits Form.Argument x ≡ true) }
{
    match meaning {
        Some(Operand::Slot(number)) => Ok(Operand::Slot(number)),
        _ => Err(RefusalKind::NoSuchArg),
    }
}

/// Returns the offset of the local that a name denotes.
pub fn local_named(meaning: Option<Operand>) -> Result<Operand, RefusalKind>
    ensures value { result ≡ local_named meaning }
    ensures form { IfOk result (λ x. admits Form.Immediate x ≡ true) }
{
    match meaning {
        Some(Operand::Number(offset)) => Ok(Operand::Number(offset)),
        _ => Err(RefusalKind::NoSuchArg),
    }
}

// Returns whether operands are two registers that are not the same.
fn differ(a: Operand, b: Operand) -> bool
    ensures { result ≡ differ a b }
{
    match (a, b) {
        (Operand::Reg(a), Operand::Reg(b)) => register_word(a) != register_word(b),
        _ => false,
    }
}

/// Returns whether an operand may follow these: the second result of a product or quotient of two words, or of `va_arg`, goes to another register than the
/// first.
pub fn stays_apart(op: Op, done: &[Operand], operand: Operand) -> bool
    ensures { result ≡ stays_apart op done.now operand }
{
    match (op, done) {
        (Op::Wide(_, _) | Op::Plain(PlainOp::VaArg), [first]) => differ(*first, operand),
        _ => true,
    }
}

/// Returns the size of the local that `allocai` makes, which its first operand gives.
pub fn local_size(done: &[Operand]) -> u64
    ensures size { result ≡ local_size done.now }
    ensures most { result ≤ 65536 }
{
    match done {
        [Operand::Number(size)] => (*size).min(65_536),
        _ => 0,
    }
}

/// Returns a text after its mark, which is its first byte.
pub fn after_mark(text: &[u8]) -> &[u8]
    ensures { result.now ≡ drop 1 text.now }
{
    match text {
        [_, rest @ ..] => rest,
        [] => text,
    }
}

/// Why a token is not what a place asks that takes no register, no host function and no name.
pub fn misfit(kind: TokenKind, text: &[u8]) -> RefusalKind
    ensures { result ≡ misfit kind text.now }
{
    match kind {
        TokenKind::Register if is_float_register(text) => RefusalKind::FloatRefused,
        TokenKind::Host if HostName::by_name(after_mark(text)).is_none() =>
            RefusalKind::UnknownHost,
        _ => RefusalKind::BadOperand,
    }
}
