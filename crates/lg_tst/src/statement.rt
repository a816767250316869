// The statements of a text, by the token that they begin with.

ghost use Rattle.std.specs.Prelude.{◌≡◌, ◌≤◌, None};
ghost use Rattle.lg_tst.specs.Statements.{code_word, word_in, word_statement, directive_statement, statement_of, bytes_in, is_number, is_value};
ghost use Rattle.lg_tst.specs.Words.{op_of};

use crate::words::{Directive, is_float_word, op_of};
use lg_base::RefusalKind;
use lg_lex::TokenKind;
use lg_op::{Op, PlainOp};
use lg_operand::is_float_register;

/// The section in which a statement stands.
#[derive(Clone, Copy)]
pub enum Section {
    /// Instructions.
    Code,
    /// Data items.
    Data,
}

/// The size of a value of a data item.
#[derive(Clone, Copy)]
pub enum ItemSize {
    /// 1 byte, of `.c`.
    One,
    /// 2 bytes, of `.s`.
    Two,
    /// 4 bytes, of `.i`.
    Four,
    /// 8 bytes, of `.l`.
    Eight,
}

/// The statements, by what they begin with.
#[derive(Clone, Copy)]
pub enum Statement {
    /// `.data N`: the data part has N bytes, and the data section begins.
    Data,
    /// `.code`: the code section begins.
    Code,
    /// A label.
    Label,
    /// `name`, with a word that means nothing.
    Name,
    /// `note`, with an optional string and an optional number that mean nothing.
    Note,
    /// Values of data.
    Values(ItemSize),
    /// `.size N` of data.
    Skip,
    /// `.align N` of data.
    AlignData,
    /// An instruction, and `.align N` of code.
    Instruction(Op),
}

// What a word that names no operation begins in the code section.
fn other_code_word(word: &[u8]) -> Result<Statement, RefusalKind>
    requires { op_of word.now ≡ None }
    ensures { result ≡ code_word word.now }
{
    if word == b"name".as_slice() {
        Ok(Statement::Name)
    } else {
        Err(RefusalKind::UnknownName)
    }
}

// What a word begins, looked at from the first cause on. In the code section it names no operation.
#[inline(never)]
fn other_statement(section: Section, word: &[u8]) -> Result<Statement, RefusalKind>
    requires { section ≡ Section.Code → op_of word.now ≡ None }
    ensures { result ≡ word_statement section word.now }
{
    if is_float_word(word) {
        return Err(RefusalKind::FloatRefused);
    }
    if word == b"note".as_slice() {
        return Ok(Statement::Note);
    }
    match section {
        Section::Code => other_code_word(word),
        Section::Data => Err(RefusalKind::UnknownName),
    }
}

// What a word begins in the code section. No operation has a name of floating point, so most words are looked up at once.
fn code_statement(word: &[u8]) -> Result<Statement, RefusalKind>
    ensures { result ≡ word_statement Section.Code word.now }
{
    match op_of(word) {
        Some(op) => Ok(Statement::Instruction(op)),
        None => other_statement(Section::Code, word),
    }
}

// What a word begins.
fn word_statement(section: Section, word: &[u8]) -> Result<Statement, RefusalKind>
    ensures { result ≡ word_statement section word.now }
{
    match section {
        Section::Code => code_statement(word),
        Section::Data => other_statement(section, word),
    }
}

// What a directive begins.
fn directive_statement(
    section: Section,
    directive: Option<Directive>,
) -> Result<Statement, RefusalKind>
    ensures { result ≡ directive_statement section directive }
{
    match (section, directive) {
        (_, Some(Directive::Data)) => Ok(Statement::Data),
        (_, Some(Directive::Code)) => Ok(Statement::Code),
        (_, Some(Directive::Float | Directive::Double)) => Err(RefusalKind::FloatRefused),
        (Section::Code, Some(Directive::Align)) => Ok(Statement::Instruction(Op::Plain(
            PlainOp::Align,
        ))),
        (Section::Data, Some(Directive::Align)) => Ok(Statement::AlignData),
        (Section::Data, Some(Directive::Size)) => Ok(Statement::Skip),
        (Section::Data, Some(Directive::Char)) => Ok(Statement::Values(ItemSize::One)),
        (Section::Data, Some(Directive::Short)) => Ok(Statement::Values(ItemSize::Two)),
        (Section::Data, Some(Directive::Int)) => Ok(Statement::Values(ItemSize::Four)),
        (Section::Data, Some(Directive::Long)) => Ok(Statement::Values(ItemSize::Eight)),
        _ => Err(RefusalKind::UnknownName),
    }
}

/// Returns the statement that a token of a text begins in a section, or why it begins none.
pub fn statement_of(
    section: Section,
    kind: TokenKind,
    text: &[u8],
) -> Result<Statement, RefusalKind>
    ensures { result ≡ statement_of section kind text.now }
{
    match kind {
        TokenKind::Word => word_statement(section, text),
        TokenKind::Directive => directive_statement(section, Directive::by_word(text)),
        TokenKind::LabelMark => Ok(Statement::Label),
        TokenKind::Register if is_float_register(text) => Err(RefusalKind::FloatRefused),
        _ => Err(RefusalKind::UnknownName),
    }
}

impl ItemSize {
    /// Returns how many bytes a value has.
    pub fn bytes(self) -> usize
        ensures bytes { result ≡ bytes_in self }
        ensures most { result ≤ 8 }
    {
        match self {
            ItemSize::One => 1,
            ItemSize::Two => 2,
            ItemSize::Four => 4,
            ItemSize::Eight => 8,
        }
    }

    /// Returns whether a token is a value of an item of this size.
    pub fn takes(self, kind: TokenKind) -> bool
        ensures { result ≡ is_value self kind }
    {
        match (self, kind) {
            (ItemSize::One, TokenKind::Str) => true,
            _ => is_number(kind),
        }
    }
}

/// Returns whether a token is a number, a character or an expression.
pub fn is_number(kind: TokenKind) -> bool
    ensures { result ≡ is_number kind }
{
    matches!(
        kind,
        TokenKind::Number | TokenKind::Character | TokenKind::Expression
    )
}
