// Where a reading stands: in which part, and what the statement at hand still takes.

ghost use Rattle.std.specs.Prelude.{◌≡◌, drop};
ghost use Rattle.lg_explain.specs.Unknown.{align_forms, begins_none, belongs, code_after, forms_begun, forms_after, forms_in, goes_on, is_code_word, is_data, is_directive_of, is_item, is_unknown, is_values, is_word_of, part_begun, part_after, part_by, rest_begun, rest_after, rest_of_directive, rest_of_item, rest_of_word, rest_on, rest_on_in, takes_data};
ghost use Rattle.lg_tst.specs.Statements.{is_number};

use crate::twice::{forms_by, op_of};
use lg_lex::TokenKind;
use lg_node::Form;

/// The part of a text.
#[derive(Clone, Copy)]
pub enum Part {
    /// The code part before `.data`.
    First,
    /// The data part.
    Data,
    /// The code part after it.
    Code,
}

/// What a statement without operands left still takes.
#[derive(Clone, Copy)]
pub enum Rest {
    /// Nothing.
    Nothing,
    /// A token: of `.data`, `.size`, `.align` in the data part, and `name`.
    Token,
    /// The first value of `.c`.
    FirstByte,
    /// The first value of `.s`, `.i` and `.l`.
    FirstNumber,
    /// More values of `.c`.
    Bytes,
    /// More values of the others.
    Numbers,
    /// A string, and then a number, of `note`.
    NoteString,
    /// The number.
    NoteNumber,
}

// ---- what belongs to the statement at hand

/// Returns whether a token is a number, a character or an expression.
pub fn is_number(kind: TokenKind) -> bool
    ensures { result ≡ is_number kind }
{
    matches!(
        kind,
        TokenKind::Number | TokenKind::Character | TokenKind::Expression
    )
}

// Returns whether a token belongs to what is left, where no operand is.
fn goes_on(rest: Rest, kind: TokenKind) -> bool
    ensures { result ≡ goes_on rest kind }
{
    match (rest, kind) {
        (Rest::Nothing, _) => false,
        (Rest::Token | Rest::FirstByte | Rest::FirstNumber, _) => true,
        (Rest::Bytes | Rest::NoteString, TokenKind::Str) => true,
        (Rest::Bytes | Rest::Numbers, _) => is_number(kind),
        (Rest::NoteString | Rest::NoteNumber, TokenKind::Number) => true,
        _ => false,
    }
}

/// Returns whether a token belongs to the statement at hand.
pub fn belongs(forms: &[Form], rest: Rest, kind: TokenKind) -> bool
    ensures { result ≡ belongs forms.now rest kind }
{
    match forms {
        [] => goes_on(rest, kind),
        [_, ..] => true,
    }
}

// What may come after a token of what is left.
fn rest_on(rest: Rest, kind: TokenKind) -> Rest
    ensures { result ≡ rest_on rest kind }
{
    match (rest, kind) {
        (Rest::FirstByte | Rest::Bytes, _) => Rest::Bytes,
        (Rest::FirstNumber | Rest::Numbers, _) => Rest::Numbers,
        (Rest::NoteString, TokenKind::Str) => Rest::NoteNumber,
        _ => Rest::Nothing,
    }
}

// ---- what a token begins

// Returns whether it is the data part.
fn is_data(part: Part) -> bool
    ensures { result ≡ is_data part }
{
    matches!(part, Part::Data)
}

// Returns whether a word begins a statement of the code part.
fn is_code_word(text: &[u8]) -> bool
    ensures { result ≡ is_code_word text.now }
{
    text == b"name".as_slice() || op_of(text).is_some()
}

// Returns whether a word begins a statement of a part.
fn is_word_of(part: Part, text: &[u8]) -> bool
    ensures { result ≡ is_word_of part text.now }
{
    text == b"note".as_slice() || (!is_data(part) && is_code_word(text))
}

// Returns whether numbers follow a directive.
fn is_values(text: &[u8]) -> bool
    ensures { result ≡ is_values text.now }
{
    text == b".s".as_slice() || (text == b".i".as_slice() || text == b".l".as_slice())
}

// Returns whether a directive makes data.
fn is_item(text: &[u8]) -> bool
    ensures { result ≡ is_item text.now }
{
    text == b".size".as_slice() || (text == b".c".as_slice() || is_values(text))
}

// Returns whether `.data` may come in a part.
fn takes_data(part: Part) -> bool
    ensures { result ≡ takes_data part }
{
    matches!(part, Part::First)
}

// Returns whether a directive begins a statement of a part.
fn is_directive_of(part: Part, text: &[u8]) -> bool
    ensures { result ≡ is_directive_of part text.now }
{
    if text == b".data".as_slice() {
        return takes_data(part);
    }
    text == b".code".as_slice()
        || (text == b".align".as_slice() || (is_data(part) && is_item(text)))
}

// Returns whether a token begins no statement of a part.
fn begins_none(part: Part, kind: TokenKind, text: &[u8]) -> bool
    ensures { result ≡ begins_none part kind text.now }
{
    match kind {
        TokenKind::Word => !is_word_of(part, text),
        TokenKind::Directive => !is_directive_of(part, text),
        TokenKind::LabelMark => false,
        _ => true,
    }
}

// Returns the part after `.code`.
fn code_after(part: Part) -> Part
    ensures { result ≡ code_after part }
{
    match part {
        Part::Data => Part::Code,
        _ => part,
    }
}

// Returns the part after a directive.
fn part_by(part: Part, text: &[u8]) -> Part
    ensures { result ≡ part_by part text.now }
{
    if text == b".data".as_slice() {
        Part::Data
    } else if text == b".code".as_slice() {
        code_after(part)
    } else {
        part
    }
}

// Returns the part after the first token of a statement.
fn part_begun(part: Part, kind: TokenKind, text: &[u8]) -> Part
    ensures { result ≡ part_begun part kind text.now }
{
    match kind {
        TokenKind::Directive => part_by(part, text),
        _ => part,
    }
}

// Forms, where it is a code part.
fn forms_in(part: Part, forms: &'static [Form]) -> &'static [Form]
    ensures { result.now ≡ forms_in part forms.now }
{
    match part {
        Part::Data => &[],
        _ => forms,
    }
}

// Returns the forms of the operands after a directive of the code part.
fn align_forms(text: &[u8]) -> &'static [Form]
    ensures { result.now ≡ align_forms text.now }
{
    if text == b".align".as_slice() {
        &[Form::Alignment]
    } else {
        &[]
    }
}

// Returns the forms of the operands after the first token of a statement.
fn forms_begun(part: Part, kind: TokenKind, text: &[u8]) -> &'static [Form]
    ensures { result.now ≡ forms_begun part kind text.now }
{
    match kind {
        TokenKind::Word => forms_in(part, forms_by(op_of(text))),
        TokenKind::Directive => forms_in(part, align_forms(text)),
        _ => &[],
    }
}

// What a word takes besides.
fn rest_of_word(text: &[u8]) -> Rest
    ensures { result ≡ rest_of_word text.now }
{
    if text == b"note".as_slice() {
        Rest::NoteString
    } else if text == b"name".as_slice() {
        Rest::Token
    } else {
        Rest::Nothing
    }
}

// What a directive of the data part takes.
fn rest_of_item(text: &[u8]) -> Rest
    ensures { result ≡ rest_of_item text.now }
{
    if text == b".c".as_slice() {
        Rest::FirstByte
    } else if is_values(text) {
        Rest::FirstNumber
    } else {
        Rest::Token
    }
}

// What a directive takes.
fn rest_of_directive(part: Part, text: &[u8]) -> Rest
    ensures { result ≡ rest_of_directive part text.now }
{
    if text == b".data".as_slice() {
        Rest::Token
    } else if text == b".code".as_slice() {
        Rest::Nothing
    } else if is_data(part) {
        rest_of_item(text)
    } else {
        Rest::Nothing
    }
}

// What the first token of a statement takes besides.
fn rest_begun(part: Part, kind: TokenKind, text: &[u8]) -> Rest
    ensures { result ≡ rest_begun part kind text.now }
{
    match kind {
        TokenKind::Word => rest_of_word(text),
        TokenKind::Directive => rest_of_directive(part, text),
        _ => Rest::Nothing,
    }
}

// ---- what is after a token

/// Forms without the first.
pub fn forms_on(forms: &'static [Form]) -> &'static [Form]
    ensures { result.now ≡ drop 1 forms.now }
{
    match forms {
        [_, rest @ ..] => rest,
        [] => forms,
    }
}

// What may come after a token of the statement at hand.
fn rest_on_in(forms: &[Form], rest: Rest, kind: TokenKind) -> Rest
    ensures { result ≡ rest_on_in forms.now rest kind }
{
    match forms {
        [] => rest_on(rest, kind),
        [_, ..] => rest,
    }
}

/// Returns the part after a token.
pub fn part_after(part: Part, forms: &[Form], rest: Rest, kind: TokenKind, text: &[u8]) -> Part
    ensures { result ≡ part_after part forms.now rest kind text.now }
{
    if belongs(forms, rest, kind) {
        part
    } else {
        part_begun(part, kind, text)
    }
}

/// Returns the forms of the operands that are left after a token.
pub fn forms_after(
    part: Part,
    forms: &'static [Form],
    rest: Rest,
    kind: TokenKind,
    text: &[u8],
) -> &'static [Form]
    ensures { result.now ≡ forms_after part forms.now rest kind text.now }
{
    if belongs(forms, rest, kind) {
        forms_on(forms)
    } else {
        forms_begun(part, kind, text)
    }
}

/// Returns what the statement at hand takes after a token, where no operand is left.
pub fn rest_after(part: Part, forms: &[Form], rest: Rest, kind: TokenKind, text: &[u8]) -> Rest
    ensures { result ≡ rest_after part forms.now rest kind text.now }
{
    if belongs(forms, rest, kind) {
        rest_on_in(forms, rest, kind)
    } else {
        rest_begun(part, kind, text)
    }
}

/// Returns whether a token begins a statement and there is none that it begins.
pub fn is_unknown(part: Part, forms: &[Form], rest: Rest, kind: TokenKind, text: &[u8]) -> bool
    ensures { result ≡ is_unknown part forms.now rest kind text.now }
{
    !belongs(forms, rest, kind) && begins_none(part, kind, text)
}
