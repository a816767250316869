// The word that a text makes a second time: of a label, or of a name of a function.

ghost use Rattle.std.specs.Prelude.{◌≡◌, ◌≤◌, ◌<◌, [], drop, length, IfOk, OnOk};
ghost use Rattle.std.specs.Option.{option_map};
ghost use Rattle.lg_explain.specs.Lines.{shown};
ghost use Rattle.lg_explain.specs.Twice.{again, begins_function, forms_after, forms_by, forms_of_word, labels_after, made_again, made_twice, makes_label, makes_name, makes_name_in, names_after};
ghost use Rattle.lg_tst.specs.Streams.{text_of, without_last};
ghost use Rattle.lg_tst.specs.Units.{written_forms};
ghost use Rattle.lg_tst.specs.Words.{op_of};

use crate::line::Shown;
use crate::made::Made;
use lg_base::OutOfMemory;
use lg_lex::{Lexer, Token, TokenKind};
use lg_node::walk::is_prolog;
use lg_node::{Form, Op, PlainOp};
use std::alloc::Global;

// ---- what a token does

/// Returns the operation that a word names.
pub fn op_of(word: &[u8]) -> Option<Op>
    ensures { result ≡ op_of word.now }
{
    Op::by_name(word)
}

// Returns the forms of the operands that have tokens: `va_start` has one more.
fn written_forms(op: Op) -> &'static [Form]
    ensures { result.now ≡ written_forms op }
{
    match op {
        Op::Plain(PlainOp::VaStart) => &[Form::Write],
        _ => op.forms(),
    }
}

/// Those of an operation, where there is one.
pub fn forms_by(op: Option<Op>) -> &'static [Form]
    ensures { result.now ≡ forms_by op }
{
    match op {
        Some(op) => written_forms(op),
        None => &[],
    }
}

// Returns the forms of the operands after a word that begins a statement.
fn forms_of_word(word: &[u8]) -> &'static [Form]
    ensures { result.now ≡ forms_of_word word.now }
{
    if word == b"name".as_slice() {
        &[Form::Immediate]
    } else {
        forms_by(op_of(word))
    }
}

// Returns the forms of the operands that are left after a token.
fn forms_after(forms: &'static [Form], kind: TokenKind, text: &[u8]) -> &'static [Form]
    ensures { result.now ≡ forms_after forms.now kind text.now }
{
    match (forms, kind) {
        ([_, rest @ ..], _) => rest,
        ([], TokenKind::Word) => forms_of_word(text),
        ([], _) => &[],
    }
}

// Returns whether a token makes a label.
fn makes_label(forms: &[Form], kind: TokenKind) -> bool
    ensures { result ≡ makes_label forms.now kind }
{
    forms.is_empty() && kind == TokenKind::LabelMark
}

// Returns whether a name is made at the place of an operand.
fn makes_name(form: Form) -> bool
    ensures { result ≡ makes_name form }
{
    matches!(form, Form::NewArgument | Form::NewLocal)
}

// Returns whether a token makes a name.
fn makes_name_in(forms: &[Form], kind: TokenKind) -> bool
    ensures { result ≡ makes_name_in forms.now kind }
{
    match forms {
        [form, ..] => makes_name(*form) && kind == TokenKind::Name,
        [] => false,
    }
}

// Returns whether a token begins a function.
fn begins_function(forms: &[Form], kind: TokenKind, text: &[u8]) -> bool
    ensures { result ≡ begins_function forms.now kind text.now }
{
    if !forms.is_empty() || kind != TokenKind::Word {
        return false;
    }
    match op_of(text) {
        Some(op) => is_prolog(op),
        None => false,
    }
}

// ---- words

// A text without its last byte.
fn without_last(text: &[u8]) -> &[u8]
    ensures { result.now ≡ without_last text.now }
{
    match text {
        [rest @ .., _] => rest,
        [] => text,
    }
}

// A text without its first byte.
fn without_first(text: &[u8]) -> &[u8]
    ensures { result.now ≡ drop 1 text.now }
{
    match text {
        [_, rest @ ..] => rest,
        [] => text,
    }
}

// A word, where it was made before.
fn made_again(words: &Made, word: &[u8]) -> Option<Shown>
    ensures { result ≡ option_map shown (made_again words.now word.now) }
{
    if words.has(word) {
        Some(Shown::of(word))
    } else {
        None
    }
}

// Returns the word that a token makes, where it was made before.
fn again(forms: &[Form], kind: TokenKind, text: &[u8], labels: &Made, names: &Made) -> Option<Shown>
    ensures { result ≡ option_map shown (again forms.now kind text.now labels.now names.now) }
{
    if makes_label(forms, kind) {
        made_again(labels, without_last(text))
    } else if makes_name_in(forms, kind) {
        made_again(names, without_first(text))
    } else {
        None
    }
}

// Makes the label that a token makes.
fn make_label(
    forms: &[Form],
    kind: TokenKind,
    text: &[u8],
    labels: &mut Made,
) -> Result<(), OutOfMemory>
    ensures { OnOk result (labels.new ≡ labels_after forms.now kind text.now labels.old) }
{
    if makes_label(forms, kind) {
        labels.add(without_last(text))
    } else {
        Ok(())
    }
}

// Makes the name that a token makes, or makes the names end.
fn make_name(
    alloc: Global,
    forms: &[Form],
    kind: TokenKind,
    text: &[u8],
    names: &mut Made,
) -> Result<(), OutOfMemory>
    ensures { OnOk result (names.new ≡ names_after forms.now kind text.now names.old) }
{
    if begins_function(forms, kind, text) {
        *names = Made::new(alloc);
        Ok(())
    } else if makes_name_in(forms, kind) {
        names.add(without_first(text))
    } else {
        Ok(())
    }
}

/// Returns the bytes of a token.
pub fn text_of(text: &[u8], token: Token) -> &[u8]
    requires order { token.start < token.end }
    requires within { token.end ≤ length text.now }
    ensures { result.now ≡ text_of text.now token }
{
    &text[token.start as usize..token.end as usize]
}

// The first word of a text that is made a second time, as it is shown, where these words were made before it: none.
fn first_again(
    alloc: Global,
    text: &[u8],
    labels: &mut Made,
    names: &mut Made,
) -> Result<Option<Shown>, OutOfMemory>
    requires short { length text.now ≤ 16777216 }
    requires labels { labels.old ≡ [] }
    requires names { names.old ≡ [] }
    ensures { IfOk result (λ word. word ≡ option_map shown (made_twice text.now)) }
{
    let mut lexer = Lexer::new(text);
    let mut forms: &'static [Form] = &[];
    while let Ok(Some(token)) = lexer.next() {
        let bytes = text_of(text, token);
        if let Some(word) = again(forms, token.kind, bytes, labels, names) {
            return Ok(Some(word));
        }
        make_label(forms, token.kind, bytes, labels)?;
        make_name(alloc, forms, token.kind, bytes, names)?;
        forms = forms_after(forms, token.kind, bytes);
    }
    Ok(None)
}

/// Returns the first word of a text of at most 16,777,216 bytes that is made a second time, as it is shown: of a label, or of a name where `arg` or `allocai`
/// makes it, which its function made before.
pub fn made_twice(alloc: Global, text: &[u8]) -> Result<Option<Shown>, OutOfMemory>
    requires { length text.now ≤ 16777216 }
    ensures { IfOk result (λ word. word ≡ option_map shown (made_twice text.now)) }
{
    let mut labels = Made::new(alloc);
    let mut names = Made::new(alloc);
    first_again(alloc, text, &mut labels, &mut names)
}
