// The first operand of a text that its place does not take, in words.

ghost use Rattle.std.specs.Prelude.{◌≡◌, ◌≤◌, ◌-◌, length, take};
ghost use Rattle.std.specs.Option.{option_map};
ghost use Rattle.lg_explain.specs.Lines.{shown};
ghost use Rattle.lg_explain.specs.Misfits.{all_forms, comma, first_misfit, first_words, form_words, is_bad, is_misfit, is_misfit_at, is_repeated, is_second, is_written, lacks, listed, misfit, misfit_words, missing, most_there, next_words, number_fits, number_words, ordinal, places, rest_takes, rest_words, second_words, takes_name, token_fits, token_words, wants_token, word_after, words_by};
ghost use Rattle.lg_tst.specs.Units.{is_data_alignment};

use crate::line::Shown;
use crate::place::{Part, Rest, belongs, forms_after, forms_on, is_number, part_after, rest_after};
use crate::twice::{forms_by, op_of, text_of};
use lg_base::{HostName, RefusalKind};
use lg_lex::bytes::ahead;
use lg_lex::{Lexer, TokenKind};
use lg_node::{Form, Label, Operand};
use lg_operand::{after_mark, host_operand, register_operand};

// ---- a token at the place of an operand

// Returns whether it is refused for its form.
fn is_bad(read: Result<Operand, RefusalKind>) -> bool
    ensures { result ≡ is_bad read }
{
    matches!(read, Err(RefusalKind::BadOperand))
}

// Returns whether a form is that of a name, which its function makes or has made.
fn takes_name(form: Form) -> bool
    ensures { result ≡ takes_name form }
{
    matches!(
        form,
        Form::NewArgument | Form::NewLocal | Form::Argument | Form::Immediate
    )
}

// Returns whether a token is of another form.
fn is_misfit(form: Form, kind: TokenKind, text: &[u8], value: u64) -> bool
    ensures { result ≡ is_misfit form kind text.now value }
{
    match kind {
        TokenKind::Register => is_bad(register_operand(form, text)),
        TokenKind::Host => is_bad(host_operand(form, HostName::by_name(after_mark(text)))),
        TokenKind::Name => !takes_name(form),
        TokenKind::Word => !form.admits(Operand::Label(Label(0))),
        TokenKind::Number | TokenKind::Character | TokenKind::Expression => {
            !form.admits(Operand::Number(value))
        }
        _ => true,
    }
}

// Returns whether a register of a form is written.
fn is_written(form: Form) -> bool
    ensures { result ≡ is_written form }
{
    matches!(form, Form::Write | Form::Update)
}

// Returns whether the second of two results goes to the register of the first.
fn is_repeated(form: Form, before: &[u8], text: &[u8]) -> bool
    ensures { result ≡ is_repeated form before.now text.now }
{
    is_written(form) && before == text
}

// ---- a token after a directive or `name`

// Returns whether a number is a power of two from 1 to 4,096.
fn is_data_alignment(number: u64) -> bool
    ensures { result ≡ is_data_alignment number }
{
    matches!(
        number,
        1 | 2 | 4 | 8 | 16 | 32 | 64 | 128 | 256 | 512 | 1024 | 2048 | 4096
    )
}

// Returns whether a directive takes a number.
fn number_fits(word: &[u8], value: u64) -> bool
    ensures { result ≡ number_fits word.now value }
{
    if word == b".data".as_slice() {
        value <= 16_777_216
    } else if word == b".align".as_slice() {
        is_data_alignment(value)
    } else {
        true
    }
}

// Returns whether a statement of one token takes it.
fn token_fits(word: &[u8], kind: TokenKind, value: u64) -> bool
    ensures { result ≡ token_fits word.now kind value }
{
    if word == b"name".as_slice() {
        matches!(kind, TokenKind::Word)
    } else {
        is_number(kind) && number_fits(word, value)
    }
}

// Returns whether what is left of a statement takes a token.
fn rest_takes(rest: Rest, word: &[u8], kind: TokenKind, value: u64) -> bool
    ensures { result ≡ rest_takes rest word.now kind value }
{
    match rest {
        Rest::Token => token_fits(word, kind, value),
        Rest::FirstByte => is_number(kind) || matches!(kind, TokenKind::Str),
        Rest::FirstNumber => is_number(kind),
        _ => true,
    }
}

// ---- a token at a statement's place for one, and the end of the text there

// Returns whether the statement at hand does not take a token.
fn is_misfit_at(
    left: &[Form],
    rest: Rest,
    word: &[u8],
    before: &[u8],
    kind: TokenKind,
    text: &[u8],
    value: u64,
) -> bool
    ensures { result ≡ is_misfit_at left.now rest word.now before.now kind text.now value }
{
    match left {
        [] => !rest_takes(rest, word, kind, value),
        [form, ..] => is_misfit(*form, kind, text, value) || is_repeated(*form, before, text),
    }
}

// Returns whether a statement without operands left wants a token.
fn wants_token(rest: Rest) -> bool
    ensures { result ≡ wants_token rest }
{
    matches!(rest, Rest::Token | Rest::FirstByte | Rest::FirstNumber)
}

// Returns whether a statement wants a token.
fn lacks(left: &[Form], rest: Rest) -> bool
    ensures { result ≡ lacks left.now rest }
{
    match left {
        [] => wants_token(rest),
        [_, ..] => true,
    }
}

// ---- the words

// Returns the forms of all operands of a statement.
fn all_forms(word: &[u8]) -> &'static [Form]
    ensures { result.now ≡ all_forms word.now }
{
    if word == b".align".as_slice() {
        &[Form::Alignment]
    } else {
        forms_by(op_of(word))
    }
}

// Those that are listed.
fn listed(left: &[Form], word: &[u8]) -> &'static [Form]
    ensures { result.now ≡ listed left.now word.now }
{
    match left {
        [] => &[],
        [_, ..] => all_forms(word),
    }
}

// Returns the number of an operand, counted from 1.
fn ordinal(done: usize) -> &'static [u8]
    ensures { result.now ≡ ordinal done }
{
    if done == 0 {
        b"1"
    } else if done == 1 {
        b"2"
    } else if done == 2 {
        b"3"
    } else {
        b"4"
    }
}

// Returns the number of the first operand that is left.
fn number_words(all: &[Form], left: &[Form]) -> &'static [u8]
    ensures { result.now ≡ number_words all.now left.now }
{
    ordinal(all.len().saturating_sub(left.len()))
}

// What a place takes.
fn form_words(form: Form) -> &'static [u8]
    ensures { result.now ≡ form_words form }
{
    match form {
        Form::Write | Form::Update | Form::Read => b"register",
        Form::Immediate => b"number",
        Form::Target => b"label",
        Form::Callee => b"label or @function",
        Form::NewArgument | Form::NewLocal => b"$name",
        Form::Argument => b"$name of an arg",
        Form::Size => b"number from 1 to 65536",
        Form::Alignment => b"power of two from 1 to 64",
        Form::ArgumentCount => b"nothing",
    }
}

// What `name`, `.data`, `.size` and, in the data part, `.align` take.
fn token_words(word: &[u8]) -> &'static [u8]
    ensures { result.now ≡ token_words word.now }
{
    if word == b"name".as_slice() {
        b"word"
    } else if word == b".data".as_slice() {
        b"number up to 16777216"
    } else if word == b".align".as_slice() {
        b"power of two from 1 to 4096"
    } else {
        b"number"
    }
}

// What a statement without operands takes.
fn rest_words(rest: Rest, word: &[u8]) -> &'static [u8]
    ensures { result.now ≡ rest_words rest word.now }
{
    match rest {
        Rest::Token => token_words(word),
        Rest::FirstByte => b"strings and numbers",
        _ => b"numbers",
    }
}

// What the first place takes.
fn first_words(all: &[Form], rest: Rest, word: &[u8]) -> &'static [u8]
    ensures { result.now ≡ first_words all.now rest word.now }
{
    match all {
        [] => rest_words(rest, word),
        [form, ..] => form_words(*form),
    }
}

// Returns whether a place is that of a second result.
fn is_second(before: Form, form: Form) -> bool
    ensures { result ≡ is_second before form }
{
    match before {
        Form::Write => is_written(form),
        _ => false,
    }
}

// What a place takes that follows another.
fn second_words(before: Form, form: Form) -> &'static [u8]
    ensures { result.now ≡ second_words before form }
{
    if is_second(before, form) {
        b"another register"
    } else {
        form_words(form)
    }
}

// What is between the first two of these places.
fn comma(forms: &[Form]) -> &'static [u8]
    ensures { result.now ≡ comma forms.now }
{
    match forms {
        [_, _, ..] => b", ",
        _ => b"",
    }
}

// What the second of them takes.
fn next_words(forms: &[Form]) -> &'static [u8]
    ensures { result.now ≡ next_words forms.now }
{
    match forms {
        [before, form, ..] => second_words(*before, *form),
        _ => b"",
    }
}

// At most 40 bytes of what is there.
fn front(there: &[u8]) -> &[u8]
    ensures { result.now ≡ take most_there there.now }
{
    ahead(there, 40)
}

// What all places take, in a row.
fn places(all: &'static [Form], rest: Rest, word: &[u8]) -> Shown
    ensures { result ≡ shown (places all.now rest word.now) }
{
    let second = forms_on(all);
    let third = forms_on(second);
    Shown::of_row(&[
        first_words(all, rest, word),
        comma(all),
        next_words(all),
        comma(second),
        next_words(second),
        comma(third),
        next_words(third),
    ])
}

// Returns the words, whose parts are these.
fn words_by<'a>(number: &'a [u8], word: &'a [u8], there: &'a [u8], places: &'a [u8]) -> Shown
    ensures { result ≡ shown (words_by number.entry.now word.entry.now there.entry.now places.entry.now) }
{
    Shown::of_row(&[
        b"operand ",
        number,
        b" of ",
        word,
        b" is ",
        there,
        b"; ",
        word,
        b" takes: ",
        places,
    ])
}

// Returns the words that say what is at the place and what belongs there.
fn misfit_words(left: &[Form], rest: Rest, word: &[u8], there: &[u8]) -> Shown
    ensures { result ≡ shown (misfit_words left.now rest word.now there.now) }
{
    let all = listed(left, word);
    let places = places(all, rest, word);
    words_by(
        number_words(all, left),
        word,
        front(there),
        places.as_slice(),
    )
}

// They, where the statement at hand does not take a token.
fn misfit(
    left: &[Form],
    rest: Rest,
    word: &[u8],
    before: &[u8],
    kind: TokenKind,
    text: &[u8],
    value: u64,
) -> Option<Shown>
    ensures { result ≡ option_map shown (misfit left.now rest word.now before.now kind text.now value) }
{
    if is_misfit_at(left, rest, word, before, kind, text, value) {
        Some(misfit_words(left, rest, word, text))
    } else {
        None
    }
}

// They, where a text ends and the statement at hand wants a token.
fn missing(left: &[Form], rest: Rest, word: &[u8]) -> Option<Shown>
    ensures { result ≡ option_map shown (missing left.now rest word.now) }
{
    if lacks(left, rest) {
        Some(misfit_words(left, rest, word, b"missing: the text ends here"))
    } else {
        None
    }
}

// Returns the first token of the statement at hand, after a token.
fn word_after<'a>(
    left: &[Form],
    rest: Rest,
    word: &'a [u8],
    kind: TokenKind,
    text: &'a [u8],
) -> &'a [u8]
    ensures { result.now ≡ word_after left.now rest word.entry.now kind text.entry.now }
{
    if belongs(left, rest, kind) {
        word
    } else {
        text
    }
}

/// Returns the first token of a text of at most 16,777,216 bytes that is no operand which its place takes, and the end of the text where an operand is
/// missing: in words, with the forms of all operands there, as they are shown.
pub fn first_misfit(text: &[u8]) -> Option<Shown>
    requires { length text.now ≤ 16777216 }
    ensures { result ≡ option_map shown (first_misfit text.now) }
{
    let mut lexer = Lexer::new(text);
    let mut part = Part::First;
    let mut left: &'static [Form] = &[];
    let mut rest = Rest::Nothing;
    let mut word: &[u8] = &[];
    let mut before: &[u8] = &[];
    while let Ok(Some(token)) = lexer.next() {
        let bytes = text_of(text, token);
        if let Some(words) = misfit(left, rest, word, before, token.kind, bytes, token.value) {
            return Some(words);
        }
        let part_before = part;
        let forms = left;
        let rest_before = rest;
        part = part_after(part_before, forms, rest_before, token.kind, bytes);
        left = forms_after(part_before, forms, rest_before, token.kind, bytes);
        rest = rest_after(part_before, forms, rest_before, token.kind, bytes);
        word = word_after(forms, rest_before, word, token.kind, bytes);
        before = bytes;
    }
    missing(left, rest, word)
}
