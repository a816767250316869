// The expressions of `#if`.

ghost use Rattle.std.specs.Prelude.{◌≡◌, ◌+◌, ◌++◌, ◌<◌, ◌≤◌, [], length, IfOk, OnOk, IfSome};
ghost use Rattle.lg_macro.specs.Macros.{Reads, GivesAs};
ghost use Rattle.lg_macro.specs.Pieces.{piece_at};
ghost use Rattle.lg_pre.specs.Questions.{solid_at, name_in_parens, asked, is_question, question_at, answer_of, resolved_by, resolved, token_text, value_of, worth, worth_of, is_chosen, question, asks, value_in, is_expression};
ghost use Rattle.lg_lex.specs.Tokens.{tokens_of};
ghost use Rattle.std.specs.Prelude.{◌==◌, ◌&&◌, if◌then◌else◌, Some, None};
ghost use Rattle.std.specs.Prelude.{◌∷◌};

use lg_base::layout::MOST_TEXT;
use lg_base::{OutOfMemory, RefusalKind, Stop};
use lg_lex::{Lexer, TokenKind};
use lg_macro::{MOST_HELD, PieceKind, Pieces, PlainText, Spare, Table, Work, refused};
use lg_replacement::expand;
use std::alloc::Global;

// Returns the place of the next piece that is no white space.
fn solid_at(pieces: &Pieces, from: usize) -> usize
    requires { from ≤ length pieces.now }
    ensures value { result ≡ solid_at pieces.now from }
    ensures behind { from ≤ result }
    ensures inside { result ≤ length pieces.now }
{
    let end = pieces.len();
    let mut at = from;
    'white: while at < end {
        if !pieces.kind(at).is_white() {
            return at;
        }
        at += 1;
    }
    at
}

// A name with its `)` after it.
fn name_in_parens(pieces: &Pieces, name: usize) -> Option<(usize, usize)>
    requires { name ≤ length pieces.now }
    ensures value { result ≡ name_in_parens pieces.now name }
    ensures inside { IfSome result (λ found. (found.0 < found.1) × (name < found.1) × (found.1 ≤ length pieces.now)) }
{
    let _end = pieces.len();
    if !pieces.is_word_at(name) {
        return None;
    }
    let close = solid_at(pieces, name + 1);
    if pieces.is_byte_at(close, b')') {
        Some((name, close + 1))
    } else {
        None
    }
}

// Returns the place of the name that is after `defined`, and the place after all of it.
fn asked(pieces: &Pieces, at: usize) -> Option<(usize, usize)>
    requires { at ≤ length pieces.now }
    ensures value { result ≡ asked pieces.now at }
    ensures inside { IfSome result (λ found. (found.0 < found.1) × (at < found.1) × (found.1 ≤ length pieces.now)) }
{
    let _end = pieces.len();
    let first = solid_at(pieces, at);
    if pieces.is_word_at(first) {
        return Some((first, first + 1));
    }
    if !pieces.is_byte_at(first, b'(') {
        return None;
    }
    name_in_parens(pieces, solid_at(pieces, first + 1))
}

// Returns whether a piece is the word `defined`.
fn is_question(pieces: &Pieces, at: usize) -> bool
    requires { at < length pieces.now }
    ensures { result ≡ is_question (piece_at pieces.now at) }
{
    pieces.is_word_at(at) && pieces.text(at) == b"defined".as_slice()
}

// Returns the name that is asked for at a place.
fn question_at(pieces: &Pieces, at: usize) -> Option<(usize, usize)>
    requires { at < length pieces.now }
    ensures value { result ≡ question_at pieces.now at }
    ensures inside { IfSome result (λ found. (found.0 < found.1) × (at < found.1) × (found.1 ≤ length pieces.now)) }
{
    let _end = pieces.len();
    if is_question(pieces, at) {
        asked(pieces, at + 1)
    } else {
        None
    }
}

// Adds 1 where a name is defined, and else 0.
fn push_answer(
    out: &mut Pieces,
    table: &Table,
    pieces: &Pieces,
    at: usize,
) -> Result<(), OutOfMemory>
    requires { at < length pieces.now }
    ensures { OnOk result (out.new ≡ out.old ++ answer_of table.now (piece_at pieces.now at) ∷ []) }
{
    let line = pieces.line(at);
    if table.place_in(pieces.text(at)).is_some() {
        out.push(PieceKind::Number, b"1", line, false)
    } else {
        out.push(PieceKind::Number, b"0", line, false)
    }
}

// Adds a piece, or the answer to what is asked there: the place after it.
fn push_resolved(
    out: &mut Pieces,
    table: &Table,
    pieces: &Pieces,
    at: usize,
) -> Result<usize, OutOfMemory>
    requires { at < length pieces.now }
    ensures piece { OnOk result (out.new ≡ out.old ++ (resolved_by table.now pieces.now at (question_at pieces.now at)).0 ∷ []) }
    ensures next { IfOk result (λ n. n ≡ (resolved_by table.now pieces.now at (question_at pieces.now at)).1) }
    ensures inside { IfOk result (λ n. (at < n) × (n ≤ length pieces.now)) }
{
    let _end = pieces.len();
    match question_at(pieces, at) {
        None => {
            out.push_same(pieces, at)?;
            Ok(at + 1)
        }
        Some((name, next)) => {
            push_answer(out, table, pieces, name)?;
            Ok(next)
        }
    }
}

// Returns the pieces with each `defined NAME` answered.
fn resolved(alloc: Global, table: &Table, pieces: &Pieces) -> Result<Pieces, OutOfMemory>
    ensures { IfOk result (λ r. r ≡ resolved table.now pieces.now) }
{
    let mut out = Pieces::new(alloc);
    let end = pieces.len();
    let mut at = 0;
    'pieces: while at < end {
        let next = push_resolved(&mut out, table, pieces, at)?;
        at = next;
    }
    Ok(out)
}

// Adds what a piece is worth: a word is 0.
fn push_worth(out: &mut PlainText, pieces: &Pieces, at: usize) -> Result<(), OutOfMemory>
    requires { at < length pieces.now }
    ensures { OnOk result (out.new ≡ out.old ++ worth (piece_at pieces.now at)) }
{
    if pieces.is_word_at(at) {
        out.extend(b"0")
    } else {
        out.extend(pieces.text(at))
    }
}

// The bytes of an expression, after those that are there.
fn push_worth_of(out: &mut PlainText, pieces: &Pieces) -> Result<(), OutOfMemory>
    ensures { OnOk result (out.new ≡ out.old ++ worth_of pieces.now) }
{
    'pieces: for at in 0..pieces.len() {
        push_worth(out, pieces, at)?;
    }
    Ok(())
}

// Returns the token that an expression makes.
fn token_text(alloc: Global, pieces: &Pieces) -> Result<PlainText, OutOfMemory>
    ensures { IfOk result (λ r. r ≡ token_text (worth_of pieces.now)) }
{
    let mut text = PlainText::of(alloc, b"$(")?;
    push_worth_of(&mut text, pieces)?;
    text.extend(b"\n)")?;
    Ok(text)
}

// Returns the value of the expression that a token's text is.
fn value_in(text: &[u8]) -> Option<u64>
    requires { length text.now ≤ 16777216 }
    ensures { result ≡ value_in (length text.now) (tokens_of text.now).0 }
{
    let mut lexer = Lexer::new(text);
    match lexer.next() {
        Ok(Some(token)) => whole_value(token.kind, token.end as usize, text.len(), token.value),
        _ => None,
    }
}

// Returns the value of a token that is an expression and ends with the text.
fn whole_value(kind: TokenKind, end: usize, len: usize, value: u64) -> Option<u64>
    ensures { result ≡ (if is_expression kind && (end == len) then Some value else None) }
{
    match kind {
        TokenKind::Expression if end == len => Some(value),
        _ => None,
    }
}

// Whether an expression is chosen.
fn is_chosen(alloc: Global, line: u32, pieces: &Pieces) -> Result<bool, Stop>
    ensures { Reads result (is_chosen line (worth_of pieces.now)) }
{
    let text = token_text(alloc, pieces)?;
    if text.len() > MOST_TEXT {
        return Err(Stop::OutOfMemory);
    }
    match value_in(text.as_slice()) {
        None => Err(refused(RefusalKind::BadDirective, line)),
        Some(value) => Ok(value != 0),
    }
}

/// Whether the group of an `#if` is chosen. Its expression adds to the sum of replacements.
pub(crate) fn asks(
    alloc: Global,
    table: &Table,
    line: u32,
    pieces: &Pieces,
    sum: &mut usize,
) -> Result<bool, Stop>
    ensures { GivesAs result sum.new (asks table.now line pieces.now sum.old) }
{
    if pieces.len() == 0 {
        return Err(refused(RefusalKind::BadDirective, line));
    }
    let expanded = question(alloc, table, line, pieces, sum)?;
    is_chosen(alloc, line, &expanded)
}

// An expression with its questions answered and its macros replaced.
fn question(
    alloc: Global,
    table: &Table,
    line: u32,
    pieces: &Pieces,
    sum: &mut usize,
) -> Result<Pieces, Stop>
    ensures { GivesAs result sum.new (question table.now line pieces.now sum.old) }
{
    let mut work = Work {
        alloc,
        hidden: Vec::new(alloc),
        sum: *sum,
        room: MOST_HELD,
        spare: Spare::new(alloc),
    };
    let mut out = Pieces::new(alloc);
    let resolved = resolved(alloc, table, pieces)?;
    expand(table, &mut work, &resolved, line, 201, &mut out)?;
    *sum = work.sum;
    Ok(out)
}
