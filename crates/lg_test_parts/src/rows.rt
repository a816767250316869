// Rows of tables: what is expected of a text, and the text; and what is made of texts.

use crate::{check_rows, expansion, parse_rows, readings, tokens, units};
use lg_base::{Refusal, Stop};
use lg_io::{Digits, Radix};
use std::alloc::{AllocError, Global};
use std::test::Fail;

/// What is made of a text. Where a text is refused, it is the kind and the line of the refusal.
pub(crate) enum Kind {
    /// Its one token's value, or `nothing` where it has none.
    Tokens,
    /// Its expansion.
    Expansion,
    /// Its expansion, which has as many line feeds as the text.
    Lines,
    /// That it is read.
    Read,
    /// That it is read and passes the checks.
    Checked,
    /// How many nodes it has.
    Nodes,
    /// The bytes of its data.
    Image,
    /// How many bytes it has itself.
    Size,
}

/// A piece of a text.
pub(crate) enum Piece {
    /// Bytes.
    Of(&'static [u8]),
    /// Bytes this many times.
    Times(&'static [u8], u32),
    /// The definitions of this many names, each by the one before: `a1` and so on. Nothing that comes of a text has it.
    Names(u32),
}

/// A table: what is made of texts, what each begins with, and rows. A row is what comes of a text, then 1F and the text; between rows stands 1E.
pub(crate) type Table = (Kind, &'static [Piece], &'static str);

/// What should come of a text: bytes, and pieces after them.
pub(crate) type Wanted = (&'static [u8], &'static [Piece]);

/// What is made of a text, the text, and what comes of it.
pub(crate) type Made = (Kind, &'static [Piece], Wanted);

/// Returns whether bytes are the digits of a number.
pub(crate) fn are_digits(bytes: &[u8], number: u64) -> bool {
    bytes == Digits::of(number, Radix::Decimal).as_slice()
}

/// Returns whether bytes are the kind and the line of a refusal, with a blank between.
pub(crate) fn is_refusal(refusal: Refusal, wanted: &[u8]) -> bool {
    let name = refusal.kind.name().as_bytes();
    match wanted.get(name.len()..) {
        Some([b' ', line @ ..]) => {
            wanted.starts_with(name) && are_digits(line, u64::from(refusal.line))
        }
        _ => false,
    }
}

/// Returns whether a text should result in this stop.
pub(crate) fn is_stop(stop: Stop, wanted: Wanted) -> bool {
    match stop {
        Stop::Refused(refusal) => is_refusal(refusal, wanted.0),
        Stop::OutOfMemory => wanted.0 == b"out of memory".as_slice(),
    }
}

// What is after bytes this many times.
fn behind<'a>(text: &'a [u8], bytes: &[u8], times: u32) -> Option<&'a [u8]> {
    let mut rest = text;
    for _ in 0..times {
        if !rest.starts_with(bytes) {
            return None;
        }
        rest = rest.get(bytes.len()..)?;
    }
    Some(rest)
}

// What is after a piece.
fn after_piece<'a>(text: &'a [u8], piece: &Piece) -> Option<&'a [u8]> {
    match piece {
        Piece::Of(bytes) => behind(text, bytes, 1),
        Piece::Times(bytes, times) => behind(text, bytes, *times),
        Piece::Names(_) => None,
    }
}

/// Returns whether bytes are those of pieces.
pub(crate) fn are_of(bytes: &[u8], pieces: &[Piece]) -> bool {
    let mut rest = bytes;
    for piece in pieces {
        match after_piece(rest, piece) {
            Some(behind) => rest = behind,
            None => return false,
        }
    }
    rest.is_empty()
}

/// Returns whether bytes are those that are expected.
pub(crate) fn are_wanted(bytes: &[u8], wanted: Wanted) -> bool {
    match behind(bytes, wanted.0, 1) {
        Some(rest) => are_of(rest, wanted.1),
        None => false,
    }
}

// Returns whether this comes of a text.
fn gives(alloc: Global, kind: &Kind, text: &[u8], wanted: Wanted) -> bool {
    match kind {
        Kind::Tokens => tokens::gives(text, wanted.0),
        Kind::Expansion => expansion::gives(alloc, text, wanted),
        Kind::Lines => expansion::gives_lines(alloc, text, wanted),
        Kind::Size => are_digits(wanted.0, text.len() as u64),
        _ => units::gives(alloc, kind, text, wanted),
    }
}

// Appends bytes this many times.
fn repeat(text: &mut Vec<u8>, bytes: &[u8], times: u32) -> Result<(), AllocError> {
    if let [byte] = bytes {
        return text.resize(text.len().saturating_add(times as usize), *byte);
    }
    for _ in 0..times {
        text.extend_from_slice(bytes)?;
    }
    Ok(())
}

// Appends the definitions of this many names.
fn push_names(alloc: Global, text: &mut Vec<u8>, names: u32) -> Result<(), AllocError> {
    text.extend_from_slice(b"#define a1 1\n")?;
    for name in 2..=names {
        let line = format!(in alloc; "#define a{name} a{}\n", name.wrapping_sub(1))?;
        text.extend_from_slice(line.as_bytes())?;
    }
    Ok(())
}

// Appends a piece.
fn push_piece(alloc: Global, text: &mut Vec<u8>, piece: &Piece) -> Result<(), AllocError> {
    match piece {
        Piece::Of(bytes) => text.extend_from_slice(bytes),
        Piece::Times(bytes, times) => repeat(text, bytes, *times),
        Piece::Names(names) => push_names(alloc, text, *names),
    }
}

// Appends pieces.
fn push_pieces(alloc: Global, text: &mut Vec<u8>, pieces: &[Piece]) -> Result<(), AllocError> {
    for piece in pieces {
        push_piece(alloc, text, piece)?;
    }
    Ok(())
}

/// Returns the text of pieces.
pub(crate) fn made(alloc: Global, pieces: &[Piece]) -> Result<Vec<u8>, AllocError> {
    let mut text = Vec::new(alloc);
    push_pieces(alloc, &mut text, pieces)?;
    Ok(text)
}

// Whether what is expected comes of a text of pieces, and of bytes after them.
fn is_right(
    alloc: Global,
    kind: &Kind,
    pieces: &[Piece],
    bytes: &[u8],
    wanted: Wanted,
) -> Result<bool, AllocError> {
    let mut text = made(alloc, pieces)?;
    text.extend_from_slice(bytes)?;
    Ok(gives(alloc, kind, &text, wanted))
}

// Whether what a row wants comes of its text after a beginning.
fn is_row_right(
    alloc: Global,
    kind: &Kind,
    before: &[Piece],
    row: &'static str,
) -> Result<bool, AllocError> {
    let (wanted, text) = row.split_once('\x1f').unwrap_or((row, ""));
    is_right(
        alloc,
        kind,
        before,
        text.as_bytes(),
        (wanted.as_bytes(), &[]),
    )
}

// Returns the first row of a table that gives something else.
fn first_other_row(alloc: Global, table: &Table) -> Result<Option<&'static str>, AllocError> {
    let (kind, before, rows) = table;
    for row in rows.split('\x1e') {
        if !is_row_right(alloc, kind, before, row)? {
            return Ok(Some(row));
        }
    }
    Ok(None)
}

// Returns the first row of tables that gives something else.
fn first_other(alloc: Global, tables: &[Table]) -> Result<Option<&'static str>, AllocError> {
    for table in tables {
        if let Some(row) = first_other_row(alloc, table)? {
            return Ok(Some(row));
        }
    }
    Ok(None)
}

// The same of lists of tables.
fn first_other_of(alloc: Global, lists: &[&[Table]]) -> Result<Option<&'static str>, AllocError> {
    for tables in lists {
        if let Some(row) = first_other(alloc, tables)? {
            return Ok(Some(row));
        }
    }
    Ok(None)
}

// Returns the number of the first text of pieces, from 0 on, that gives something else.
fn first_other_made(alloc: Global, rows: &[Made]) -> Result<Option<usize>, AllocError> {
    for (number, (kind, text, wanted)) in rows.iter().enumerate() {
        if !is_right(alloc, kind, text, b"", *wanted)? {
            return Ok(Some(number));
        }
    }
    Ok(None)
}

// Returns the first row that gives something else.
fn first_other_text(alloc: Global) -> Result<Option<&'static str>, AllocError> {
    let lists = [
        tokens::tables(),
        readings::tables(),
        check_rows::tables(),
        expansion::conditions::tables(),
        expansion::directives::tables(),
        expansion::names::tables(),
    ];
    first_other_of(alloc, &lists)
}

#[test]
fn makes_of_texts_what_rows_say(rt: HostRuntime) -> Result<(), Fail> {
    assert_eq!(rt; first_other_text(rt.alloc())?, None);
    Ok(())
}

// The same of the largest texts.
fn first_other_large_text(alloc: Global) -> Result<Option<&'static str>, AllocError> {
    first_other_of(alloc, &[parse_rows::tables(), expansion::limits::tables()])
}

#[test]
fn makes_of_the_largest_texts_what_rows_say(rt: HostRuntime) -> Result<(), Fail> {
    assert_eq!(rt; first_other_large_text(rt.alloc())?, None);
    Ok(())
}

// Returns the number of the first text of pieces of lists that gives something else.
fn first_other_made_of(alloc: Global, lists: &[&[Made]]) -> Result<Option<usize>, AllocError> {
    for rows in lists {
        if let Some(number) = first_other_made(alloc, rows)? {
            return Ok(Some(number));
        }
    }
    Ok(None)
}

// The same of all.
fn first_other_of_pieces(alloc: Global) -> Result<Option<usize>, AllocError> {
    let lists = [
        tokens::pieces(),
        parse_rows::pieces(),
        expansion::conditions::pieces(),
        expansion::limits::pieces(),
    ];
    first_other_made_of(alloc, &lists)
}

#[test]
fn makes_of_pieces_what_rows_say(rt: HostRuntime) -> Result<(), Fail> {
    assert_eq!(rt; first_other_of_pieces(rt.alloc())?, None);
    Ok(())
}
