// The pieces of a text with their lines, and the lines that are directives.

ghost use Rattle.std.specs.Prelude.{◌≡◌, ◌+◌, ◌-◌, ◌++◌, ◌<◌, ◌≤◌, ◌==◌, ◌&&◌, ◌^◌, slice_index, not, true, false, length, map, drop, IfOk, IfSome};
ghost use Rattle.lg_macro.specs.PieceParts.{AreParts, piece_of};
ghost use Rattle.lg_macro.specs.Pieces.{piece_at, is_feed, is_spaced};
ghost use Rattle.lg_macro.specs.Text.{is_comment, feeds_of, pieces_on, ends_with_slash, line_len, marks_line, begins_directive, mark_in};

use crate::cutting::front_of;
use crate::pieces::{Part, PieceKind, Pieces};
use lg_base::OutOfMemory;
use lg_lex::bytes::{ahead, behind};
use std::alloc::Global;

// Returns how many line feeds bytes have.
fn feeds_of(text: &[u8]) -> usize
    ensures value { result ≡ feeds_of text.now }
    ensures few { result ≤ length text.now }
{
    text.iter().filter(|b| **b == b'\n').count()
}

// Returns the line after a piece that begins on a line. The bytes are counted only where there can be a line feed among them.
fn line_after(line: u32, kind: PieceKind, piece: &[u8]) -> u32
    requires fits { line + length piece.now < 2 ^ 32 }
    requires quiet { is_spaced kind ≡ false → feeds_of piece.now ≡ 0 }
    ensures value { result ≡ line + feeds_of piece.now }
    ensures few { result ≤ line + length piece.now }
{
    match kind {
        PieceKind::Comment | PieceKind::Feed => line + feeds_of(piece) as u32,
        _ => line,
    }
}

/// The first pieces of a text, how many bytes they have, and the line after them.
#[derive(Drop)]
pub struct Front {
    pub pieces: Pieces,
    pub len: usize,
    pub line: u32,
}

// Returns the pieces whose parts these are, the first of a text up to a place.
fn front_with(
    alloc: Global,
    text: &[u8],
    parts: Vec<Part>,
    at: usize,
    line: u32,
) -> Result<Front, OutOfMemory>
    requires inside { at ≤ length text.now }
    requires parts { AreParts text.now at parts.items }
    ensures pieces { IfOk result (λ r. r.pieces ≡ map (piece_of text.now) parts.items) }
    ensures len { IfOk result (λ r. r.len ≡ at) }
    ensures line { IfOk result (λ r. r.line ≡ line) }
{
    let pieces = Pieces::of(alloc, ahead(text, at), parts)?;
    Ok(Front {
        pieces,
        len: at,
        line,
    })
}

/// Returns the first pieces of a text that begins on a line, at most this many, each with the line of its first byte.
pub fn first_pieces(
    alloc: Global,
    text: &[u8],
    first: u32,
    most: usize,
) -> Result<Front, OutOfMemory>
    requires fits { first + length text.now < 2 ^ 32 }
    requires any { 0 < most }
    ensures pieces { IfOk result (λ r. r.pieces ++ pieces_on r.line (drop r.len text.now) ≡ pieces_on first text.now) }
    ensures line { IfOk result (λ r. r.line ≤ first + r.len) }
    ensures inside { IfOk result (λ r. r.len ≤ length text.now) }
    ensures some { 0 < length text.now → IfOk result (λ r. 0 < r.len) }
{
    let mut parts: Vec<Part> = Vec::new(alloc);
    let end = text.len();
    let mut at = 0;
    let mut line: u32 = first;
    'pieces: while at < end {
        if parts.len() >= most {
            let some = front_with(alloc, text, parts, at, line)?;
            return Ok(some);
        }
        let rest = behind(text, at);
        let (kind, n) = front_of(rest);
        let piece = ahead(rest, n);
        parts.push(Part {
            kind,
            frozen: false,
            line,
            start: at,
            end: at + n,
        })?;
        line = line_after(line, kind, piece);
        at += n;
    }
    let all = front_with(alloc, text, parts, at, line)?;
    Ok(all)
}

// Returns whether a piece ends with a backslash.
fn ends_with_slash(text: &[u8]) -> bool
    ensures { result ≡ (slice_index text.now (length text.now - 1) == 92) }
{
    match text.last() {
        None => false,
        Some(b) => *b == b'\\',
    }
}

// Returns whether a line ends with a piece.
fn ends_line(pieces: &Pieces, at: usize, goes_on: bool, slash: bool) -> bool
    requires { at < length pieces.now }
    ensures { result ≡ (is_feed (piece_at pieces.now at).kind && not (goes_on && slash)) }
{
    pieces.kind(at).is_feed() && !(goes_on && slash)
}

/// Returns how many pieces a line has, its line feed included. One that goes on does so over each line feed with a backslash directly before it.
pub fn line_len(pieces: &Pieces, from: usize, goes_on: bool) -> usize
    requires { from < length pieces.now }
    ensures value { result ≡ line_len goes_on false (drop from pieces.now) }
    ensures inside { from + result ≤ length pieces.now }
    ensures some { 0 < result }
{
    let end = pieces.len();
    let mut n = 0;
    let mut slash = false;
    'line: while from + n < end {
        if ends_line(pieces, from + n, goes_on, slash) {
            return n + 1;
        }
        slash = ends_with_slash(pieces.text(from + n));
        n += 1;
    }
    n
}

// Returns whether a number comes next, but for spaces.
fn marks_line(pieces: &Pieces, from: usize) -> bool
    requires { from ≤ length pieces.now }
    ensures { result ≡ marks_line (drop from pieces.now) }
{
    let end = pieces.len();
    let mut at = from;
    'spaces: while at < end {
        let kind = pieces.kind(at);
        if !kind.is_byte(b' ') {
            return kind.is_number();
        }
        at += 1;
    }
    false
}

// Returns whether a piece is the `#` of a directive.
fn begins_directive(pieces: &Pieces, at: usize, fresh: bool) -> bool
    requires { at < length pieces.now }
    ensures { result ≡ begins_directive fresh (piece_at pieces.now at) (drop (at + 1) pieces.now) }
{
    let _end = pieces.len();
    pieces.kind(at).is_byte(b'#') && !(fresh && marks_line(pieces, at + 1))
}

// Returns whether only spaces and tabs are before what follows a piece.
fn still_fresh(fresh: bool, kind: PieceKind) -> bool
    ensures { result ≡ (fresh && not (is_comment kind)) }
{
    fresh && !kind.is_comment()
}

/// Returns the pieces before the `#` of a directive, where the line that begins at a place is one.
pub fn mark_in(pieces: &Pieces, from: usize) -> Option<usize>
    requires { from ≤ length pieces.now }
    ensures value { result ≡ mark_in true (drop from pieces.now) }
    ensures inside { IfSome result (λ n. from + n < length pieces.now) }
{
    let end = pieces.len();
    let mut n = 0;
    let mut fresh = true;
    'margin: while from + n < end {
        let kind = pieces.kind(from + n);
        if !kind.is_margin() {
            return if begins_directive(pieces, from + n, fresh) {
                Some(n)
            } else {
                None
            };
        }
        fresh = still_fresh(fresh, kind);
        n += 1;
    }
    None
}
