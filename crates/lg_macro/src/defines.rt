// The pieces of a directive, and the definition of a macro.

ghost use Rattle.std.specs.Prelude.{◌≡◌, ◌+◌, ◌<◌, ◌≤◌, ◌&&◌, [], length, take, drop, option_map, IfOk, OnOk, IfSome, Some};
ghost use Rattle.std.specs.List.{list_any};
ghost use Rattle.std.specs.Str.{bytes_eq};
ghost use Rattle.lg_macro.specs.Arguments.{stripped};
ghost use Rattle.lg_macro.specs.Defines.{no_group, closed_at, spaced, spliced, first_is_feed, is_straight, to_close, one_word, names_of, parameters_of, with_body, finished, named_by, written};
ghost use Rattle.lg_macro.specs.Pieces.{piece_at, between, is_byte};
ghost use Rattle.std.specs.Prelude.{◌++◌, ◌∷◌};

use crate::arguments::{gathered, solid_range};
use crate::body::{Body, body_of, size_of};
use crate::macros::Macro;
use crate::pieces::{PieceKind, Pieces};
use crate::plain_text::PlainText;
use crate::spare::Spare;
use lg_base::OutOfMemory;
use std::alloc::Global;

// Returns whether a line feed comes first between two places.
#[tactic(auto, using(crate::proofs::DefineLemmas::first_between, crate::proofs::DefineLemmas::none_between))]
fn feed_next(pieces: &Pieces, at: usize, end: usize) -> bool
    requires { end ≤ length pieces.now }
    ensures { result ≡ first_is_feed (between at end pieces.now) }
{
    if at < end {
        return pieces.kind(at).is_feed();
    }
    false
}

// Returns whether a piece is a backslash directly before a line feed.
fn is_splice(pieces: &Pieces, at: usize, end: usize) -> bool
    requires order { at < end }
    requires inside { end ≤ length pieces.now }
    ensures { result ≡ (is_byte 92 (piece_at pieces.now at).kind && first_is_feed (between (at + 1) end pieces.now)) }
{
    pieces.kind(at).is_byte(b'\\') && feed_next(pieces, at + 1, end)
}

// Adds a piece, and a space for a comment or a line feed.
fn push_spaced(out: &mut Pieces, pieces: &Pieces, at: usize) -> Result<(), OutOfMemory>
    requires { at < length pieces.now }
    ensures { OnOk result (out.new ≡ out.old ++ spaced (piece_at pieces.now at) ∷ []) }
{
    match pieces.kind(at) {
        PieceKind::Comment | PieceKind::Feed => {
            out.push(PieceKind::Byte(b' '), b" ", pieces.line(at), false)
        }
        _ => out.push_same(pieces, at),
    }
}

// Adds what a piece of a directive is there.
fn push_spliced(out: &mut Pieces, pieces: &Pieces, at: usize, end: usize) -> Result<(), OutOfMemory>
    requires order { at < end }
    requires inside { end ≤ length pieces.now }
    ensures { OnOk result (out.new ++ spliced (between (at + 1) end pieces.now) ≡ out.old ++ spliced (between at end pieces.now)) }
{
    if is_splice(pieces, at, end) {
        return Ok(());
    }
    push_spaced(out, pieces, at)?;
    Ok(())
}

// Returns whether a piece of a directive stays as it is, whatever comes next.
fn is_straight(kind: PieceKind) -> bool
    ensures { result ≡ is_straight kind }
{
    match kind {
        PieceKind::Comment | PieceKind::Feed => false,
        PieceKind::Byte(b) => b != b'\\',
        _ => true,
    }
}

// Returns the place between two to which all pieces stay as they are.
fn straight_end(pieces: &Pieces, from: usize, end: usize) -> usize
    requires order { from ≤ end }
    requires inside { end ≤ length pieces.now }
    ensures value { between from result pieces.now ++ spliced (between result end pieces.now) ≡ spliced (between from end pieces.now) }
    ensures order { from ≤ result }
    ensures inside { result ≤ end }
{
    let mut at = from;
    'straight: while at < end && is_straight(pieces.kind(at)) {
        at += 1;
    }
    at
}

/// The pieces of a directive between two places: a comment or a spliced line feed is a space, and the backslash of a splice goes.
pub fn spliced(
    spare: &mut Spare,
    pieces: &Pieces,
    from: usize,
    end: usize,
) -> Result<Pieces, OutOfMemory>
    requires order { from ≤ end }
    requires inside { end ≤ length pieces.now }
    ensures { IfOk result (λ r. r ≡ spliced (between from end pieces.now)) }
{
    let mut out = spare.take();
    let straight = straight_end(pieces, from, end);
    out.append_between(pieces, from, straight)?;
    'pieces: for at in straight..end {
        push_spliced(&mut out, pieces, at, end)?;
    }
    Ok(out)
}

// Returns the pieces from a place to the first `)`.
fn to_close(pieces: &Pieces, from: usize) -> Option<usize>
    requires { from ≤ length pieces.now }
    ensures value { result ≡ to_close (drop from pieces.now) }
    ensures inside { IfSome result (λ n. from + n < length pieces.now) }
{
    let end = pieces.len();
    let mut n = 0;
    'inner: while from + n < end {
        if pieces.kind(from + n).is_byte(b')') {
            return Some(n);
        }
        n += 1;
    }
    None
}

/// Returns the text of pieces that are one word; None of others.
pub fn one_word(alloc: Global, pieces: &Pieces) -> Result<Option<PlainText>, OutOfMemory>
    ensures { IfOk result (λ r. r ≡ one_word pieces.now) }
{
    if pieces.len() != 1 {
        return Ok(None);
    }
    match pieces.kind(0) {
        PieceKind::Word => {
            let word = PlainText::of(alloc, pieces.text(0))?;
            Ok(Some(word))
        }
        _ => Ok(None),
    }
}

// Returns whether a name is among names.
fn is_among(names: &[PlainText], word: &[u8]) -> bool
    ensures { result ≡ list_any (bytes_eq word.now) names.now }
{
    names.iter().any(|name| word == name.as_slice())
}

// The names of parameters, each a word of its own.
fn names_of(alloc: Global, groups: &[Pieces]) -> Result<Option<Vec<PlainText>>, OutOfMemory>
    ensures { IfOk result (λ r. option_map (λ v. v.items) r ≡ names_of [] groups.now) }
{
    let mut names: Vec<PlainText> = Vec::new(alloc);
    'groups: for i in 0..groups.len() {
        match one_word(alloc, &groups[i])? {
            None => return Ok(None),
            Some(word) => {
                if is_among(&names, word.as_slice()) {
                    return Ok(None);
                }
                names.push(word)?;
            }
        }
    }
    Ok(Some(names))
}

// Returns whether there is one group, of white space alone.
fn no_group(groups: &[Pieces]) -> bool
    ensures { result ≡ no_group groups.now }
{
    match groups {
        [only] => only.len() == 0,
        _ => false,
    }
}

// Returns the parameters between two places.
fn parameters_of(
    alloc: Global,
    pieces: &Pieces,
    from: usize,
    end: usize,
) -> Result<Option<Vec<PlainText>>, OutOfMemory>
    requires order { from ≤ end }
    requires inside { end ≤ length pieces.now }
    ensures { IfOk result (λ r. option_map (λ v. v.items) r ≡ parameters_of (between from end pieces.now)) }
{
    let mut spare = Spare::new(alloc);
    let groups = gathered(alloc, &mut spare, pieces, from, end, 0)?;
    if no_group(&groups) {
        return Ok(Some(Vec::new(alloc)));
    }
    let names = names_of(alloc, &groups)?;
    Ok(names)
}

// A macro by its body.
fn finished(name: PlainText, arity: Option<usize>, size: usize, body: Body) -> Option<Macro>
    ensures { result ≡ finished name arity size body }
{
    if body.good && !body.half && !body.glued {
        Some(Macro {
            name,
            arity,
            body: body.pieces,
            marks: body.marks,
            size,
        })
    } else {
        None
    }
}

// A macro whose body the pieces between two places are.
fn with_pieces(
    alloc: Global,
    name: &[u8],
    arity: Option<usize>,
    names: &[PlainText],
    pieces: &Pieces,
    from: usize,
    end: usize,
) -> Result<Option<Macro>, OutOfMemory>
    requires order { from ≤ end }
    requires inside { end ≤ length pieces.now }
    ensures { IfOk result (λ r. r ≡ with_body name.now arity names.now (between from end pieces.now)) }
{
    let name = PlainText::of(alloc, name)?;
    let body = body_of(alloc, names, pieces, from, end)?;
    Ok(finished(name, arity, size_of(pieces, from, end), body))
}

// A macro whose body begins at a place.
fn with_body(
    alloc: Global,
    arity: Option<usize>,
    names: &[PlainText],
    pieces: &Pieces,
    from: usize,
) -> Result<Option<Macro>, OutOfMemory>
    requires some { 0 < length pieces.now }
    requires inside { from ≤ length pieces.now }
    ensures { IfOk result (λ r. r ≡ with_body (piece_at pieces.now 0).text arity names.now (stripped (drop from pieces.now))) }
{
    let (start, end) = solid_range(pieces, from);
    with_pieces(alloc, pieces.text(0), arity, names, pieces, start, end)
}

// A macro with parentheses.
fn with_parameters(alloc: Global, pieces: &Pieces) -> Result<Option<Macro>, OutOfMemory>
    requires { 1 < length pieces.now }
    ensures { IfOk result (λ r. r ≡ closed_at (piece_at pieces.now 0).text pieces.now (to_close (drop 2 pieces.now))) }
{
    let _end = pieces.len();
    match to_close(pieces, 2) {
        None => Ok(None),
        Some(n) => match parameters_of(alloc, pieces, 2, 2 + n)? {
            None => Ok(None),
            Some(names) => with_body(alloc, Some(names.as_slice().len()), &names, pieces, 3 + n),
        },
    }
}

// Returns the macro of a name, by whether parameters follow it.
fn named(alloc: Global, pieces: &Pieces) -> Result<Option<Macro>, OutOfMemory>
    requires { 0 < length pieces.now }
    ensures { IfOk result (λ r. r ≡ named_by pieces.now (is_byte 40 (piece_at pieces.now 1).kind)) }
{
    if pieces.is_byte_at(1, b'(') {
        with_parameters(alloc, pieces)
    } else {
        with_body(alloc, None, &[], pieces, 1)
    }
}

/// Returns the macro that the pieces after `#define` write, white space at their ends taken off.
pub fn written(alloc: Global, pieces: &Pieces) -> Result<Option<Macro>, OutOfMemory>
    ensures { IfOk result (λ r. r ≡ written pieces.now) }
{
    if pieces.len() == 0 {
        return Ok(None);
    }
    match pieces.kind(0) {
        PieceKind::Word => named(alloc, pieces),
        _ => Ok(None),
    }
}
