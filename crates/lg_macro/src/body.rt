// The body of a macro, with the marks of its pieces.

ghost use Rattle.std.specs.Prelude.{◌≡◌, ◌++◌, ◌∷◌, ◌<◌, ◌≤◌, [], length, fold, min, ◌+◌, IfOk, OnOk};
ghost use Rattle.lg_macro.specs.Defines.{no_body, with_plain, at_sign, at_white, at_solid, with_piece, body_of, parameter_by, place_of, with_len, size_of};
ghost use Rattle.lg_macro.specs.Macros.{most};
ghost use Rattle.lg_macro.specs.Pieces.{piece_at, between};

use crate::macros::Mark;
use crate::marks::Marks;
use crate::pieces::{PieceKind, Pieces};
use crate::plain_text::PlainText;
use lg_base::OutOfMemory;
use lg_base::layout::MOST_TEXT;
use std::alloc::Global;

/// A body as far as it was read: its pieces with their marks, the white space after them that a `##` takes away, whether a `##` is before the next piece,
/// whether a `#` is there that a further one makes a `##`, and whether all is well.
#[derive(Drop)]
pub struct Body {
    pub pieces: Pieces,
    pub marks: Marks,
    pub gap: Pieces,
    pub glued: bool,
    pub half: bool,
    pub good: bool,
}

// Nothing of a body, with room for as many pieces as are said: most bodies take all of it, and no more.
fn no_body(alloc: Global, most: usize) -> Result<Body, OutOfMemory>
    ensures { IfOk result (λ b. b ≡ no_body) }
{
    let pieces = Pieces::with_capacity(alloc, most)?;
    Ok(Body {
        pieces,
        marks: Marks::new(alloc),
        gap: Pieces::new(alloc),
        glued: false,
        half: false,
        good: true,
    })
}

// Returns the parameter that a word names.
fn place_of(names: &[PlainText], word: &[u8]) -> Option<usize>
    ensures { result ≡ place_of names.now word.now }
{
    names.iter().position(|name| word == name.as_slice())
}

// Returns the parameter that a piece is.
fn parameter_of(names: &[PlainText], pieces: &Pieces, at: usize) -> Option<usize>
    requires { at < length pieces.now }
    ensures { result ≡ parameter_by names.now (piece_at pieces.now at).text (piece_at pieces.now at).kind }
{
    match pieces.kind(at) {
        PieceKind::Word => place_of(names, pieces.text(at)),
        _ => None,
    }
}

// Takes a `#`.
fn take_sign(body: &mut Body) -> Result<(), OutOfMemory>
    ensures { OnOk result (body.new ≡ at_sign body.old) }
{
    if !body.half {
        body.half = true;
        return Ok(());
    }
    if body.marks.len() == 0 {
        body.good = false;
        return Ok(());
    }
    body.marks.glue_last()?;
    body.gap.clear();
    body.glued = true;
    body.half = false;
    Ok(())
}

// Takes white space.
fn take_white(body: &mut Body, pieces: &Pieces, at: usize) -> Result<(), OutOfMemory>
    requires { at < length pieces.now }
    ensures { OnOk result (body.new ≡ at_white body.old (piece_at pieces.now at)) }
{
    if body.glued {
        return Ok(());
    }
    body.gap.push_same(pieces, at)
}

// Adds plain marks for white space.
fn push_plain(marks: &mut Marks, gap: &Pieces) -> Result<(), OutOfMemory>
    ensures { OnOk result (marks.new ≡ fold with_plain marks.old gap.now) }
{
    'gap: for _at in 0..gap.len() {
        marks.push(Mark {
            parameter: None,
            glued: false,
            glues: false,
        })?;
    }
    Ok(())
}

// Takes another piece.
fn take_solid(
    body: &mut Body,
    names: &[PlainText],
    pieces: &Pieces,
    at: usize,
) -> Result<(), OutOfMemory>
    requires { at < length pieces.now }
    ensures { OnOk result (body.new ≡ at_solid names.now body.old (piece_at pieces.now at)) }
{
    let parameter = parameter_of(names, pieces, at);
    let glued = body.glued;
    body.pieces.append(&body.gap)?;
    push_plain(&mut body.marks, &body.gap)?;
    body.pieces.push_same(pieces, at)?;
    body.marks.push(Mark {
        parameter,
        glued,
        glues: false,
    })?;
    body.gap.clear();
    body.glued = false;
    Ok(())
}

// Takes a piece.
fn take_piece(
    body: &mut Body,
    names: &[PlainText],
    pieces: &Pieces,
    at: usize,
) -> Result<(), OutOfMemory>
    requires { at < length pieces.now }
    ensures { OnOk result (body.new ≡ with_piece names.now body.old (piece_at pieces.now at)) }
{
    if pieces.kind(at).is_byte(b'#') {
        return take_sign(body);
    }
    if body.half {
        body.good = false;
        return Ok(());
    }
    if pieces.kind(at).is_white() {
        return take_white(body, pieces, at);
    }
    take_solid(body, names, pieces, at)
}

/// Returns the body that the pieces between two places make.
pub(crate) fn body_of(
    alloc: Global,
    names: &[PlainText],
    pieces: &Pieces,
    from: usize,
    end: usize,
) -> Result<Body, OutOfMemory>
    requires order { from ≤ end }
    requires inside { end ≤ length pieces.now }
    ensures { IfOk result (λ b. b ≡ body_of names.now (between from end pieces.now)) }
{
    let mut body = no_body(alloc, end - from)?;
    'pieces: for at in from..end {
        take_piece(&mut body, names, pieces, at)?;
    }
    Ok(body)
}

// A number of bytes with those of a piece, as far as they matter.
fn with_len(n: usize, pieces: &Pieces, at: usize) -> usize
    requires inside { at < length pieces.now }
    requires low { n ≤ most + 1 }
    ensures { result ≡ with_len n (piece_at pieces.now at) }
{
    let len = pieces.text(at).len();
    if len > MOST_TEXT {
        return MOST_TEXT + 1;
    }
    (n + len).min(MOST_TEXT + 1)
}

/// Returns the bytes of the pieces between two places, as far as they matter: at most 16,777,217.
pub(crate) fn size_of(pieces: &Pieces, from: usize, end: usize) -> usize
    requires order { from ≤ end }
    requires inside { end ≤ length pieces.now }
    ensures { result ≡ size_of (between from end pieces.now) }
{
    let mut n = 0;
    'pieces: for at in from..end {
        n = with_len(n, pieces, at);
    }
    n
}
