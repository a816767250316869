// The calls of macros, and their arguments.

ghost use Rattle.std.specs.Prelude.{◌≡◌, ◌+◌, ◌++◌, ◌∷◌, [], ◌<◌, ◌≤◌, length, take, drop, OnOk, IfSome, IfOk};
ghost use Rattle.lg_macro.specs.Arguments.{opening, closing, depth_after, in_argument, gathered, arguments_of, solid_len, stripped, is_empty_list, with_feeds, with_feed};
ghost use Rattle.std.specs.Prelude.{fold, option_map};
ghost use Rattle.lg_macro.specs.Pieces.{between};
ghost use Rattle.lg_macro.specs.Pieces.{piece_at, is_byte, is_white};
ghost use Rattle.std.specs.List.{prefix_len};
ghost use Rattle.std.specs.Prelude.{◌&&◌, ◌==◌};

use crate::pieces::{PieceKind, Pieces};
use crate::spare::Spare;
use lg_base::OutOfMemory;
use std::alloc::Global;

/// Returns the pieces from a place to the `(` of a call, that included, where it comes next but for white space.
pub fn opening(pieces: &Pieces, from: usize) -> Option<usize>
    requires { from ≤ length pieces.now }
    ensures value { result ≡ opening (drop from pieces.now) }
    ensures inside { IfSome result (λ n. from + n ≤ length pieces.now) }
{
    let end = pieces.len();
    let mut n = 0;
    'white: while from + n < end {
        let kind = pieces.kind(from + n);
        if !kind.is_white() {
            return if kind.is_byte(b'(') {
                Some(n + 1)
            } else {
                None
            };
        }
        n += 1;
    }
    None
}

// Returns the open parentheses after a piece.
fn depth_after(depth: usize, kind: PieceKind) -> usize
    requires { depth < 18446744073709551615 }
    ensures { result ≡ depth_after depth kind }
{
    if kind.is_byte(b'(') {
        depth + 1
    } else if kind.is_byte(b')') {
        depth.saturating_sub(1)
    } else {
        depth
    }
}

// Returns whether a byte is outside the parentheses of a call's arguments.
fn ends(kind: PieceKind, byte: u8, depth: usize) -> bool
    ensures { result ≡ (is_byte byte kind && (depth == 0)) }
{
    kind.is_byte(byte) && depth == 0
}

/// Returns the pieces from a place to the `)` that closes a call, that not included.
pub fn closing(pieces: &Pieces, from: usize) -> Option<usize>
    requires { from ≤ length pieces.now }
    ensures value { result ≡ closing 0 (drop from pieces.now) }
    ensures inside { IfSome result (λ n. from + n < length pieces.now) }
{
    let end = pieces.len();
    let mut n = 0;
    let mut depth = 0;
    'inner: while from + n < end {
        let kind = pieces.kind(from + n);
        if ends(kind, b')', depth) {
            return Some(n);
        }
        depth = depth_after(depth, kind);
        n += 1;
    }
    None
}

// Adds a piece to an argument.
fn push_in(now: &mut Pieces, pieces: &Pieces, at: usize, line: u32) -> Result<(), OutOfMemory>
    requires { at < length pieces.now }
    ensures { OnOk result (now.new ≡ now.old ++ in_argument line (piece_at pieces.now at) ∷ []) }
{
    match pieces.kind(at) {
        PieceKind::Comment | PieceKind::Feed => now.push(PieceKind::Byte(b' '), b" ", line, false),
        kind => now.push(kind, pieces.text(at), line, pieces.is_frozen(at)),
    }
}

/// Returns how many pieces there are from a place to the last that is no white space, that included.
pub fn solid_len(pieces: &Pieces, from: usize) -> usize
    requires { from ≤ length pieces.now }
    ensures value { result ≡ solid_len (drop from pieces.now) }
    ensures inside { from + result ≤ length pieces.now }
{
    let mut n = pieces.len() - from;
    'white: while n > 0 && pieces.kind(from + (n - 1)).is_white() {
        n -= 1;
    }
    n
}

// Returns the white space in front of the first n pieces from a place.
fn white_len(pieces: &Pieces, from: usize, end: usize) -> usize
    requires { from + end ≤ length pieces.now }
    ensures value { result ≡ prefix_len (λ p. is_white p.kind) (take end (drop from pieces.now)) }
    ensures inside { result ≤ end }
{
    let _end = pieces.len();
    let mut n = 0;
    'white: while n < end && pieces.kind(from + n).is_white() {
        n += 1;
    }
    n
}

/// Returns where the pieces from a place on begin and end, without the white space at their ends.
pub(crate) fn solid_range(pieces: &Pieces, from: usize) -> (usize, usize)
    requires { from ≤ length pieces.now }
    ensures value { between result.0 result.1 pieces.now ≡ stripped (drop from pieces.now) }
    ensures order { result.0 ≤ result.1 }
    ensures inside { result.1 ≤ length pieces.now }
{
    let _end = pieces.len();
    let len = solid_len(pieces, from);
    let white = white_len(pieces, from, len);
    (from + white, from + len)
}

/// The pieces from a place on, at most their number, without the white space at their ends. All others are cut off in place.
pub fn stripped_from(pieces: Pieces, from: usize) -> Pieces
    requires { from ≤ length pieces }
    ensures { result ≡ stripped (drop from pieces) }
{
    let mut pieces = pieces;
    let (start, end) = solid_range(&pieces, from);
    pieces.cut_at(start, end);
    pieces
}

/// Pieces without the white space at their ends, which is cut off in place.
pub fn without_ends(pieces: Pieces) -> Pieces
    ensures { result ≡ stripped pieces }
{
    stripped_from(pieces, 0)
}

// Adds an argument, without the white space at its ends.
fn push_stripped(done: &mut Vec<Pieces>, argument: Pieces) -> Result<(), OutOfMemory>
    ensures { OnOk result (done.new.items ≡ done.old.items ++ stripped argument ∷ []) }
{
    done.push(without_ends(argument))?;
    Ok(())
}

// The arguments between the parentheses of a call.
pub(crate) fn gathered(
    alloc: Global,
    spare: &mut Spare,
    pieces: &Pieces,
    from: usize,
    end: usize,
    line: u32,
) -> Result<Vec<Pieces>, OutOfMemory>
    requires order { from ≤ end }
    requires inside { end ≤ length pieces.now }
    ensures { IfOk result (λ r. r.items ≡ gathered line 0 [] [] (between from end pieces.now)) }
{
    let mut done: Vec<Pieces> = Vec::new(alloc);
    let mut now = spare.take();
    let mut depth = 0;
    'pieces: for at in from..end {
        let kind = pieces.kind(at);
        if ends(kind, b',', depth) {
            push_stripped(&mut done, now)?;
            now = spare.take();
        } else {
            depth = depth_after(depth, kind);
            push_in(&mut now, pieces, at, line)?;
        }
    }
    push_stripped(&mut done, now)?;
    Ok(done)
}

// Returns whether there is one argument, without a piece.
fn is_empty_list(arguments: &[Pieces]) -> bool
    ensures { result ≡ is_empty_list arguments.now }
{
    match arguments {
        [only] => only.len() == 0,
        _ => false,
    }
}

/// The arguments of a call, between two places, where their number is right.
#[tactic(auto, unfolding(crate::specs::Arguments::arguments_of))]
pub fn arguments(
    alloc: Global,
    spare: &mut Spare,
    pieces: &Pieces,
    from: usize,
    end: usize,
    arity: usize,
    line: u32,
) -> Result<Option<Vec<Pieces>>, OutOfMemory>
    requires order { from ≤ end }
    requires inside { end ≤ length pieces.now }
    ensures { IfOk result (λ r. option_map (λ v. v.items) r ≡ arguments_of arity line (between from end pieces.now)) }
{
    let all = gathered(alloc, spare, pieces, from, end, line)?;
    if arity == 0 && is_empty_list(&all) {
        return Ok(Some(Vec::new(alloc)));
    }
    if all.len() == arity {
        Ok(Some(all))
    } else {
        Ok(None)
    }
}

/// Adds the line feeds of pieces between two places.
#[tactic(auto, unfolding(crate::specs::Arguments::with_feeds))]
pub fn push_feeds(
    out: &mut Pieces,
    pieces: &Pieces,
    from: usize,
    end: usize,
    line: u32,
) -> Result<(), OutOfMemory>
    requires order { from ≤ end }
    requires inside { end ≤ length pieces.now }
    ensures { OnOk result (out.new ≡ with_feeds line out.old (between from end pieces.now)) }
{
    'pieces: for at in from..end {
        push_feeds_of(out, pieces.text(at), line)?;
    }
    Ok(())
}

// Adds the line feeds of a text.
fn push_feeds_of(out: &mut Pieces, text: &[u8], line: u32) -> Result<(), OutOfMemory>
    ensures { OnOk result (out.new ≡ fold (with_feed line) out.old text.now) }
{
    for b in text {
        if *b == b'\n' {
            out.push(PieceKind::Feed, b"\n", line, false)?;
        }
    }
    Ok(())
}
