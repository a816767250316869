// A text cut into pieces.

ghost use Rattle.std.specs.Prelude.{◌≡◌, ◌+◌, ◌++◌, ◌<◌, ◌≤◌, ◌==◌, ◌&&◌, false, length, slice_index, drop, take, true, not, OnOk};
ghost use Rattle.std.specs.List.{prefix_len};
ghost use Rattle.lg_macro.specs.Cutting.{block_len, quoted_len, comment_len, begins_comment, front_of, cut};

use crate::pieces::{PieceKind, Pieces};
use lg_base::OutOfMemory;
use lg_base::word_bytes::is_word_start;
use lg_lex::bytes::{ahead, behind, byte_at, closes_block, line_len, word_byte_len};

fn block_len(bytes: &[u8]) -> usize
    ensures value { result ≡ block_len bytes.now }
    ensures inside { result ≤ length bytes.now }
{
    for (i, b) in bytes.iter().enumerate() {
        if closes_block(bytes, i, *b) {
            return i + 2;
        }
    }
    bytes.len()
}

// Returns whether a byte is this mark, and no \ is before it.
fn is_free(b: u8, mark: u8, escaped: bool) -> bool
    ensures { result ≡ ((b == mark) && not escaped) }
{
    b == mark && !escaped
}

fn quoted_len(mark: u8, bytes: &[u8]) -> usize
    ensures value { result ≡ quoted_len mark false bytes.now }
    ensures inside { result ≤ length bytes.now }
{
    let mut escaped = false;
    for (i, b) in bytes.iter().enumerate() {
        if *b == b'\n' {
            return i;
        }
        if is_free(*b, mark, escaped) {
            return i + 1;
        }
        escaped = is_free(*b, b'\\', escaped);
    }
    bytes.len()
}

// Returns the kind of the first piece, and its length.
#[tactic(auto, unfolding(crate::specs::Cutting::front_of))]
pub(crate) fn front_of(bytes: &[u8]) -> (PieceKind, usize)
    requires { 0 < length bytes.now }
    ensures value { result ≡ front_of bytes.now }
    ensures inside { result.1 ≤ length bytes.now }
    ensures some { 0 < result.1 }
{
    let b = byte_at(bytes, 0);
    if begins_comment(bytes) {
        (PieceKind::Comment, comment_len(bytes))
    } else if b == b'"' || b == b'\'' {
        (PieceKind::Quoted, 1 + quoted_len(b, behind(bytes, 1)))
    } else if is_word_start(b) {
        (PieceKind::Word, word_byte_len(bytes))
    } else if b.is_ascii_digit() {
        (PieceKind::Number, word_byte_len(bytes))
    } else if b == b'\n' {
        (PieceKind::Feed, 1)
    } else {
        (PieceKind::Byte(b), 1)
    }
}

fn begins_comment(bytes: &[u8]) -> bool
    ensures { result ≡ begins_comment bytes.now }
{
    byte_at(bytes, 0) == b'/' && (byte_at(bytes, 1) == b'*' || byte_at(bytes, 1) == b'/')
}

fn comment_len(bytes: &[u8]) -> usize
    requires { begins_comment bytes.now ≡ true }
    ensures value { result ≡ comment_len bytes.now }
    ensures inside { result ≤ length bytes.now }
{
    if byte_at(bytes, 1) == b'*' {
        2 + block_len(behind(bytes, 2))
    } else {
        line_len(bytes)
    }
}

/// Adds the pieces of bytes, all on one line.
pub fn push_cut(out: &mut Pieces, bytes: &[u8], line: u32) -> Result<(), OutOfMemory>
    ensures { OnOk result (out.new ≡ out.old ++ cut line bytes.now) }
{
    let end = bytes.len();
    let mut at = 0;
    'pieces: while at < end {
        let rest = behind(bytes, at);
        let (kind, n) = front_of(rest);
        out.push(kind, ahead(rest, n), line, false)?;
        at += n;
    }
    Ok(())
}
