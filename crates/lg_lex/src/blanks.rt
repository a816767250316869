// White space and comments.

ghost use Rattle.std.specs.Prelude.{◌≡◌, ◌<◌, ◌≤◌, length, slice_index, IfSome};
ghost use Rattle.lg_lex.specs.Blanks.{block_rest, comment_at, blank_at, after_blanks};

use crate::bytes::{behind, byte_at, closes_block, is_space, line_len, space_len};

// Returns how many bytes there are up to the first `*/`, that included.
fn block_rest(bytes: &[u8]) -> Option<usize>
    ensures value { result ≡ block_rest bytes.now }
    ensures inside { IfSome result (λ n. n ≤ length bytes.now) }
{
    for (i, b) in bytes.iter().enumerate() {
        if closes_block(bytes, i, *b) {
            return Some(i + 2);
        }
    }
    None
}

// Returns the length of a comment at the front, whose first byte is `/`.
#[inline(never)]
#[tactic(auto, unfolding(crate::specs::Blanks::comment_at))]
fn slashed(bytes: &[u8]) -> Option<usize>
    requires { slice_index bytes.now 0 ≡ 47 }
    ensures value { result ≡ comment_at bytes.now }
    ensures inside { IfSome result (λ n. (0 < n) × (n ≤ length bytes.now)) }
{
    match byte_at(bytes, 1) {
        b'/' => Some(line_len(bytes)),
        b'*' => {
            let n = block_rest(behind(bytes, 2))?;
            Some(2 + n)
        }
        _ => None,
    }
}

// Returns the length of a comment at the front.
#[tactic(auto, unfolding(crate::specs::Blanks::comment_at))]
fn comment(bytes: &[u8]) -> Option<usize>
    ensures value { result ≡ comment_at bytes.now }
    ensures inside { IfSome result (λ n. (0 < n) × (n ≤ length bytes.now)) }
{
    if byte_at(bytes, 0) != b'/' {
        return None;
    }
    slashed(bytes)
}

/// Returns the length of white space or of a comment at the front, or `None` if neither is there or the comment is unfinished.
#[tactic(auto, unfolding(crate::specs::Blanks::blank_at))]
pub(crate) fn blank(bytes: &[u8]) -> Option<usize>
    ensures value { result ≡ blank_at bytes.now }
    ensures inside { IfSome result (λ n. (0 < n) × (n ≤ length bytes.now)) }
{
    if is_space(byte_at(bytes, 0)) {
        Some(space_len(bytes))
    } else {
        comment(bytes)
    }
}

/// Returns the place after the white space and the comments from a place on.
pub(crate) fn after_blanks(bytes: &[u8], place: usize) -> usize
    requires { place ≤ length bytes.now }
    ensures value { result ≡ after_blanks bytes.now place }
    ensures from { place ≤ result }
    ensures inside { result ≤ length bytes.now }
{
    let mut at = place;
    'blanks: while let Some(n) = blank(behind(bytes, at)) {
        at += n;
    }
    at
}
