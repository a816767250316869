// Bytes of a text by place and by class, and runs of them at the front.

ghost use Rattle.std.specs.Prelude.{◌≡◌, ◌+◌, ◌<◌, ◌≤◌, ◌==◌, ◌&&◌, length, take, drop, slice_index};
ghost use Rattle.std.specs.Char.{is_digit};
ghost use Rattle.std.specs.List.{prefix_len};
ghost use Rattle.lg_base.specs.WordBytes.{is_word_byte};
ghost use Rattle.lg_lex.specs.Bytes.{is_space, is_suffix_letter, is_in_line};

/// Returns the byte at a place from 0 on, and 0 past the end.
pub fn byte_at(bytes: &[u8], at: usize) -> u8
    ensures { result ≡ slice_index bytes.now at }
{
    bytes.get(at).copied().unwrap_or(0)
}

/// Returns the bytes from the n-th on, none where there are fewer.
pub fn behind(bytes: &[u8], n: usize) -> &[u8]
    ensures { result.now ≡ drop n bytes.now }
{
    bytes.split_at(n.min(bytes.len())).1
}

/// Returns the bytes from a place on, which is at most their end.
pub(crate) fn from_place(bytes: &[u8], place: usize) -> &[u8]
    requires { place ≤ length bytes.now }
    ensures { result.now ≡ drop place bytes.now }
{
    bytes.split_at(place).1
}

/// Returns the first n bytes, all where there are fewer.
pub fn ahead(bytes: &[u8], n: usize) -> &[u8]
    ensures { result.now ≡ take n bytes.now }
{
    bytes.split_at(n.min(bytes.len())).0
}

/// Returns whether a byte `b`, a `*` at place `at`, and the byte after it end a comment.
pub fn closes_block(bytes: &[u8], at: usize, b: u8) -> bool
    requires { at < length bytes.now }
    ensures { result ≡ ((b == 42) && (slice_index bytes.now (at + 1) == 47)) }
{
    b == b'*' && byte_at(bytes, at + 1) == b'/'
}

/// Returns whether a byte is white space.
pub(crate) fn is_space(b: u8) -> bool
    ensures { result ≡ is_space b }
{
    b == b' ' || (b'\t' <= b && b <= b'\r')
}

/// Returns whether a byte may be after the digits of a number.
pub(crate) fn is_suffix_letter(b: u8) -> bool
    ensures { result ≡ is_suffix_letter b }
{
    b == b'u' || b == b'U' || b == b'l' || b == b'L'
}

/// Returns how many bytes of white space are at the front.
pub(crate) fn space_len(bytes: &[u8]) -> usize
    ensures value { result ≡ prefix_len is_space bytes.now }
    ensures inside { result ≤ length bytes.now }
{
    bytes.iter().take_while(|b| is_space(**b)).count()
}

/// Returns how many spaces are at the front.
pub(crate) fn gap_len(bytes: &[u8]) -> usize
    ensures value { result ≡ prefix_len (λ b. b == 32) bytes.now }
    ensures inside { result ≤ length bytes.now }
{
    bytes.iter().take_while(|b| **b == b' ').count()
}

// Of each byte whether it is one of words.
static GOES_ON: [bool; 256] = [
    false, false, false, false, false, false, false, false, false, false, false, false, false,
    false, false, false, false, false, false, false, false, false, false, false, false, false,
    false, false, false, false, false, false, false, false, false, false, false, false, false,
    false, false, false, false, false, false, false, false, false, true, true, true, true, true,
    true, true, true, true, true, false, false, false, false, false, false, false, true, true,
    true, true, true, true, true, true, true, true, true, true, true, true, true, true, true, true,
    true, true, true, true, true, true, true, true, false, false, false, false, true, false, true,
    true, true, true, true, true, true, true, true, true, true, true, true, true, true, true, true,
    true, true, true, true, true, true, true, true, true, false, false, false, false, false, false,
    false, false, false, false, false, false, false, false, false, false, false, false, false,
    false, false, false, false, false, false, false, false, false, false, false, false, false,
    false, false, false, false, false, false, false, false, false, false, false, false, false,
    false, false, false, false, false, false, false, false, false, false, false, false, false,
    false, false, false, false, false, false, false, false, false, false, false, false, false,
    false, false, false, false, false, false, false, false, false, false, false, false, false,
    false, false, false, false, false, false, false, false, false, false, false, false, false,
    false, false, false, false, false, false, false, false, false, false, false, false, false,
    false, false, false, false, false, false, false, false, false, false, false, false, false,
    false, false, false, false, false, false, false, false, false, false,
];

/// Returns whether a word may go on with a byte.
#[tactic(auto, using(crate::proofs::WordByteLemmas::goes_on))]
pub(crate) fn goes_on(b: u8) -> bool
    ensures { result ≡ is_word_byte b }
{
    GOES_ON[b as usize]
}

/// Returns how many bytes of words are at the front: letters, digits and `_`.
pub fn word_byte_len(bytes: &[u8]) -> usize
    ensures value { result ≡ prefix_len is_word_byte bytes.now }
    ensures inside { result ≤ length bytes.now }
{
    bytes.iter().take_while(|b| goes_on(**b)).count()
}

/// Returns how many bytes are at the front before the first line feed.
pub fn line_len(bytes: &[u8]) -> usize
    ensures value { result ≡ prefix_len is_in_line bytes.now }
    ensures inside { result ≤ length bytes.now }
{
    bytes.iter().take_while(|b| **b != b'\n').count()
}

/// Returns how many letters of `u U l L` are at the front.
pub(crate) fn suffix_letter_len(bytes: &[u8]) -> usize
    ensures value { result ≡ prefix_len is_suffix_letter bytes.now }
    ensures inside { result ≤ length bytes.now }
{
    bytes.iter().take_while(|b| is_suffix_letter(**b)).count()
}

/// Returns how many digits of a radix are at the front.
pub(crate) fn digit_len(bytes: &[u8], radix: u32) -> usize
    requires low { 2 ≤ radix }
    requires high { radix ≤ 16 }
    ensures value { result ≡ prefix_len (λ b. is_digit b radix) bytes.now }
    ensures inside { result ≤ length bytes.now }
{
    bytes
        .iter()
        .take_while(|b| char::from(**b).is_digit(radix))
        .count()
}
