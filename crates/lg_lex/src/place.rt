// A place of a text, in its line.

ghost use Rattle.std.specs.Prelude.{◌≡◌, ◌+◌, ◌<◌, ◌^◌, ◌==◌, true, false, length, count_by, fold, if◌then◌else◌};
ghost use Rattle.lg_lex.specs.Lines.{is_solid_kind, StaysInLine};
ghost use Rattle.lg_lex.specs.Tokens.{with_byte};

use crate::token::TokenKind;

/// A place of a text: the bytes before it, its line, and whether only spaces and tabs are before it in its line.
#[derive(Clone, Copy)]
pub(crate) struct Place {
    pub(crate) offset: usize,
    pub(crate) line: u32,
    pub(crate) fresh: bool,
}

/// Returns the first place of a text.
pub(crate) fn first_place() -> Place
    ensures { result ≡ record { offset = 0; line = 1; fresh = true } }
{
    Place {
        offset: 0,
        line: 1,
        fresh: true,
    }
}

/// Returns the place after further bytes.
pub(crate) fn passed(place: Place, bytes: &[u8]) -> Place
    requires lines { place.line + length bytes.now < 2 ^ 32 }
    requires room { place.offset + length bytes.now < 2 ^ 32 }
    ensures offset { result.offset ≡ place.offset + length bytes.now }
    ensures line { result.line ≡ place.line + count_by (λ b. b == 10) bytes.now }
    ensures fresh { result.fresh ≡ fold with_byte place.fresh bytes.now }
{
    let mut line = place.line;
    let mut fresh = place.fresh;
    for b in bytes {
        if *b == b'\n' {
            line += 1;
        }
        fresh = is_fresh_after(fresh, *b);
    }
    Place {
        offset: place.offset + bytes.len(),
        line,
        fresh,
    }
}

// Returns whether tokens of a kind are a word, a mark and a word, or a number, which stay in their line.
fn is_solid_kind(kind: TokenKind) -> bool
    ensures { result ≡ is_solid_kind kind }
{
    matches!(
        kind,
        TokenKind::Word
            | TokenKind::Directive
            | TokenKind::LabelMark
            | TokenKind::Register
            | TokenKind::Number
            | TokenKind::Name
            | TokenKind::Host
    )
}

/// Moves past a token of a kind. Of a word or a number no byte is looked at.
#[inline(always)]
pub(crate) fn pass_token(place: &mut Place, kind: TokenKind, bytes: &[u8])
    requires lines { place.old.line + length bytes.now < 2 ^ 32 }
    requires room { place.old.offset + length bytes.now < 2 ^ 32 }
    requires stays { is_solid_kind kind ≡ true → StaysInLine bytes.now }
    ensures offset { place.new.offset ≡ place.old.offset + length bytes.now }
    ensures line { place.new.line ≡ place.old.line + count_by (λ b. b == 10) bytes.now }
    ensures fresh { place.new.fresh ≡ fold with_byte place.old.fresh bytes.now }
{
    if is_solid_kind(kind) {
        place.offset += bytes.len();
        place.fresh = false;
    } else {
        *place = passed(*place, bytes);
    }
}

/// Moves past bytes that stay in their line. No byte is looked at.
#[inline(always)]
pub(crate) fn pass_solid(place: &mut Place, n: usize)
    requires { place.old.offset + n < 2 ^ 32 }
    ensures offset { place.new.offset ≡ place.old.offset + n }
    ensures line { place.new.line ≡ place.old.line }
    ensures fresh { place.new.fresh ≡ false }
{
    place.offset += n;
    place.fresh = false;
}

/// Moves past one byte. A space leaves the line and what is in it as they are.
#[inline(always)]
pub(crate) fn pass_byte(place: &mut Place, b: u8)
    requires lines { place.old.line + 1 < 2 ^ 32 }
    requires room { place.old.offset + 1 < 2 ^ 32 }
    ensures offset { place.new.offset ≡ place.old.offset + 1 }
    ensures line { place.new.line ≡ place.old.line + (if b == 10 then 1 else 0) }
    ensures fresh { place.new.fresh ≡ with_byte place.old.fresh b }
{
    place.offset += 1;
    if b != b' ' {
        place.line += u32::from(b == b'\n');
        place.fresh = is_fresh_after(place.fresh, b);
    }
}

// Returns whether only spaces and tabs are before in the line, after one more byte.
fn is_fresh_after(fresh: bool, b: u8) -> bool
    ensures { result ≡ with_byte fresh b }
{
    b == b'\n' || (fresh && (b == b' ' || b == b'\t'))
}
