// Tests of the kinds of pieces.

ghost use Rattle.std.specs.Prelude.{◌≡◌, ◌<◌, length, true};
ghost use Rattle.lg_macro.specs.Pieces.{is_byte, is_feed, is_word, piece_at};
ghost use Rattle.lg_macro.specs.Text.{is_comment, is_margin, is_number};

use crate::pieces::{PieceKind, Pieces};

impl PieceKind {
    /// Returns whether it is a line feed.
    pub fn is_feed(self) -> bool
        ensures { result ≡ is_feed self }
    {
        matches!(self, PieceKind::Feed)
    }

    /// Returns whether it is a comment.
    pub fn is_comment(self) -> bool
        ensures { result ≡ is_comment self }
    {
        matches!(self, PieceKind::Comment)
    }

    /// Returns whether it is a number.
    pub fn is_number(self) -> bool
        ensures { result ≡ is_number self }
    {
        matches!(self, PieceKind::Number)
    }

    /// Returns whether it is a word.
    pub fn is_word(self) -> bool
        ensures { result ≡ is_word self }
    {
        matches!(self, PieceKind::Word)
    }

    /// Returns whether it may be before the `#` of a directive.
    pub fn is_margin(self) -> bool
        ensures { result ≡ is_margin self }
    {
        match self {
            PieceKind::Comment => true,
            PieceKind::Byte(b) => b == b' ' || b == b'\t',
            _ => false,
        }
    }
}

impl Pieces {
    /// Returns whether a single byte is at a place.
    pub fn is_byte_at(&self, at: usize, byte: u8) -> bool
        ensures value { result ≡ is_byte byte (piece_at self.now at).kind }
        ensures inside { result ≡ true → at < length self.now }
    {
        if at < self.len() {
            return self.kind(at).is_byte(byte);
        }
        false
    }

    /// Returns whether a word is at a place.
    pub fn is_word_at(&self, at: usize) -> bool
        ensures value { result ≡ is_word (piece_at self.now at).kind }
        ensures inside { result ≡ true → at < length self.now }
    {
        if at < self.len() {
            return self.kind(at).is_word();
        }
        false
    }
}
