// Short lists of bytes.

ghost use Rattle.std.specs.Prelude.{◌≡◌, ◌<◌, ◌≤◌, ◌+◌, ℕ, List, [], ◌∷◌, ◌++◌, length, take};

use std::marker::Model;

/// A list of at most 16 bytes, held inline: the bytes of one instruction, or a short name.
#[derive(Debug, Drop)]
pub struct Piece {
    bytes: [u8; 16],
    len: usize,
}

impl Model for Piece {
    ghost Value = { List ℕ };

    ghost view = { λ p. take p.len p.bytes };

    ghost invariant = { λ p. p.len ≤ 16 };
}

impl Piece {
    /// Returns the empty list.
    pub fn new() -> Self
        ensures { result ≡ [] }
    {
        Piece {
            bytes: [0; 16],
            len: 0,
        }
    }

    /// Returns the list of these bytes (at most 16).
    pub fn of(list: &[u8]) -> Self
        requires { length list.now ≤ 16 }
        ensures { result ≡ list.now }
    {
        let mut piece = Piece::new();
        piece.extend(list);
        piece
    }

    /// Appends a byte. The list has fewer than 16.
    pub fn push(&mut self, byte: u8)
        requires { length self.old < 16 }
        ensures { self.new ≡ self.old ++ byte ∷ [] }
    {
        self.bytes[self.len] = byte;
        self.len += 1;
    }

    /// Appends bytes. There are at most 16 then.
    pub fn extend(&mut self, list: &[u8])
        requires { length self.old + length list.now ≤ 16 }
        ensures { self.new ≡ self.old ++ list.now }
    {
        for byte in list {
            self.push(*byte);
        }
    }

    /// Returns the bytes.
    pub fn as_slice(&self) -> &[u8]
        ensures value { result.now ≡ self.now }
        ensures room { length result.now ≤ 16 }
    {
        &self.bytes[..self.len]
    }
}
