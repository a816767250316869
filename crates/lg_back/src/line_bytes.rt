// The bytes that a line denotes, without memory.

ghost use Rattle.std.specs.Prelude.{◌≡◌, ◌<◌, ◌≤◌, ◌+◌, ℕ, List, [], ◌∷◌, ◌++◌, length, take};

use std::marker::Model;

/// The bytes that a line denotes, at most 16, held inline, so that the same place holds those of one line after another.
#[derive(Drop)]
pub struct LineBytes {
    bytes: [u8; 16],
    len: usize,
}

impl Model for LineBytes {
    ghost Value = { List ℕ };

    ghost view = { λ l. take l.len l.bytes };

    ghost invariant = { λ l. l.len ≤ 16 };
}

impl LineBytes {
    /// Returns the place with no bytes.
    pub fn new() -> Self
        ensures { result ≡ [] }
    {
        LineBytes {
            bytes: [0; 16],
            len: 0,
        }
    }

    /// Takes all bytes away.
    pub fn clear(&mut self)
        ensures { self.new ≡ [] }
    {
        self.len = 0;
    }

    /// Replaces the bytes by others (at most 16).
    #[inline(always)]
    pub fn set(&mut self, list: &[u8])
        requires { length list.now ≤ 16 }
        ensures { self.new ≡ list.now }
    {
        self.bytes[..list.len()].copy_from_slice(list);
        self.len = list.len();
    }

    /// Appends a byte. There are fewer than 16.
    pub fn push(&mut self, byte: u8)
        requires { length self.old < 16 }
        ensures { self.new ≡ self.old ++ byte ∷ [] }
    {
        self.bytes[self.len] = byte;
        self.len += 1;
    }

    /// Returns the bytes.
    pub fn as_slice(&self) -> &[u8]
        ensures value { result.now ≡ self.now }
        ensures room { length result.now ≤ 16 }
    {
        &self.bytes[..self.len]
    }
}
