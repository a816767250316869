// Bytes of a text.

ghost use Rattle.std.specs.Prelude.{◌≡◌, ◌≤◌, ◌++◌, [], length, OnOk, IfOk};

use lg_base::OutOfMemory;
use lg_base::layout::MOST_TEXT;
use std::alloc::Global;
use std::marker::Model;

/// Bytes of a text, as its expansion: at most 16,777,216. A contract sees them as a list.
#[derive(Drop)]
pub struct PlainText {
    bytes: Vec<u8>,
}

impl Model for PlainText {
    ghost use Rattle.std.specs.Prelude.{ℕ, List, length, ◌≤◌};

    ghost Value = { List ℕ };

    ghost view = { λ t. t.bytes.items };

    ghost invariant = { λ t. length t.bytes.items ≤ 16777216 };
}

impl PlainText {
    /// No bytes. No memory is taken yet.
    pub fn new(alloc: Global) -> PlainText
        ensures { result ≡ [] }
    {
        PlainText {
            bytes: Vec::new(alloc),
        }
    }

    /// Returns a copy of bytes. There is no room for more than a text may have.
    pub fn of(alloc: Global, text: &[u8]) -> Result<PlainText, OutOfMemory>
        ensures { IfOk result (λ r. r ≡ text.now) }
    {
        if text.len() > MOST_TEXT {
            return Err(OutOfMemory);
        }
        let bytes = Vec::from_slice(alloc, text)?;
        Ok(PlainText { bytes })
    }

    /// Returns the bytes.
    pub fn as_slice(&self) -> &[u8]
        ensures value { result.now ≡ self.now }
        ensures short { length result.now ≤ 16777216 }
    {
        self.bytes.as_slice()
    }

    /// Returns how many bytes there are.
    pub fn len(&self) -> usize
        ensures { result ≡ length self.now }
    {
        self.bytes.as_slice().len()
    }

    /// Adds bytes. There is no room for more than a text may have.
    pub fn extend(&mut self, text: &[u8]) -> Result<(), OutOfMemory>
        ensures { OnOk result (self.new ≡ self.old ++ text.now) }
    {
        if text.len() > MOST_TEXT - self.bytes.len() {
            return Err(OutOfMemory);
        }
        self.bytes.extend_from_slice(text)?;
        Ok(())
    }
}
