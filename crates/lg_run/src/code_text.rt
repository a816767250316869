// The text that the generator makes.

ghost use Rattle.std.specs.Prelude.{◌≡◌, ◌≤◌, ◌++◌, [], length, OnOk};
ghost use Rattle.lg_io.specs.Wrote.{joined};

use lg_base::OutOfMemory;
use lg_base::layout::MOST_TEXT;
use std::alloc::Global;
use std::marker::Model;

/// Bytes of a text, at most 16,777,216. A contract sees them as a list.
#[derive(Drop)]
pub struct CodeText {
    bytes: Vec<u8>,
}

impl Model for CodeText {
    ghost use Rattle.std.specs.Prelude.{ℕ, List, length, ◌≤◌};

    ghost Value = { List ℕ };

    ghost view = { λ t. t.bytes.items };

    ghost invariant = { λ t. length t.bytes.items ≤ 16777216 };
}

impl CodeText {
    /// No bytes. No memory is taken yet.
    pub(crate) fn new(alloc: Global) -> CodeText
        ensures { result ≡ [] }
    {
        CodeText {
            bytes: Vec::new(alloc),
        }
    }

    /// Returns the bytes.
    pub fn as_slice(&self) -> &[u8]
        ensures value { result.now ≡ self.now }
        ensures short { length result.now ≤ 16777216 }
    {
        self.bytes.as_slice()
    }

    // Adds bytes. There is no room for more than a text may have.
    fn push(&mut self, part: &[u8]) -> Result<(), OutOfMemory>
        ensures { OnOk result (self.new ≡ self.old ++ part.now) }
    {
        if part.len() > MOST_TEXT - self.bytes.len() {
            return Err(OutOfMemory);
        }
        self.bytes.extend_from_slice(part)?;
        Ok(())
    }

    /// Adds pieces, one after another.
    pub(crate) fn push_row(&mut self, parts: &[&[u8]]) -> Result<(), OutOfMemory>
        ensures { OnOk result (self.new ≡ self.old ++ joined parts.now) }
    {
        for part in parts {
            self.push(part)?;
        }
        Ok(())
    }
}
