// A text with its name.

ghost use Rattle.std.specs.Prelude.{◌≡◌, IfOk};
ghost use Rattle.std.specs.Str.{bytes_eq};

use lg_base::OutOfMemory;
use std::alloc::Global;
use std::marker::Model;

/// A name, and the text that it corresponds to.
#[derive(Drop)]
pub struct NamedText {
    name: String,
    text: Vec<u8>,
}

impl Model for NamedText {
    ghost use Rattle.std.specs.Prelude.{ℕ, List, string_bytes};

    ghost Value = { List ℕ × List ℕ };

    ghost view = { λ named. (string_bytes named.name, named.text.items) };
}

impl NamedText {
    /// Copies of a name and a text.
    pub fn new(alloc: Global, name: &str, text: &[u8]) -> Result<NamedText, OutOfMemory>
        ensures { IfOk result (λ named. named ≡ (name.now, text.now)) }
    {
        Ok(NamedText {
            name: String::from_str(alloc, name)?,
            text: Vec::from_slice(alloc, text)?,
        })
    }

    /// Returns whether this is its name.
    pub fn has_name(&self, name: &str) -> bool
        ensures { result ≡ bytes_eq self.now.0 name.now }
    {
        self.name.as_str() == name
    }

    /// Returns the text.
    pub fn text(&self) -> &[u8]
        ensures { result.now ≡ self.now.1 }
    {
        self.text.as_slice()
    }
}
