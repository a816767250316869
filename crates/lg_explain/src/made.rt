// Words that were made.

ghost use Rattle.std.specs.Prelude.{◌≡◌, [], IfOk, OnOk};
ghost use Rattle.lg_explain.specs.Twice.{is_made, with_word};

use indexmap::IndexSet;
use lg_base::OutOfMemory;
use std::alloc::Global;
use std::marker::Model;

/// Words that were made, in their order.
#[derive(Drop)]
pub struct Made {
    alloc: Global,
    words: IndexSet<Vec<u8>>,
}

impl Model for Made {
    ghost use Rattle.std.specs.Prelude.{ℕ, List};
    ghost use Rattle.lg_explain.specs.Made.{view_of};

    ghost Value = { List (List ℕ) };

    ghost view = { view_of };
}

impl Made {
    /// No words. No memory is taken yet.
    pub fn new(alloc: Global) -> Made
        ensures { result ≡ [] }
    {
        Made {
            alloc,
            words: IndexSet::new(alloc),
        }
    }

    /// Returns whether a word was made.
    pub fn has(&self, word: &[u8]) -> bool
        ensures { result ≡ is_made self.now word.now }
    {
        self.words.contains(word)
    }

    /// Makes a word, where it was not made.
    pub fn add(&mut self, word: &[u8]) -> Result<(), OutOfMemory>
        ensures { OnOk result (self.new ≡ with_word self.old word.now) }
    {
        if self.words.get_index_of(word).is_some() {
            return Ok(());
        }
        let key = Vec::from_slice(self.alloc, word)?;
        match self.words.insert_full(key) {
            Ok(_) => return Ok(()),
            Err(_) => return Err(OutOfMemory),
        }
    }
}
