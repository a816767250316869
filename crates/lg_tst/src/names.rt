// The names that a function makes.

ghost use Rattle.std.specs.Prelude.{◌≡◌, ◌≤◌, ◌<◌, ◌-◌, ◌+◌, ◌^◌, length, if◌then◌else◌, not, Some, None, slice_get, IfOk, OnOk, OnErr};
ghost use Rattle.lg_tst.specs.Names.{no_names, is_made, meaning_of, with_name, with_argument, with_local, below};

use indexmap::IndexSet;
use lg_base::OutOfMemory;
use lg_op::Operand;
use std::alloc::Global;
use std::marker::Model;

/// The names that a function makes, each with the operand that it denotes.
#[derive(Drop)]
pub struct Names {
    alloc: Global,
    words: IndexSet<Vec<u8>>,
    meanings: Vec<Operand>,
    arguments: u32,
    locals: u32,
    lowest: u64,
}

impl Model for Names {
    ghost use Rattle.lg_tst.specs.Names.{FunctionNames};
    ghost use Rattle.lg_tst.specs.NameTables.{view_of, IsNames};

    ghost Value = { FunctionNames };

    ghost view = { view_of };

    ghost invariant = { IsNames };
}

impl Names {
    /// No names. No memory is taken yet.
    pub fn new(alloc: Global) -> Names
        ensures { result ≡ no_names }
    {
        Names {
            alloc,
            words: IndexSet::new(alloc),
            meanings: Vec::new(alloc),
            arguments: 0,
            locals: 0,
            lowest: 0xffff_ffff_ffff_ff80,
        }
    }

    /// Makes the names end.
    pub fn clear(&mut self)
        ensures { self.new ≡ no_names }
    {
        *self = Names::new(self.alloc);
    }

    /// Returns how many arguments the function has made.
    pub fn arguments(&self) -> u32
        ensures { result ≡ self.now.arguments }
    {
        self.arguments
    }

    // Returns the operand at a place.
    fn meaning_at(&self, index: usize) -> Operand
        requires { index < length self.now.meanings }
        ensures { Some result ≡ slice_get self.now.meanings index }
    {
        self.meanings[index]
    }

    /// Returns the operand that a name denotes: the number of an argument, or the offset of a local. None where no such name is made.
    pub fn meaning(&self, word: &[u8]) -> Option<Operand>
        ensures { result ≡ meaning_of self.now word.now }
    {
        match self.words.get_index_of(word) {
            Some(index) => Some(self.meaning_at(index)),
            None => None,
        }
    }

    // Adds a name. False exactly where it is made already, and then nothing changes.
    fn add(&mut self, word: &[u8], meaning: Operand) -> Result<bool, OutOfMemory>
        ensures new { IfOk result (λ new. new ≡ not (is_made self.old word.now)) }
        ensures ok { OnOk result (self.new ≡ (if is_made self.old word.now then self.old else with_name self.old word.now meaning)) }
        ensures err { OnErr result (self.new ≡ self.old) }
    {
        if self.words.get_index_of(word).is_some() {
            return Ok(false);
        }
        self.meanings.reserve(1)?;
        let key = Vec::from_slice(self.alloc, word)?;
        self.words.insert_full(key)?;
        self.meanings.push_reserved(meaning);
        Ok(true)
    }

    /// Makes the next argument of the function, and gives its number. None exactly where the name is made already.
    pub fn add_argument(&mut self, word: &[u8]) -> Result<Option<u32>, OutOfMemory>
        requires { length self.old.words < 2 ^ 32 - 1 }
        ensures number { IfOk result (λ number. number ≡ (if is_made self.old word.now then None else Some self.old.arguments)) }
        ensures ok { OnOk result (self.new ≡ (if is_made self.old word.now then self.old else with_argument self.old word.now)) }
        ensures err { OnErr result (self.new ≡ self.old) }
        ensures few { length self.new.words ≤ length self.old.words + 1 }
    {
        let number = self.arguments;
        if !self.add(word, Operand::Slot(number))? {
            return Ok(None);
        }
        self.arguments = number + 1;
        Ok(Some(number))
    }

    /// Makes the next local of the function, which has this many bytes, and gives its number. None exactly where the name is made
    /// already.
    pub fn add_local(&mut self, word: &[u8], size: u64) -> Result<Option<u32>, OutOfMemory>
        requires room { length self.old.words < 2 ^ 32 - 1 }
        requires size { size ≤ 65536 }
        ensures number { IfOk result (λ number. number ≡ (if is_made self.old word.now then None else Some self.old.locals)) }
        ensures ok { OnOk result (self.new ≡ (if is_made self.old word.now then self.old else with_local self.old word.now size)) }
        ensures err { OnErr result (self.new ≡ self.old) }
        ensures few { length self.new.words ≤ length self.old.words + 1 }
    {
        let number = self.locals;
        let offset = self.lowest.wrapping_sub((size + 7) / 8 * 8);
        if !self.add(word, Operand::Number(offset))? {
            return Ok(None);
        }
        self.locals = number + 1;
        self.lowest = offset;
        Ok(Some(number))
    }
}
