// Texts in memory.

ghost use Rattle.std.specs.Prelude.{◌≡◌, ◌==◌, ◌<◌, ◌≤◌, ℕ, [], ◌∷◌, ◌++◌, ◌-◌, length, min, take, drop, Some, None, MatchOption, IfOk, OnOk, OnErr, is_ok};
ghost use Rattle.std.specs.Io.KnownBytes.{ReadConsumes};
ghost use Rattle.lg_io.specs.Counts.{HasCause};
ghost use Rattle.lg_io.specs.NamedTexts.{text_under, ReadsSurely, Selects, SelectsSurely};
ghost use Rattle.lg_io.specs.Readings.{behind_read, behind_select, ends_reading, unread};
ghost use Rattle.lg_io.specs.Rests.{rest_of, IsPlaceOf};
ghost use Rattle.lg_io.specs.MemoryTexts.{select_answer, after_select, read_answer, read_into, after_read, untouched};

use crate::calls::FailingCalls;
use crate::named_text::NamedText;
use crate::reading::Reading;
use crate::texts::{TextFault, Texts};
use lg_base::OutOfMemory;
use std::alloc::Global;
use std::marker::Model;

/// Texts by their names, which fail at the calls that they are set to fail at.
#[derive(Drop)]
pub struct MemoryTexts {
    alloc: Global,
    texts: Vec<NamedText>,
    selected: Option<usize>,
    offset: usize,
    reading: Reading,
    calls: FailingCalls,
}

impl Model for MemoryTexts {
    ghost use Rattle.std.specs.Prelude.{◌<◌, vec_len};
    ghost use Rattle.std.specs.Option.{ForSome};
    ghost use Rattle.lg_io.specs.Rests.{rest_of};
    ghost use Rattle.lg_io.specs.MemoryTexts.{TextsState};

    ghost Value = { TextsState };

    ghost view = { λ texts. record {
      held = texts.texts.items;
      left = rest_of texts.texts.items texts.selected texts.offset;
      reading = texts.reading;
      calls = texts.calls;
    } };

    ghost invariant = { λ texts. ForSome texts.selected (λ place. place < vec_len texts.texts) };
}

// Returns the place of the first text of a name.
fn place_of(texts: &[NamedText], name: &str) -> Option<usize>
    ensures { MatchOption result (text_under texts.now name.now ≡ None) (IsPlaceOf texts.now name.now) }
{
    for (place, named) in texts.iter().enumerate() {
        if named.has_name(name) {
            return Some(place);
        }
    }
    None
}

// Copies what there is room for of a text from an offset on.
fn copy_from(text: &[u8], offset: usize, into: &mut [u8]) -> usize
    ensures count { result ≡ min (length text.now - offset) (length into.old) }
    ensures bytes { into.new ≡ take result (drop offset text.now) ++ drop result into.old }
{
    if offset >= text.len() {
        return 0;
    }
    let left = &text[offset..];
    let count = left.len().min(into.len());
    into[..count].copy_from_slice(&left[..count]);
    count
}

impl MemoryTexts {
    /// No texts. The k-th call, selecting and reading counted together from 1, fails where k is in the list.
    pub fn new(alloc: Global, fail_at: &[u64]) -> Result<MemoryTexts, OutOfMemory>
        ensures { IfOk result (λ texts. texts ≡ untouched fail_at.now) }
    {
        Ok(MemoryTexts {
            alloc,
            texts: Vec::new(alloc),
            selected: None,
            offset: 0,
            reading: Reading::new(),
            calls: FailingCalls::new(alloc, fail_at)?,
        })
    }

    /// Adds a text. Of two texts of one name the first counts.
    pub fn add(&mut self, name: &str, text: &[u8]) -> Result<(), OutOfMemory>
        ensures ok { OnOk result (self.new ≡ record self.old { held = self.old.held ++ (name.now, text.now) ∷ [] }) }
        ensures err { OnErr result (self.new ≡ self.old) }
    {
        let named = NamedText::new(self.alloc, name, text)?;
        self.texts.push(named)?;
        Ok(())
    }

    /// Returns how many calls failed.
    pub fn faults(&self) -> u64
        ensures { result ≡ self.now.calls.faults }
    {
        self.calls.faults()
    }
}

impl Texts for MemoryTexts {
    ghost held = { λ texts. Some texts.held };

    ghost left = { λ texts. Some texts.left };

    ghost faults = { λ texts. texts.calls.faults };

    ghost sure = { λ texts. length texts.calls.fail_at == 0 };

    ghost reading = { λ texts. texts.reading };

    /// Selects the first text of a name.
    fn select(&mut self, name: &str) -> Result<(), TextFault>
        ensures held { Some self.new.held ≡ Some self.old.held }
        ensures left { OnOk result (Selects (Some self.old.held) (Some self.new.left) name.now) }
        ensures err { OnErr result (Some self.new.left ≡ Some self.old.left) }
        ensures sure { SelectsSurely (length self.old.calls.fail_at == 0) (length self.new.calls.fail_at == 0) (Some self.old.held) name.now result }
        ensures reading { self.new.reading ≡ behind_select self.old.reading (is_ok result) }
        ensures cause { HasCause self.old.calls.faults self.new.calls.faults result }
        ensures answer { result ≡ select_answer self.old name.now }
        ensures after { self.new ≡ after_select self.old name.now }
    {
        let fails = self.calls.fails_next();
        match place_of(self.texts.as_slice(), name) {
            Some(place) if !fails => {
                self.calls.count(false);
                self.reading.select(true);
                self.selected = Some(place);
                self.offset = 0;
                Ok(())
            }
            _ => {
                self.calls.count(true);
                self.reading.select(false);
                Err(TextFault::Failed)
            }
        }
    }

    /// Gives as many bytes as the slice and what is left allow.
    fn read(&mut self, into: &mut [u8]) -> Result<usize, TextFault>
        ensures held { Some self.new.held ≡ Some self.old.held }
        ensures bound { IfOk result (λ n. n ≤ length into.old) }
        ensures bytes { ReadConsumes (Some self.old.left) (Some self.new.left) result into.new }
        ensures sure { ReadsSurely (length self.old.calls.fail_at == 0) (length self.new.calls.fail_at == 0) result }
        ensures reading { self.new.reading ≡ behind_read self.old.reading (ends_reading result) }
        ensures cause { HasCause self.old.calls.faults self.new.calls.faults result }
        ensures answer { result ≡ read_answer self.old into.old }
        ensures after { self.new ≡ after_read self.old into.old }
        ensures into { into.new ≡ read_into self.old into.old }
    {
        let fails = self.calls.fails_next();
        self.calls.count(fails);
        if fails {
            self.reading.read(true);
            return Err(TextFault::Failed);
        }
        let Some(place) = self.selected else {
            self.reading.read(true);
            return Ok(0);
        };
        let count = copy_from(self.texts[place].text(), self.offset, into);
        self.offset += count;
        self.reading.read(count == 0);
        Ok(count)
    }
}
