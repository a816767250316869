// Texts and sinks over std's files, input and writers: the edge to the outside, whose bytes no contract shows.

ghost use Rattle.std.specs.Prelude.{◌≡◌, ◌<◌, ◌≤◌, ℕ, List, [], length, true, false, codes, Option, Some, None, Ok, IfOk, OnOk, OnErr, is_ok, if◌then◌else◌};
ghost use Rattle.std.specs.Str.{bytes_eq};
ghost use Rattle.std.specs.Io.KnownBytes.{WriteAppends, ReadConsumes};
ghost use Rattle.lg_io.specs.Counts.{HasCause, next_count};
ghost use Rattle.lg_io.specs.NamedTexts.{NamedTexts, ReadsSurely, Selects, SelectsSurely};
ghost use Rattle.lg_io.specs.Readings.{behind_read, behind_select, ends_reading, unread};
ghost use Rattle.lg_io.specs.StandardSinks.{source_under};
ghost use Rattle.lg_io.specs.StandardSinks.Source.{NoText};

use crate::reading::Reading;
use crate::sink::{Sink, SinkFault};
use crate::texts::{TextFault, Texts};
use std::fs;
use std::io::{Read, Write};
use std::marker::Model;
use std::rt::Files;

/// A sink over a writer. It shows no bytes, and a contract sees its count of faults.
#[derive(Drop)]
pub struct StdSink<W: Write + Drop> {
    writer: W,
    faults: u64,
}

impl<W: Write + Drop> Model for StdSink<W> {
    ghost use Rattle.lg_io.specs.StandardSinks.{WriterState};

    ghost Value = { WriterState };

    ghost view = { λ sink. record { held = W.contents sink.writer; faults = sink.faults } };
}

impl<W: Write + Drop> StdSink<W> {
    /// Returns a sink that passes each piece to the writer.
    pub fn new(writer: W) -> StdSink<W>
        ensures { result ≡ record { held = W.contents writer; faults = 0 } }
    {
        StdSink { writer, faults: 0 }
    }

    /// Returns how many writes failed.
    pub fn faults(&self) -> u64
        ensures { result ≡ self.now.faults }
    {
        self.faults
    }
}

impl<W: Write + Drop> Sink for StdSink<W> {
    ghost taken = { λ sink. sink.held };

    ghost faults = { λ sink. sink.faults };

    /// Writes once. The count of faults rises where the writer fails, and where it takes nothing of a piece that is not empty.
    fn write(&mut self, bytes: &[u8]) -> Result<usize, SinkFault>
        ensures bound { IfOk result (λ n. n ≤ length bytes.now) }
        ensures some { IfOk result (λ n. 0 < length bytes.now → 0 < n) }
        ensures bytes { WriteAppends self.old.held self.new.held result bytes.now }
        ensures cause { HasCause self.old.faults self.new.faults result }
        ensures count { self.new.faults ≡ (if is_ok result then self.old.faults else next_count self.old.faults) }
    {
        match self.writer.write(bytes) {
            Ok(count) if count > 0 || bytes.is_empty() => Ok(count),
            _ => {
                self.faults = self.faults.saturating_add(1);
                Err(SinkFault::Failed)
            }
        }
    }
}

// What is read: nothing yet, a file, or the standard input.
#[derive(Drop)]
enum Selected<F: Drop, I: Drop> {
    Nothing,
    File(F),
    Input(I),
}

/// Texts from files, with the standard input under the name `-`. It shows no bytes, and a contract sees its count of faults.
#[derive(Drop)]
pub struct StdTexts<'a, R: Files + Input> {
    rt: &'a R,
    selected: Selected<R::File, R::Reader>,
    reading: Reading,
    faults: u64,
}

impl<'a, R: Files + Input> Model for StdTexts<'a, R> {
    ghost use Rattle.lg_io.specs.StandardSinks.{ReaderState, seen_texts};

    ghost Value = { ReaderState };

    ghost view = { λ texts. seen_texts R.File.remaining R.Reader.remaining texts.selected texts.reading texts.faults };
}

impl<'a, R: Files + Input> StdTexts<'a, R> {
    /// No text is selected.
    pub fn new(rt: &'a R) -> StdTexts<'a, R>
        ensures { result ≡ record { left = Some []; source = NoText; reading = unread; faults = 0 } }
    {
        StdTexts {
            rt,
            selected: Selected::Nothing,
            reading: Reading::new(),
            faults: 0,
        }
    }

    /// Returns how many calls failed.
    pub fn faults(&self) -> u64
        ensures { result ≡ self.now.faults }
    {
        self.faults
    }
}

impl<'a, R: Files + Input> Texts for StdTexts<'a, R> {
    ghost held = { λ _. None };

    ghost left = { λ texts. texts.left };

    ghost faults = { λ texts. texts.faults };

    ghost sure = { λ _. false };

    ghost reading = { λ texts. texts.reading };

    /// Opens the file of that name, or takes the standard input for `-`, which never fails.
    fn select(&mut self, name: &str) -> Result<(), TextFault>
        ensures held { ◌≡◌ {A = Option NamedTexts} None None }
        ensures left { OnOk result (Selects None self.new.left name.now) }
        ensures err { OnErr result (self.new.left ≡ self.old.left) }
        ensures sure { SelectsSurely false false None name.now result }
        ensures reading { self.new.reading ≡ behind_select self.old.reading (is_ok result) }
        ensures source { self.new.source ≡ (if is_ok result then source_under name.now else self.old.source) }
        ensures input { bytes_eq name.now (codes "-") ≡ true → is_ok result ≡ true }
        ensures cause { HasCause self.old.faults self.new.faults result }
        ensures count { self.new.faults ≡ (if is_ok result then self.old.faults else next_count self.old.faults) }
    {
        if name == "-" {
            self.selected = Selected::Input(self.rt.reader());
            self.reading.select(true);
            return Ok(());
        }
        match fs::open(self.rt, name) {
            Ok(file) => {
                self.selected = Selected::File(file);
                self.reading.select(true);
                Ok(())
            }
            Err(_) => {
                self.reading.select(false);
                self.faults = self.faults.saturating_add(1);
                Err(TextFault::Failed)
            }
        }
    }

    /// Reads once. Where no text is selected there is nothing to read, and that is no fault.
    fn read(&mut self, into: &mut [u8]) -> Result<usize, TextFault>
        ensures held { ◌≡◌ {A = Option NamedTexts} None None }
        ensures bound { IfOk result (λ n. n ≤ length into.old) }
        ensures bytes { ReadConsumes self.old.left self.new.left result into.new }
        ensures sure { ReadsSurely false false result }
        ensures reading { self.new.reading ≡ behind_read self.old.reading (ends_reading result) }
        ensures source { self.new.source ≡ self.old.source }
        ensures nothing { self.old.source ≡ NoText → result ≡ Ok 0 }
        ensures cause { HasCause self.old.faults self.new.faults result }
        ensures count { self.new.faults ≡ (if is_ok result then self.old.faults else next_count self.old.faults) }
    {
        let answer = match &mut self.selected {
            Selected::Nothing => Ok(0),
            Selected::File(file) => file.read(into),
            Selected::Input(input) => input.read(into),
        };
        match answer {
            Ok(count) => {
                self.reading.read(count == 0);
                Ok(count)
            }
            Err(_) => {
                self.reading.read(true);
                self.faults = self.faults.saturating_add(1);
                Err(TextFault::Failed)
            }
        }
    }
}
