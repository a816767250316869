// A part of the memory: its bytes by places, with a mark for each. It grows within room that is taken at first.

ghost use Rattle.std.specs.Prelude.{◌≡◌, ◌+◌, ◌-◌, ◌<◌, ◌≤◌, length, slice_index, IfOk, IfSome, IsTrue, Some, true, false, if◌then◌else◌};
ghost use Rattle.lg_base.specs.Spaces.{loaded, stored, written};
ghost use Rattle.lg_cells.specs.Cells.{cell_of, cell_by, byte_of, room_of, with_cell, with_cells, with_bytes, with_marks, AreRooms, AreWritten, IsWordIn, IsAsLong};

use crate::cell::Cell;
use crate::word::{put_1, put_2, put_4, put_8, word_2, word_4, word_8};
use lg_base::OutOfMemory;
use std::alloc::Global;
use std::marker::Model;

/// No byte can be at a place.
pub(crate) const CLOSED: u8 = 0;

/// A byte can be written at a place, and none was.
pub(crate) const FRESH: u8 = 1;

/// A byte was written at a place.
pub(crate) const WRITTEN: u8 = 2;

/// Bytes with marks, by places. Each place after the last one is closed.
#[derive(Drop)]
pub(crate) struct Part {
    most: usize,
    bytes: Vec<u8>,
    marks: Vec<u8>,
}

impl Model for Part {
    ghost use Rattle.std.specs.Prelude.{vec_capacity};
    ghost use Rattle.lg_cells.specs.Cells.{Marks, IsHeld};

    ghost Value = { Marks };

    ghost view = { λ p. record { bytes = p.bytes.items; marks = p.marks.items; most = p.most } };

    ghost invariant = { λ p. IsHeld p.bytes.items p.marks.items p.most (vec_capacity p.bytes) (vec_capacity p.marks) };
}

// Marks `count` places, from one on.
fn mark_places(marks: &mut [u8], from: usize, count: usize, mark: u8)
    requires { from + count ≤ length marks.old }
    ensures { slice_index marks.new ≡ with_marks (slice_index marks.old) from count mark }
{
    for i in 0..count {
        marks[from + i] = mark;
    }
}

// Returns whether two places from one on have the mark of a byte that was written.
#[inline(always)]
fn are_written_2(marks: &[u8], at: usize) -> bool
    requires { at + 2 ≤ length marks.now }
    ensures { IsTrue result → AreWritten marks.now at 2 }
{
    word_2(marks, at) == 0x0202
}

// Returns whether four places from one on have the mark of a byte that was written.
#[inline(always)]
fn are_written_4(marks: &[u8], at: usize) -> bool
    requires { at + 4 ≤ length marks.now }
    ensures { IsTrue result → AreWritten marks.now at 4 }
{
    word_4(marks, at) == 0x0202_0202
}

// Returns whether eight places from one on have the mark of a byte that was written.
#[inline(always)]
fn are_written_8(marks: &[u8], at: usize) -> bool
    requires { at + 8 ≤ length marks.now }
    ensures { IsTrue result → AreWritten marks.now at 8 }
{
    word_8(marks, at) == 0x0202_0202_0202_0202
}

// Returns the number in `width` bytes, if the mark of each says that it was written.
#[inline(always)]
fn word_in(bytes: &[u8], marks: &[u8], at: usize, width: u32) -> Option<u64>
    requires long { length bytes.now ≡ length marks.now }
    requires places { at + width ≤ length marks.now }
    ensures { IfSome result (λ word. IsWordIn bytes.now marks.now at width word) }
{
    if width == 8 && are_written_8(marks, at) {
        return Some(word_8(bytes, at));
    }
    if width == 4 && are_written_4(marks, at) {
        return Some(word_4(bytes, at));
    }
    if width == 1 && marks[at] == WRITTEN {
        return Some(u64::from(bytes[at]));
    }
    if width == 2 && are_written_2(marks, at) {
        return Some(word_2(bytes, at));
    }
    None
}

// Writes `width` bytes of a number, if the mark of each says that it was written before.
#[inline(always)]
fn put_word_in(bytes: &mut [u8], marks: &[u8], at: usize, width: u32, value: u64) -> bool
    requires long { length bytes.old ≡ length marks.now }
    requires places { at + width ≤ length marks.now }
    ensures marked { IsTrue result → AreWritten marks.now at width }
    ensures bytes { IsTrue result → slice_index bytes.new ≡ written (slice_index bytes.old) at width value }
    ensures unchanged { result ≡ false → bytes.new ≡ bytes.old }
{
    if width == 8 && are_written_8(marks, at) {
        put_8(bytes, at, value);
        return true;
    }
    if width == 4 && are_written_4(marks, at) {
        put_4(bytes, at, value);
        return true;
    }
    if width == 1 && marks[at] == WRITTEN {
        put_1(bytes, at, value);
        return true;
    }
    if width == 2 && are_written_2(marks, at) {
        put_2(bytes, at, value);
        return true;
    }
    false
}

impl Part {
    /// A part without places, with room for `most`.
    pub(crate) fn with_capacity(alloc: Global, most: usize) -> Result<Part, OutOfMemory>
        ensures cells { IfOk result (λ p. cell_of p ≡ (λ _. Cell.Closed)) }
        ensures len { IfOk result (λ p. length p.marks ≡ 0) }
        ensures most { IfOk result (λ p. p.most ≡ most) }
    {
        Ok(Part {
            most,
            bytes: Vec::with_capacity(alloc, most)?,
            marks: Vec::with_capacity(alloc, most)?,
        })
    }

    /// Returns how many places there are.
    pub(crate) fn len(&self) -> usize
        ensures { result ≡ length self.now.marks }
    {
        self.marks.len()
    }

    /// Returns the cell at a place.
    pub(crate) fn cell(&self, at: usize) -> Cell
        ensures { result ≡ cell_of self.now at }
    {
        if at >= self.marks.len() {
            return Cell::Closed;
        }
        match self.marks[at] {
            CLOSED => Cell::Closed,
            FRESH => Cell::Fresh,
            _ => Cell::Holds(self.bytes[at]),
        }
    }

    /// Writes a byte.
    pub(crate) fn set(&mut self, at: usize, byte: u8)
        requires { at < length self.old.marks }
        ensures cells { cell_of self.new ≡ with_cell (cell_of self.old) at (Cell.Holds byte) }
        ensures kept { IsAsLong self.old self.new }
    {
        self.bytes[at] = byte;
        self.marks[at] = WRITTEN;
    }

    /// Adds places of this mark, until there are `len`. No byte is there.
    pub(crate) fn grow(&mut self, len: usize, mark: u8)
        requires more { length self.old.marks ≤ len }
        requires most { len ≤ self.old.most }
        requires mark { mark < 2 }
        ensures cells { cell_of self.new ≡ with_cells (cell_of self.old) (length self.old.marks) (len - length self.old.marks) (cell_by mark 0) }
        ensures len { length self.new.marks ≡ len }
        ensures most { self.new.most ≡ self.old.most }
    {
        let _ = self.bytes.resize(len, 0);
        let _ = self.marks.resize(len, mark);
    }

    /// Adds closed places, if there are fewer than `len`.
    pub(crate) fn reach(&mut self, len: usize)
        requires { len ≤ self.old.most }
        ensures cells { cell_of self.new ≡ cell_of self.old }
        ensures len { len ≤ length self.new.marks }
        ensures most { self.new.most ≡ self.old.most }
    {
        if len > self.marks.len() {
            self.grow(len, CLOSED);
        }
    }

    /// Gives `count` places, from one on, a mark. No byte is there then.
    pub(crate) fn fill(&mut self, from: usize, count: usize, mark: u8)
        requires places { from + count ≤ length self.old.marks }
        requires mark { mark < 2 }
        ensures cells { cell_of self.new ≡ with_cells (cell_of self.old) from count (cell_by mark 0) }
        ensures kept { IsAsLong self.old self.new }
    {
        mark_places(&mut self.marks, from, count, mark);
    }

    /// Adds places that hold these bytes.
    pub(crate) fn append(&mut self, bytes: &[u8])
        requires { length self.old.marks + length bytes.now ≤ self.old.most }
        ensures cells { cell_of self.new ≡ with_bytes (cell_of self.old) (length self.old.marks) bytes.now (length bytes.now) }
        ensures len { length self.new.marks ≡ length self.old.marks + length bytes.now }
        ensures most { self.new.most ≡ self.old.most }
    {
        let len = self.marks.len() + bytes.len();
        let _ = self.bytes.extend_from_slice(bytes);
        let _ = self.marks.resize(len, WRITTEN);
    }

    /// Returns the number in `width` bytes from a place on, the lowest byte first, if all were written and `width` is 1, 2, 4 or 8. None says nothing.
    #[inline(always)]
    pub(crate) fn word(&self, at: usize, width: u32) -> Option<u64>
        requires { at + width ≤ length self.now.marks }
        ensures { IfSome result (λ word. loaded (byte_of self.now) at width ≡ Some word) }
    {
        word_in(&self.bytes, &self.marks, at, width)
    }

    /// Writes the low `width` bytes of a number from a place on, the lowest byte first, if all were written before and `width` is 1, 2,
    /// 4 or 8. Returns false if not, and then nothing changes.
    #[inline(always)]
    pub(crate) fn put_word(&mut self, at: usize, width: u32, value: u64) -> bool
        requires { at + width ≤ length self.old.marks }
        ensures bytes { byte_of self.new ≡ (if result then stored (byte_of self.old) at width value else byte_of self.old) }
        ensures rooms { room_of self.new ≡ room_of self.old }
        ensures places { IsTrue result → AreRooms self.old at width }
        ensures kept { IsAsLong self.old self.new }
        ensures unchanged { result ≡ false → self.new ≡ self.old }
    {
        put_word_in(&mut self.bytes, &self.marks, at, width, value)
    }
}
