// Pieces of a text, in their order.

ghost use Rattle.std.specs.Prelude.{◌≡◌, ◌≤◌, ◌<◌, ◌+◌, ◌-◌, ◌^◌, [], ◌∷◌, ◌++◌, length, map, take, drop, sum_by, vec_len, vec_capacity, OnOk, OnErr, IfOk, false};
ghost use Rattle.std.specs.List.{All};
ghost use Rattle.lg_macro.specs.Pieces.{is_byte, is_white, piece_at, froze, on_line, between, text_length};
ghost use Rattle.lg_macro.specs.PieceParts.{AreParts, IsBetween, moved, piece_of};

use lg_base::OutOfMemory;
use std::alloc::Global;
use std::marker::Model;

/// The kinds of pieces.
#[derive(Clone, Copy, PartialEq, Eq)]
pub enum PieceKind {
    /// A comment.
    Comment,
    /// A string or a character with its quotes.
    Quoted,
    /// A word.
    Word,
    /// A number.
    Number,
    /// A line feed.
    Feed,
    /// Any other byte.
    Byte(u8),
}

/// A piece as it is held: its text is a range of bytes.
#[derive(Clone, Copy)]
pub(crate) struct Part {
    pub(crate) kind: PieceKind,
    pub(crate) frozen: bool,
    pub(crate) line: u32,
    pub(crate) start: usize,
    pub(crate) end: usize,
}

/// Pieces in their order, each with its text, its line and whether it is frozen.
#[derive(Drop)]
pub struct Pieces {
    bytes: Vec<u8>,
    parts: Vec<Part>,
}

impl Model for Pieces {
    ghost use Rattle.std.specs.Prelude.{List, length, map};
    ghost use Rattle.lg_macro.specs.Pieces.{Piece};
    ghost use Rattle.lg_macro.specs.PieceParts.{piece_of, AreParts};

    ghost Value = { List Piece };

    ghost view = { λ p. map (piece_of p.bytes.items) p.parts.items };

    ghost invariant = { λ p. AreParts p.bytes.items (length p.bytes.items) p.parts.items };
}

impl PieceKind {
    /// Returns whether a piece of this kind is white space or a comment.
    pub fn is_white(self) -> bool
        ensures { result ≡ is_white self }
    {
        match self {
            PieceKind::Comment | PieceKind::Feed => true,
            PieceKind::Byte(b) => b == b' ' || (b >= 9 && b <= 13),
            _ => false,
        }
    }

    /// Returns whether it is this single byte.
    pub fn is_byte(self, byte: u8) -> bool
        ensures { result ≡ is_byte byte self }
    {
        match self {
            PieceKind::Byte(b) => b == byte,
            _ => false,
        }
    }
}

const MOST_PIECES: usize = 16_777_216;

const MOST_BYTES: usize = 67_108_864;

impl Pieces {
    /// No pieces.
    pub fn new(alloc: Global) -> Pieces
        ensures { result ≡ [] }
    {
        Pieces {
            bytes: Vec::new(alloc),
            parts: Vec::new(alloc),
        }
    }

    /// No pieces, with room for as many as are said.
    pub(crate) fn with_capacity(alloc: Global, most: usize) -> Result<Pieces, OutOfMemory>
        ensures { IfOk result (λ r. r ≡ []) }
    {
        let parts = Vec::with_capacity(alloc, most)?;
        Ok(Pieces {
            bytes: Vec::new(alloc),
            parts,
        })
    }

    /// Returns the pieces whose parts these are, one after another: together they are the text.
    pub(crate) fn of(alloc: Global, text: &[u8], parts: Vec<Part>) -> Result<Pieces, OutOfMemory>
        requires { AreParts text.now (length text.now) parts.items }
        ensures { IfOk result (λ r. r ≡ map (piece_of text.now) parts.items) }
    {
        let bytes = Vec::from_slice(alloc, text)?;
        Ok(Pieces { bytes, parts })
    }

    /// Takes all pieces out. The memory stays.
    pub fn clear(&mut self)
        ensures { self.new ≡ [] }
    {
        self.bytes.clear();
        self.parts.clear();
    }

    /// Returns how many there are.
    pub fn len(&self) -> usize
        ensures { result ≡ length self.now }
    {
        self.parts.len()
    }

    /// Returns the sum of the bytes of all pieces, below 134,217,728.
    pub fn size(&self) -> usize
        ensures { result ≡ sum_by text_length self.now }
    {
        self.bytes.as_slice().len()
    }

    /// Returns the kind of the piece at a place.
    pub fn kind(&self, at: usize) -> PieceKind
        requires { at < length self.now }
        ensures { result ≡ (piece_at self.now at).kind }
    {
        self.parts[at].kind
    }

    /// Returns the line of the piece at a place.
    pub fn line(&self, at: usize) -> u32
        requires { at < length self.now }
        ensures { result ≡ (piece_at self.now at).line }
    {
        self.parts[at].line
    }

    /// Returns the text of the piece at a place.
    pub fn text(&self, at: usize) -> &[u8]
        requires { at < length self.now }
        ensures { result.now ≡ (piece_at self.now at).text }
    {
        let part = self.parts[at];
        &self.bytes[part.start..part.end]
    }

    // Returns whether a list is so long that it is not made longer: no definition bounds the lists that a call holds in between.
    fn is_long(&self, text: &[u8]) -> bool {
        self.parts.len() >= MOST_PIECES
            || self.bytes.len() >= MOST_BYTES
            || text.len() >= MOST_BYTES
    }

    /// Adds a piece. Memory runs out too where there are 16,777,216 pieces or 67,108,864 bytes.
    pub fn push(
        &mut self,
        kind: PieceKind,
        text: &[u8],
        line: u32,
        frozen: bool,
    ) -> Result<(), OutOfMemory>
        ensures { OnOk result (self.new ≡ self.old ++ record { kind = kind; text = text.now; line = line; frozen = frozen } ∷ []) }
    {
        let start = self.bytes.as_slice().len();
        if self.is_long(text) {
            return Err(OutOfMemory);
        }
        self.parts.reserve(1)?;
        push_text(&mut self.bytes, text)?;
        let end = self.bytes.as_slice().len();
        self.parts.push_reserved(Part {
            kind,
            frozen,
            line,
            start,
            end,
        });
        Ok(())
    }
}

// Appends a text. It is a call of its own, so that a push of one byte saves no registers.
#[inline(never)]
fn push_long(bytes: &mut Vec<u8>, text: &[u8]) -> Result<(), OutOfMemory>
    ensures items { OnOk result (bytes.new.items ≡ bytes.old.items ++ text.now) }
    ensures err { OnErr result (bytes.new.items ≡ bytes.old.items) }
{
    Ok(bytes.extend_from_slice(text)?)
}

// Appends a text. One byte, which most pieces are, is written at once.
fn push_text(bytes: &mut Vec<u8>, text: &[u8]) -> Result<(), OutOfMemory>
    ensures items { OnOk result (bytes.new.items ≡ bytes.old.items ++ text.now) }
    ensures err { OnErr result (bytes.new.items ≡ bytes.old.items) }
{
    match text {
        [byte] => Ok(bytes.push(*byte)?),
        _ => push_long(bytes, text),
    }
}

impl Pieces {
    /// Returns whether the piece at a place is frozen.
    pub fn is_frozen(&self, at: usize) -> bool
        requires { at < length self.now }
        ensures { result ≡ (piece_at self.now at).frozen }
    {
        self.parts[at].frozen
    }

    /// Adds a piece of others as it is.
    pub fn push_same(&mut self, others: &Pieces, at: usize) -> Result<(), OutOfMemory>
        requires { at < length others.now }
        ensures { OnOk result (self.new ≡ self.old ++ piece_at others.now at ∷ []) }
    {
        self.push(
            others.kind(at),
            others.text(at),
            others.line(at),
            others.is_frozen(at),
        )
    }

    /// Adds a piece of others on another line, not frozen.
    pub fn push_on(&mut self, others: &Pieces, at: usize, line: u32) -> Result<(), OutOfMemory>
        requires { at < length others.now }
        ensures { OnOk result (self.new ≡ self.old ++ on_line line (piece_at others.now at) ∷ []) }
    {
        self.push(others.kind(at), others.text(at), line, false)
    }

    /// Adds a piece of others, frozen.
    pub fn push_frozen(&mut self, others: &Pieces, at: usize) -> Result<(), OutOfMemory>
        requires { at < length others.now }
        ensures { OnOk result (self.new ≡ self.old ++ froze (piece_at others.now at) ∷ []) }
    {
        self.push(others.kind(at), others.text(at), others.line(at), true)
    }

    /// Adds others.
    pub fn append(&mut self, others: &Pieces) -> Result<(), OutOfMemory>
        ensures { OnOk result (self.new ≡ self.old ++ others.now) }
    {
        self.append_between(others, 0, others.len())
    }

    /// Adds those of others between two places.
    pub fn append_between(
        &mut self,
        others: &Pieces,
        from: usize,
        end: usize,
    ) -> Result<(), OutOfMemory>
        requires order { from ≤ end }
        requires inside { end ≤ length others.now }
        ensures { OnOk result (self.new ≡ self.old ++ between from end others.now) }
    {
        if from < end {
            self.append_some(others, from, end)
        } else {
            Ok(())
        }
    }

    // Adds those of others between two places, at least one: their bytes are one after another.
    fn append_some(&mut self, others: &Pieces, from: usize, end: usize) -> Result<(), OutOfMemory>
        requires some { from < end }
        requires inside { end ≤ length others.now }
        ensures { OnOk result (self.new ≡ self.old ++ between from end others.now) }
    {
        let first = others.parts[from].start;
        let last = others.parts[end - 1].end;
        let text = text_in(&others.bytes, first, last);
        let to = self.bytes.as_slice().len();
        if self.is_long(text) || end - from > MOST_PIECES {
            return Err(OutOfMemory);
        }
        self.parts.reserve(end - from)?;
        push_text(&mut self.bytes, text)?;
        push_moved(&mut self.parts, &others.parts[from..end], first, to, last);
        Ok(())
    }

    /// Takes the first pieces out. The memory stays.
    pub fn drop_first(&mut self, n: usize)
        requires { n ≤ length self.old }
        ensures { self.new ≡ drop n self.old }
    {
        let end = self.len();
        self.cut_at(n, end);
    }

    /// Keeps those between two places. The memory of the others stays.
    pub(crate) fn cut_at(&mut self, from: usize, end: usize)
        requires order { from ≤ end }
        requires inside { end ≤ length self.old }
        ensures { self.new ≡ between from end self.old }
    {
        if from < end {
            self.cut_some(from, end);
        } else {
            self.clear();
        }
    }

    // Keeps those between two places, at least one.
    fn cut_some(&mut self, from: usize, end: usize)
        requires some { from < end }
        requires inside { end ≤ length self.old }
        ensures { self.new ≡ between from end self.old }
    {
        let first = self.parts[from].start;
        let last = self.parts[end - 1].end;
        cut(&mut self.bytes, first, last);
        cut(&mut self.parts, from, end);
        move_to_front(&mut self.parts, first, last);
    }
}

// Keeps the items between two places.
fn cut<T: Copy + Drop>(items: &mut Vec<T>, from: usize, end: usize)
    requires order { from ≤ end }
    requires inside { end ≤ vec_len items.old }
    ensures { items.new.items ≡ take (end - from) (drop from items.old.items) }
{
    items.truncate(end);
    if from > 0 {
        drop_front(items, from);
    }
}

// Drops the first items.
fn drop_front<T: Copy + Drop>(items: &mut Vec<T>, n: usize)
    requires { n ≤ vec_len items.old }
    ensures { items.new.items ≡ drop n items.old.items }
{
    let len = items.len();
    items.copy_within(n..len, 0);
    items.truncate(len - n);
}

// Says that the bytes of parts, which lie between two places, were moved to the front.
#[tactic(auto, using(crate::proofs::RowLemmas::all_unmoved))]
fn move_to_front(parts: &mut [Part], from: usize, end: usize)
    requires { All (IsBetween from end) parts.old }
    ensures { parts.new ≡ map (moved from 0) parts.old }
{
    if from == 0 {
        return;
    }
    for part in parts.iter_mut() {
        *part = moved(*part, from, 0);
    }
}

// Returns the bytes between two places.
fn text_in(bytes: &[u8], start: usize, end: usize) -> &[u8]
    requires order { start ≤ end }
    requires inside { end ≤ length bytes.now }
    ensures { result.now ≡ take (end - start) (drop start bytes.now) }
{
    &bytes[start..end]
}

// A part whose bytes were at one place, and are at another.
fn moved(part: Part, from: usize, to: usize) -> Part
    requires start { from ≤ part.start }
    requires end { from ≤ part.end }
    requires start_fits { part.start + to < 2 ^ 64 }
    requires end_fits { part.end + to < 2 ^ 64 }
    ensures { result ≡ moved from to part }
{
    Part {
        kind: part.kind,
        frozen: part.frozen,
        line: part.line,
        start: part.start - from + to,
        end: part.end - from + to,
    }
}

// Adds parts whose bytes were at one place, and are at another.
fn push_moved(parts: &mut Vec<Part>, others: &[Part], from: usize, to: usize, end: usize)
    requires room { vec_len parts.old + length others.now ≤ vec_capacity parts.old }
    requires between { All (IsBetween from end) others.now }
    requires fits { end + to < 2 ^ 64 }
    ensures { parts.new.items ≡ parts.old.items ++ map (moved from to) others.now }
{
    for part in others {
        parts.push_reserved(moved(*part, from, to));
    }
}
