// A line of a text, and how it is shown.

ghost use Rattle.std.specs.Prelude.{◌≡◌, ◌<◌, ◌≤◌, [], ◌∷◌, ◌++◌, length, map, nat_lt, take, IfSome};
ghost use Rattle.lg_explain.specs.Lines.{after_line, after_lines, first_feed, first_line, is_hidden, line_in, most_shown, shown, shown_byte};
ghost use Rattle.lg_io.specs.Wrote.{joined};

use std::marker::Model;

// The most bytes of a line that are shown.
const MOST_SHOWN: usize = 160;

// Returns the place of the first line feed.
fn first_feed(text: &[u8]) -> Option<usize>
    ensures value { result ≡ first_feed text.now }
    ensures within { IfSome result (λ at. at < length text.now) }
{
    text.iter().position(|byte| *byte == b'\n')
}

// What is before it.
fn first_line(text: &[u8]) -> &[u8]
    ensures { result.now ≡ first_line text.now }
{
    match first_feed(text) {
        Some(at) => &text[..at],
        None => text,
    }
}

// What is after it.
fn after_line(text: &[u8]) -> &[u8]
    ensures { result.now ≡ after_line text.now }
{
    match first_feed(text) {
        Some(at) => &text[at + 1..],
        None => &[],
    }
}

// What is after the first n line feeds.
fn after_lines(text: &[u8], count: u32) -> &[u8]
    ensures { result.now ≡ after_lines count text.now }
{
    let mut rest = text;
    for _feed in 0..count {
        rest = after_line(rest);
    }
    rest
}

/// Returns the line of a text by its number, counted from 1, without its line feed: no bytes where the text has fewer lines.
pub fn line_in(text: &[u8], line: u32) -> &[u8]
    ensures { result.now ≡ line_in text.now line }
{
    first_line(after_lines(text, line.saturating_sub(1)))
}

// Returns whether a byte is a control byte other than a tab.
fn is_hidden(byte: u8) -> bool
    ensures { result ≡ is_hidden byte }
{
    (byte < 32 && byte != b'\t') || byte == 127
}

// How a byte is shown.
fn shown_byte(byte: u8) -> u8
    ensures { result ≡ shown_byte byte }
{
    if is_hidden(byte) { b'?' } else { byte }
}

/// A line as it is shown: at most its first 160 bytes, with a question mark for each control byte but a tab.
#[derive(Drop)]
pub struct Shown {
    bytes: [u8; 160],
    len: usize,
}

impl Model for Shown {
    ghost use Rattle.std.specs.Prelude.{ℕ, List, take, ◌≤◌};

    ghost Value = { List ℕ };

    ghost view = { λ s. take s.len s.bytes };

    ghost invariant = { λ s. s.len ≤ 160 };
}

impl Shown {
    // Nothing.
    fn new() -> Shown
        ensures { result ≡ [] }
    {
        Shown {
            bytes: [0; 160],
            len: 0,
        }
    }

    // Appends a byte. There are fewer than 160.
    fn push(&mut self, byte: u8)
        requires { length self.old < most_shown }
        ensures { self.new ≡ self.old ++ byte ∷ [] }
    {
        self.bytes[self.len] = byte;
        self.len += 1;
    }

    // Returns the front of a line; no more of it is shown.
    fn front(line: &[u8]) -> &[u8]
        ensures value { result.now ≡ take most_shown line.now }
        ensures short { length result.now ≤ most_shown }
    {
        if line.len() < MOST_SHOWN {
            line
        } else {
            &line[..MOST_SHOWN]
        }
    }

    /// Returns a line as it is shown.
    pub fn of(line: &[u8]) -> Shown
        ensures { result ≡ shown line.now }
    {
        let mut shown = Shown::new();
        for byte in Shown::front(line) {
            shown.push(shown_byte(*byte));
        }
        shown
    }

    // Returns whether there is room for a byte more.
    fn has_room(&self) -> bool
        ensures { result ≡ nat_lt (length self.now) most_shown }
    {
        self.len < MOST_SHOWN
    }

    // Appends bytes as they are shown, as long as there is room.
    fn append(&mut self, bytes: &[u8])
        requires { length self.old ≤ most_shown }
        ensures { self.new ≡ take most_shown (self.old ++ map shown_byte bytes.now) }
    {
        for byte in bytes {
            if self.has_room() {
                self.push(shown_byte(*byte));
            }
        }
    }

    /// Pieces in a row, shown as a line is.
    pub fn of_row(pieces: &[&[u8]]) -> Shown
        ensures { result ≡ shown (joined pieces.now) }
    {
        let mut shown = Shown::new();
        for piece in pieces {
            shown.append(piece);
        }
        shown
    }

    /// Its bytes.
    pub fn as_slice(&self) -> &[u8]
        ensures { result.now ≡ self.now }
    {
        &self.bytes[..self.len]
    }
}
