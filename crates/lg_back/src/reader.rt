// Reading a listing back.

ghost use Rattle.std.specs.Prelude.{◌≡◌, ◌≤◌, ◌+◌, ◌/◌, ◌++◌, ℕ, List, [], min, length, IfSome, IfNone};
ghost use Rattle.lg_list.specs.Lines.{first_line};
ghost use Rattle.lg_base.specs.declared.target.Target.{Target as AnyTarget};
ghost use Rattle.lg_list.specs.Back.{Back as IsBack};
ghost use Rattle.lg_back.specs.Answers.{GivesBack, IsRefusedAt, ReadsBack};
ghost use Rattle.lg_back.specs.Reading.{HasHead};
ghost use Rattle.lg_back.specs.Refused.{IsBadListing};

use crate::entry::read_entry;
use crate::head::{Head, read_head};
use crate::line_bytes::LineBytes;
use lg_base::layout::CODE_BASE_WORD;
use lg_base::{CodeBytes, Refusal, RefusalKind, Stop, Target};
use lg_list::Line;
use std::alloc::Global;

/// What a listing is of.
#[derive(Drop)]
pub struct Back {
    target: Target,
    bytes: CodeBytes,
}

impl Back {
    /// Returns the target that its instructions are of.
    pub fn target(&self) -> Target
        ensures { result ≡ self.now.target }
    {
        self.target
    }

    /// Returns the bytes of its instructions, joined: at most 67,108,864.
    pub fn bytes(&self) -> &CodeBytes
        ensures { result.now ≡ self.now.bytes }
    {
        &self.bytes
    }
}

// Returns the answer to a text whose line is not that of a listing.
fn bad_listing(line: u32) -> Stop
    ensures { result ≡ Stop.Refused (record { kind = RefusalKind.BadListing; line = line }) }
{
    Stop::Refused(Refusal {
        kind: RefusalKind::BadListing,
        line,
    })
}

// Appends bytes that there is room for, one after another.
fn append_each(bytes: &mut CodeBytes, list: &[u8])
    requires { length list.now ≤ bytes.old.room }
    ensures items { bytes.new.items ≡ bytes.old.items ++ list.now }
    ensures room { bytes.new.room + length list.now ≡ bytes.old.room }
{
    for byte in list {
        bytes.push(*byte);
    }
}

// Appends bytes that there is room for. Four, as most instructions have, are written at once.
fn append(bytes: &mut CodeBytes, list: &[u8])
    requires { length list.now ≤ bytes.old.room }
    ensures items { bytes.new.items ≡ bytes.old.items ++ list.now }
    ensures room { bytes.new.room + length list.now ≡ bytes.old.room }
{
    match list {
        [a, b, c, d] => {
            bytes.push(*a);
            bytes.push(*b);
            bytes.push(*c);
            bytes.push(*d);
        }
        _ => append_each(bytes, list),
    }
}

// Appends the bytes of a line, which make this many in all, where these are no more than the most.
fn keep(bytes: &mut CodeBytes, list: &[u8], count: u32, most: u32)
    requires { count ≤ most → length list.now ≤ bytes.old.room }
    ensures items { count ≤ most → bytes.new.items ≡ bytes.old.items ++ list.now }
    ensures room { count ≤ most → bytes.new.room + length list.now ≡ bytes.old.room }
{
    if count <= most {
        append(bytes, list);
    }
}

// Reads the lines after the first. The bytes are kept while they are no more than the first line names.
fn read_lines(text: &[u8], head: Head, mut bytes: CodeBytes) -> Result<Back, Stop>
    requires small { length text.now ≤ 4294967294 }
    requires head { HasHead text.now head.target head.count }
    requires len { head.len ≡ length (first_line head.target head.count) }
    requires none { bytes.items ≡ [] }
    requires room { bytes.room ≡ min head.count (length text.now / 2) }
    ensures { ReadsBack text.now result }
{
    let mut written = Line::new();
    let mut own = LineBytes::new();
    let mut at = head.len;
    let mut line = 2;
    let mut done = 0;
    while at < text.len() {
        match read_entry(
            head.target,
            CODE_BASE_WORD + done,
            &text[at..],
            &mut written,
            &mut own,
        ) {
            None => return Err(bad_listing(line)),
            Some(len) => {
                let list = own.as_slice();
                done += list.len() as u32;
                keep(&mut bytes, list, done, head.count);
                at += len;
                line += 1;
            }
        }
    }
    if done == head.count {
        Ok(Back {
            target: head.target,
            bytes,
        })
    } else {
        Err(bad_listing(1))
    }
}

// Reads a listing whose first line was looked for.
fn read_behind(alloc: Global, text: &[u8], head: Option<Head>) -> Result<Back, Stop>
    requires small { length text.now ≤ 4294967294 }
    requires head { IfSome head (λ h. HasHead text.now h.target h.count × (h.len ≡ length (first_line h.target h.count))) }
    requires none { IfNone head ((t : AnyTarget) (count : ℕ) → ¬ HasHead text.now t count) }
    ensures { ReadsBack text.now result }
{
    match head {
        None => Err(bad_listing(1)),
        Some(head) => {
            let room = head.count.min(text.len() as u32 / 2);
            match CodeBytes::with_room(alloc, room) {
                Err(_) => Err(Stop::OutOfMemory),
                Ok(bytes) => read_lines(text, head, bytes),
            }
        }
    }
}

/// Returns what a text of at most 4,294,967,294 bytes is a listing of: the target and the bytes. A text that is none is refused by `BadListing`, with the
/// first line that is not of a listing's form, or with line 1 where all are and the first names another number of bytes than they have. Memory is requested
/// for the bytes alone, before the lines after the first are read.
pub fn read_back(alloc: Global, text: &[u8]) -> Result<Back, Stop>
    requires { length text.now ≤ 4294967294 }
    ensures reads { ReadsBack text.now result }
    ensures listing { (t : AnyTarget) (bytes : List ℕ) → IsBack text.now t bytes → GivesBack result t bytes }
    ensures other { (line : ℕ) → IsBadListing text.now line → IsRefusedAt result line }
{
    let head = read_head(text);
    read_behind(alloc, text, head)
}
