// The argument part.

ghost use Rattle.std.specs.Prelude.{◌≡◌, ◌<◌, ◌≤◌, ◌+◌, ◌*◌, ◌^◌, ◌↔◌, ◌++◌, length, take, drop, Err, IfOk, OnOk, IsTrue};
ghost use Rattle.std.specs.Int.{w64, from_le_bytes};
ghost use Rattle.lg_base.specs.Arguments.{texts_of, strings, first_words, args_of, most_args, args_too_long, argument_count, CountsArguments};
ghost use Rattle.lg_base.specs.Parts.{args_base};
ghost use Rattle.lg_base.specs.Lengths.{args_len};

use crate::image::ArgImage;
use crate::layout::ARGS_BASE;
use crate::refusal::{OutOfMemory, Refusal, RefusalKind, Stop};
use std::alloc::Global;

// The largest argument part, in bytes.
const MOST_ARGS: u64 = 0x10_0000;

// Returns whether the argument part of these words has at most the largest size.
fn fits(words: &Vec<String>) -> bool
    ensures { IsTrue result ↔ (args_len (texts_of words.now.items) ≤ most_args) }
{
    if words.len() as u64 >= MOST_ARGS {
        return false;
    }
    let mut len = 8 * (words.len() as u64 + 1);
    for word in words {
        if len > MOST_ARGS || word.as_bytes().len() as u64 > MOST_ARGS {
            return false;
        }
        len += word.as_bytes().len() as u64 + 1;
    }
    len <= MOST_ARGS
}

// Appends the words that point to the strings.
fn push_pointers(bytes: &mut Vec<u8>, words: &Vec<String>) -> Result<(), OutOfMemory>
    requires { args_len (texts_of words.now.items) ≤ most_args }
    ensures { OnOk result (bytes.new.items ≡ bytes.old.items ++ first_words (texts_of words.now.items)) }
{
    let mut address = ARGS_BASE + 8 * (words.len() as u64 + 1);
    for word in words {
        bytes.extend_from_slice(&address.to_le_bytes())?;
        address += word.as_bytes().len() as u64 + 1;
    }
    Ok(())
}

// Appends the strings, each ended by a zero byte.
fn push_strings(bytes: &mut Vec<u8>, words: &Vec<String>) -> Result<(), OutOfMemory>
    ensures { OnOk result (bytes.new.items ≡ bytes.old.items ++ strings (texts_of words.now.items)) }
{
    for word in words {
        bytes.extend_from_slice(word.as_bytes())?;
        bytes.push(0)?;
    }
    Ok(())
}

// Returns the argument part of words that fit.
fn build(alloc: Global, words: &Vec<String>) -> Result<ArgImage, OutOfMemory>
    requires { args_len (texts_of words.now.items) ≤ most_args }
    ensures { IfOk result (λ image. image ≡ args_of (texts_of words.now.items)) }
{
    let mut bytes = Vec::new(alloc);
    push_pointers(&mut bytes, words)?;
    bytes.extend_from_slice(&0u64.to_le_bytes())?;
    push_strings(&mut bytes, words)?;
    Ok(ArgImage::from_vec(bytes))
}

/// Returns the argument part whose strings are the words in their order: a little-endian word of 8 bytes that
/// points to each string, a word of 0, and the strings, each ended by a zero byte. Words whose argument
/// part would pass 1,048,576 bytes are refused.
pub fn args_image(alloc: Global, words: &Vec<String>) -> Result<ArgImage, Stop>
    requires { 0 < length words.now.items }
    ensures image { IfOk result (λ image. image ≡ args_of (texts_of words.now.items)) }
    ensures size { IfOk result (λ image. length image ≤ most_args) }
    ensures refused { (r : _) → result ≡ Err (Stop.Refused r) → (r ≡ args_too_long) × (most_args < length (args_of (texts_of words.now.items))) }
    ensures long { most_args < length (args_of (texts_of words.now.items)) → result ≡ Err (Stop.Refused args_too_long) }
{
    if !fits(words) {
        return Err(Stop::Refused(Refusal {
            kind: RefusalKind::ArgsTooLong,
            line: 0,
        }));
    }
    let image = build(alloc, words)?;
    Ok(image)
}

// Returns the word of 8 bytes at a place, the lowest byte first.
fn word_at(bytes: &[u8], at: usize) -> u64
    requires { at + 8 ≤ length bytes.now }
    ensures { result ≡ from_le_bytes w64 (take 8 (drop at bytes.now)) }
{
    u64::from_le_bytes([
        bytes[at],
        bytes[at + 1],
        bytes[at + 2],
        bytes[at + 3],
        bytes[at + 4],
        bytes[at + 5],
        bytes[at + 6],
        bytes[at + 7],
    ])
}

/// Returns the number of strings of an argument part: how many words of 8 bytes are before the first that is 0. Any bytes have such a
/// number; that of an argument part made of words is their number.
pub fn argument_count(args: &[u8]) -> u64
    ensures { result ≡ argument_count args.now }
{
    let words = args.len() / 8;
    let mut count = 0;
    while count < words && word_at(args, 8 * count) != 0 {
        count += 1;
    }
    count as u64
}

/// The number of strings of an argument part is that of the words that it is made of. The function does nothing: its contract
/// is the law.
pub fn arguments_are_counted()
    ensures { CountsArguments }
{}
