// The argument part, against bytes written out by hand.

ghost use Rattle.std.specs.Prelude.{◌<◌, length};

use crate::rows::is_stop;
use lg_base::{ArgImage, Stop, args_image};
use std::alloc::{AllocError, Global};
use std::test::Fail;

// Words, each a piece this many times; how many bytes the part has, with its first ones; and else the kind and the line of the refusal.
type Case = (
    &'static [(&'static str, u32)],
    u32,
    &'static [u8],
    &'static [u8],
);

const CASES: &[Case] = &[
    // two words that point to the strings, a word of 0, and the strings
    (
        &[("ab", 1), ("", 1)],
        28,
        &[
            0x18, 0, 0, 0x28, 0, 0, 0, 0, 0x1B, 0, 0, 0x28, 0, 0, 0, 0, 0, 0, 0, 0, 0, 0, 0, 0,
            b'a', b'b', 0, 0,
        ],
        b"",
    ),
    // a word of 1,048,559 letters, and it with the empty word after it
    (
        &[("x", 1_048_559)],
        1_048_576,
        &[0x10, 0, 0, 0x28, 0, 0, 0, 0, 0, 0, 0, 0, 0, 0, 0, 0, b'x'],
        b"",
    ),
    (&[("x", 1_048_559), ("", 1)], 0, &[], b"ArgsTooLong 0"),
];

// Returns the argument part. What it is promised to be is for proofs, and of no use here.
fn part_of(alloc: Global, words: &Vec<String>) -> Result<ArgImage, Stop> {
    if words.is_empty() {
        return Err(Stop::OutOfMemory);
    }
    args_image(alloc, words)
}

// Returns whether words are laid out so, or refused so.
fn are_laid_out(alloc: Global, words: &Vec<String>, case: &Case) -> bool {
    let (_, size, front, refusal) = case;
    match part_of(alloc, words) {
        Ok(part) => part.len() == *size && part.as_slice().starts_with(front),
        Err(stop) => is_stop(stop, (refusal, &[])),
    }
}

// A piece this many times.
fn word_of(alloc: Global, piece: &str, times: u32) -> Result<String, AllocError> {
    let mut word = String::new(alloc);
    for _ in 0..times {
        word.push_str(piece)?;
    }
    Ok(word)
}

// Appends the words of a case.
fn push_words(alloc: Global, words: &mut Vec<String>, case: &Case) -> Result<(), AllocError> {
    for (piece, times) in case.0 {
        words.push(word_of(alloc, piece, *times)?)?;
    }
    Ok(())
}

fn is_right(alloc: Global, case: &Case) -> Result<bool, AllocError> {
    let mut words = Vec::new(alloc);
    push_words(alloc, &mut words, case)?;
    Ok(are_laid_out(alloc, &words, case))
}

// Returns the number of the first case that is not so.
fn first_other(alloc: Global) -> Result<Option<usize>, AllocError> {
    for (number, case) in CASES.iter().enumerate() {
        if !is_right(alloc, case)? {
            return Ok(Some(number));
        }
    }
    Ok(None)
}

#[test]
fn lays_out_words(rt: HostRuntime) -> Result<(), Fail> {
    assert_eq!(rt; first_other(rt.alloc())?, None);
    Ok(())
}
