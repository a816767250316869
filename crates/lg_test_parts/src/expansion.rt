// The preprocessor: texts with what they expand to, or what they are refused for.

pub(crate) mod conditions;
pub(crate) mod directives;
pub(crate) mod limits;
pub(crate) mod names;

use crate::rows::{Wanted, are_wanted, is_stop};
use lg_base::Stop;
use lg_pre::{PlainText, expand};
use std::alloc::Global;

// Returns the expansion of a text.
fn expanded(alloc: Global, text: &[u8]) -> Result<PlainText, Stop> {
    if text.len() > 16_777_216 {
        return Err(Stop::OutOfMemory);
    }
    expand(alloc, text)
}

/// Returns whether this is the expansion, or the kind and the line of the refusal.
pub(crate) fn gives(alloc: Global, text: &[u8], wanted: Wanted) -> bool {
    match expanded(alloc, text) {
        Ok(given) => are_wanted(given.as_slice(), wanted),
        Err(stop) => is_stop(stop, wanted),
    }
}

// Returns how many line feeds bytes have.
fn feeds(bytes: &[u8]) -> usize {
    let mut feeds = 0usize;
    for byte in bytes {
        if *byte == b'\n' {
            feeds = feeds.wrapping_add(1);
        }
    }
    feeds
}

/// The same, and whether the expansion has as many line feeds as the text.
pub(crate) fn gives_lines(alloc: Global, text: &[u8], wanted: Wanted) -> bool {
    gives(alloc, text, wanted) && feeds(text) == feeds(wanted.0)
}
