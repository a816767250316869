// Texts that are too long to be written out, and bytes that are no text.

use std::alloc::{AllocError, Global};
use std::str;

// Appends a piece this many times.
fn push_times(bytes: &mut Vec<u8>, times: u32, piece: &[u8]) -> Result<(), AllocError> {
    for _ in 0..times {
        bytes.extend_from_slice(piece)?;
    }
    Ok(())
}

// Appends what a line denotes.
fn push_line(bytes: &mut Vec<u8>, head: &str, line: &str) -> Result<(), AllocError> {
    let words = line.strip_suffix('\n').unwrap_or(line);
    if words == "HEAD" {
        bytes.extend_from_slice(head.as_bytes())
    } else if let Some(repeated) = words.strip_prefix("REPEAT ") {
        let (times, piece) = repeated.split_once(' ').unwrap_or((repeated, ""));
        push_times(bytes, str::parse(times).unwrap_or(0), piece.as_bytes())
    } else if let Some(byte) = words.strip_prefix("BYTE ") {
        bytes.extend_from_slice(&[str::parse(byte).unwrap_or(0)])
    } else {
        bytes.extend_from_slice(line.as_bytes())
    }
}

/// Returns the bytes that lines denote: `REPEAT N PIECE` for this many times the piece, `BYTE N` for that byte, both with no line feed after, `HEAD` for the
/// head of the file, and every other line for itself.
pub fn unfolded(alloc: Global, head: &str, lines: &str) -> Result<Vec<u8>, AllocError> {
    let mut bytes = Vec::new(alloc);
    for line in lines.split_inclusive('\n') {
        push_line(&mut bytes, head, line)?;
    }
    Ok(bytes)
}
