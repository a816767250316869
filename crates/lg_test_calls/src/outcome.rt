// The outcome of a call that is compared.

ghost use Rattle.std.specs.Prelude.{◌≡◌};

use crate::form::has_form;
use std::fmt;

/// What a call should write to the standard output, the form of its lines on the standard error, in which `#` denotes any number and `+` for any but 0, and
/// the status that it should end with.
#[derive(Clone, Copy)]
pub struct Wanted<'a> {
    pub output: &'a [u8],
    pub lines: &'a [u8],
    pub status: u8,
}

/// The outcome of a call.
#[derive(Clone, Copy)]
pub enum Outcome {
    /// It writes and ends as it should.
    IsRight,
    /// It writes other lines to the standard error.
    HasOtherLines,
    /// It writes other bytes to the standard output.
    HasOtherOutput,
    /// It ends with another status.
    HasStatus(u8),
    /// There was no memory for it.
    HasNoMemory,
}

impl fmt::Display for Outcome {
    fn fmt<W: fmt::Write>(&self, f: &mut fmt::Formatter<W>) -> fmt::Result {
        match self {
            Outcome::IsRight => f.write_str("right"),
            Outcome::HasOtherLines => f.write_str("other lines on the standard error"),
            Outcome::HasOtherOutput => f.write_str("other output"),
            Outcome::HasStatus(status) => write!(f, "status {status}"),
            Outcome::HasNoMemory => f.write_str("out of memory"),
        }
    }
}

/// Returns how many lines end before the first byte in which two outputs differ.
pub fn same_lines(left: &[u8], right: &[u8]) -> usize {
    let mut lines: usize = 0;
    for (a, b) in left.iter().zip(right.iter()) {
        if *a != *b {
            return lines;
        }
        if *a == b'\n' {
            lines = lines.saturating_add(1);
        }
    }
    lines
}

/// Returns the outcome of a call that wrote so and ended with a status.
pub fn outcome_of(wanted: Wanted<'_>, output: &[u8], lines: &[u8], status: u8) -> Outcome
    ensures output { result ≡ Outcome.IsRight → output.now ≡ wanted.entry.output.now }
    ensures status { result ≡ Outcome.IsRight → status ≡ wanted.entry.status }
{
    if !has_form(wanted.lines, lines) {
        Outcome::HasOtherLines
    } else if output != wanted.output {
        Outcome::HasOtherOutput
    } else if status != wanted.status {
        Outcome::HasStatus(status)
    } else {
        Outcome::IsRight
    }
}
