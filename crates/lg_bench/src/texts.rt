// Texts of many lines.

use std::alloc::AllocError;

/// The lines of a text.
pub enum Lines {
    /// These two in turn.
    InTurn(&'static str, &'static str),
    /// These parts of each line, with its number between the first two, and between the last two that number or, where this is 0, the one before.
    Numbered(&'static str, &'static str, &'static str, u32),
}

/// What is in front of the lines, the lines, and what is after them.
pub type Parts = (&'static str, Lines, &'static str);

// Appends the line of an index.
fn push_line(text: &mut String, lines: &Lines, index: u32) -> Result<(), AllocError> {
    match lines {
        Lines::InTurn(even, _) if index % 2 == 0 => text.push_str(even),
        Lines::InTurn(_, odd) => text.push_str(odd),
        Lines::Numbered(front, middle, behind, more) => {
            let number = index.wrapping_add(1);
            let other = index.wrapping_add(*more);
            write!(text, "{front}{number}{middle}{other}{behind}")
        }
    }
}

/// Appends the text of parts with this many lines, which are numbered from 1 on.
pub fn push_text(text: &mut String, parts: &Parts, lines: u32) -> Result<(), AllocError> {
    text.push_str(parts.0)?;
    for index in 0..lines {
        push_line(text, &parts.1, index)?;
    }
    text.push_str(parts.2)
}
