// One case: calls, and what should come of them.

use crate::call::{Faults, words_of};
use crate::cases::unfolded::unfolded;
use lg_base::OutOfMemory;
use std::alloc::Global;
use std::str;

// Options that are in front of a case's own: one for each target, for the meaning, and none.
const WAYS: [&str; 5] = [
    "--target x86_64",
    "--target aarch64",
    "--target riscv64",
    "--mode mean",
    "",
];

// How many bytes the standard output takes, where a case does not say it.
const ROOM: u64 = 65_536;

/// A case.
#[derive(Clone, Copy)]
pub struct Case<'a> {
    /// The name of the case, which its text has too.
    pub name: &'a str,
    /// The words of the command.
    pub words: &'a str,
    /// Words after them, with bars between.
    pub further: &'a str,
    /// What fails.
    pub faults: Faults,
    /// The text, or `FILES`.
    pub text: &'a str,
    /// What it writes, or `MEANING`.
    pub output: &'a str,
    /// The form of its lines on the standard error.
    pub lines: &'a str,
    /// The status that it ends with.
    pub status: u8,
    ways: &'a str,
}

impl Case<'_> {
    /// Returns the options of each of its calls.
    pub fn ways(&self) -> &'static [&'static str] {
        match self.ways {
            "all" => &WAYS[..4],
            "targets" => &WAYS[..3],
            _ => &WAYS[4..],
        }
    }

    /// Returns whether its calls go over the real files.
    pub fn is_of_files(&self) -> bool {
        self.text == "FILES"
    }
}

/// What is in a line at a number, from 0 on, with this character between; empty where the line ends before it.
pub fn column(line: &str, between: char, number: usize) -> &str {
    line.split(between).nth(number).unwrap_or("")
}

/// Returns the number that is there, and else another.
pub fn number(line: &str, between: char, at: usize, other: u64) -> u64 {
    str::parse(column(line, between, at)).unwrap_or(other)
}

/// Returns the case of a block: in the first line, with tabs between, its name, its status, its ways (`all`, on each target and by its meaning, `targets`, on
/// each target, and else as it is), and the words of the command; then, each 0 or left out where there is none, the number of the call of the texts that
/// fails, of the write to the standard output, and of that to the standard error, and how many bytes the standard output takes (65,536 where nothing is
/// said); then words after those of the command, with bars between, for which lines are as for a text. After it stand the text, what it writes, and the form
/// of its lines on the standard error, with a line of four hyphens after the first two. The last line feed of each is not its own. A text `FILES` says that
/// the calls go over the real files, and an output `MEANING` that it is that of the text's meaning. None where the block has another form.
pub fn parse_case(block: &str) -> Option<Case<'_>> {
    let (first, rest) = block.split_once('\n')?;
    let (text, rest) = rest.split_once("\n----\n")?;
    let (output, rest) = rest.split_once("\n----\n")?;
    let faults = Faults {
        read: number(first, '\t', 4, 0),
        write: number(first, '\t', 5, 0),
        line: number(first, '\t', 6, 0),
        room: number(first, '\t', 7, ROOM) as usize,
    };
    Some(Case {
        name: column(first, '\t', 0),
        ways: column(first, '\t', 2),
        words: column(first, '\t', 3),
        further: column(first, '\t', 8),
        faults,
        text,
        output,
        lines: rest.strip_suffix('\n')?,
        status: str::parse(column(first, '\t', 1)).ok()?,
    })
}

/// Returns the words of a case, after options.
pub fn words_after(
    alloc: Global,
    options: &str,
    case: Case<'_>,
) -> Result<Vec<String>, OutOfMemory> {
    let line = format!(in alloc; "lightning {options} {}", case.words)?;
    let further = unfolded(alloc, "", case.further)?;
    words_of(alloc, line.as_str(), str::from_utf8(&further).unwrap_or(""))
}
