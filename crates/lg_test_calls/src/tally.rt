// The outcomes of calls, counted.

ghost use Rattle.std.specs.Prelude.{◌<◌};

use crate::call::{NO_FAULTS, call_on_text};
use lg_base::OutOfMemory;
use lg_run::Answer;
use lg_tally::count;
use std::alloc::Global;
use std::io;

// How many kinds of refusal are counted, by their numbers.
const KINDS: usize = 32;

// What is printed after how many calls came to each answer.
const NAMES: [&str; 8] = [
    " ended, ",
    " listed, ",
    " undefined, ",
    " refused, ",
    " out of steps\n",
    " faults, ",
    " failed to write, ",
    " other answers, ",
];

// How the lines on the standard error begin that each answer has.
const LINES: [&[u8]; 8] = [
    b"",
    b"",
    b"lightning: undefined at line ",
    b"lightning: t.tst:",
    b"lightning: steps out after 1000\n",
    b"lightning: fault ",
    b"lightning: write fault\n",
    b"lightning: ",
];

/// Where in a tally those are that are listed.
pub const LISTED: usize = 1;

/// Where in a tally those are that are refused.
pub const REFUSED: usize = 3;

/// How many calls came to each answer, to each kind of refusal, and to a line on the standard error that the answer has not.
#[derive(Drop)]
pub struct Tally {
    pub answers: [u64; 8],
    pub kinds: [u64; KINDS],
    pub odd: u64,
}

// Where in a tally an answer is counted.
fn place_of(answer: Answer) -> usize
    ensures { result < 8 }
{
    match answer {
        Answer::Ended(_) => 0,
        Answer::Listed => LISTED,
        Answer::Undefined { .. } => 2,
        Answer::Refused(_) => REFUSED,
        Answer::StepsOut => 4,
        Answer::Fault { .. } => 5,
        Answer::WriteFault => 6,
        Answer::Usage | Answer::ReadFault | Answer::OutOfMemory => 7,
    }
}

// Returns whether a line on the standard error is one that an answer at a place has: none at an end or a listing, else one line of the program.
fn is_line_of(place: usize, line: &[u8]) -> bool
    requires { place < 8 }
{
    line.starts_with(LINES[place]) && (place > LISTED || line.is_empty())
}

impl Tally {
    /// No calls.
    pub fn new() -> Tally {
        Tally {
            answers: [0; 8],
            kinds: [0; KINDS],
            odd: 0,
        }
    }

    // Counts a call that came to this, with what it wrote on the standard error.
    fn count(&mut self, answer: Answer, line: &[u8]) {
        let place = place_of(answer);
        count(&mut self.answers[place]);
        if let Answer::Refused(refusal) = answer {
            let kind = refusal.kind.number() as usize;
            if kind < KINDS {
                count(&mut self.kinds[kind]);
            }
        }
        if !is_line_of(place, line) {
            count(&mut self.odd);
        }
    }

    /// Prints how many calls came to what, and of the refused ones how many to which kind.
    pub fn print(&self, rt: &HostRuntime) -> io::Result<()> {
        for (calls, name) in self.answers.iter().zip(NAMES.iter()) {
            print!(rt; "{calls}{name}")?;
        }
        println!(rt; "{} odd lines", self.odd)?;
        for (kind, calls) in self.kinds.iter().enumerate() {
            if *calls > 0 {
                println!(rt; "kind {kind}: {calls}")?;
            }
        }
        Ok(())
    }
}

/// Makes a call on a text, and counts its outcome.
pub fn count_call(
    alloc: Global,
    words: &Vec<String>,
    text: &[u8],
    tally: &mut Tally,
) -> Result<(), OutOfMemory> {
    let called = call_on_text(alloc, words, ("t.tst", text), NO_FAULTS)?;
    tally.count(called.answer, called.err.bytes());
    Ok(())
}
