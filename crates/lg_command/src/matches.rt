// The matches of words.

ghost use Rattle.std.specs.Prelude.{◌≡◌, IfOk, Err};
ghost use Rattle.clap.specs.Words.{found_of, rows_of};
ghost use Rattle.lg_base.specs.Arguments.{texts_of};
ghost use Rattle.lg_command.specs.Commands.{AreInRange, AreRows, AreNoCommand};

use crate::arguments::command;
use crate::command::WordsStop;
use clap::ArgMatches;
use clap::error::ErrorKind;
use std::alloc::Global;

/// Returns what clap finds in the words: the values of the arguments, with the numbers in their ranges.
pub fn matches_of<'a>(alloc: Global, words: &'a Vec<String>) -> Result<ArgMatches<'a>, WordsStop>
    ensures ok { IfOk result (λ m. AreRows (texts_of words.entry.now.items) (rows_of (found_of m))) }
    ensures range { IfOk result (λ m. AreInRange (rows_of (found_of m))) }
    ensures usage { result ≡ Err WordsStop.Usage → AreNoCommand (texts_of words.entry.now.items) }
{
    let command = match command(alloc) {
        Ok(command) => command,
        Err(_) => return Err(WordsStop::OutOfMemory),
    };
    match command.try_get_matches_from(words.as_slice()) {
        Ok(matches) => Ok(matches),
        Err(error) => match error.kind() {
            ErrorKind::OutOfMemory => Err(WordsStop::OutOfMemory),
            _ => Err(WordsStop::Usage),
        },
    }
}
