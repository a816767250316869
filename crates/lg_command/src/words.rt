// The words of the command.

ghost use Rattle.std.specs.Prelude.{◌≡◌, Some, None, IfOk, Err};
ghost use Rattle.clap.specs.Words.{found_of, rows_of};
ghost use Rattle.lg_base.specs.Arguments.{texts_of};
ghost use Rattle.lg_command.specs.Commands.{AreInRange, AreNoCommand, IsCommand, IsInRange, command_of, shown};

use crate::command::{Command, WordsStop};
use crate::getters::{arguments, file, mode, seed, size, stats, steps, target};
use crate::matches::matches_of;
use clap::ArgMatches;
use std::alloc::Global;

// Returns the command that the values of the arguments give.
fn command_of<'a>(alloc: Global, matches: &ArgMatches<'a>) -> Result<Command<'a>, WordsStop>
    requires { AreInRange (rows_of (found_of matches.now)) }
    ensures command { IfOk result (λ c. command_of (rows_of (found_of matches.now)) ≡ Some (shown c)) }
    ensures range { IfOk result IsInRange }
    ensures usage { result ≡ Err WordsStop.Usage → command_of (rows_of (found_of matches.now)) ≡ None }
{
    let Some(mode) = mode(matches) else {
        return Err(WordsStop::Usage);
    };
    let Some(target) = target(matches) else {
        return Err(WordsStop::Usage);
    };
    let file = file(matches);
    let Ok(arguments) = arguments(alloc, file, matches) else {
        return Err(WordsStop::OutOfMemory);
    };
    Ok(Command {
        mode,
        target,
        steps: steps(matches),
        size: size(matches),
        seed: seed(matches),
        stats: stats(matches),
        file,
        arguments,
    })
}

/// Returns what the words of the command ask for, the first of which is the program's name. They are read as one simple command of clap:
/// `lightning [--mode M] [--target T] [--steps N] [--code N] [--seed N] [--stats] [FILE [ARG]...]`. `Usage` comes only for words that ask for none.
pub fn read_words<'a>(alloc: Global, words: &'a Vec<String>) -> Result<Command<'a>, WordsStop>
    ensures command { IfOk result (λ c. IsCommand (texts_of words.entry.now.items) (shown c)) }
    ensures range { IfOk result IsInRange }
    ensures usage { result ≡ Err WordsStop.Usage → AreNoCommand (texts_of words.entry.now.items) }
{
    let matches = matches_of(alloc, words)?;
    command_of(alloc, &matches)
}
