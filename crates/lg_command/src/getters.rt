// What each argument gives.

ghost use Rattle.std.specs.Prelude.{◌≡◌, ◌∷◌, [], ◌++◌, IfOk, OnOk, map, option_map, option_and_then, unwrap_or, codes};
ghost use Rattle.clap.specs.Words.{found_of, rows_of, first_of, one_of, all_of};
ghost use Rattle.lg_base.specs.Arguments.{texts_of};
ghost use Rattle.lg_command.specs.Commands.{AreInRange, mode_of, target_of, number_of, is_told, file_of};

use crate::command::Mode;
use clap::ArgMatches;
use lg_base::{OutOfMemory, Target};
use std::alloc::Global;

// Returns the mode of a word.
fn mode_named(word: &str) -> Option<Mode>
    ensures { result ≡ mode_of word.now }
{
    match word {
        "run" => Some(Mode::Run),
        "list" => Some(Mode::List),
        "mean" => Some(Mode::Mean),
        "gen" => Some(Mode::Gen),
        "back" => Some(Mode::Back),
        "profile" => Some(Mode::Profile),
        "explain" => Some(Mode::Explain),
        _ => None,
    }
}

/// What is done, where it is one of the modes.
pub fn mode(matches: &ArgMatches<'_>) -> Option<Mode>
    ensures { result ≡ option_and_then mode_of (first_of (codes "mode") (rows_of (found_of matches.now))) }
{
    match matches.get_str("mode") {
        Some(word) => mode_named(word),
        None => None,
    }
}

// Returns the target of a word.
fn target_named(word: &str) -> Option<Target>
    ensures { result ≡ target_of word.now }
{
    match word {
        "x86_64" => Some(Target::X86_64),
        "aarch64" => Some(Target::Aarch64),
        "riscv64" => Some(Target::Riscv64),
        _ => None,
    }
}

/// Returns the processor that code is made for, where it is one of the targets.
pub fn target(matches: &ArgMatches<'_>) -> Option<Target>
    ensures { result ≡ option_and_then target_of (first_of (codes "target") (rows_of (found_of matches.now))) }
{
    match matches.get_str("target") {
        Some(word) => target_named(word),
        None => None,
    }
}

// Returns the number of an argument, and 0 where it has none.
fn number(matches: &ArgMatches<'_>, id: &str) -> u64
    ensures { result ≡ number_of (one_of id.now (rows_of (found_of matches.now))) }
{
    match matches.get_one::<u64>(id) {
        Some(number) => number,
        None => 0,
    }
}

/// Returns the most steps of the run.
pub fn steps(matches: &ArgMatches<'_>) -> u64
    ensures { result ≡ number_of (one_of (codes "steps") (rows_of (found_of matches.now))) }
{
    number(matches, "steps")
}

/// Returns the most bytes of the code.
pub fn size(matches: &ArgMatches<'_>) -> u32
    requires { AreInRange (rows_of (found_of matches.now)) }
    ensures { result ≡ number_of (one_of (codes "code") (rows_of (found_of matches.now))) }
{
    number(matches, "code") as u32
}

/// Returns the number from which the generator begins.
pub fn seed(matches: &ArgMatches<'_>) -> u64
    ensures { result ≡ number_of (one_of (codes "seed") (rows_of (found_of matches.now))) }
{
    number(matches, "seed")
}

// Returns whether a word is that of a flag that was given.
fn is_told(word: Option<&str>) -> bool
    ensures { result ≡ is_told (option_map (λ s. s.now) word.entry) }
{
    matches!(word, Some("true"))
}

/// Returns whether a line reports the code's size and the run's steps.
pub fn stats(matches: &ArgMatches<'_>) -> bool
    ensures { result ≡ is_told (first_of (codes "stats") (rows_of (found_of matches.now))) }
{
    is_told(matches.get_str("stats"))
}

/// Returns the name of the text.
pub fn file<'a>(matches: &ArgMatches<'a>) -> &'a str
    ensures { result.now ≡ file_of (rows_of (found_of matches.now)) }
{
    match matches.get_str("FILE") {
        Some(file) => file,
        None => "-",
    }
}

// Appends words to those of the arguments.
fn push_words(arguments: &mut Vec<String>, words: &[&str], alloc: Global) -> Result<(), OutOfMemory>
    ensures { OnOk result (texts_of arguments.new.items ≡ texts_of arguments.old.items ++ map (λ s. s.now) words.now) }
{
    for word in words {
        arguments.push(String::from_str(alloc, word)?)?;
    }
    Ok(())
}

// Returns the words of the arguments with no words after the name of the text.
fn first(alloc: Global, file: &str) -> Result<Vec<String>, OutOfMemory>
    ensures { IfOk result (λ a. texts_of a.items ≡ file.now ∷ []) }
{
    let mut arguments = Vec::new(alloc);
    arguments.push(String::from_str(alloc, file)?)?;
    Ok(arguments)
}

/// Returns the words of the arguments: the name of the text, and what follows it.
pub fn arguments(
    alloc: Global,
    file: &str,
    matches: &ArgMatches<'_>,
) -> Result<Vec<String>, OutOfMemory>
    ensures { IfOk result (λ a. texts_of a.items ≡ file.now ∷ unwrap_or (all_of (codes "ARG") (rows_of (found_of matches.now))) []) }
{
    let mut arguments = first(alloc, file)?;
    match matches.get_strs("ARG") {
        Some(words) => {
            push_words(&mut arguments, words, alloc)?;
            Ok(arguments)
        }
        None => Ok(arguments),
    }
}
