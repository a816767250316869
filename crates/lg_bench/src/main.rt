// Work that is timed from outside, by two words and a third that says how often; each prints a number that it results in. `code N TIMES TARGET` reads, checks
// and assembles a text of N instructions, at most 1,000,000, for `rv64`, `aarch64` or `x86_64`, and without a word for RV64; `assemble N TIMES TARGET` reads
// that text once; `straight N TIMES`, `branches N TIMES` and `jumps N TIMES` find the live registers of a text of N lines; `moves N TIMES` and `chain N
// TIMES` rewrite one of N moves or jumps; `known N TIMES` folds one of N lines, and `dead N TIMES` drops the N definitions of one; `emit N` emits 64 MiB in
// pieces of N bytes; `calls N 1 TARGET` calls a function of code N times, each time for the sum of two words. Without words it does a little of each.
#![tactic(auto)]

mod calls;
mod passes;
mod pieces;
mod texts;
mod works;

use calls::call_sum;
use lg_base::{Stop, Target};
use passes::pass_lines;
use pieces::fill;
use std::alloc::Global;
use std::{env, io, str};
use works::{WORKS, Work};

// Returns the outcome of the work.
fn done(alloc: Global, work: &Work, counts: [u32; 2], target: Target) -> Result<u64, Stop> {
    match work {
        Work::Text(parts, pass) => pass_lines(alloc, pass, parts, counts, target),
        Work::Emit => fill(alloc, 0x400_0000, counts[0]),
        Work::Calls => call_sum(alloc, counts[0], target),
    }
}

// Prints what a work came to.
fn print_done(
    rt: &HostRuntime,
    word: &str,
    number: u32,
    done: Result<u64, Stop>,
) -> io::Result<()> {
    match done {
        Ok(count) => println!(rt; "{word} {number}: {count}"),
        Err(stop) => println!(rt; "{word} {number}: {stop}"),
    }
}

// Returns the number that a word gives, and else 1.
fn number_in(word: &str) -> u32 {
    str::parse::<u32>(word).unwrap_or(1)
}

// Returns the target that a word names, and else RV64.
fn target_in(word: &str) -> Target {
    match word {
        "x86_64" => Target::X86_64,
        "aarch64" => Target::Aarch64,
        _ => Target::Riscv64,
    }
}

// Returns the word of a number, from 0, the program's name, on; empty where there is none.
fn word_of(line: &str, number: usize) -> &str {
    line.lines().nth(number).unwrap_or("")
}

// Does the work that the words ask for, which are in lines, or, where they ask for none, a little of each.
fn work_all(rt: &HostRuntime, line: &str) -> io::Result<()> {
    let asked = word_of(line, 1);
    let times = number_in(word_of(line, 3));
    let target = target_in(word_of(line, 4));
    for (word, little, work) in WORKS {
        let number = if asked.is_empty() {
            *little
        } else {
            number_in(word_of(line, 2))
        };
        if asked.is_empty() || asked == *word {
            let count = done(rt.alloc(), work, [number, times], target);
            print_done(rt, word, number, count)?;
        }
    }
    Ok(())
}

// Appends the words of the process, each in a line.
fn push_words(rt: &HostRuntime, line: &mut String) -> io::Result<()> {
    for word in env::args(rt)? {
        line.push_str(&word)?;
        line.push('\n')?;
    }
    Ok(())
}

fn main(rt: HostRuntime) -> io::Result<()> {
    let mut line = String::new(rt.alloc());
    push_words(&rt, &mut line)?;
    work_all(&rt, line.as_str())
}
