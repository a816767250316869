// Whether profiles add up.

use crate::call::Called;
use crate::cases::call_in;
use crate::cases::case::{Case, number};
use lg_base::OutOfMemory;
use std::io::Input;
use std::rt::Files;
use std::str;

// The sums of the numbers of a table, and the steps of the statistics.
#[derive(Clone, Copy)]
struct Sums {
    meant: u64,
    spent: u64,
    steps: u64,
}

// Returns the sums of what a call wrote to the standard error.
fn sums_of(call: &Called) -> Sums {
    let mut sums = Sums {
        meant: 0,
        spent: 0,
        steps: 0,
    };
    for line in str::from_utf8(call.err.bytes()).unwrap_or("").lines() {
        if line.starts_with("line ") {
            sums.meant = sums.meant.wrapping_add(number(line, ' ', 3, 0));
            sums.spent = sums.spent.wrapping_add(number(line, ' ', 5, 0));
        } else {
            sums.steps = number(line, ' ', 7, 0);
        }
    }
    sums
}

// Returns whether a profile agrees with the outcome of a run, and adds up to its steps and those of the meaning.
fn are_same(run: &Called, meant: u64, profile: &Called) -> bool {
    let sums = sums_of(profile);
    run.answer == profile.answer
        && run.out.bytes() == profile.out.bytes()
        && sums.steps == sums_of(run).steps
        && sums.spent == sums.steps
        && sums.meant == meant
}

// How many steps the meaning of a text takes.
fn meant_steps(
    rt: &(impl Files + Input + AllocGlobal),
    target: &str,
    case: Case<'_>,
    text: &[u8],
) -> Result<u64, OutOfMemory> {
    let meaning = call_in(rt, "mean", target, case, text)?;
    Ok(sums_of(&meaning).steps)
}

// Whether the profile of a text adds up to a run and to this many steps of the meaning.
fn adds_up_to(
    rt: &(impl Files + Input + AllocGlobal),
    target: &str,
    case: Case<'_>,
    text: &[u8],
    (run, meant): (&Called, u64),
) -> Result<bool, OutOfMemory> {
    let profile = call_in(rt, "profile", target, case, text)?;
    Ok(are_same(run, meant, &profile))
}

/// Whether the profile of a text on a target adds up.
pub fn adds_up(
    rt: &(impl Files + Input + AllocGlobal),
    target: &str,
    case: Case<'_>,
    text: &[u8],
) -> Result<bool, OutOfMemory> {
    let meant = meant_steps(rt, target, case, text)?;
    let run = call_in(rt, "run", target, case, text)?;
    adds_up_to(rt, target, case, text, (&run, meant))
}
