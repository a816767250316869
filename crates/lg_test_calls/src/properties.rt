// What is asked of each text of the files `examples` and `stacks` on each target. In the mode `profile` it writes, ends and takes as many steps as in the
// mode `run`, and the numbers of the lines add up to these steps and to those of the meaning. Its listing is read back to the bytes that its hexadecimal
// digits spell. And where what lies below the stack pointer and the target's zone is written over before each step, as by a signal, it writes and ends as
// without. Prints each text for which one is not so, and for each target of how many each is.

use crate::cases::case::{Case, parse_case};
use crate::cases::unfolded::unfolded;
use crate::cases::{file_of, head_and_cases};
use crate::disturbed::is_alike;
use crate::listings::is_read_back;
use crate::profiles::adds_up;
use lg_tally::count;
use std::rt::Files;
use std::{fs, io};

// How many texts each is true of.
#[derive(Drop)]
struct Found {
    profiles: u64,
    listings: u64,
    alike: u64,
}

// Counts what holds, and prints what does not.
fn note(rt: &impl Print, name: &str, what: &str, holds: bool, number: &mut u64) -> io::Result<()> {
    if holds {
        count(number);
        Ok(())
    } else {
        println!(rt; "{name}: {what}")
    }
}

// Tries a text on a target.
fn try_text(
    rt: &HostRuntime,
    target: &str,
    case: Case<'_>,
    text: &[u8],
    found: &mut Found,
) -> io::Result<()> {
    let profile = adds_up(rt, target, case, text).unwrap_or(false);
    let listing = is_read_back(rt, target, case, text).unwrap_or(false);
    let alike = is_alike(rt.alloc(), target, text, case.further).unwrap_or(false);
    note(
        rt,
        case.name,
        "the profile does not add up",
        profile,
        &mut found.profiles,
    )?;
    note(
        rt,
        case.name,
        "the listing is not read back",
        listing,
        &mut found.listings,
    )?;
    note(
        rt,
        case.name,
        "differs on a disturbed stack",
        alike,
        &mut found.alike,
    )
}

// Returns the text of a case.
fn text_of(rt: &(impl Files + AllocGlobal), head: &str, case: Case<'_>) -> io::Result<Vec<u8>> {
    if case.is_of_files() {
        fs::read(rt, case.name)
    } else {
        Ok(unfolded(rt.alloc(), head, case.text)?)
    }
}

// Tries the texts of a file on a target.
fn try_file(rt: &HostRuntime, target: &str, file: &str, found: &mut Found) -> io::Result<()> {
    let (head, cases) = head_and_cases(file);
    for block in cases.split("====\n") {
        if let Some(case) = parse_case(block) {
            let text = text_of(rt, head, case)?;
            try_text(rt, target, case, &text, found)?;
        }
    }
    Ok(())
}

// Tries the texts of two files on a target, and prints what was found.
fn try_target(rt: &HostRuntime, target: &str, examples: &str, stacks: &str) -> io::Result<()> {
    let mut found = Found {
        profiles: 0,
        listings: 0,
        alike: 0,
    };
    try_file(rt, target, examples, &mut found)?;
    try_file(rt, target, stacks, &mut found)?;
    println!(rt;
        "{target}: {} profiles add up, {} listings are read back, {} texts run as without where the stack is disturbed",
        found.profiles, found.listings, found.alike
    )
}

/// Tries the texts on each target of a list, and prints what was found.
pub fn try_texts(rt: &HostRuntime, targets: &str) -> io::Result<()> {
    let examples = file_of(rt, "examples")?;
    let stacks = file_of(rt, "stacks")?;
    for target in targets.lines() {
        try_target(rt, target, examples.as_str(), stacks.as_str())?;
    }
    Ok(())
}
