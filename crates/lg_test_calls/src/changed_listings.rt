// Changes 20,000 listings of texts that `back/texts.txt` names, each at one byte, by a fixed generator: each is refused at the line of that byte, or is a
// listing of the bytes that it spells. Prints what came of them.

ghost use Rattle.std.specs.Prelude.{◌<◌, length};

use crate::call::Called;
use crate::listings::{is_spelled, read_back, written};
use crate::outcome::same_lines;
use lg_base::{OutOfMemory, Refusal, RefusalKind};
use lg_run::Answer;
use lg_tally::{Random, count};
use std::alloc::Global;
use std::io::Input;
use std::rt::Files;
use std::{fs, io};

// How many listings are changed.
const CHANGES: usize = 20_000;

// Bytes that mean something in a listing.
const MARKS: &[u8] = b"0123456789abcdef \n;:[],+-_xzrspimov";

// Appends the listings of a text on each target of a list.
fn push_listings(
    rt: &(impl Files + Input + AllocGlobal),
    targets: &str,
    file: &str,
    listings: &mut Vec<Vec<u8>>,
) -> Result<(), OutOfMemory> {
    for target in targets.lines() {
        listings.push(written(rt, "list", target, file)?)?;
    }
    Ok(())
}

// Returns the listings of the texts of a list on each target of a list.
fn listings_of(
    rt: &(impl Files + Input + AllocGlobal),
    targets: &str,
    files: &str,
) -> Result<Vec<Vec<u8>>, OutOfMemory> {
    let mut listings = Vec::new(rt.alloc());
    for file in files.lines() {
        push_listings(rt, targets, file, &mut listings)?;
    }
    Ok(listings)
}

// What came of changed listings: a refusal at the line of the change, the bytes that the listing spells, or something else.
#[derive(Drop)]
struct Changes {
    refused: u64,
    read: u64,
    other: u64,
}

// Another byte in the place of one: any, or one that means something.
fn other_byte(old: u8, random: &mut Random) -> u8 {
    let byte = if random.below(2) == 0 {
        (random.word() >> 56) as u8
    } else {
        MARKS[random.below(MARKS.len())]
    };
    if byte == old { old ^ 1 } else { byte }
}

// Returns whether a changed listing is refused for what it is, this many lines after those before the change: at its line, or at the one after it, where the
// line was cut in two.
fn is_refused_there(refusal: Refusal, lines: usize, is_cut: bool) -> bool {
    let behind = (refusal.line as usize).wrapping_sub(lines);
    refusal.kind == RefusalKind::BadListing && (behind == 1 || (is_cut && behind == 2))
}

// Counts what came of a listing that was changed after this many lines.
fn count_answer(
    alloc: Global,
    listing: &[u8],
    (lines, is_cut): (usize, bool),
    called: &Called,
    changes: &mut Changes,
) -> Result<(), OutOfMemory> {
    let bytes = called.out.bytes();
    let is_read = called.answer == Answer::Listed && is_spelled(alloc, listing, bytes)?;
    match called.answer {
        Answer::Refused(refusal) if bytes.is_empty() && is_refused_there(refusal, lines, is_cut) =>
            {
                count(&mut changes.refused);
            }
        _ if is_read => count(&mut changes.read),
        _ => count(&mut changes.other),
    }
    Ok(())
}

// Reads a changed listing back, and counts what comes of it.
fn count_change(
    alloc: Global,
    listing: &[u8],
    change: (usize, bool),
    changes: &mut Changes,
) -> Result<(), OutOfMemory> {
    let called = read_back(alloc, listing)?;
    count_answer(alloc, listing, change, &called, changes)
}

// Changes a listing at one byte, reads it back, and puts the byte back.
fn change(
    alloc: Global,
    listing: &mut [u8],
    random: &mut Random,
    changes: &mut Changes,
) -> Result<(), OutOfMemory>
    requires { 0 < length listing.old }
{
    let place = random.below(listing.len());
    let old = listing[place];
    let byte = other_byte(old, random);
    let front = &listing[..place];
    let lines = same_lines(front, front);
    listing[place] = byte;
    count_change(alloc, listing, (lines, byte == b'\n'), changes)?;
    listing[place] = old;
    Ok(())
}

// Changes listings in turn, and counts what comes of them. A listing that is empty counts as another.
fn change_all(alloc: Global, listings: &mut [Vec<u8>]) -> Result<Changes, OutOfMemory> {
    let mut random = Random { state: 1 };
    let mut changes = Changes {
        refused: 0,
        read: 0,
        other: 0,
    };
    if listings.is_empty() {
        return Ok(changes);
    }
    for round in 0..CHANGES {
        let listing = &mut listings[round % listings.len()];
        if listing.is_empty() {
            count(&mut changes.other);
        } else {
            change(alloc, listing, &mut random, &mut changes)?;
        }
    }
    Ok(changes)
}

// What comes of the changed listings of texts.
fn changes_of(
    rt: &(impl Files + Input + AllocGlobal),
    targets: &str,
    files: &str,
) -> Result<Changes, OutOfMemory> {
    let mut listings = listings_of(rt, targets, files)?;
    change_all(rt.alloc(), &mut listings)
}

/// Changes listings, and prints what came of them.
pub fn change_listings(rt: &HostRuntime, targets: &str) -> io::Result<()> {
    let files = fs::read_to_string(rt, "back/texts.txt")?;
    match changes_of(rt, targets, files.as_str()) {
        Ok(
            Changes {
                refused,
                read,
                other,
            },
        ) => println!(rt;
            "{refused} refused at the line of the change, {read} read back, {other} others"
        ),
        Err(_) => println!(rt; "out of memory"),
    }
}
