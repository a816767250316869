// Listings that are read back, and labels in them.

ghost use Rattle.std.specs.Prelude.{◌<◌, IfSome};

use crate::call::{Called, Faults, ROOM, call_on_files, call_on_text, words_of};
use crate::cases::call_in;
use crate::cases::case::Case;
use lg_base::OutOfMemory;
use lg_run::Answer;
use std::alloc::{AllocError, Global};
use std::io::Input;
use std::rt::Files;
use std::{io, str};

// Returns the value of a hexadecimal digit.
fn value(digit: u8) -> Option<u8>
    ensures { IfSome result (λ value. value < 16) }
{
    match digit {
        b'0'..=b'9' => Some(digit - b'0'),
        b'a'..=b'f' => Some(digit - b'a' + 10),
        _ => None,
    }
}

// Appends the bytes that the digits of a line spell, two a byte: they are between its first two pairs of blanks, where it has an address in front.
fn push_bytes(line: &str, bytes: &mut Vec<u8>) -> Result<(), AllocError> {
    let (address, rest) = line.split_once("  ").unwrap_or(("", ""));
    let (digits, _) = rest.split_once(' ').unwrap_or(("", ""));
    if address.len() != 8 || line.starts_with(';') {
        return Ok(());
    }
    for pair in digits.as_bytes().chunks_exact(2) {
        if let [high, low] = pair {
            if let (Some(high), Some(low)) = (value(*high), value(*low)) {
                bytes.push(high.wrapping_mul(16).wrapping_add(low))?;
            }
        }
    }
    Ok(())
}

// Returns the bytes that the digits of a listing spell, one line after the other.
fn spelled(alloc: Global, listing: &[u8]) -> Result<Vec<u8>, AllocError> {
    let mut bytes = Vec::new(alloc);
    for line in str::from_utf8(listing).unwrap_or("").lines() {
        push_bytes(line, &mut bytes)?;
    }
    Ok(bytes)
}

/// Returns what a listing is read back to.
pub fn read_back(alloc: Global, listing: &[u8]) -> Result<Called, OutOfMemory> {
    let words = words_of(alloc, "lightning --mode back t.lst", "")?;
    call_on_text(alloc, &words, ("t.lst", listing), BACK)
}

// Nothing fails, and there is room for 1,048,576 bytes.
const BACK: Faults = Faults {
    read: 0,
    write: 0,
    line: 0,
    room: 1_048_576,
};

/// Whether the digits of a listing spell these bytes.
pub fn is_spelled(alloc: Global, listing: &[u8], bytes: &[u8]) -> Result<bool, AllocError> {
    let wanted = spelled(alloc, listing)?;
    Ok(wanted.as_slice() == bytes)
}

// Whether a listing that is not empty is read back to the bytes that its digits spell.
fn gives_its_bytes(alloc: Global, listing: &[u8]) -> Result<bool, OutOfMemory> {
    let called = read_back(alloc, listing)?;
    let bytes = called.out.bytes();
    let is_spelled = is_spelled(alloc, listing, bytes)?;
    Ok(called.answer == Answer::Listed && !bytes.is_empty() && is_spelled)
}

/// Whether the listing of a text on a target is read back to the bytes that its digits spell.
pub fn is_read_back(
    rt: &(impl Files + Input + AllocGlobal),
    target: &str,
    case: Case<'_>,
    text: &[u8],
) -> Result<bool, OutOfMemory> {
    let listing = call_in(rt, "list", target, case, text)?;
    gives_its_bytes(rt.alloc(), listing.out.bytes())
}

// Returns the words of a call over a text of the real files, by its name without `.tst`.
fn words_on(
    alloc: Global,
    mode: &str,
    target: &str,
    name: &str,
) -> Result<Vec<String>, OutOfMemory> {
    let line = format!(in alloc; "lightning --mode {mode} --target {target} {name}.tst")?;
    words_of(alloc, line.as_str(), "")
}

/// Returns what a text of the real files writes in a mode on a target, by its name without `.tst`.
pub fn written(
    rt: &(impl Files + Input + AllocGlobal),
    mode: &str,
    target: &str,
    name: &str,
) -> Result<Vec<u8>, OutOfMemory> {
    let words = words_on(rt.alloc(), mode, target, name)?;
    let called = call_on_files(rt, &words, ROOM)?;
    Ok(Vec::from_slice(rt.alloc(), called.out.bytes())?)
}

// Whether a label `there` is in a listing at an address, which a line feed may end.
fn has_label(alloc: Global, listing: &[u8], address: &[u8]) -> Result<bool, OutOfMemory> {
    let address = str::from_utf8(address).unwrap_or("").trim_end();
    let line = format!(in alloc; "\n{address} there:\n")?;
    Ok(
        str::from_utf8(listing)
            .unwrap_or("")
            .contains(line.as_str()),
    )
}

// Whether the address that `label-address.tst` writes on a target is that of its label `there` in the listing.
fn is_listed(rt: &(impl Files + Input + AllocGlobal), target: &str) -> Result<bool, OutOfMemory> {
    let address = written(rt, "run", target, "modes/label-address")?;
    let listing = written(rt, "list", target, "modes/label-address")?;
    has_label(rt.alloc(), &listing, &address)
}

/// Prints for each target of a list whether the address of a label is that of the listing.
pub fn list_labels(rt: &HostRuntime, targets: &str) -> io::Result<()> {
    for target in targets.lines() {
        let listed = is_listed(rt, target).unwrap_or(false);
        println!(rt; "label-address of {target} is listed: {listed}")?;
    }
    Ok(())
}
