// What texts are read as, and whether they pass the checks.

use crate::rows::{Kind, Wanted, are_digits, are_wanted, is_stop};
use lg_base::Stop;
use lg_node::{Unit, check};
use lg_tst::parse;
use std::alloc::Global;

/// What a text is read as. What it is promised to be is for proofs, and of no use here.
pub(crate) fn read(alloc: Global, text: &[u8]) -> Result<Unit, Stop> {
    if text.len() > 16_777_216 {
        return Err(Stop::OutOfMemory);
    }
    parse(alloc, text)
}

// Whether a unit passes the checks.
fn passes(alloc: Global, unit: &Unit) -> Result<(), Stop> {
    check(alloc, unit)?;
    Ok(())
}

// Returns whether a unit should be accepted, or refused for what it is.
fn is_checked(alloc: Global, unit: &Unit, wanted: Wanted) -> bool {
    match passes(alloc, unit) {
        Ok(()) => wanted.0 == b"accepted".as_slice(),
        Err(stop) => is_stop(stop, wanted),
    }
}

// Returns whether this is said of a unit.
fn is_said(alloc: Global, kind: &Kind, unit: &Unit, wanted: Wanted) -> bool {
    match kind {
        Kind::Checked => is_checked(alloc, unit, wanted),
        Kind::Nodes => are_digits(wanted.0, u64::from(unit.nodes.len())),
        Kind::Image => are_wanted(unit.image.as_slice(), wanted),
        _ => wanted.0 == b"accepted".as_slice(),
    }
}

/// Returns whether this is said of a text's unit, or is the kind and the line of its refusal.
pub(crate) fn gives(alloc: Global, kind: &Kind, text: &[u8], wanted: Wanted) -> bool {
    match read(alloc, text) {
        Ok(unit) => is_said(alloc, kind, &unit, wanted),
        Err(stop) => is_stop(stop, wanted),
    }
}
