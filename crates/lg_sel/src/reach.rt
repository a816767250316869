// How far code that leads to a label reaches.

ghost use Rattle.std.specs.Prelude.{◌≡◌, ◌+◌, ◌<◌, ◌^◌, ◌↔◌, length, IsTrue};
ghost use Rattle.lg_sel.specs.Holes.{blanks, fixes_of, Each};
ghost use Rattle.lg_sel.specs.Reaches.{may_wait, Leads};

use crate::item::Item;
use lg_buf::{CodeBuf, Fix, FixKind};

/// How far the code of a node that leads to a label reaches. Each target has its forms: the fewer bytes, the shorter the reach.
#[derive(Clone, Copy, PartialEq, Eq)]
pub enum Reach {
    /// By the shortest field that a conditional jump has: 8 bits on x86-64, the branch word on AArch64 and RV64.
    Short,
    /// To every place of 1 MiB of code.
    Near,
    /// To every place of 64 MiB of code.
    Far,
}

/// The largest size of a buffer in which RV64's branch word leads to every place that is fewer bytes away, in bytes.
pub const SMALL_SIZE: u32 = 0x1000;

/// The largest size of a buffer in which a field that reaches 1 MiB leads to every place that is fewer bytes away, in bytes.
pub const NEAR_SIZE: u32 = 0x10_0000;

// Returns whether a field of the kind may wait for a label that is not bound yet, in a buffer of this size.
fn may_wait(kind: FixKind, size: u32) -> bool
    ensures { result ≡ may_wait kind size }
{
    match kind {
        FixKind::X86Rel8 => false,
        FixKind::RvBranch => size <= SMALL_SIZE,
        FixKind::RvJal | FixKind::A64Cond19 => size <= NEAR_SIZE,
        _ => true,
    }
}

// Returns whether a field leads to the place of its label, or may wait for it.
fn leads(fix: &Fix, buf: &CodeBuf) -> bool
    requires { fix.now.label.0 < length buf.now.labels }
    ensures { IsTrue result ↔ Leads buf.now fix.now }
{
    match buf.bound(fix.label) {
        Some(target) => fix.kind.fits(fix.place, target),
        None => may_wait(fix.kind, buf.size()),
    }
}

/// Returns whether the code of items that is at a place of a buffer leads to the labels that are bound, and may wait for the others.
#[must_use]
pub fn lead<L: Item>(items: &[L], place: u32, buf: &CodeBuf) -> bool
    requires instrs { Each L.is_item items.now }
    requires labels { Each (L.names_one_of (length buf.now.labels)) items.now }
    requires small { place + length (blanks L.holes items.now) < 2 ^ 32 }
    ensures { IsTrue result ↔ Each (Leads buf.now) (fixes_of L.holes place items.now) }
{
    match items {
        [] => true,
        [item, rest @ ..] => {
            let next = place + item.size();
            match item.fix(place) {
                Some(fix) => leads(&fix, buf) && lead(rest, next, buf),
                None => lead(rest, next, buf),
            }
        }
    }
}
