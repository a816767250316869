// A full buffer, labels that are bound after their fixes, and each kind of fix at the edges of its reach. The words
// are those that `llvm-mc` 14 gives for these instructions.

ghost use Rattle.std.specs.Prelude.{◌≡◌, ◌+◌, ◌<◌, ◌++◌, ◌∷◌, [], length, replicate, None, IsTrue};
ghost use Rattle.std.specs.List.{All};
ghost use Rattle.lg_buf.specs.Buffers.{IsReady};

use lg_base::OutOfMemory;
use lg_buf::*;
use std::alloc::Global;
use std::test::Fail;

// Appends `beq x5, x6` to a label.
fn branch_to(buf: &mut CodeBuf, label: Label32) -> bool
    requires label { label.0 < length buf.old.labels }
    requires room { 0 < buf.old.room }
    ensures labels { IsTrue result → buf.new.labels ≡ buf.old.labels }
    ensures room { IsTrue result → buf.new.room + 1 ≡ buf.old.room }
{
    let place = buf.here();
    if !buf.emit(&[0x63, 0x80, 0x62, 0x00]) {
        return false;
    }
    buf.fix(place, FixKind::RvBranch, label);
    true
}

// Appends a branch to a label after it, a nop, and a branch to a label at the start.
fn put_branches(buf: &mut CodeBuf) -> bool
    requires labels { buf.old.labels ≡ replicate 3 None }
    requires room { buf.old.room ≡ 2 }
    ensures ready { IsTrue result → All (IsReady buf.new.labels) buf.new.fixes }
{
    buf.bind(Label32(1));
    if !branch_to(buf, Label32(2))
        || !buf.emit(&[0x13, 0x00, 0x00, 0x00])
        || !branch_to(buf, Label32(1))
    {
        return false;
    }
    buf.bind(Label32(2));
    buf.is_ready()
}

// The code of these branches.
const BRANCHES: &[u8] = &[
    0x63, 0x86, 0x62, 0x00, 0x13, 0x00, 0x00, 0x00, 0xe3, 0x8c, 0x62, 0xfe,
];

fn leads_to_labels(alloc: Global) -> Result<bool, OutOfMemory> {
    let mut buf = CodeBuf::new(alloc, 12, 3, 2)?;
    if !put_branches(&mut buf) {
        return Ok(false);
    }
    let done = buf.finish();
    Ok(done.bytes.as_slice() == BRANCHES && done.places.as_slice() == [0, 0, 12].as_slice())
}

// How many zeros are appended at once.
const PIECE: usize = 0x10_0000;

// Appends this many zeros.
fn pad(buf: &mut CodeBuf, zeros: &[u8], count: usize) -> bool {
    for _ in 0..count / PIECE {
        if !buf.emit(zeros) {
            return false;
        }
    }
    match zeros.get(..count % PIECE) {
        Some(rest) => buf.emit(rest),
        None => false,
    }
}

// A fix with its place and its target; the place of code with the fix, the code, and what it becomes, or None where the fix cannot be patched.
type Patch = (FixKind, u32, u32, u32, &'static [u8], Option<&'static [u8]>);

// Returns the place after the code of a row.
fn end_of(row: &Patch) -> u32 {
    row.3.saturating_add(row.4.len().min(16) as u32)
}

// Patches the fix of a row, where it lies within what was appended, and returns whether it is patched where it should be.
fn patches(buf: &mut CodeBuf, row: &Patch) -> bool {
    let (kind, place, target, _, _, wanted) = *row;
    let is_within = place as u64 + kind.size() as u64 <= buf.here() as u64;
    kind.fits(place, target) == wanted.is_some()
        && is_within
        && buf.patch(place, kind, target) == wanted.is_some()
}

// Fills a buffer with zeros and the code of a row, and patches its fix.
fn fills(buf: &mut CodeBuf, zeros: &[u8], row: &Patch) -> bool
    ensures ready { IsTrue result → All (IsReady buf.new.labels) buf.new.fixes }
{
    pad(buf, zeros, row.3 as usize)
        && buf.emit(row.4)
        && buf.here() == end_of(row)
        && !buf.emit(&[0])
        && patches(buf, row)
        && buf.is_ready()
}

// Returns whether finished code of a row is what it should become, and its one label stays at 0.
fn is_done(done: &Finished, row: &Patch) -> bool {
    let becomes = row.5.unwrap_or(row.4);
    let behind = done.bytes.as_slice().get(row.3 as usize..);
    behind == Some(becomes) && done.places.as_slice() == [0].as_slice()
}

// Whether a full buffer with the code of a row becomes so.
fn is_patched(alloc: Global, zeros: &[u8], row: &Patch) -> Result<bool, OutOfMemory> {
    let mut buf = CodeBuf::new(alloc, end_of(row), 1, 1)?;
    if !fills(&mut buf, zeros, row) {
        return Ok(false);
    }
    Ok(is_done(&buf.finish(), row))
}

// Whether all rows are patched so.
fn are_patched(alloc: Global, zeros: &[u8]) -> Result<bool, OutOfMemory> {
    for row in PATCHES {
        if !is_patched(alloc, zeros, row)? {
            return Ok(false);
        }
    }
    Ok(true)
}

// The same with zeros to append.
fn are_rows_patched(alloc: Global) -> Result<bool, OutOfMemory> {
    let zeros = vec![in alloc; 0u8; PIECE]?;
    are_patched(alloc, &zeros)
}

const PATCHES: &[Patch] = &[
    // beq x5, x6; jal x1; lui and addi of x5
    (
        FixKind::RvBranch,
        0,
        4,
        0,
        &[0x63, 0x84, 0x62, 0x00, 0x93, 0x02, 0x10, 0x00],
        Some(&[0x63, 0x82, 0x62, 0x00, 0x93, 0x02, 0x10, 0x00]),
    ),
    (
        FixKind::RvBranch,
        0,
        4096,
        0,
        &[0x63, 0x84, 0x62, 0x00, 0x93, 0x02, 0x10, 0x00],
        None,
    ),
    (
        FixKind::RvBranch,
        4096,
        0,
        4_096,
        &[0x63, 0x80, 0x62, 0x00],
        Some(&[0x63, 0x80, 0x62, 0x80]),
    ),
    (
        FixKind::RvBranch,
        4,
        4098,
        4,
        &[0x63, 0x80, 0x62, 0x00],
        Some(&[0xe3, 0x8f, 0x62, 0x7e]),
    ),
    (
        FixKind::RvBranch,
        4100,
        2,
        4_100,
        &[0x63, 0x80, 0x62, 0x00],
        None,
    ),
    (
        FixKind::RvBranch,
        4,
        4100,
        4,
        &[0x63, 0x80, 0x62, 0x00],
        None,
    ),
    (FixKind::RvBranch, 4, 7, 4, &[0x63, 0x80, 0x62, 0x00], None),
    (
        FixKind::RvJal,
        1_048_576,
        0,
        1_048_576,
        &[0xef, 0x00, 0x00, 0x00],
        Some(&[0xef, 0x00, 0x00, 0x80]),
    ),
    (
        FixKind::RvJal,
        0,
        1_048_574,
        0,
        &[0xef, 0x00, 0x00, 0x00],
        Some(&[0xef, 0xf0, 0xff, 0x7f]),
    ),
    (
        FixKind::RvJal,
        1_048_578,
        0,
        1_048_578,
        &[0xef, 0x00, 0x00, 0x00],
        None,
    ),
    (
        FixKind::RvJal,
        0,
        1_048_576,
        0,
        &[0xef, 0x00, 0x00, 0x00],
        None,
    ),
    (
        FixKind::RvLuiAddi,
        4,
        0,
        4,
        &[0xb7, 0x02, 0x00, 0x00, 0x93, 0x82, 0x02, 0x00],
        Some(&[0xb7, 0x02, 0x00, 0x10, 0x93, 0x82, 0x02, 0x00]),
    ),
    (
        FixKind::RvLuiAddi,
        4,
        0x800,
        4,
        &[0xb7, 0x02, 0x00, 0x00, 0x93, 0x82, 0x02, 0x00],
        Some(&[0xb7, 0x12, 0x00, 0x10, 0x93, 0x82, 0x02, 0x80]),
    ),
    (
        FixKind::RvLuiAddi,
        4,
        0x6fff_f7ff,
        4,
        &[0xb7, 0x02, 0x00, 0x00, 0x93, 0x82, 0x02, 0x00],
        Some(&[0xb7, 0xf2, 0xff, 0x7f, 0x93, 0x82, 0xf2, 0x7f]),
    ),
    (
        FixKind::RvLuiAddi,
        4,
        0x6fff_f800,
        4,
        &[0xb7, 0x02, 0x00, 0x00, 0x93, 0x82, 0x02, 0x00],
        None,
    ),
    // bl; b.ne; movz and movk of x9. The last of the calls leads 134,217,728 bytes back.
    (
        FixKind::A64Branch26,
        4,
        134_217_728,
        4,
        &[0x00, 0x00, 0x00, 0x94],
        Some(&[0xff, 0xff, 0xff, 0x95]),
    ),
    (
        FixKind::A64Branch26,
        4,
        134_217_732,
        4,
        &[0x00, 0x00, 0x00, 0x94],
        None,
    ),
    (
        FixKind::A64Branch26,
        4,
        10,
        4,
        &[0x00, 0x00, 0x00, 0x94],
        None,
    ),
    (
        FixKind::A64Branch26,
        134_217_728,
        0,
        0x800_0000,
        &[0x00, 0x00, 0x00, 0x94],
        Some(&[0x00, 0x00, 0x00, 0x96]),
    ),
    (
        FixKind::A64Cond19,
        1_048_576,
        0,
        1_048_576,
        &[0x01, 0x00, 0x00, 0x54],
        Some(&[0x01, 0x00, 0x80, 0x54]),
    ),
    (
        FixKind::A64Cond19,
        0,
        1_048_572,
        0,
        &[0x01, 0x00, 0x00, 0x54],
        Some(&[0xe1, 0xff, 0x7f, 0x54]),
    ),
    (
        FixKind::A64Cond19,
        1_048_580,
        0,
        1_048_580,
        &[0x01, 0x00, 0x00, 0x54],
        None,
    ),
    (
        FixKind::A64Cond19,
        0,
        1_048_576,
        0,
        &[0x01, 0x00, 0x00, 0x54],
        None,
    ),
    (
        FixKind::A64MovPair,
        4,
        0,
        4,
        &[0x09, 0x00, 0x80, 0xd2, 0x09, 0x00, 0xa0, 0xf2],
        Some(&[0x09, 0x00, 0x80, 0xd2, 0x09, 0x00, 0xa2, 0xf2]),
    ),
    (
        FixKind::A64MovPair,
        4,
        0xefff_ffff,
        4,
        &[0x09, 0x00, 0x80, 0xd2, 0x09, 0x00, 0xa0, 0xf2],
        Some(&[0xe9, 0xff, 0x9f, 0xd2, 0xe9, 0xff, 0xbf, 0xf2]),
    ),
    (
        FixKind::A64MovPair,
        4,
        0xf000_0000,
        4,
        &[0x09, 0x00, 0x80, 0xd2, 0x09, 0x00, 0xa0, 0xf2],
        None,
    ),
    // jmp8; jmp32, the last of which leads 2,147,483,648 bytes back; movi32 of r9
    (
        FixKind::X86Rel8,
        127,
        0,
        126,
        &[0xeb, 0x00],
        Some(&[0xeb, 0x80]),
    ),
    (
        FixKind::X86Rel8,
        1,
        129,
        0,
        &[0xeb, 0x00],
        Some(&[0xeb, 0x7f]),
    ),
    (FixKind::X86Rel8, 128, 0, 127, &[0xeb, 0x00], None),
    (FixKind::X86Rel8, 1, 130, 0, &[0xeb, 0x00], None),
    (
        FixKind::X86Rel32,
        1,
        0,
        0,
        &[0xe9, 0x00, 0x00, 0x00, 0x00],
        Some(&[0xe9, 0xfb, 0xff, 0xff, 0xff]),
    ),
    (
        FixKind::X86Rel32,
        1,
        0x8000_0004,
        0,
        &[0xe9, 0x00, 0x00, 0x00, 0x00],
        Some(&[0xe9, 0xff, 0xff, 0xff, 0x7f]),
    ),
    (
        FixKind::X86Rel32,
        1,
        0x8000_0005,
        0,
        &[0xe9, 0x00, 0x00, 0x00, 0x00],
        None,
    ),
    (
        FixKind::X86Rel32,
        0x7fff_fffc,
        0,
        0x7fff_fffb,
        &[0xe9, 0x00, 0x00, 0x00, 0x00],
        Some(&[0xe9, 0x00, 0x00, 0x00, 0x80]),
    ),
    (
        FixKind::X86Abs32,
        2,
        0,
        0,
        &[0x41, 0xb9, 0x00, 0x00, 0x00, 0x00],
        Some(&[0x41, 0xb9, 0x00, 0x00, 0x00, 0x10]),
    ),
    (
        FixKind::X86Abs32,
        2,
        0xefff_ffff,
        0,
        &[0x41, 0xb9, 0x00, 0x00, 0x00, 0x00],
        Some(&[0x41, 0xb9, 0xff, 0xff, 0xff, 0xff]),
    ),
    (
        FixKind::X86Abs32,
        2,
        0xf000_0000,
        0,
        &[0x41, 0xb9, 0x00, 0x00, 0x00, 0x00],
        None,
    ),
];

// Returns whether a target lies one place beyond the reach.
fn is_beyond(kind: FixKind, place: u32) -> bool {
    !kind.fits(place, 0)
}

// Whether code is patched as it should be.
fn is_code_patched(alloc: Global) -> Result<bool, OutOfMemory> {
    let are_beyond = is_beyond(FixKind::A64Branch26, 134_217_732)
        && is_beyond(FixKind::X86Rel32, 0x7fff_fffd);
    Ok(are_beyond && leads_to_labels(alloc)? && are_rows_patched(alloc)?)
}

#[test]
fn patches_code(rt: HostRuntime) -> Result<(), Fail> {
    assert!(rt; is_code_patched(rt.alloc())?);
    Ok(())
}
