// Patching: each kind of field is written so that it leads to a target that it fits.

ghost use Rattle.std.specs.Prelude.{◌≡◌, ◌<◌, ◌≤◌, ◌+◌, ◌↔◌, ℕ, length, Some, IsTrue, false};
ghost use Rattle.std.specs.List.{All};
ghost use Rattle.lg_buf.specs.FixFields.{fix_len};
ghost use Rattle.lg_buf.specs.Fixing.{Fits, Patched};
ghost use Rattle.lg_buf.specs.Buffers.{AreSound, AreDone, IsReady, place_of};

use crate::fixes::{Fix, FixKind, Label32};
use crate::store::Store;
use crate::words::{
    distance, far_distance, with_branch, with_branch_26, with_cond_19, with_immediate, with_jump,
    with_move_16, with_upper,
};
use lg_base::layout::CODE_BASE_WORD;

fn patch_rel_8(store: &mut Store, place: u32, target: u32)
    requires inside { place + 1 ≤ length store.old.items }
    requires fits { Fits FixKind.X86Rel8 place target }
    ensures patched { Patched FixKind.X86Rel8 place target store.old.items store.new.items }
    ensures size { store.new.size ≡ store.old.size }
{
    let bits = distance(0x80, place as u64 + 1, target);
    store.set(place, bits as u8);
}

fn patch_rel_32(store: &mut Store, place: u32, target: u32)
    requires inside { place + 4 ≤ length store.old.items }
    requires fits { Fits FixKind.X86Rel32 place target }
    ensures patched { Patched FixKind.X86Rel32 place target store.old.items store.new.items }
    ensures size { store.new.size ≡ store.old.size }
{
    let bits = distance(0x8000_0000, place as u64 + 4, target);
    store.rewrite(place, bits);
}

fn patch_abs_32(store: &mut Store, place: u32, target: u32)
    requires inside { place + 4 ≤ length store.old.items }
    requires fits { Fits FixKind.X86Abs32 place target }
    ensures patched { Patched FixKind.X86Abs32 place target store.old.items store.new.items }
    ensures size { store.new.size ≡ store.old.size }
{
    store.rewrite(place, CODE_BASE_WORD + target);
}

fn patch_branch_26(store: &mut Store, place: u32, target: u32)
    requires inside { place + 4 ≤ length store.old.items }
    requires fits { Fits FixKind.A64Branch26 place target }
    ensures patched { Patched FixKind.A64Branch26 place target store.old.items store.new.items }
    ensures size { store.new.size ≡ store.old.size }
{
    let bits = distance(0x800_0000, place as u64, target);
    let word = store.reread(place);
    store.rewrite(place, with_branch_26(word, bits / 4));
}

fn patch_cond_19(store: &mut Store, place: u32, target: u32)
    requires inside { place + 4 ≤ length store.old.items }
    requires fits { Fits FixKind.A64Cond19 place target }
    ensures patched { Patched FixKind.A64Cond19 place target store.old.items store.new.items }
    ensures size { store.new.size ≡ store.old.size }
{
    let bits = distance(0x10_0000, place as u64, target);
    let word = store.reread(place);
    store.rewrite(place, with_cond_19(word, bits / 4));
}

fn patch_mov_pair(store: &mut Store, place: u32, target: u32)
    requires inside { place + 8 ≤ length store.old.items }
    requires fits { Fits FixKind.A64MovPair place target }
    ensures patched { Patched FixKind.A64MovPair place target store.old.items store.new.items }
    ensures size { store.new.size ≡ store.old.size }
{
    // places fit 32 bits
    let _len = store.len();
    let address = CODE_BASE_WORD + target;
    let low = store.reread(place);
    let high = store.reread(place + 4);
    store.rewrite(place, with_move_16(low, address % 0x1_0000));
    store.rewrite(place + 4, with_move_16(high, address / 0x1_0000));
}

fn patch_branch(store: &mut Store, place: u32, target: u32)
    requires inside { place + 4 ≤ length store.old.items }
    requires fits { Fits FixKind.RvBranch place target }
    ensures patched { Patched FixKind.RvBranch place target store.old.items store.new.items }
    ensures size { store.new.size ≡ store.old.size }
{
    let bits = distance(0x1000, place as u64, target);
    let word = store.reread(place);
    store.rewrite(place, with_branch(word, bits));
}

fn patch_jal(store: &mut Store, place: u32, target: u32)
    requires inside { place + 4 ≤ length store.old.items }
    requires fits { Fits FixKind.RvJal place target }
    ensures patched { Patched FixKind.RvJal place target store.old.items store.new.items }
    ensures size { store.new.size ≡ store.old.size }
{
    let bits = distance(0x10_0000, place as u64, target);
    let word = store.reread(place);
    store.rewrite(place, with_jump(word, bits));
}

// the upper bits are rounded to the nearest, since the lower ones have a sign
fn patch_lui_addi(store: &mut Store, place: u32, target: u32)
    requires inside { place + 8 ≤ length store.old.items }
    requires fits { Fits FixKind.RvLuiAddi place target }
    ensures patched { Patched FixKind.RvLuiAddi place target store.old.items store.new.items }
    ensures size { store.new.size ≡ store.old.size }
{
    // places fit 32 bits
    let _len = store.len();
    let address = CODE_BASE_WORD + target;
    let upper = store.reread(place);
    let lower = store.reread(place + 4);
    store.rewrite(place, with_upper(upper, (address + 0x800) / 0x1000));
    store.rewrite(place + 4, with_immediate(lower, address % 0x1000));
}

fn patch_auipc_jalr(store: &mut Store, place: u32, target: u32)
    requires inside { place + 8 ≤ length store.old.items }
    requires fits { Fits FixKind.RvAuipcJalr place target }
    ensures patched { Patched FixKind.RvAuipcJalr place target store.old.items store.new.items }
    ensures size { store.new.size ≡ store.old.size }
{
    // places fit 32 bits
    let _len = store.len();
    let (high, low) = far_distance(place, target);
    let upper = store.reread(place);
    let lower = store.reread(place + 4);
    store.rewrite(place, with_upper(upper, high));
    store.rewrite(place + 4, with_immediate(lower, low));
}

fn patch_fitting(store: &mut Store, place: u32, kind: FixKind, target: u32)
    requires inside { place + fix_len kind ≤ length store.old.items }
    requires fits { Fits kind place target }
    ensures patched { Patched kind place target store.old.items store.new.items }
    ensures size { store.new.size ≡ store.old.size }
{
    match kind {
        FixKind::X86Rel8 => patch_rel_8(store, place, target),
        FixKind::X86Rel32 => patch_rel_32(store, place, target),
        FixKind::X86Abs32 => patch_abs_32(store, place, target),
        FixKind::A64Branch26 => patch_branch_26(store, place, target),
        FixKind::A64Cond19 => patch_cond_19(store, place, target),
        FixKind::A64MovPair => patch_mov_pair(store, place, target),
        FixKind::RvBranch => patch_branch(store, place, target),
        FixKind::RvJal => patch_jal(store, place, target),
        FixKind::RvLuiAddi => patch_lui_addi(store, place, target),
        FixKind::RvAuipcJalr => patch_auipc_jalr(store, place, target),
    }
}

/// Makes the field of a kind at a place lead to a target, or returns false and changes nothing where it can't.
pub(crate) fn patch(store: &mut Store, place: u32, kind: FixKind, target: u32) -> bool
    requires { place + fix_len kind ≤ length store.old.items }
    ensures fits { IsTrue result ↔ Fits kind place target }
    ensures patched { IsTrue result → Patched kind place target store.old.items store.new.items }
    ensures size { store.new.size ≡ store.old.size }
    ensures long { length store.new.items ≡ length store.old.items }
    ensures unchanged { result ≡ false → store.new ≡ store.old }
{
    if !kind.fits(place, target) {
        return false;
    }
    patch_fitting(store, place, kind, target);
    true
}

// the place of a bound label
fn bound_place(labels: &[Option<u32>], label: Label32) -> u32
    requires inside { label.0 < length labels.now }
    requires bound { (target : ℕ) × (place_of labels.now label.0 ≡ Some target) }
    ensures { place_of labels.now label.0 ≡ Some result }
{
    match labels[label.0 as usize] {
        Some(place) => place,
        None => unreachable!(),
    }
}

/// Patches each fix with the place of its label.
pub(crate) fn patch_all(store: &mut Store, labels: &[Option<u32>], fixes: &[Fix])
    requires sound { AreSound (length store.old.items) (length labels.now) fixes.now }
    requires ready { All (IsReady labels.now) fixes.now }
    ensures done { AreDone labels.now fixes.now (length fixes.now) store.old.items store.new.items }
    ensures size { store.new.size ≡ store.old.size }
{
    'fixes: for fix in fixes {
        let target = bound_place(labels, fix.label);
        patch_fitting(store, fix.place, fix.kind, target);
    }
}

// Returns whether the label of a fix is bound, and the fix can lead to its place.
fn is_ready(labels: &[Option<u32>], fix: &Fix) -> bool
    ensures { IsTrue result ↔ IsReady labels.now fix.now }
{
    match labels.get(fix.label.0 as usize) {
        Some(Some(target)) => fix.kind.fits(fix.place, *target),
        _ => false,
    }
}

/// Returns whether the label of each fix is bound, and each fix can lead to its place.
pub(crate) fn are_ready(labels: &[Option<u32>], fixes: &[Fix]) -> bool
    ensures { IsTrue result ↔ All (IsReady labels.now) fixes.now }
{
    'fixes: for fix in fixes {
        if !is_ready(labels, fix) {
            return false;
        }
    }
    true
}
