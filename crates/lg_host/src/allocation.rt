// The functions that hand out memory, and those on ranges of it.

ghost use Rattle.std.specs.Prelude.{◌≡◌, ◌≤◌, ◌<◌, ◌+◌, ◌-◌, ◌*◌, ◌%◌, ◌^◌, ℕ, IfSome};
ghost use Rattle.lg_host.specs.Host.{memory, Reserves, MemSays, malloc, calloc, memset, memcpy};

use crate::blocks::{can_get_all, can_put_all, copy, fill, is_addressed, overlaps};
use crate::heap_mark::HeapMark;
use crate::host_end::HostEnd;
use lg_base::Space;

// Allocates this many bytes of the heap, where they fit.
fn reserve<S: Space>(size: u64, mem: &mut S, heap: &mut HeapMark) -> Option<u64>
    ensures says { Reserves
        (memory (S.byte_of mem.old) (S.room mem.old) heap.old) size
        (memory (S.byte_of mem.new) (S.room mem.new) heap.new) result }
    ensures low { IfSome result (λ at. 0x30000000 ≤ at) }
{
    let mark = heap.mark();
    if size > 0x40_0000 {
        return None;
    }
    let rounded = ((size + 15) / 16 * 16).max(16);
    if mark + rounded > 0x3040_0000 {
        return None;
    }
    mem.raise(mark + rounded);
    heap.set(mark + rounded);
    Some(mark)
}

/// Takes `size` bytes of the heap, rounded up to a multiple of 16 and at least 16, and answers their first address; 0 where they do not fit,
/// and then nothing changes.
pub fn malloc<S: Space>(size: u64, mem: &mut S, heap: &mut HeapMark) -> HostEnd
    ensures { MemSays (malloc heap.old size)
        (memory (S.byte_of mem.old) (S.room mem.old) heap.old)
        (memory (S.byte_of mem.new) (S.room mem.new) heap.new) result }
{
    match reserve(size, mem, heap) {
        Some(at) => HostEnd::Value(at),
        None => HostEnd::Value(0),
    }
}

/// Takes `count * size` bytes as `malloc` does, all 0. A product beyond a word does not fit.
pub fn calloc<S: Space>(count: u64, size: u64, mem: &mut S, heap: &mut HeapMark) -> HostEnd
    ensures { MemSays (calloc heap.old (count * size))
        (memory (S.byte_of mem.old) (S.room mem.old) heap.old)
        (memory (S.byte_of mem.new) (S.room mem.new) heap.new) result }
{
    match count.checked_mul(size) {
        Some(bytes) => zeroed(bytes, mem, heap),
        None => HostEnd::Value(0),
    }
}

// Allocates zero bytes.
fn zeroed<S: Space>(size: u64, mem: &mut S, heap: &mut HeapMark) -> HostEnd
    ensures { MemSays (calloc heap.old size)
        (memory (S.byte_of mem.old) (S.room mem.old) heap.old)
        (memory (S.byte_of mem.new) (S.room mem.new) heap.new) result }
{
    match reserve(size, mem, heap) {
        Some(at) => {
            fill(mem, at, 0, size);
            HostEnd::Value(at)
        }
        None => HostEnd::Value(0),
    }
}

/// Sets `count` bytes from `to` on to the low byte of `word`, and answers `to`. Undefined where one of them has no address or cannot be
/// written; with a count of 0 nothing is looked at.
pub fn memset<S: Space>(to: u64, word: u64, count: u64, mem: &mut S, heap: &mut HeapMark) -> HostEnd
    ensures { MemSays (memset (memory (S.byte_of mem.old) (S.room mem.old) heap.old) to word count)
        (memory (S.byte_of mem.old) (S.room mem.old) heap.old)
        (memory (S.byte_of mem.new) (S.room mem.new) heap.new) result }
{
    if count == 0 {
        return HostEnd::Value(to);
    }
    if !is_addressed(to, count) {
        return HostEnd::Undefined;
    }
    if !can_put_all(mem, to, count) {
        return HostEnd::Undefined;
    }
    fill(mem, to, (word % 256) as u8, count);
    HostEnd::Value(to)
}

/// Copies `count` bytes from `from` on to those from `to` on, and answers `to`. Undefined where one of them has no address, cannot be read or
/// cannot be written, and where the two ranges overlap; with a count of 0 nothing is looked at.
pub fn memcpy<S: Space>(to: u64, from: u64, count: u64, mem: &mut S, heap: &mut HeapMark) -> HostEnd
    ensures { MemSays (memcpy (memory (S.byte_of mem.old) (S.room mem.old) heap.old) to from count)
        (memory (S.byte_of mem.old) (S.room mem.old) heap.old)
        (memory (S.byte_of mem.new) (S.room mem.new) heap.new) result }
{
    if count == 0 {
        return HostEnd::Value(to);
    }
    if !is_addressed(to, count) {
        return HostEnd::Undefined;
    }
    if !is_addressed(from, count) {
        return HostEnd::Undefined;
    }
    if overlaps(to, from, count) {
        return HostEnd::Undefined;
    }
    if !can_get_all(mem, from, count) {
        return HostEnd::Undefined;
    }
    if !can_put_all(mem, to, count) {
        return HostEnd::Undefined;
    }
    copy(mem, to, from, count);
    HostEnd::Value(to)
}
