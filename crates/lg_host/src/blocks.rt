// Ranges of bytes in memory.

ghost use Rattle.std.specs.Prelude.{◌≡◌, ◌≤◌, ◌+◌, ◌^◌, ℕ, true, false, ◌&&◌, ◌||◌, ◌==◌, not};
ghost use Rattle.lg_base.specs.Spaces.{mapped};
ghost use Rattle.lg_host.specs.Blocks.{over, copied, filled, can_write, is_addressed, overlaps};

use lg_base::Space;

/// Returns whether this many bytes from an address on have addresses.
pub fn is_addressed(from: u64, count: u64) -> bool
    ensures { result ≡ is_addressed from count }
{
    count == 0 || count - 1 <= u64::MAX - from
}

/// Returns whether two ranges of `count` bytes have a byte in common.
pub fn overlaps(to: u64, from: u64, count: u64) -> bool
    ensures { result ≡ overlaps to from count }
{
    if to <= from {
        from - to < count
    } else {
        to - from < count
    }
}

/// Returns whether all `count` bytes from an address on can be read. The range ends by 2^64.
pub fn can_get_all<S: Space>(mem: &S, from: u64, count: u64) -> bool
    requires { from + count ≤ 2 ^ 64 }
    ensures { result ≡ mapped (S.byte_of mem.now) from count }
{
    for i in 0..count {
        let Some(_byte) = mem.get(from + i) else {
            return false;
        };
    }
    true
}

/// Returns whether all `count` bytes from an address on can be written. The range ends by 2^64.
pub fn can_put_all<S: Space>(mem: &S, from: u64, count: u64) -> bool
    requires { from + count ≤ 2 ^ 64 }
    ensures { result ≡ can_write (S.room mem.now) from count }
{
    for i in 0..count {
        if !mem.can_put(from + i) {
            return false;
        }
    }
    true
}

/// Sets the bytes of a range, which can be written. The range ends by 2^64.
pub fn fill<S: Space>(mem: &mut S, to: u64, byte: u8, count: u64)
    requires below { to + count ≤ 2 ^ 64 }
    requires can { can_write (S.room mem.old) to count ≡ true }
    ensures bytes { S.byte_of mem.new ≡ over (filled to byte count) (S.byte_of mem.old) }
    ensures rooms { S.room mem.new ≡ S.room mem.old }
{
    for i in 0..count {
        let _ = mem.put(to + i, byte);
    }
}

/// Copies the bytes of a range, which can be read, to another, which can be written. Each ends by 2^64, and the two lie apart.
pub fn copy<S: Space>(mem: &mut S, to: u64, from: u64, count: u64)
    requires below { to + count ≤ 2 ^ 64 }
    requires below_from { from + count ≤ 2 ^ 64 }
    requires can { can_write (S.room mem.old) to count ≡ true }
    requires can_read { mapped (S.byte_of mem.old) from count ≡ true }
    requires apart { overlaps to from count ≡ false }
    ensures bytes { S.byte_of mem.new ≡ over (copied (S.byte_of mem.old) to from count) (S.byte_of mem.old) }
    ensures rooms { S.room mem.new ≡ S.room mem.old }
{
    for i in 0..count {
        let byte = mem.get(from + i).unwrap_or(0);
        let _ = mem.put(to + i, byte);
    }
}
