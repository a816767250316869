// Numbers of two, four and eight bytes in a slice, the lowest byte first, each read and written at once.

ghost use Rattle.std.specs.Prelude.{◌≡◌, ◌+◌, ◌≤◌, ◌<◌, ◌^◌, length, slice_index};
ghost use Rattle.lg_base.specs.Spaces.{number_at, written};

// Returns the number in two bytes from a place on.
#[inline(always)]
pub(crate) fn word_2(bytes: &[u8], at: usize) -> u64
    requires { at + 2 ≤ length bytes.now }
    ensures value { result ≡ number_at (slice_index bytes.now) at 2 }
    ensures bound { result < 2 ^ 16 }
{
    u64::from(bytes[at]) + 256 * u64::from(bytes[at + 1])
}

// Returns the number in four bytes from a place on.
#[inline(always)]
pub(crate) fn word_4(bytes: &[u8], at: usize) -> u64
    requires { at + 4 ≤ length bytes.now }
    ensures value { result ≡ number_at (slice_index bytes.now) at 4 }
    ensures bound { result < 2 ^ 32 }
{
    word_2(bytes, at) + 0x1_0000 * word_2(bytes, at + 2)
}

// Returns the number in eight bytes from a place on.
#[inline(always)]
pub(crate) fn word_8(bytes: &[u8], at: usize) -> u64
    requires { at + 8 ≤ length bytes.now }
    ensures { result ≡ number_at (slice_index bytes.now) at 8 }
{
    word_4(bytes, at) + 0x1_0000_0000 * word_4(bytes, at + 4)
}

// Writes the low byte of a number.
#[inline(always)]
pub(crate) fn put_1(bytes: &mut [u8], at: usize, value: u64)
    requires { at + 1 ≤ length bytes.old }
    ensures { slice_index bytes.new ≡ written (slice_index bytes.old) at 1 value }
{
    bytes[at] = (value % 256) as u8;
}

// Writes the low two bytes of a number from a place on.
#[inline(always)]
pub(crate) fn put_2(bytes: &mut [u8], at: usize, value: u64)
    requires { at + 2 ≤ length bytes.old }
    ensures { slice_index bytes.new ≡ written (slice_index bytes.old) at 2 value }
{
    put_1(bytes, at, value);
    put_1(bytes, at + 1, value / 256);
}

// Writes the low four bytes of a number from a place on.
#[inline(always)]
pub(crate) fn put_4(bytes: &mut [u8], at: usize, value: u64)
    requires { at + 4 ≤ length bytes.old }
    ensures { slice_index bytes.new ≡ written (slice_index bytes.old) at 4 value }
{
    put_2(bytes, at, value);
    put_2(bytes, at + 2, value / 0x1_0000);
}

// Writes the eight bytes of a number from a place on.
#[inline(always)]
pub(crate) fn put_8(bytes: &mut [u8], at: usize, value: u64)
    requires { at + 8 ≤ length bytes.old }
    ensures { slice_index bytes.new ≡ written (slice_index bytes.old) at 8 value }
{
    put_4(bytes, at, value);
    put_4(bytes, at + 4, value / 0x1_0000_0000);
}
