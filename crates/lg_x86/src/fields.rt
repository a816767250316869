// The fields of REX, ModRM and SIB, and the numbers after them.

ghost use Rattle.std.specs.Prelude.{◌≡◌, ◌<◌, ◌≤◌, ℕ, List, drop, length, slice_index};
ghost use Rattle.lg_base.specs.Fields.{bits_of};
ghost use Rattle.lg_x86.specs.Spelling.{extension, modrm, sib, is_short, long_bytes, IsNumber8, IsNumber32};
ghost use Rattle.lg_x86.specs.Reading.{opcode_reg, has_registers, has_one, is_displaced, is_memory, memory_length, is_sum, digit_in, reg_in, rm_in, index_in, base_in, word_in, wide_in, short_in, long_in, number_in, disp_in, disp_place};

use lg_base::number::{from_bits, to_bits};

/// Returns the bits R, X and B of REX.
#[inline(always)]
pub(crate) fn extension_of(reg: u8, index: u8, rm: u8) -> u8
    requires { (reg < 16) × (index < 16) × (rm < 16) }
    ensures value { result ≡ extension reg index rm }
    ensures fits { result < 8 }
{
    reg / 8 * 4 + index / 8 * 2 + rm / 8
}

/// ModRM; only the low three bits of each register are in it.
#[inline(always)]
pub(crate) fn modrm_of(mode: u8, reg: u8, rm: u8) -> u8
    requires { mode < 4 }
    ensures { result ≡ modrm mode reg rm }
{
    mode * 64 + reg % 8 * 8 + rm % 8
}

/// SIB of scale 0; only the low three bits of each register are in it.
#[inline(always)]
pub(crate) fn sib_of(index: u8, base: u8) -> u8
    ensures { result ≡ sib index base }
{
    index % 8 * 8 + base % 8
}

/// Returns whether the number is one of 8 bits.
#[inline(always)]
pub(crate) fn fits_short(number: i32) -> bool
    ensures { result ≡ is_short number }
{
    -128 <= number && number <= 127
}

/// Returns the byte of a number from -128 to 127.
#[inline(always)]
pub(crate) fn short_byte(number: i32) -> u8
    requires { IsNumber8 number }
    ensures { result ≡ bits_of 128 number }
{
    to_bits(number, 1 << 7) as u8
}

/// Returns the four bytes of a number.
#[inline(always)]
pub(crate) fn long_of(number: i32) -> [u8; 4]
    ensures value { result ≡ long_bytes number }
    ensures len { length result ≡ 4 }
{
    number.cast_unsigned().to_le_bytes()
}

/// Returns the byte at a place, or 0 after the last.
#[inline(always)]
pub(crate) fn byte_at(bytes: &[u8], place: usize) -> u8
    ensures { result ≡ slice_index bytes.now place }
{
    bytes.get(place).copied().unwrap_or(0)
}

/// Returns the bytes from a place on.
#[inline(always)]
pub(crate) fn skip(bytes: &[u8], place: usize) -> &[u8]
    ensures { result.now ≡ drop place bytes.now }
{
    if bytes.len() < place {
        &[]
    } else {
        &bytes[place..]
    }
}

/// Returns the register whose low three bits are in an opcode.
#[inline(always)]
pub(crate) fn opcode_register(rex: u8, opcode: u8) -> u8
    ensures value { result ≡ opcode_reg rex opcode }
    ensures fits { result < 16 }
{
    rex % 2 * 8 + opcode % 8
}

/// Returns whether ModRM names two registers.
#[inline(always)]
pub(crate) fn names_registers(tail: &[u8]) -> bool
    ensures { result ≡ has_registers tail.now }
{
    byte_at(tail, 0) / 64 == 3
}

/// Returns whether ModRM names one register, beside the digit 0.
#[inline(always)]
pub(crate) fn names_one(tail: &[u8]) -> bool
    ensures { result ≡ has_one tail.now }
{
    byte_at(tail, 0) / 8 == 24
}

/// Returns the field reg of ModRM.
#[inline(always)]
pub(crate) fn digit(tail: &[u8]) -> u8
    ensures { result ≡ digit_in tail.now }
{
    byte_at(tail, 0) / 8 % 8
}

/// Returns the register of the field reg of ModRM.
#[inline(always)]
pub(crate) fn reg_register(rex: u8, tail: &[u8]) -> u8
    ensures value { result ≡ reg_in rex tail.now }
    ensures fits { result < 16 }
{
    rex / 4 % 2 * 8 + byte_at(tail, 0) / 8 % 8
}

/// Returns the register of the field rm of ModRM.
#[inline(always)]
pub(crate) fn rm_register(rex: u8, tail: &[u8]) -> u8
    ensures value { result ≡ rm_in rex tail.now }
    ensures fits { result < 16 }
{
    rex % 2 * 8 + byte_at(tail, 0) % 8
}

/// Returns the index of SIB.
#[inline(always)]
pub(crate) fn index_register(rex: u8, tail: &[u8]) -> u8
    ensures value { result ≡ index_in rex tail.now }
    ensures fits { result < 16 }
{
    rex / 2 % 2 * 8 + byte_at(tail, 1) / 8 % 8
}

/// Returns the base of SIB.
#[inline(always)]
pub(crate) fn base_register(rex: u8, tail: &[u8]) -> u8
    ensures value { result ≡ base_in rex tail.now }
    ensures fits { result < 16 }
{
    rex % 2 * 8 + byte_at(tail, 1) % 8
}

/// Returns the number of 32 bits that the bytes begin with.
#[inline(always)]
pub(crate) fn word(bytes: &[u8]) -> u32
    ensures { result ≡ word_in bytes.now }
{
    u32::from_le_bytes([
        byte_at(bytes, 0),
        byte_at(bytes, 1),
        byte_at(bytes, 2),
        byte_at(bytes, 3),
    ])
}

/// Returns the number of 64 bits that the bytes begin with.
#[inline(always)]
pub(crate) fn wide_word(bytes: &[u8]) -> u64
    ensures { result ≡ wide_in bytes.now }
{
    u64::from_le_bytes([
        byte_at(bytes, 0),
        byte_at(bytes, 1),
        byte_at(bytes, 2),
        byte_at(bytes, 3),
        byte_at(bytes, 4),
        byte_at(bytes, 5),
        byte_at(bytes, 6),
        byte_at(bytes, 7),
    ])
}

/// Returns the signed number of 8 bits that the bytes begin with.
#[inline(always)]
pub(crate) fn short_number(bytes: &[u8]) -> i32
    ensures value { result ≡ short_in bytes.now }
    ensures fits { IsNumber8 result }
{
    from_bits(byte_at(bytes, 0) as u32, 1 << 7)
}

/// Returns the signed number of 32 bits that the bytes begin with.
#[inline(always)]
pub(crate) fn long_number(bytes: &[u8]) -> i32
    ensures value { result ≡ long_in bytes.now }
    ensures fits { IsNumber32 result }
{
    word(bytes).cast_signed()
}

/// Returns the signed number that the bytes begin with, of 8 bits or else of 32.
#[inline(always)]
pub(crate) fn signed_number(is_short: bool, bytes: &[u8]) -> i32
    ensures value { result ≡ number_in is_short bytes.now }
    ensures fits { IsNumber32 result }
{
    if is_short {
        short_number(bytes)
    } else {
        long_number(bytes)
    }
}

/// Returns the displacement, which is after ModRM and SIB.
#[inline(always)]
pub(crate) fn displacement(tail: &[u8]) -> i32
    ensures value { result ≡ disp_in tail.now }
    ensures fits { IsNumber32 result }
{
    let modrm = byte_at(tail, 0);
    signed_number(modrm / 64 == 1, skip(tail, displacement_place(modrm)))
}

// where the displacement is after this ModRM: SIB follows where its field rm is 4
#[inline(always)]
fn displacement_place(modrm: u8) -> usize
    ensures { (tail : List ℕ) → slice_index tail 0 ≡ modrm → result ≡ disp_place tail }
{
    if modrm % 8 == 4 { 2 } else { 1 }
}

/// Returns whether ModRM begins an operand in memory: SIB, where it is, names no index, and the displacement is short where it can be.
#[inline(always)]
pub(crate) fn is_memory(tail: &[u8]) -> bool
    ensures { result ≡ is_memory tail.now }
{
    let modrm = byte_at(tail, 0);
    let is_based = modrm % 8 != 4 || byte_at(tail, 1) == 0x24;
    is_based && is_displaced(modrm / 64, skip(tail, displacement_place(modrm)))
}

// whether the displacement after this mode is there, and is short where it can be
#[inline(always)]
fn is_displaced(mode: u8, bytes: &[u8]) -> bool
    ensures { result ≡ is_displaced mode bytes.now }
{
    if mode == 1 {
        bytes.len() >= 1
    } else {
        mode == 2 && bytes.len() >= 4 && !fits_short(long_number(bytes))
    }
}

/// Returns how many bytes an operand in memory has: 2 to 6.
#[inline(always)]
pub(crate) fn memory_length(tail: &[u8]) -> u32
    ensures value { result ≡ memory_length tail.now }
    ensures fits { result ≤ 6 }
{
    let modrm = byte_at(tail, 0);
    let displacement_length = if modrm / 64 == 1 { 1 } else { 4 };
    displacement_place(modrm) as u32 + displacement_length
}

/// Returns whether ModRM and SIB name three registers, and no displacement.
#[inline(always)]
pub(crate) fn is_sum(tail: &[u8]) -> bool
    ensures { result ≡ is_sum tail.now }
{
    byte_at(tail, 0) / 64 == 1
        && byte_at(tail, 1) / 64 == 0
        && byte_at(tail, 2) == 0
        && tail.len() >= 3
}
