// The bits of distances, and instruction words with a number in their field and every bit beside the field as it was.

ghost use Rattle.std.specs.Prelude.{◌≡◌, ◌<◌, ◌≤◌, ◌+◌, ◌%◌, pos, ◌+ℤ◌, ◌*ℤ◌};
ghost use Rattle.lg_base.specs.Fields.{part, signed};
ghost use Rattle.lg_base.specs.Immediates.{branch_bits, jump_bits};
ghost use Rattle.lg_buf.specs.FixFields.{branch_rest, cond_rest, move_rest};
ghost use Rattle.lg_buf.specs.Fixing.{IsWithin, Fits};

use crate::fixes::FixKind;
use lg_base::Field;

/// Returns the bits of the distance as a signed number among `half + half` values.
pub(crate) fn distance(half: u64, from: u64, to: u32) -> u32
    requires half { half ≤ 2147483648 }
    requires even { half % 2 ≡ 0 }
    requires from { from < 8589934592 }
    requires within { IsWithin half from to }
    ensures range { result < half + half }
    ensures leads { pos from +ℤ signed half result ≡ pos to }
    ensures low { (from + result) % 4 ≡ to % 4 }
{
    let to = to as u64;
    if to >= from {
        (to - from) as u32
    } else {
        (to + half + half - from) as u32
    }
}

/// Returns the distance from a place to another one in two parts: how many times 4,096 as a signed number of 20 bits, rounded to the nearest, since the other
/// part is a signed number of 12 bits.
pub(crate) fn far_distance(from: u32, to: u32) -> (u32, u32)
    requires { Fits FixKind.RvAuipcJalr from to }
    ensures high { result.0 < 1048576 }
    ensures low { result.1 < 4096 }
    ensures leads { pos from +ℤ ((signed 524288 result.0 *ℤ pos 4096) +ℤ signed 2048 result.1) ≡ pos to }
{
    let rounded = to as u64 + 0x1_0000_0800 - from as u64;
    let high = rounded / 0x1000 % 0x10_0000;
    let low = (rounded + 0x800) % 0x1000;
    (high as u32, low as u32)
}

/// A branch of RV64 whose offset has these 13 bits, the lowest of which is 0.
pub(crate) fn with_branch(word: u32, bits: u32) -> u32
    requires range { bits < 8192 }
    requires even { bits % 2 ≡ 0 }
    ensures bits { branch_bits result ≡ bits }
    ensures rest { branch_rest result ≡ branch_rest word }
{
    Field::<0, 7>::get(word)
        + Field::<11, 1>::get(bits) * 0x80
        + Field::<1, 4>::get(bits) * 0x100
        + Field::<12, 13>::get(word) * 0x1000
        + Field::<5, 6>::get(bits) * 0x200_0000
        + Field::<12, 1>::get(bits) * 0x8000_0000
}

/// A jump of RV64 whose offset has these 21 bits, the lowest of which is 0.
pub(crate) fn with_jump(word: u32, bits: u32) -> u32
    requires range { bits < 2097152 }
    requires even { bits % 2 ≡ 0 }
    ensures bits { jump_bits result ≡ bits }
    ensures rest { part 0 12 result ≡ part 0 12 word }
{
    Field::<0, 12>::get(word)
        + Field::<12, 8>::get(bits) * 0x1000
        + Field::<11, 1>::get(bits) * 0x10_0000
        + Field::<1, 10>::get(bits) * 0x20_0000
        + Field::<20, 1>::get(bits) * 0x8000_0000
}

/// An instruction of RV64 with these upper 20 bits.
pub(crate) fn with_upper(word: u32, number: u32) -> u32
    requires { number < 1048576 }
    ensures bits { part 12 20 result ≡ number }
    ensures rest { part 0 12 result ≡ part 0 12 word }
{
    Field::<0, 12>::get(word) + number * 0x1000
}

/// An instruction of RV64 with these upper 12 bits.
pub(crate) fn with_immediate(word: u32, number: u32) -> u32
    requires { number < 4096 }
    ensures bits { part 20 12 result ≡ number }
    ensures rest { part 0 20 result ≡ part 0 20 word }
{
    Field::<0, 20>::get(word) + number * 0x10_0000
}

/// A branch of AArch64 with this number in bits 0 to 25.
pub(crate) fn with_branch_26(word: u32, number: u32) -> u32
    requires { number < 67108864 }
    ensures bits { part 0 26 result ≡ number }
    ensures rest { part 26 6 result ≡ part 26 6 word }
{
    number + Field::<26, 6>::get(word) * 0x400_0000
}

/// A conditional branch of AArch64 with this number in bits 5 to 23.
pub(crate) fn with_cond_19(word: u32, number: u32) -> u32
    requires { number < 524288 }
    ensures bits { part 5 19 result ≡ number }
    ensures rest { cond_rest result ≡ cond_rest word }
{
    Field::<0, 5>::get(word) + number * 0x20 + Field::<24, 8>::get(word) * 0x100_0000
}

/// A move of AArch64 with this number in bits 5 to 20.
pub(crate) fn with_move_16(word: u32, number: u32) -> u32
    requires { number < 65536 }
    ensures bits { part 5 16 result ≡ number }
    ensures rest { move_rest result ≡ move_rest word }
{
    Field::<0, 5>::get(word) + number * 0x20 + Field::<21, 11>::get(word) * 0x20_0000
}
