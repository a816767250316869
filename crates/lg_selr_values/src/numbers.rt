// The code that loads a number.

ghost use Rattle.std.specs.Prelude.{◌≡◌, ◌+◌, ◌≤◌, ◌++◌, length};
ghost use Rattle.lg_base.specs.Words.{is_half};
ghost use Rattle.lg_selr_values.specs.Processor.Numbers.{is_short, low_part, high_part, half_code, above, low_code, wide_code, long_code, number_code};
ghost use Rattle.lg_selr_values.specs.Items.{words_in, ones};

use crate::items::Item;
use crate::rows::{imm, shift, upper};
use lg_base::word::is_half;
use lg_rv::{ImmOp, ShiftOp, UpperOp};
use lg_sel::Items;

/// Appends the code that loads a number, a word of 64 bits, into a register: 1 instruction where it has 12 bits, at most 2 where it has 32, and at
/// most 8. There is room for them.
pub fn put_number(rd: u8, value: u64, items: &mut Items<Item>)
    requires { words_in items.old + length (number_code rd value) ≤ 64 }
    ensures { items.new ≡ items.old ++ ones (number_code rd value) }
{
    if is_short(value) {
        items.one(imm(ImmOp::Addi, rd, 0, low_part(value)));
    } else if is_half(value) {
        put_half(rd, value, items);
    } else {
        put_long(rd, value, items);
    }
}

/// Returns whether the signed view of a word is from -2,048 to 2,047, as the numbers of 12 bits are.
pub fn is_short(value: u64) -> bool
    ensures { result ≡ is_short value }
{
    value.wrapping_add(2048) < 4096
}

/// Returns the low 12 bits of a word, with their sign: from -2,048 to 2,047.
pub fn low_part(value: u64) -> i32
    ensures { result ≡ low_part value }
{
    let low = (value % 4096) as i32;
    if low < 2048 { low } else { low - 4096 }
}

/// Returns the 20 bits above them, for `lui`, which make up for the sign: from 0 to 1,048,575.
pub fn high_part(value: u64) -> u32
    ensures { result ≡ high_part value }
{
    ((value % 0x1_0000_0000 + 2048) / 4096 % 0x10_0000) as u32
}

/// Returns the word without its low 12 bits, which have a sign, 12 bits further down.
fn above(value: u64) -> u64
    ensures { result ≡ above value }
{
    let sum = value.wrapping_add(2048);
    if sum < 1 << 63 {
        sum / 4096
    } else {
        sum / 4096 + 0xFFF0_0000_0000_0000
    }
}

// Appends the code that loads a number whose signed view has 32 bits: 1 or 2 instructions, for which there is room.
fn put_half(rd: u8, value: u64, items: &mut Items<Item>)
    requires { words_in items.old + length (half_code rd value) ≤ 64 }
    ensures { items.new ≡ items.old ++ ones (half_code rd value) }
{
    let high = upper(UpperOp::Lui, rd, high_part(value));
    if value % 4096 == 0 {
        items.one(high);
    } else {
        items.all(&[high, imm(ImmOp::Addiw, rd, rd, low_part(value))]);
    }
}

// Appends the code that moves a register up by 12 bits and adds the low 12 of a number: 1 or 2 instructions, for which there is room.
fn put_low(rd: u8, value: u64, items: &mut Items<Item>)
    requires { words_in items.old + length (low_code rd value) ≤ 64 }
    ensures { items.new ≡ items.old ++ ones (low_code rd value) }
{
    let up = shift(ShiftOp::Slli, rd, rd, 12);
    if value % 4096 == 0 {
        items.one(up);
    } else {
        items.all(&[up, imm(ImmOp::Addi, rd, rd, low_part(value))]);
    }
}

// Appends the code that loads a number of at most 32 bits and 12 for each of `n` steps. There is room for it.
#[tactic(auto, using(crate::proofs::NumberLemmas::wide_none, crate::proofs::NumberLemmas::wide_short, crate::proofs::NumberLemmas::wide_half, crate::proofs::NumberLemmas::wide_more, crate::proofs::NumberLemmas::words_after, crate::proofs::NumberLemmas::ones_behind))]
fn put_wide(n: u32, rd: u8, value: u64, items: &mut Items<Item>)
    requires { words_in items.old + length (wide_code n rd value) ≤ 64 }
    ensures { items.new ≡ items.old ++ ones (wide_code n rd value) }
{
    if n == 0 {
        put_half(rd, value, items);
    } else if is_short(value) {
        items.one(imm(ImmOp::Addi, rd, 0, low_part(value)));
    } else if is_half(value) {
        put_half(rd, value, items);
    } else {
        put_wide(n - 1, rd, above(value), items);
        put_low(rd, value, items);
    }
}

// Appends the code that loads any number. There is room for it.
#[tactic(auto, using(crate::proofs::NumberLemmas::words_after, crate::proofs::NumberLemmas::ones_behind), unfolding(crate::specs::Processor::Numbers::long_code))]
fn put_long(rd: u8, value: u64, items: &mut Items<Item>)
    requires { words_in items.old + length (long_code rd value) ≤ 64 }
    ensures { items.new ≡ items.old ++ ones (long_code rd value) }
{
    put_wide(2, rd, above(value), items);
    put_low(rd, value, items);
}
