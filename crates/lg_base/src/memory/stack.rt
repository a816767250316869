// The stack of a run.

ghost use Rattle.std.specs.Prelude.{◌≡◌, ◌+◌, ◌-◌, ◌≤◌, ◌<◌, ◌^◌, ◌⊎◌, length, slice_index, IfOk};
ghost use Rattle.lg_base.specs.Held.{turned};
ghost use Rattle.lg_base.specs.Spaces.{number_at, written};

use super::{byte_or_zero, reach};
use crate::refusal::OutOfMemory;
use std::alloc::Global;
use std::marker::Model;

const SIZE: usize = 0x10_0000;

const LAST: usize = SIZE - 1;

/// The 1,048,576 bytes of the stack. Only those from the first one that was stored on are held, the last byte of the stack first; the ones
/// before them are 0. Room for all is taken at the start, so that no store takes memory.
#[derive(Drop)]
pub struct Stack {
    held: Vec<u8>,
}

impl Model for Stack {
    ghost use Rattle.std.specs.Prelude.{◌≤◌, ℕ, List, length, vec_capacity};
    ghost use Rattle.lg_base.specs.Held.{from_end};

    ghost Value = { List ℕ };

    ghost view = { λ s. from_end 0x100000 s.held.items };

    ghost invariant = { λ s. (length s.held.items ≤ 0x100000) × (0x100000 ≤ vec_capacity s.held) };
}

// Returns the number in `width` bytes from a place of the stack on, the lowest byte first. All of them are held.
#[inline(always)]
fn number_of(held: &[u8], at: usize, width: u32) -> u64
    requires inside { at + width ≤ 0x100000 }
    requires held { 0x100000 ≤ at + length held.now }
    requires width { width ≤ 8 }
    ensures value { result ≡ number_at (turned 0x100000 (slice_index held.now)) at width }
    ensures small { width ≤ 4 → result < 2 ^ 32 }
{
    let mut number = 0u64;
    let mut left = width as usize;
    while left > 0 {
        left -= 1;
        number = number * 256 + u64::from(held[LAST - (at + left)]);
    }
    number
}

// Returns the number in `width` bytes from a place of the stack on, by a constant width, so that the compiler reads it by one load.
#[inline(always)]
fn number_in(held: &[u8], at: usize, width: u32) -> u64
    requires inside { at + width ≤ 0x100000 }
    requires held { 0x100000 ≤ at + length held.now }
    requires width { (width ≡ 1) ⊎ (width ≡ 2) ⊎ (width ≡ 4) ⊎ (width ≡ 8) }
    ensures { result ≡ number_at (turned 0x100000 (slice_index held.now)) at width }
{
    match width {
        8 => number_of(held, at, 4) + number_of(held, at + 4, 4) * 0x1_0000_0000,
        4 => number_of(held, at, 4),
        2 => number_of(held, at, 2),
        _ => number_of(held, at, 1),
    }
}

// Returns the same number where not all of the bytes are held.
#[cold]
#[inline(never)]
fn number_past(held: &[u8], at: usize, width: u32) -> u64
    requires inside { at + width ≤ 0x100000 }
    requires width { width ≤ 8 }
    ensures { result ≡ number_at (turned 0x100000 (slice_index held.now)) at width }
{
    let mut number = 0u64;
    let mut left = width as usize;
    while left > 0 {
        left -= 1;
        number = number * 256 + u64::from(byte_or_zero(held, LAST - (at + left)));
    }
    number
}

// Writes the low bytes of a number from a place of the stack on, the lowest byte first. All of them are held.
#[inline(always)]
fn write_number_of(held: &mut [u8], at: usize, width: u32, value: u64)
    requires inside { at + width ≤ 0x100000 }
    requires held { 0x100000 ≤ at + length held.old }
    ensures { turned 0x100000 (slice_index held.new) ≡ written (turned 0x100000 (slice_index held.old)) at width value }
{
    let mut rest = value;
    for i in 0..width as usize {
        held[LAST - (at + i)] = (rest % 256) as u8;
        rest /= 256;
    }
}

// Writes the low bytes of a number from a place of the stack on, by a constant width, so that the compiler writes it by one store.
#[inline(always)]
fn write_number(held: &mut [u8], at: usize, width: u32, value: u64)
    requires inside { at + width ≤ 0x100000 }
    requires held { 0x100000 ≤ at + length held.old }
    requires width { (width ≡ 1) ⊎ (width ≡ 2) ⊎ (width ≡ 4) ⊎ (width ≡ 8) }
    ensures { turned 0x100000 (slice_index held.new) ≡ written (turned 0x100000 (slice_index held.old)) at width value }
{
    match width {
        8 => write_number_of(held, at, 8, value),
        4 => write_number_of(held, at, 4, value),
        2 => write_number_of(held, at, 2, value),
        _ => write_number_of(held, at, 1, value),
    }
}

impl Stack {
    /// Makes a stack in which every byte is 0. Err is out of memory.
    pub fn new(alloc: Global) -> Result<Stack, OutOfMemory>
        ensures len { IfOk result (λ s. length s ≡ 0x100000) }
        ensures zero { IfOk result (λ s. slice_index s ≡ (λ _. 0)) }
    {
        let held = Vec::with_capacity(alloc, SIZE)?;
        Ok(Stack { held })
    }

    /// Makes every byte 0.
    pub fn clear(&mut self)
        ensures len { length self.new ≡ 0x100000 }
        ensures zero { slice_index self.new ≡ (λ _. 0) }
    {
        self.held.clear();
    }

    /// Returns the byte at a place, which is below 1,048,576.
    pub fn get(&self, at: usize) -> u8
        requires { at < 0x100000 }
        ensures { result ≡ slice_index self.now at }
    {
        byte_or_zero(&self.held, LAST - at)
    }

    /// Returns the number in `width` bytes from a place on, the lowest byte first. `width` is 1, 2, 4 or 8.
    #[inline(always)]
    pub fn load(&self, at: usize, width: u32) -> u64
        requires inside { at + width ≤ 0x100000 }
        requires width { (width ≡ 1) ⊎ (width ≡ 2) ⊎ (width ≡ 4) ⊎ (width ≡ 8) }
        ensures { result ≡ number_at (slice_index self.now) at width }
    {
        if SIZE - at <= self.held.len() {
            number_in(&self.held, at, width)
        } else {
            number_past(&self.held, at, width)
        }
    }

    /// Writes the low `width` bytes of a number from a place on, the lowest byte first. `width` is 1, 2, 4 or 8.
    #[inline(always)]
    pub fn store(&mut self, at: usize, width: u32, value: u64)
        requires inside { at + width ≤ 0x100000 }
        requires width { (width ≡ 1) ⊎ (width ≡ 2) ⊎ (width ≡ 4) ⊎ (width ≡ 8) }
        ensures bytes { slice_index self.new ≡ written (slice_index self.old) at width value }
        ensures len { length self.new ≡ 0x100000 }
    {
        reach(&mut self.held, SIZE - at);
        write_number(&mut self.held, at, width, value);
    }
}
