// The heap of a run.

ghost use Rattle.std.specs.Prelude.{◌≡◌, ℕ, ◌+◌, ◌≤◌, ◌<◌, ◌⊎◌, length, slice_index, IfOk};
ghost use Rattle.lg_base.specs.Spaces.{number_at, written};

use super::{byte_or_zero, number_in, number_past, reach, write_number};
use crate::refusal::OutOfMemory;
use std::alloc::Global;
use std::marker::Model;

const SIZE: usize = 0x40_0000;

/// The 4,194,304 bytes of the heap. Only those up to the last one that was stored are held; the ones after them are 0. Room for all is taken
/// at the start, so that no store takes memory.
#[derive(Drop)]
pub struct Heap {
    held: Vec<u8>,
}

impl Model for Heap {
    ghost use Rattle.std.specs.Prelude.{◌≤◌, ℕ, List, length, vec_capacity};
    ghost use Rattle.lg_base.specs.Held.{from_front};

    ghost Value = { List ℕ };

    ghost view = { λ h. from_front 0x400000 h.held.items };

    ghost invariant = { λ h. (length h.held.items ≤ 0x400000) × (0x400000 ≤ vec_capacity h.held) };
}

impl Heap {
    /// Makes a heap in which every byte is 0. Err is out of memory.
    pub fn new(alloc: Global) -> Result<Heap, OutOfMemory>
        ensures len { IfOk result (λ h. length h ≡ 0x400000) }
        ensures zero { IfOk result (λ h. slice_index h ≡ (λ _. 0)) }
    {
        let held = Vec::with_capacity(alloc, SIZE)?;
        Ok(Heap { held })
    }

    /// Makes every byte 0.
    pub fn clear(&mut self)
        ensures len { length self.new ≡ 0x400000 }
        ensures zero { slice_index self.new ≡ (λ _. 0) }
    {
        self.held.clear();
    }

    /// Returns the byte at a place.
    pub fn get(&self, at: usize) -> u8
        ensures { result ≡ slice_index self.now at }
    {
        byte_or_zero(&self.held, at)
    }

    /// Returns the bytes that are held.
    pub fn held(&self) -> &[u8]
        ensures bytes { (k : ℕ) → k < length result.now → slice_index result.now k ≡ slice_index self.now k }
        ensures len { length result.now ≤ 0x400000 }
    {
        &self.held
    }

    /// Returns the number in `width` bytes from a place on, the lowest byte first. `width` is 1, 2, 4 or 8.
    #[inline(always)]
    pub fn load(&self, at: usize, width: u32) -> u64
        requires inside { at + width ≤ 0x400000 }
        requires width { (width ≡ 1) ⊎ (width ≡ 2) ⊎ (width ≡ 4) ⊎ (width ≡ 8) }
        ensures { result ≡ number_at (slice_index self.now) at width }
    {
        if at + width as usize <= self.held.len() {
            number_in(&self.held, at, width)
        } else {
            number_past(&self.held, at, width)
        }
    }

    /// Writes the low `width` bytes of a number from a place on, the lowest byte first. `width` is 1, 2, 4 or 8.
    #[inline(always)]
    pub fn store(&mut self, at: usize, width: u32, value: u64)
        requires inside { at + width ≤ 0x400000 }
        requires width { (width ≡ 1) ⊎ (width ≡ 2) ⊎ (width ≡ 4) ⊎ (width ≡ 8) }
        ensures bytes { slice_index self.new ≡ written (slice_index self.old) at width value }
        ensures len { length self.new ≡ 0x400000 }
    {
        reach(&mut self.held, at + width as usize);
        write_number(&mut self.held, at, width, value);
    }
}
