// The memory of a run.

ghost use Rattle.std.specs.Prelude.{◌≡◌, ℕ, ◌+◌, ◌-◌, ◌^◌, ◌<◌, ◌≤◌, ◌⊎◌, ◌↔◌, List, length, slice_index, vec_capacity, true, false, IfOk, IfSome, IsSome, IsTrue, if◌then◌else◌};
ghost use Rattle.lg_base.specs.Spaces.{number_at, written, loaded, mapped, stored};
ghost use Rattle.lg_base.specs.Parts.{byte_at, lies_in, IsRangeOf, LiesInOnePart, IsSized, IsZeroed};

mod heap;
mod stack;

use self::heap::Heap;
use self::stack::Stack;
use crate::layout::{ARGS_BASE, DATA_BASE, HEAP_BASE, HEAP_SIZE, STACK_BASE, STACK_SIZE};
use crate::refusal::OutOfMemory;
use crate::space::Space;
use std::alloc::Global;
use std::marker::Model;

/// The memory of a run: the data part, the argument part, 4 MiB of heap and 1 MiB of stack, at the
/// addresses 0x20000000, 0x28000000, 0x30000000 and 0x3FF00000. Heap and stack hold only what was stored there.
#[derive(Drop)]
pub struct Memory {
    data: Vec<u8>,
    args: Vec<u8>,
    heap: Heap,
    stack: Stack,
}

impl Model for Memory {
    ghost use Rattle.lg_base.specs.Parts.{Parts, IsSized};

    ghost Value = { Parts };

    ghost view = { λ m. record { data_part = m.data.items; args_part = m.args.items; heap_part = m.heap; stack_part = m.stack } };

    ghost invariant = { λ m. IsSized record { data_part = m.data.items; args_part = m.args.items; heap_part = m.heap; stack_part = m.stack } };
}

// This many zero bytes.
fn zeros(alloc: Global, len: usize) -> Result<Vec<u8>, OutOfMemory>
    ensures len { IfOk result (λ v. length v.items ≡ len) }
    ensures zero { IfOk result (λ v. slice_index v.items ≡ (λ _. 0)) }
{
    Ok(vec![in alloc; 0u8; len]?)
}

// Returns whether `width` bytes from an address on lie in the part that begins at `base`.
#[inline(always)]
fn lies_in(bytes: &[u8], base: u64, address: u64, width: u32) -> bool
    requires { base + length bytes.now < 2 ^ 64 }
    ensures { result ≡ lies_in base bytes.now address width }
{
    address >= base
        && bytes.len() as u64 >= u64::from(width)
        && address - base <= bytes.len() as u64 - u64::from(width)
}

// Returns the same for a part of a fixed size, by one comparison: below the base the difference wraps, and is greater than any size.
#[inline(always)]
fn lies_in_fixed(size: u64, base: u64, address: u64, width: u32) -> bool
    requires width { width ≤ size }
    requires end { base + size < 2 ^ 62 }
    ensures { (bytes : List ℕ) → length bytes ≡ size → result ≡ lies_in base bytes address width }
{
    address.wrapping_sub(base) <= size - u64::from(width)
}

// Returns a range of the bytes of a part that begins at `base`, where they have all of it.
fn range_of(bytes: &[u8], base: u64, address: u64, len: u64) -> Option<&[u8]>
    requires { base + length bytes.now < 2 ^ 64 }
    ensures { IfSome result (λ range. IsRangeOf bytes.now base address len range.now) }
{
    let held = bytes.len() as u64;
    if address < base || held < len || address - base > held - len {
        return None;
    }
    let start = (address - base) as usize;
    Some(&bytes[start..start + len as usize])
}

// Returns the byte at a place, or 0 past the end.
#[inline(always)]
fn byte_or_zero(bytes: &[u8], at: usize) -> u8
    ensures { result ≡ slice_index bytes.now at }
{
    if at < bytes.len() { bytes[at] } else { 0 }
}

// Returns the number in `width` bytes from `at` on, the lowest byte first.
#[inline(always)]
fn number_of(bytes: &[u8], at: usize, width: u32) -> u64
    requires inside { at + width ≤ length bytes.now }
    requires width { width ≤ 8 }
    ensures value { result ≡ number_at (slice_index bytes.now) at width }
    ensures small { width ≤ 4 → result < 2 ^ 32 }
{
    let mut number = 0u64;
    let mut left = width as usize;
    while left > 0 {
        left -= 1;
        number = number * 256 + u64::from(bytes[at + left]);
    }
    number
}

// Returns the number in `width` bytes from `at` on, by a constant width, so that the compiler reads it by one load. It joins the bytes of
// four, and then two such halves, but not eight at once.
#[inline(always)]
fn number_in(bytes: &[u8], at: usize, width: u32) -> u64
    requires inside { at + width ≤ length bytes.now }
    requires width { (width ≡ 1) ⊎ (width ≡ 2) ⊎ (width ≡ 4) ⊎ (width ≡ 8) }
    ensures { result ≡ number_at (slice_index bytes.now) at width }
{
    match width {
        8 => number_of(bytes, at, 4) + number_of(bytes, at + 4, 4) * 0x1_0000_0000,
        4 => number_of(bytes, at, 4),
        2 => number_of(bytes, at, 2),
        _ => number_of(bytes, at, 1),
    }
}

// Returns the number in `width` bytes from `at` on, the lowest byte first, where those past the end are 0.
#[cold]
#[inline(never)]
fn number_past(bytes: &[u8], at: usize, width: u32) -> u64
    requires inside { at + width < 2 ^ 62 }
    requires width { width ≤ 8 }
    ensures { result ≡ number_at (slice_index bytes.now) at width }
{
    let mut number = 0u64;
    let mut left = width as usize;
    while left > 0 {
        left -= 1;
        number = number * 256 + u64::from(byte_or_zero(bytes, at + left));
    }
    number
}

// Writes the low bytes of a number from `at` on, the lowest byte first.
#[inline(always)]
fn write_number_of(bytes: &mut [u8], at: usize, width: u32, value: u64)
    requires { at + width ≤ length bytes.old }
    ensures { slice_index bytes.new ≡ written (slice_index bytes.old) at width value }
{
    let mut rest = value;
    for i in 0..width as usize {
        bytes[at + i] = (rest % 256) as u8;
        rest /= 256;
    }
}

// Writes the low bytes of a number from `at` on, by a constant width, so that the compiler writes it by one store.
#[inline(always)]
fn write_number(bytes: &mut [u8], at: usize, width: u32, value: u64)
    requires inside { at + width ≤ length bytes.old }
    requires width { (width ≡ 1) ⊎ (width ≡ 2) ⊎ (width ≡ 4) ⊎ (width ≡ 8) }
    ensures { slice_index bytes.new ≡ written (slice_index bytes.old) at width value }
{
    match width {
        8 => write_number_of(bytes, at, 8, value),
        4 => write_number_of(bytes, at, 4, value),
        2 => write_number_of(bytes, at, 2, value),
        _ => write_number_of(bytes, at, 1, value),
    }
}

// Puts these bytes, which are no more than there are, in place of all.
fn set_bytes(bytes: &mut Vec<u8>, list: &[u8])
    requires { length list.now ≤ length bytes.old.items }
    ensures { bytes.new.items ≡ list.now }
{
    bytes.truncate(list.len());
    bytes.copy_from_slice(list);
}

// Appends zeros up to a length, for which there is room.
#[cold]
#[inline(never)]
fn grow(bytes: &mut Vec<u8>, len: usize)
    requires room { len ≤ vec_capacity bytes.old }
    requires more { length bytes.old.items ≤ len }
    ensures same { slice_index bytes.new.items ≡ slice_index bytes.old.items }
    ensures len { length bytes.new.items ≡ len }
    ensures capacity { vec_capacity bytes.old ≤ vec_capacity bytes.new }
{
    let _grown = bytes.resize(len, 0);
}

// Appends zeros where there are fewer bytes than a length, for which there is room.
#[inline(always)]
fn reach(bytes: &mut Vec<u8>, len: usize)
    requires room { len ≤ vec_capacity bytes.old }
    ensures same { slice_index bytes.new.items ≡ slice_index bytes.old.items }
    ensures least { len ≤ length bytes.new.items }
    ensures most { (n : ℕ) → length bytes.old.items ≤ n → len ≤ n → length bytes.new.items ≤ n }
    ensures capacity { vec_capacity bytes.old ≤ vec_capacity bytes.new }
{
    if bytes.len() < len {
        grow(bytes, len);
    }
}

impl Memory {
    /// Returns a memory with data and arguments parts of these lengths, at most 16,777,216 and 1,048,576 bytes,
    /// in which every byte is 0.
    pub fn new(alloc: Global, image_len: u64, args_len: u64) -> Result<Memory, OutOfMemory>
        requires image { image_len ≤ 0x1000000 }
        requires args { args_len ≤ 0x100000 }
        ensures zeroed { IfOk result IsZeroed }
        ensures data_len { IfOk result (λ m. length m.data_part ≡ image_len) }
        ensures data { IfOk result (λ m. slice_index m.data_part ≡ (λ _. 0)) }
        ensures args_len { IfOk result (λ m. length m.args_part ≡ args_len) }
        ensures args { IfOk result (λ m. slice_index m.args_part ≡ (λ _. 0)) }
    {
        Ok(Memory {
            data: zeros(alloc, image_len as usize)?,
            args: zeros(alloc, args_len as usize)?,
            heap: Heap::new(alloc)?,
            stack: Stack::new(alloc)?,
        })
    }

    /// Returns a memory with these data and argument parts, of at most 16,777,216 and 1,048,576 bytes, in which
    /// every other byte is 0.
    pub fn with_parts(alloc: Global, image: &[u8], args: &[u8]) -> Result<Memory, OutOfMemory>
        requires image { length image.now ≤ 0x1000000 }
        requires args { length args.now ≤ 0x100000 }
        ensures zeroed { IfOk result IsZeroed }
        ensures data { IfOk result (λ m. m.data_part ≡ image.now) }
        ensures args { IfOk result (λ m. m.args_part ≡ args.now) }
    {
        Ok(Memory {
            data: Vec::from_slice(alloc, image)?,
            args: Vec::from_slice(alloc, args)?,
            heap: Heap::new(alloc)?,
            stack: Stack::new(alloc)?,
        })
    }

    /// Puts these bytes in place of the data and argument parts, and 0 in every other byte, as
    /// `with_parts` makes it, and takes no memory. False exactly where one of them is longer than the
    /// part is now, and then nothing changes. A shorter one makes its part so long.
    pub fn again(&mut self, image: &[u8], args: &[u8]) -> bool
        ensures done { IsTrue result ↔ ((length image.now ≤ length self.old.data_part) × (length args.now ≤ length self.old.args_part)) }
        ensures sized { IsSized self.old }
        ensures zeroed { result ≡ true → IsZeroed self.new }
        ensures data { result ≡ true → self.new.data_part ≡ image.now }
        ensures args { result ≡ true → self.new.args_part ≡ args.now }
        ensures unchanged { result ≡ false → self.new ≡ self.old }
    {
        if image.len() > self.data.len() || args.len() > self.args.len() {
            return false;
        }
        set_bytes(&mut self.data, image);
        set_bytes(&mut self.args, args);
        self.heap.clear();
        self.stack.clear();
        true
    }

    /// Returns the number in `width` bytes from an address on, the lowest byte first, or `None` exactly when not all
    /// bytes lie in one part. `width` is 1, 2, 4 or 8.
    #[inline(always)]
    pub fn load(&self, address: u64, width: u32) -> Option<u64>
        requires { (width ≡ 1) ⊎ (width ≡ 2) ⊎ (width ≡ 4) ⊎ (width ≡ 8) }
        ensures value { result ≡ loaded (byte_at self.now) address width }
        ensures one_part { IsSome result ↔ LiesInOnePart self.now address width }
    {
        if lies_in(&self.data, DATA_BASE, address, width) {
            return Some(number_in(&self.data, (address - DATA_BASE) as usize, width));
        }
        if lies_in_fixed(STACK_SIZE, STACK_BASE, address, width) {
            return Some(self.stack.load((address - STACK_BASE) as usize, width));
        }
        if lies_in_fixed(HEAP_SIZE, HEAP_BASE, address, width) {
            return Some(self.heap.load((address - HEAP_BASE) as usize, width));
        }
        if lies_in(&self.args, ARGS_BASE, address, width) {
            return Some(number_in(&self.args, (address - ARGS_BASE) as usize, width));
        }
        None
    }

    /// Writes the low `width` bytes of a number from an address on, the lowest byte first. False exactly
    /// where not all bytes lie in one part, and then nothing changes. `width` is 1, 2, 4 or 8.
    #[inline(always)]
    pub fn store(&mut self, address: u64, width: u32, value: u64) -> bool
        requires { (width ≡ 1) ⊎ (width ≡ 2) ⊎ (width ≡ 4) ⊎ (width ≡ 8) }
        ensures done { result ≡ mapped (byte_at self.old) address width }
        ensures one_part { IsTrue result ↔ LiesInOnePart self.old address width }
        ensures bytes { byte_at self.new ≡ (if result then stored (byte_at self.old) address width value else byte_at self.old) }
        ensures unchanged { result ≡ false → self.new ≡ self.old }
    {
        if lies_in(&self.data, DATA_BASE, address, width) {
            write_number(&mut self.data, (address - DATA_BASE) as usize, width, value);
            return true;
        }
        if lies_in_fixed(STACK_SIZE, STACK_BASE, address, width) {
            self.stack
                .store((address - STACK_BASE) as usize, width, value);
            return true;
        }
        if lies_in_fixed(HEAP_SIZE, HEAP_BASE, address, width) {
            self.heap
                .store((address - HEAP_BASE) as usize, width, value);
            return true;
        }
        if lies_in(&self.args, ARGS_BASE, address, width) {
            write_number(&mut self.args, (address - ARGS_BASE) as usize, width, value);
            return true;
        }
        false
    }
}

impl Space for Memory {
    ghost use Rattle.lg_base.specs.Spaces.{readable};
    ghost use Rattle.lg_base.specs.Parts.{byte_at};

    ghost byte_of = { λ m. byte_at m };

    ghost room = { λ m. readable (byte_at m) };

    fn get(&self, address: u64) -> Option<u8> {
        if address >= DATA_BASE && address - DATA_BASE < self.data.len() as u64 {
            return Some(self.data[(address - DATA_BASE) as usize]);
        }
        if address >= ARGS_BASE && address - ARGS_BASE < self.args.len() as u64 {
            return Some(self.args[(address - ARGS_BASE) as usize]);
        }
        if address >= HEAP_BASE && address - HEAP_BASE < HEAP_SIZE {
            return Some(self.heap.get((address - HEAP_BASE) as usize));
        }
        if address >= STACK_BASE && address - STACK_BASE < STACK_SIZE {
            return Some(self.stack.get((address - STACK_BASE) as usize));
        }
        None
    }

    fn slice(&self, address: u64, len: u64) -> Option<&[u8]> {
        if let Some(bytes) = range_of(&self.data, DATA_BASE, address, len) {
            return Some(bytes);
        }
        if let Some(bytes) = range_of(&self.args, ARGS_BASE, address, len) {
            return Some(bytes);
        }
        range_of(self.heap.held(), HEAP_BASE, address, len)
    }

    fn can_put(&self, address: u64) -> bool {
        self.get(address).is_some()
    }

    fn put(&mut self, address: u64, byte: u8) -> bool {
        self.store(address, 1, u64::from(byte))
    }

    fn raise(&mut self, mark: u64) {
        // the whole heap can be written from the start
        let _ = &self.heap;
    }
}
