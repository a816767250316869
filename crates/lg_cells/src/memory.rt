// The memory of the portable machine.

ghost use Rattle.std.specs.Prelude.{◌≡◌, ℕ, ◌+◌, ◌-◌, ◌<◌, ◌≤◌, ◌^◌, length, IsTrue, IfOk, if◌then◌else◌, true, false};
ghost use Rattle.lg_base.specs.Spaces.{put_some, raised, loaded, stored};
ghost use Rattle.lg_cells.specs.Cells.{cell_by, cell_of, first_cells, is_room};
ghost use Rattle.lg_cells.specs.Memories.{byte_at, room_at, place_of, stack_cell, without, opened, closed, first_bytes, first_room, writable, cell_at, fills, IsSameSize, IsSpan};

use crate::cell::Cell;
use crate::part::{CLOSED, FRESH, Part};
use lg_base::layout::DATA_BASE;
use lg_base::{OutOfMemory, Space};
use std::alloc::Global;
use std::marker::Model;

const ARGS: u64 = 0x2800_0000;

const HEAP: u64 = 0x3000_0000;

const HEAP_SIZE: u64 = 0x40_0000;

const STACK: u64 = 0x3FF0_0000;

const STACK_SIZE: u64 = 0x10_0000;

/// The data part, the argument part, the heap and the stack, at the addresses 0x20000000, 0x28000000, 0x30000000 and
/// 0x3FF00000, with a mark at each byte that was never written. Addresses of the heap from its mark on, and those of the stack
/// that are not open, hold nothing and can't be written.
#[derive(Drop)]
pub struct CellMemory {
    data_size: u64,
    args_size: u64,
    mark: u64,
    low: Part,
    stack: Part,
}

impl Model for CellMemory {
    ghost use Rattle.lg_cells.specs.Memories.{Marked, IsMarked};

    ghost Value = { Marked };

    ghost view = { λ m. record { data_size = m.data_size; args_size = m.args_size; mark = m.mark; low = m.low; stack = m.stack } };

    ghost invariant = { λ m. IsMarked record { data_size = m.data_size; args_size = m.args_size; mark = m.mark; low = m.low; stack = m.stack } };
}

// Returns the place of an address below the stack, for parts of these sizes.
fn place(data_size: u64, args_size: u64, mark: u64, address: u64) -> Option<usize>
    requires data_part { data_size ≤ 0x1000000 }
    requires args { args_size ≤ 0x100000 }
    requires mark { (0x30000000 ≤ mark) × (mark ≤ 0x30400000) }
    ensures { result ≡ place_of data_size args_size mark address }
{
    if DATA_BASE <= address && address < DATA_BASE + data_size {
        Some((address - DATA_BASE) as usize)
    } else if ARGS <= address && address < ARGS + args_size {
        Some((address - ARGS + data_size) as usize)
    } else if HEAP <= address && address < mark {
        Some((address - HEAP + data_size + args_size) as usize)
    } else {
        None
    }
}

// Returns the cell of an address of the stack.
fn stack_cell(stack: &Part, address: u64) -> Cell
    ensures { result ≡ stack_cell stack.now address }
{
    if STACK <= address && address < STACK + STACK_SIZE {
        stack.cell((STACK + STACK_SIZE - 1 - address) as usize)
    } else {
        Cell::Closed
    }
}

// Returns the part of the data and the arguments, with room for the heap after them.
fn first_part(alloc: Global, image: &[u8], args: &[u8]) -> Result<Part, OutOfMemory>
    requires image { length image.now ≤ 0x1000000 }
    requires args { length args.now ≤ 0x100000 }
    ensures cells { IfOk result (λ p. cell_of p ≡ first_cells image.now args.now) }
    ensures len { IfOk result (λ p. length p.marks ≡ length image.now + length args.now) }
    ensures most { IfOk result (λ p. p.most ≡ length image.now + length args.now + 0x400000) }
{
    let mut part = Part::with_capacity(alloc, image.len() + args.len() + HEAP_SIZE as usize)?;
    part.append(image);
    part.append(args);
    Ok(part)
}

impl CellMemory {
    /// Returns the memory of a run's start, with these data and argument parts, of at most 16,777,216 and 1,048,576 bytes: their bytes
    /// are written and can be written, and no other address can.
    pub fn new(alloc: Global, image: &[u8], args: &[u8]) -> Result<CellMemory, OutOfMemory>
        requires image { length image.now ≤ 0x1000000 }
        requires args { length args.now ≤ 0x100000 }
        ensures bytes { IfOk result (λ m. byte_at m ≡ first_bytes image.now args.now) }
        ensures rooms { IfOk result (λ m. room_at m ≡ first_room (length image.now) (length args.now)) }
        ensures data_size { IfOk result (λ m. m.data_size ≡ length image.now) }
        ensures args_size { IfOk result (λ m. m.args_size ≡ length args.now) }
        ensures mark { IfOk result (λ m. m.mark ≡ 0x30000000) }
    {
        Ok(CellMemory {
            data_size: image.len() as u64,
            args_size: args.len() as u64,
            mark: HEAP,
            low: first_part(alloc, image, args)?,
            stack: Part::with_capacity(alloc, STACK_SIZE as usize)?,
        })
    }

    // Returns the cell of an address.
    fn cell(&self, address: u64) -> Cell
        ensures { result ≡ cell_at self.now address }
    {
        if address >= STACK {
            return stack_cell(&self.stack, address);
        }
        match place(self.data_size, self.args_size, self.mark, address) {
            Some(at) => self.low.cell(at),
            None => Cell::Closed,
        }
    }

    // Returns the byte that was written at an address.
    fn byte(&self, address: u64) -> Option<u8>
        ensures { result ≡ byte_at self.now address }
    {
        self.cell(address).byte()
    }

    // Returns whether an address can be written.
    fn is_room(&self, address: u64) -> bool
        ensures { result ≡ room_at self.now address }
    {
        self.cell(address).is_room()
    }

    // Returns the cell this many addresses after one; after the last address there is none.
    fn cell_after(&self, address: u64, count: u64) -> Cell
        requires { count < 8 }
        ensures value { result ≡ cell_at self.now (address + count) }
        ensures end { IsTrue (is_room result) → address + count < 2 ^ 64 }
    {
        // by the sizes of the parts there is nothing after the last address
        let _ = &self.mark;
        match address.checked_add(count) {
            Some(address) => self.cell(address),
            None => Cell::Closed,
        }
    }

    // Returns the place of the first of `width` addresses, if they all lie in one part below the stack. None says nothing.
    #[inline(always)]
    fn span(&self, address: u64, width: u32) -> Option<usize>
        requires { width ≤ 8 }
        ensures { IsSpan self.now address width result }
    {
        let end = address.checked_add(u64::from(width))?;
        if DATA_BASE <= address && end <= DATA_BASE + self.data_size {
            return Some((address - DATA_BASE) as usize);
        }
        if HEAP <= address && end <= self.mark {
            return Some((address - HEAP + self.data_size + self.args_size) as usize);
        }
        if ARGS <= address && end <= ARGS + self.args_size {
            return Some((address - ARGS + self.data_size) as usize);
        }
        None
    }

    // Returns the number in `width` bytes, cell by cell.
    #[inline(never)]
    fn load_each(&self, address: u64, width: u32) -> Option<u64>
        requires { width ≤ 8 }
        ensures { result ≡ loaded (byte_at self.now) address width }
    {
        let mut value: u64 = 0;
        let mut left = width as u64;
        while left > 0 {
            left -= 1;
            match self.cell_after(address, left).byte() {
                Some(byte) => value = value * 256 + byte as u64,
                None => return None,
            }
        }
        Some(value)
    }

    /// Returns the number in `width` bytes from an address on, the lowest byte first, or `None` exactly when one of them was never written or
    /// can't be there, as bytes after the last address. `width` is at most 8.
    #[inline(always)]
    pub fn load(&self, address: u64, width: u32) -> Option<u64>
        requires { width ≤ 8 }
        ensures { result ≡ loaded (byte_at self.now) address width }
    {
        if let Some(at) = self.span(address, width)
            && let Some(word) = self.low.word(at, width)
        {
            return Some(word);
        }
        self.load_each(address, width)
    }

    /// Returns whether each of `width` bytes from an address on can be written; bytes after the last address can't. `width` is at most 8.
    pub fn can_store(&self, address: u64, width: u32) -> bool
        requires { width ≤ 8 }
        ensures value { result ≡ writable (room_at self.now) address width }
        ensures end { IsTrue result → address + width ≤ 2 ^ 64 }
    {
        for i in 0..width as u64 {
            if !self.cell_after(address, i).is_room() {
                return false;
            }
        }
        true
    }

    /// Writes the low `width` bytes of a number from an address on, the lowest byte first. Each of the bytes can be written;
    /// `width` is at most 8, and the bytes end by 2^64.
    pub fn store(&mut self, address: u64, width: u32, value: u64)
        requires narrow { width ≤ 8 }
        requires end { address + width ≤ 2 ^ 64 }
        requires room { IsTrue (writable (room_at self.old) address width) }
        ensures bytes { byte_at self.new ≡ stored (byte_at self.old) address width value }
        ensures rooms { room_at self.new ≡ room_at self.old }
        ensures sizes { IsSameSize self.old self.new }
    {
        let mut rest = value;
        for i in 0..width as u64 {
            self.put_byte(address + i, (rest % 256) as u8);
            rest /= 256;
        }
    }

    // Writes a number cell by cell, if each of its bytes can be written. Returns false if not, and then nothing changes.
    #[inline(never)]
    fn put_each(&mut self, address: u64, width: u32, value: u64) -> bool
        requires { width ≤ 8 }
        ensures done { result ≡ writable (room_at self.old) address width }
        ensures bytes { byte_at self.new ≡ (if result then stored (byte_at self.old) address width value else byte_at self.old) }
        ensures rooms { room_at self.new ≡ room_at self.old }
        ensures sizes { IsSameSize self.old self.new }
        ensures unchanged { result ≡ false → self.new ≡ self.old }
    {
        if !self.can_store(address, width) {
            return false;
        }
        self.store(address, width, value);
        true
    }

    /// Writes the low `width` bytes of a number from an address on, the lowest byte first, if each of them can be written. False
    /// exactly where not, as for bytes after the last address, and then nothing changes. `width` is at most 8.
    #[inline(always)]
    pub fn put_word(&mut self, address: u64, width: u32, value: u64) -> bool
        requires { width ≤ 8 }
        ensures done { result ≡ writable (room_at self.old) address width }
        ensures bytes { byte_at self.new ≡ (if result then stored (byte_at self.old) address width value else byte_at self.old) }
        ensures rooms { room_at self.new ≡ room_at self.old }
        ensures sizes { IsSameSize self.old self.new }
        ensures unchanged { result ≡ false → self.new ≡ self.old }
    {
        if let Some(at) = self.span(address, width)
            && self.low.put_word(at, width, value)
        {
            return true;
        }
        self.put_each(address, width, value)
    }

    // Writes a byte where one can be written.
    #[inline]
    fn put_byte(&mut self, address: u64, byte: u8)
        requires { room_at self.old address ≡ true }
        ensures bytes { byte_at self.new ≡ put_some (byte_at self.old) address byte }
        ensures rooms { room_at self.new ≡ room_at self.old }
        ensures sizes { IsSameSize self.old self.new }
    {
        if address >= STACK {
            self.stack
                .set((STACK + STACK_SIZE - 1 - address) as usize, byte);
            return;
        }
        if let Some(at) = place(self.data_size, self.args_size, self.mark, address) {
            self.low.set(at, byte);
        }
    }

    // Writes a byte. False exactly where the address can't be written, and then nothing changes.
    fn write(&mut self, address: u64, byte: u8) -> bool
        ensures done { result ≡ room_at self.old address }
        ensures bytes { byte_at self.new ≡ (if result then put_some (byte_at self.old) address byte else byte_at self.old) }
        ensures rooms { room_at self.new ≡ room_at self.old }
        ensures sizes { IsSameSize self.old self.new }
    {
        if !self.is_room(address) {
            return false;
        }
        self.put_byte(address, byte);
        true
    }

    // Gives this many addresses of the stack, from one on, a mark. No byte is there then.
    fn mark_stack(&mut self, from: u64, count: u64, mark: u8)
        requires low { 0x3FF00000 ≤ from }
        requires high { from + count ≤ 0x40000000 }
        requires mark { mark < 2 }
        ensures cells { cell_at self.new ≡ fills (cell_at self.old) from count (cell_by mark 0) }
        ensures sizes { IsSameSize self.old self.new }
    {
        let end = (STACK + STACK_SIZE - from) as usize;
        self.stack.reach(end);
        self.stack.fill(end - count as usize, count as usize, mark);
    }

    /// Lets this many addresses of the stack from one on be written; no byte is there. They lie from 0x3FF00000 to
    /// 0x40000000.
    pub fn open(&mut self, from: u64, count: u64)
        requires low { 0x3FF00000 ≤ from }
        requires high { from + count ≤ 0x40000000 }
        ensures bytes { byte_at self.new ≡ without (byte_at self.old) from count }
        ensures rooms { room_at self.new ≡ opened (room_at self.old) from count }
        ensures sizes { IsSameSize self.old self.new }
    {
        self.mark_stack(from, count, FRESH);
    }

    /// Takes this many addresses of the stack from one on out of the memory, with their bytes. They lie from 0x3FF00000 to
    /// 0x40000000.
    pub fn close(&mut self, from: u64, count: u64)
        requires low { 0x3FF00000 ≤ from }
        requires high { from + count ≤ 0x40000000 }
        ensures bytes { byte_at self.new ≡ without (byte_at self.old) from count }
        ensures rooms { room_at self.new ≡ closed (room_at self.old) from count }
        ensures sizes { IsSameSize self.old self.new }
    {
        self.mark_stack(from, count, CLOSED);
    }
}

impl Space for CellMemory {
    ghost use Rattle.lg_cells.specs.Memories.{byte_at, room_at};

    ghost byte_of = { byte_at };

    ghost room = { room_at };

    fn get(&self, address: u64) -> Option<u8> {
        self.byte(address)
    }

    fn slice(&self, _address: u64, _len: u64) -> Option<&[u8]> {
        // each byte has its mark beside it
        None
    }

    fn can_put(&self, address: u64) -> bool {
        self.is_room(address)
    }

    fn put(&mut self, address: u64, byte: u8) -> bool {
        self.write(address, byte)
    }

    fn raise(&mut self, mark: u64) {
        if mark > self.mark {
            let len = self.data_size + self.args_size + (mark - HEAP);
            self.low.grow(len as usize, FRESH);
            self.mark = mark;
        }
    }
}
