// What a memory of cells holds, and what can be written.

use lg_base::{OutOfMemory, Space};
use lg_cells::*;
use std::alloc::Global;
use std::test::Fail;

// Returns whether a memory with a data part of eight bytes and an argument part of one is as it was made.
fn are_parts_told(memory: &CellMemory) -> bool {
    memory.load(0x2000_0000, 4) == Some(0x0403_0201)
        && memory.load(0x2000_0004, 8) == None
        && memory.load(0x2800_0000, 1) == Some(9)
        && !memory.can_store(0x3000_0000, 1)
}

// Returns whether the heap, up to 0x3000_0010, can be written, and its first byte is read once it is.
fn is_heap_told(memory: &mut CellMemory) -> bool {
    memory.can_store(0x3000_0008, 8)
        && !memory.can_store(0x3000_000c, 8)
        && memory.load(0x3000_0000, 1) == None
        && memory.put(0x3000_0000, 7)
        && memory.load(0x3000_0000, 1) == Some(7)
}

fn is_told(alloc: Global) -> Result<bool, OutOfMemory> {
    let mut memory = CellMemory::new(alloc, &[1, 2, 3, 4, 5, 6, 7, 8], &[9])?;
    let are_parts = are_parts_told(&memory);
    memory.raise(0x3000_0010);
    Ok(are_parts && is_heap_told(&mut memory))
}

#[test]
fn tells_what_was_written(rt: HostRuntime) -> Result<(), Fail> {
    assert!(rt; is_told(rt.alloc())?);
    Ok(())
}
