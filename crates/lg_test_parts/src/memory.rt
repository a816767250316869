// The memory of a run, at the edges of its parts.

use lg_base::{Memory, OutOfMemory, Space};
use std::alloc::Global;
use std::test::Fail;

// A load: the address, the width in bytes, and the number, if there is one.
type Load = (u64, u32, Option<u64>);

// A store: the address, the width in bytes, the number, and whether it is stored.
type Store = (u64, u32, u64, bool);

// Stores into a memory whose data part has 3 bytes and whose argument part has 2.
const STORES: &[Store] = &[
    (0x2800_0001, 2, 1, false),
    (0x3000_0000, 8, 0x8877_6655_4433_2211, true),
    (0x3FFF_FFFF, 1, 0x1FF, true),
];

// Loads after these stores: no part touches another.
const LOADS: &[Load] = &[
    (0x2000_0000, 2, Some(0)),
    (0x2000_0000, 4, None),
    (0x2000_0003, 1, None),
    (0x2800_0000, 2, Some(0)),
    (0x3000_0001, 4, Some(0x5544_3322)),
    (0x303F_FFF8, 8, Some(0)),
    (0x303F_FFF9, 8, None),
    (0x3FEF_FFFF, 1, None),
    (0x4000_0000, 1, None),
    (0xFFFF_FFFF_FFFF_FFFF, 8, None),
];

// Loads of a memory with the parts `data` and `args`.
const LOADS_OF_PARTS: &[Load] = &[
    (0x2000_0000, 4, Some(0x6174_6164)),
    (0x2800_0000, 4, Some(0x7367_7261)),
];

// Returns whether the rows of a table are answered so.
fn loads_are(memory: &Memory, loads: &[Load]) -> bool {
    for (address, width, wanted) in loads {
        let found = match width {
            1 | 2 | 4 | 8 => memory.load(*address, *width),
            _ => return false,
        };
        if found != *wanted {
            return false;
        }
    }
    true
}

fn stores_are(memory: &mut Memory, stores: &[Store]) -> bool {
    for (address, width, value, wanted) in stores {
        let done = match width {
            1 | 2 | 4 | 8 => memory.store(*address, *width, *value),
            _ => return false,
        };
        if done != *wanted {
            return false;
        }
    }
    true
}

// Returns whether single bytes are read and put.
fn bytes_are_put(memory: &mut Memory) -> bool {
    memory.get(0x3FFF_FFFF) == Some(0xFF)
        && memory.can_put(0x3000_0000)
        && memory.put(0x3000_0000, 7)
        && memory.get(0x3000_0000) == Some(7)
}

fn is_kept(alloc: Global) -> Result<bool, OutOfMemory> {
    let mut memory = Memory::new(alloc, 3, 2)?;
    Ok(stores_are(&mut memory, STORES) && loads_are(&memory, LOADS) && bytes_are_put(&mut memory))
}

fn are_parts_kept(alloc: Global) -> Result<bool, OutOfMemory> {
    let memory = Memory::with_parts(alloc, b"data", b"args")?;
    Ok(loads_are(&memory, LOADS_OF_PARTS))
}

// Whether both memories are so.
fn are_kept(alloc: Global) -> Result<bool, OutOfMemory> {
    Ok(is_kept(alloc)? && are_parts_kept(alloc)?)
}

#[test]
fn loads_what_was_stored(rt: HostRuntime) -> Result<(), Fail> {
    assert!(rt; are_kept(rt.alloc())?);
    Ok(())
}
