// How much of the heap is allocated.

ghost use Rattle.std.specs.Prelude.{◌≡◌, ℕ, ◌≤◌};

use std::marker::Model;

/// The first address of the heap that is not allocated, from 0x30000000 to 0x30400000.
#[derive(Drop)]
pub struct HeapMark {
    address: u64,
}

impl Model for HeapMark {
    ghost use Rattle.std.specs.Prelude.{ℕ, ◌≤◌};

    ghost Value = { ℕ };

    ghost view = { λ heap. heap.address };

    ghost invariant = { λ heap. (0x30000000 ≤ heap.address) × (heap.address ≤ 0x30400000) };
}

impl HeapMark {
    /// Nothing is allocated.
    pub fn new() -> HeapMark
        ensures { result ≡ 0x30000000 }
    {
        HeapMark {
            address: 0x3000_0000,
        }
    }

    /// Returns the first address that is not allocated.
    pub fn mark(&self) -> u64
        ensures value { result ≡ self.now }
        ensures low { 0x30000000 ≤ result }
        ensures high { result ≤ 0x30400000 }
    {
        self.address
    }

    // Allocates the heap up to an address.
    pub(crate) fn set(&mut self, address: u64)
        requires low { 0x30000000 ≤ address }
        requires high { address ≤ 0x30400000 }
        ensures { self.new ≡ address }
    {
        self.address = address;
    }
}
