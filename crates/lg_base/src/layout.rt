//! Addresses of the machine that the text is written for, and the most bytes of a text. Their definitions are in `specs/Layout.antt` and
//! `specs/Conventions.antt`.

/// The first address of code.
pub const CODE_BASE: u64 = 0x1000_0000;

/// The first address of code as a word of 32 bits, as listings and patches have addresses.
pub const CODE_BASE_WORD: u32 = 0x1000_0000;

/// The first address of the data part.
pub const DATA_BASE: u64 = 0x2000_0000;

/// The first address of the argument part.
pub const ARGS_BASE: u64 = 0x2800_0000;

/// The first address of the heap.
pub const HEAP_BASE: u64 = 0x3000_0000;

/// The bytes of the heap.
pub const HEAP_SIZE: u64 = 0x40_0000;

/// The first address of the stack.
pub const STACK_BASE: u64 = 0x3FF0_0000;

/// The bytes of the stack.
pub const STACK_SIZE: u64 = 0x10_0000;

/// The address after the stack.
pub const STACK_END: u64 = 0x4000_0000;

/// The most bytes of code.
pub const MOST_CODE: u32 = 0x400_0000;

/// The most bytes that a text has.
pub const MOST_TEXT: usize = 16_777_216;
