// Code, with a cache of its decoded instructions.

ghost use Rattle.std.specs.Prelude.{◌≡◌, ◌≢◌, ◌<◌, ◌≤◌, ◌-◌, ◌+◌, ◌^◌, ℕ, List, length, drop, true, false, Some, None, IfOk, IfSome, IfNone, slice_index_or};
ghost use Rattle.lg_base.specs.Layout.{code_base};
ghost use Rattle.lg_cpu.specs.Fetches.{in_code};
ghost use Rattle.lg_cpu.specs.Decodings.{AreEmpty, AreDecodings, IsDecodedAt};

use lg_base::layout::CODE_BASE;
use lg_base::{CodeBytes, OutOfMemory};
use std::alloc::Global;
use std::marker::Model;

/// An instruction of a processor that can be decoded from code and cached. The cache is direct-mapped: each address has one slot.
pub trait Decodable: Copy + Drop {
    ghost use Rattle.std.specs.Prelude.{ℕ, Bool, List, Option, IfSome};

    /// The instruction at the front of a list of bytes, and its length in bytes.
    ghost front: { List ℕ → Option (Self × ℕ) };

    /// What every decoded instruction satisfies.
    ghost valid: { Self → Type 0 };

    /// Whether an address is aligned for an instruction.
    ghost aligned: { ℕ → Bool };

    /// The slot of an address.
    ghost slot: { ℕ → ℕ };

    /// Returns an arbitrary instruction, which fills empty entries. The addresses 0 and 4 have different slots, and 0 has slot 0.
    fn placeholder() -> Self
        ensures first { slot 0 ≡ 0 }
        ensures other { slot 4 ≢ 0 };

    /// Returns the slot of an address, which is below 4,096.
    fn slot_of(pc: u64) -> usize
        ensures value { result ≡ slot pc }
        ensures small { result < 4096 };

    /// Returns whether an address is aligned for an instruction.
    fn is_aligned(pc: u64) -> bool
        ensures { result ≡ aligned pc };

    /// Returns a copy, made by `copied!`.
    fn copied(&self) -> Self
        ensures { result ≡ self.now };

    /// Decodes the instruction at the front of a slice, and returns it with its length in bytes. None if no instruction begins there.
    fn decode(bytes: &[u8]) -> Option<(Self, u32)>
        ensures value { result ≡ front bytes.now }
        ensures valid { IfSome result (λ found. valid found.0) };
}

/// Copies an instruction variant by variant: of each variant the fields. A copy as a whole would load the bytes of all variants in each step, and
/// take the fields out of them by shifts.
macro_rules! copied {
    ($instr:expr, $($name:ident $({ $($field:ident),* })?),*) => {
        match *$instr {
            $(Instr::$name $({ $($field),* })? => Instr::$name $({ $($field),* })?,)*
        }
    };
}

pub(crate) use copied;

/// An entry of the cache: the decoded instruction at the address `pc`, and its length in bytes. An entry whose address has another slot is
/// empty.
#[derive(Clone, Copy)]
pub struct Decoded<I> {
    pub pc: u64,
    pub instr: I,
    pub len: u32,
}

/// Code, with a cache of its decoded instructions. Contracts see the bytes of the code alone: nothing that can be observed depends on which
/// instructions are cached.
#[derive(Drop)]
pub struct DecodeCache<I: Decodable> {
    code: CodeBytes,
    entries: Vec<Decoded<I>>,
}

impl<I: Decodable> Model for DecodeCache<I> {
    ghost use Rattle.std.specs.Prelude.{◌≡◌, ◌<◌, ◌^◌, ℕ, List, length};
    ghost use Rattle.lg_cpu.specs.Decodings.{AreDecodings};

    ghost Value = { List ℕ };

    ghost view = { λ c. c.code.items };

    ghost invariant = { λ c. (length c.entries.items ≡ 4096) × AreDecodings I.front I.valid I.aligned I.slot c.code.items c.entries.items };
}

// The number of entries. At 32 bytes each they take 128 KiB at most.
const ENTRIES: usize = 4096;

// Returns an address that has another slot than this one, so that an entry with it is empty.
fn outside(slot: usize) -> u64
    ensures first { slot ≡ 0 → result ≡ 4 }
    ensures other { slot ≢ 0 → result ≡ 0 }
{
    if slot == 0 { 4 } else { 0 }
}

// Makes the entries of an empty cache.
fn empty_entries<I: Decodable>(alloc: Global) -> Result<Vec<Decoded<I>>, OutOfMemory>
    ensures len { IfOk result (λ v. length v.items ≡ 4096) }
    ensures empty { IfOk result (λ v. AreEmpty I.slot v.items) }
{
    let instr = I::placeholder();
    let mut entries = Vec::with_capacity(alloc, ENTRIES)?;
    'slots: while entries.len() < ENTRIES {
        let pc = outside(entries.len());
        entries.push(Decoded { pc, instr, len: 0 })?;
    }
    Ok(entries)
}

// Empties every entry.
fn clear<I: Decodable>(entries: &mut [Decoded<I>])
    ensures len { length entries.new ≡ length entries.old }
    ensures empty { AreEmpty I.slot entries.new }
{
    let _instr = I::placeholder();
    'slots: for slot in 0..entries.len() {
        entries[slot].pc = outside(slot);
    }
}

// Returns whether an address is one of the code. Below the code the difference wraps, and is greater than any length.
fn is_in_code(code: &[u8], pc: u64) -> bool
    requires { length code.now < 2 ^ 32 }
    ensures { result ≡ in_code code.now pc }
{
    pc.wrapping_sub(CODE_BASE) < code.len() as u64
}

// Decodes the instruction at an address of the code into the address's slot. Returns false if there is none.
#[inline(never)]
fn fill<I: Decodable>(entries: &mut [Decoded<I>], code: &[u8], pc: u64, slot: usize) -> bool
    requires slot { slot ≡ I.slot pc }
    requires small { slot < 4096 }
    requires short { length code.now < 2 ^ 32 }
    requires len { length entries.old ≡ 4096 }
    requires right { AreDecodings I.front I.valid I.aligned I.slot code.now entries.old }
    ensures len { length entries.new ≡ 4096 }
    ensures right { AreDecodings I.front I.valid I.aligned I.slot code.now entries.new }
    ensures cached { result ≡ true → (d : Decoded I) → (slice_index_or entries.new slot d).pc ≡ pc }
    ensures none { result ≡ false → in_code code.now pc ≡ true → I.aligned pc ≡ true → I.front (drop (pc - code_base) code.now) ≡ None }
{
    if !is_in_code(code, pc) {
        return false;
    }
    if !I::is_aligned(pc) {
        return false;
    }
    match I::decode(&code[(pc - CODE_BASE) as usize..]) {
        Some((instr, len)) => {
            entries[slot] = Decoded { pc, instr, len };
            true
        }
        None => false,
    }
}

// Returns whether the slot of an address holds its instruction, after decoding it on a miss. A hit takes one comparison: entries are only
// made for aligned addresses of the code.
#[inline(always)]
fn is_cached<I: Decodable>(entries: &mut [Decoded<I>], code: &[u8], pc: u64, slot: usize) -> bool
    requires slot { slot ≡ I.slot pc }
    requires small { slot < 4096 }
    requires short { length code.now < 2 ^ 32 }
    requires len { length entries.old ≡ 4096 }
    requires right { AreDecodings I.front I.valid I.aligned I.slot code.now entries.old }
    ensures len { length entries.new ≡ 4096 }
    ensures right { AreDecodings I.front I.valid I.aligned I.slot code.now entries.new }
    ensures cached { result ≡ true → (d : Decoded I) → (slice_index_or entries.new slot d).pc ≡ pc }
    ensures none { result ≡ false → in_code code.now pc ≡ true → I.aligned pc ≡ true → I.front (drop (pc - code_base) code.now) ≡ None }
{
    if entries[slot].pc == pc {
        return true;
    }
    fill(entries, code, pc, slot)
}

// Returns the instruction at an address, and its length in bytes.
#[inline(always)]
fn lookup<I: Decodable>(entries: &mut [Decoded<I>], code: &[u8], pc: u64) -> Option<(I, u32)>
    requires short { length code.now < 2 ^ 32 }
    requires len { length entries.old ≡ 4096 }
    requires right { AreDecodings I.front I.valid I.aligned I.slot code.now entries.old }
    ensures len { length entries.new ≡ 4096 }
    ensures right { AreDecodings I.front I.valid I.aligned I.slot code.now entries.new }
    ensures found { IfSome result (λ found. IsDecodedAt I.front I.valid I.aligned code.now pc found.0 found.1) }
    ensures none { IfNone result (in_code code.now pc ≡ true → I.aligned pc ≡ true → I.front (drop (pc - code_base) code.now) ≡ None) }
{
    let slot = I::slot_of(pc);
    if !is_cached(entries, code, pc, slot) {
        return None;
    }
    let found = &entries[slot];
    Some((found.instr.copied(), found.len))
}

impl<I: Decodable> DecodeCache<I> {
    /// Makes an empty cache over a copy of the code, which has fewer than 2^32 bytes. Err is out of memory; no other call takes memory.
    pub fn new(alloc: Global, code: &[u8]) -> Result<DecodeCache<I>, OutOfMemory>
        requires { length code.now < 2 ^ 32 }
        ensures { IfOk result (λ c. c ≡ code.now) }
    {
        let code = CodeBytes::of(alloc, code)?;
        let entries = empty_entries(alloc)?;
        Ok(DecodeCache { code, entries })
    }

    /// Returns whether an address is one of the code.
    pub fn is_code(&self, pc: u64) -> bool
        ensures { result ≡ in_code self.now pc }
    {
        is_in_code(self.code.as_slice(), pc)
    }

    /// Replaces the code, and empties the cache.
    pub fn replace_code(&mut self, code: CodeBytes)
        ensures { self.new ≡ code.items }
    {
        clear(&mut self.entries);
        self.code = code;
    }

    /// Returns the instruction at an address, and its length in bytes, from the cache or decoded now, or `None` exactly when the address is not in the code,
    /// is not aligned, or no instruction begins there.
    #[inline(always)]
    pub fn find(&mut self, pc: u64) -> Option<(I, u32)>
        ensures found { IfSome result (λ found. IsDecodedAt I.front I.valid I.aligned self.old pc found.0 found.1) }
        ensures none { IfNone result (in_code self.old pc ≡ true → I.aligned pc ≡ true → I.front (drop (pc - code_base) self.old) ≡ None) }
        ensures code { self.new ≡ self.old }
    {
        lookup(&mut self.entries, self.code.as_slice(), pc)
    }
}
