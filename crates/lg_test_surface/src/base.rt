// lg_base: words, host functions, refusals, lists of bytes and the memory.

use lg_base::{
    ArgImage, CodeBytes, DataImage, Field, HostName, Memory, OutOfMemory, Refusal, RefusalKind,
    Space, Stop, Target, args_image, div_wide, div_wide_u, mul_high, mul_high_u, sign_part,
    swap_bytes, zero_part,
};
use std::alloc::{AllocError, Global};
use std::test::Fail;

// Wide arithmetic.
fn are_words_right() -> bool {
    let high: i64 = mul_high(-2, 3);
    let unsigned_high: u64 = mul_high_u(u64::MAX, 2);
    let unsigned: Option<(u64, u64)> = div_wide_u(1, 0, 2);
    let signed: Option<(i64, i64)> = div_wide(0, 7, -2);
    let parts: (u64, u64, u64) = (
        sign_part(0xff, 1),
        zero_part(0x1ff, 1),
        swap_bytes(0x1234, 2),
    );
    (high, unsigned_high) == (-1, 1)
        && unsigned == Some((1 << 63, 0))
        && signed == Some((-3, 1))
        && parts == (u64::MAX, 0xff, 0x3412)
}

// Fields of words, the host's functions and the numbers of refusals.
fn are_numbers_right() -> bool {
    let put: u32 = Field::<4, 8>::put(0xffff_ffff, 0);
    let got: u32 = Field::<4, 8>::get(0xabc0);
    let name: Option<HostName> = HostName::by_name(b"printf");
    let address: u64 = HostName::Printf.address();
    let back: Option<HostName> = HostName::from_address(address);
    let refusal = Refusal {
        kind: RefusalKind::CodeFull,
        line: 3,
    };
    let number: u32 = refusal.kind.number();
    (put, got) == (0xffff_f00f, 0xbc)
        && name == Some(HostName::Printf)
        && back == name
        && (number, refusal.line) == (18, 3)
}

// A space, through the trait: bytes that can be read and written by their addresses.
fn is_space_right<S: Space>(space: &mut S, address: u64) -> bool {
    let can: bool = space.can_put(address);
    let done: bool = space.put(address, 7);
    space.raise(0x3000_0010);
    let byte: Option<u8> = space.get(address);
    can && done && byte == Some(7)
}

// Returns the memory of a run.
fn is_memory_right(alloc: Global) -> Result<bool, OutOfMemory> {
    let mut memory: Memory = Memory::new(alloc, 16, 8)?;
    let stored: bool = memory.store(0x2000_0000, 8, 258);
    let loaded: Option<u64> = memory.load(0x2000_0000, 2);
    Ok(stored && loaded == Some(258) && is_space_right(&mut memory, 0x2000_0003))
}

// Returns the argument part of one word. What it is promised to be is for proofs.
fn image_of(alloc: Global, words: &Vec<String>) -> Result<ArgImage, Stop> {
    if words.len() == 0 {
        return Err(Stop::OutOfMemory);
    }
    args_image(alloc, words)
}

fn words(alloc: Global) -> Result<Vec<String>, AllocError> {
    let mut words: Vec<String> = Vec::new(alloc);
    words.push(String::from_str(alloc, "ab")?)?;
    Ok(words)
}

// Returns the lists of bytes.
fn are_lists_right(alloc: Global) -> Result<bool, Stop> {
    let code: CodeBytes = CodeBytes::of(alloc, &[1, 2])?;
    let data: DataImage = DataImage::of(alloc, &[3])?;
    let Ok(words) = words(alloc) else {
        return Err(Stop::OutOfMemory);
    };
    let args: ArgImage = image_of(alloc, &words)?;
    Ok(
        code.as_slice() == [1, 2].as_slice()
            && data.as_slice() == [3].as_slice()
            && args.as_slice().len() == 19,
    )
}

#[test]
fn calls_lg_base(rt: HostRuntime) -> Result<(), Fail> {
    assert!(rt; are_words_right() && are_numbers_right());
    assert!(rt; is_memory_right(rt.alloc())?);
    assert!(rt; are_lists_right(rt.alloc()) == Ok(true));
    assert!(rt; [Target::X86_64, Target::Aarch64, Target::Riscv64].len() == 3);
    Ok(())
}
