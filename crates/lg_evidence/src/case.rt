// The lines of the evidence on runs: columns with tabs between them, and lists of items with blanks between them.

use crate::vector::digit;
use lg_base::Target;
use std::alloc::{AllocError, Global};

/// A line of a file on single steps: STEPS, TEXT, HEX, IN, OUT, HOW.
#[derive(Drop)]
pub struct Case<'a> {
    /// STEPS, how many instructions are run at most.
    pub steps: u64,
    /// HEX, the code from the first program counter on.
    pub hex: &'a str,
    /// IN, what is set before.
    pub before: &'a str,
    /// OUT, the outcome of the run, without its first word.
    pub after: &'a str,
    /// The first word of OUT: how the run is.
    pub answer: &'a str,
}

// A column of a line, from 0 on.
fn column(line: &str, number: usize) -> &str {
    line.split('\t').nth(number).unwrap_or("")
}

/// Returns the columns of a line on single steps (six).
pub fn parse_case(line: &str) -> Option<Case<'_>> {
    let _how = line.split('\t').nth(5)?;
    let (answer, after) = column(line, 4).split_once(' ')?;
    Some(Case {
        steps: column(line, 0).parse().ok()?,
        hex: column(line, 2),
        before: column(line, 3),
        after,
        answer,
    })
}

/// A line of a file on programs: ROW, TEXT, HEX, N, OUTCOME, HOW.
#[derive(Drop)]
pub struct Program<'a> {
    /// HEX, the code.
    pub hex: &'a str,
    /// N, how many instructions are run at most.
    pub most: u64,
    /// OUTCOME: how the run ends, with `steps=` and `pc=`.
    pub outcome: &'a str,
}

/// Returns the columns of a line on a program (six).
pub fn parse_program(line: &str) -> Option<Program<'_>> {
    let _how = line.split('\t').nth(5)?;
    Some(Program {
        hex: column(line, 2),
        most: column(line, 3).parse().ok()?,
        outcome: column(line, 4),
    })
}

/// An item of IN or OUT.
#[derive(Clone, Copy)]
pub enum Item {
    /// `pc=H`: the program counter.
    Pc(u64),
    /// `steps=K`: how many instructions went.
    Steps(u64),
    /// A register by its listing name, as `x1=H`, `sp=H` or `rax=H`. The number is below 32.
    Register {
        number: u8,
        value: u64,
    },
    /// A flag by its number below 4, as `CF=1` or `V=0`; `u` is undefined.
    Flag {
        number: u8,
        value: Option<bool>,
    },
    /// `mW@A=H`: a number in memory.
    Bytes {
        width: u32,
        address: u64,
        value: u64,
    },
}

/// Returns an item of IN or OUT, with hexadecimal numbers but for the count of steps.
pub fn parse_item(target: Target, text: &str) -> Option<Item> {
    let (name, value) = text.split_once('=')?;
    match name {
        "pc" => Some(Item::Pc(number_of(value)?)),
        "steps" => Some(Item::Steps(value.parse().ok()?)),
        _ => match name.split_once('@') {
            Some((width, address)) => Some(Item::Bytes {
                width: parse_width(width)?,
                address: number_of(address)?,
                value: number_of(value)?,
            }),
            None => parse_named(target, name, value),
        },
    }
}

// a flag or a register
fn parse_named(target: Target, name: &str, value: &str) -> Option<Item> {
    match number_in(FLAGS, target, name) {
        Some(number) => Some(Item::Flag {
            number,
            value: parse_flag(value)?,
        }),
        None => Some(Item::Register {
            number: register_of(target, name)?,
            value: number_of(value)?,
        }),
    }
}

fn parse_flag(text: &str) -> Option<Option<bool>> {
    match text {
        "0" => Some(Some(false)),
        "1" => Some(Some(true)),
        "u" => Some(None),
        _ => None,
    }
}

// Flags by their names, with their numbers in the order of the variants of `Flags`.
const FLAGS: &[(Target, &str, u8)] = &[
    (Target::X86_64, "CF", 0),
    (Target::X86_64, "OF", 1),
    (Target::X86_64, "ZF", 2),
    (Target::X86_64, "SF", 3),
    (Target::Aarch64, "N", 0),
    (Target::Aarch64, "Z", 1),
    (Target::Aarch64, "C", 2),
    (Target::Aarch64, "V", 3),
];

// Registers that have other names than a letter and their number.
const REGISTERS: &[(Target, &str, u8)] = &[
    (Target::X86_64, "rax", 0),
    (Target::X86_64, "rcx", 1),
    (Target::X86_64, "rdx", 2),
    (Target::X86_64, "rbx", 3),
    (Target::X86_64, "rsp", 4),
    (Target::X86_64, "rbp", 5),
    (Target::X86_64, "rsi", 6),
    (Target::X86_64, "rdi", 7),
    (Target::Aarch64, "sp", 31),
];

// Returns the number that a name of a target has in a table.
fn number_in(table: &[(Target, &str, u8)], target: Target, name: &str) -> Option<u8> {
    for (of, text, number) in table {
        if *of == target && *text == name {
            return Some(*number);
        }
    }
    None
}

// the number of a register
fn register_of(target: Target, name: &str) -> Option<u8> {
    match number_in(REGISTERS, target, name) {
        Some(number) => Some(number),
        None if target == Target::X86_64 => below(16, name.strip_prefix('r')?),
        None => below(32, name.strip_prefix('x')?),
    }
}

fn below(bound: u8, text: &str) -> Option<u8> {
    let number: u8 = text.parse().ok()?;
    if number < bound { Some(number) } else { None }
}

fn parse_width(text: &str) -> Option<u32> {
    match text {
        "m1" => Some(1),
        "m2" => Some(2),
        "m4" => Some(4),
        "m8" => Some(8),
        _ => None,
    }
}

/// Returns the number of hexadecimal digits, which is below 2^64.
pub fn number_of(text: &str) -> Option<u64> {
    let mut number = 0u64;
    for code in text.as_bytes() {
        number = number
            .checked_mul(16)?
            .checked_add(u64::from(digit(*code)?))?;
    }
    Some(number)
}

// Appends the bytes of hexadecimal digits, two a byte, and returns whether they are such.
fn push_digits(bytes: &mut Vec<u8>, hex: &str) -> Result<bool, AllocError> {
    for pair in hex.as_bytes().chunks(2) {
        match byte_of(pair) {
            Some(byte) => bytes.push(byte)?,
            None => return Ok(false),
        }
    }
    Ok(true)
}

// Returns the byte of two hexadecimal digits.
fn byte_of(pair: &[u8]) -> Option<u8> {
    match pair {
        [high, low] => Some(digit(*high)? * 16 + digit(*low)?),
        _ => None,
    }
}

/// This many zero bytes and then those of hexadecimal digits, two a byte; `-` is the empty list.
pub fn code_of(alloc: Global, front: usize, hex: &str) -> Result<Option<Vec<u8>>, AllocError> {
    let mut bytes = vec![in alloc; 0u8; front]?;
    if hex == "-" || push_digits(&mut bytes, hex)? {
        Ok(Some(bytes))
    } else {
        Ok(None)
    }
}
