// Strings of C in memory.

ghost use Rattle.std.specs.Prelude.{◌≡◌, ℕ, ◌+◌, ◌≤◌, Some, IfSome, length};
ghost use Rattle.std.specs.Option.{option_map};
ghost use Rattle.lg_host.specs.Runs.{run};
ghost use Rattle.lg_host.specs.Strings.{string_in, compared, number_in, signed_in, atoi_in, int_word, is_space};

use lg_base::Space;

/// Returns the address of the zero byte that ends the string at an address, or `None` if a byte before it can't be read.
pub fn string_end<S: Space>(mem: &S, from: u64) -> Option<u64>
    ensures value { result ≡ option_map (λ s. from + length s) (string_in (run (S.byte_of mem.now) from)) }
    ensures behind { IfSome result (λ end. from ≤ end) }
{
    for at in from..=u64::MAX {
        let Some(byte) = mem.get(at) else {
            return None;
        };
        if byte == 0 {
            return Some(at);
        }
    }
    None
}

/// -1, 0 or 1, as a word, by the first bytes of two strings that differ; None where a byte up to there can't be read.
pub fn compare<S: Space>(mem: &S, first: u64, second: u64) -> Option<u64>
    ensures { result ≡ compared (run (S.byte_of mem.now) first) (run (S.byte_of mem.now) second) }
{
    for i in 0..=u64::MAX - first.max(second) {
        let Some(a) = mem.get(first + i) else {
            return None;
        };
        let Some(b) = mem.get(second + i) else {
            return None;
        };
        if a < b {
            return Some(u64::MAX);
        }
        if a > b {
            return Some(1);
        }
        if a == 0 {
            return Some(0);
        }
    }
    None
}

/// Returns the number that a string begins with, after white space, or `None` if a byte up to its end can't be read, or where it is no int.
pub fn atoi<S: Space>(mem: &S, from: u64) -> Option<u64>
    ensures { result ≡ atoi_in (run (S.byte_of mem.now) from) }
{
    for at in from..=u64::MAX {
        let Some(byte) = mem.get(at) else {
            return None;
        };
        if !is_space(byte) {
            return signed(mem, at, byte);
        }
    }
    None
}

// Returns whether a byte is one of the six of white space.
fn is_space(byte: u8) -> bool
    ensures { result ≡ is_space byte }
{
    byte == b' ' || (9 <= byte && byte <= 13)
}

// Returns the number from its sign or first digit on.
fn signed<S: Space>(mem: &S, at: u64, byte: u8) -> Option<u64>
    requires here { S.byte_of mem.now at ≡ Some byte }
    ensures { result ≡ signed_in (run (S.byte_of mem.now) at) }
{
    if byte == b'-' {
        number_after(mem, at, true)
    } else if byte == b'+' {
        number_after(mem, at, false)
    } else {
        number(mem, at, false)
    }
}

// Returns the number of the digits after an address, with none after the largest.
fn number_after<S: Space>(mem: &S, at: u64, negative: bool) -> Option<u64>
    ensures { result ≡ number_in negative 0 (run (S.byte_of mem.now) (at + 1)) }
{
    match at.checked_add(1) {
        Some(from) => number(mem, from, negative),
        None => None,
    }
}

// Returns the number of the digits from here on.
fn number<S: Space>(mem: &S, from: u64, negative: bool) -> Option<u64>
    ensures { result ≡ number_in negative 0 (run (S.byte_of mem.now) from) }
{
    let mut value: u64 = 0;
    for at in from..=u64::MAX {
        let Some(byte) = mem.get(at) else {
            return None;
        };
        if byte < b'0' || byte > b'9' {
            return int_word(negative, value);
        }
        value = value * 10 + (byte - b'0') as u64;
        if value > 0x8000_0000 {
            return None;
        }
    }
    None
}

// An int by its sign and magnitude, as a word; None where it is none.
fn int_word(negative: bool, value: u64) -> Option<u64>
    ensures { result ≡ int_word negative value }
{
    if negative {
        if value <= 0x8000_0000 {
            Some(0u64.wrapping_sub(value))
        } else {
            None
        }
    } else if value < 0x8000_0000 {
        Some(value)
    } else {
        None
    }
}
