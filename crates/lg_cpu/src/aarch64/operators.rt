// What the instructions compute.

ghost use Rattle.std.specs.Prelude.{◌≡◌, ◌<◌, ◌*◌, ◌^◌, true};
ghost use Rattle.lg_cpu.specs.A64Operators.{divided, divided_signed, reg_value, imm_number, quarter, replaced, wide_value, mul_add_value};
ghost use Rattle.lg_cpu.specs.A64Operators.{csinc_value, reverse_value};
ghost use Rattle.lg_cpu.specs.A64Groups.{is_plain};
ghost use Rattle.lg_base.specs.declared.flags.Flags.{Flags};
ghost use Rattle.lg_a64.specs.declared.instruction.ReverseOp.{ReverseOp};

use lg_a64::{MulAddOp, RegOp, ReverseOp, WideOp};
use lg_base::wide::{mul_high, mul_high_u, swap_bytes};
use lg_base::word::{divide_signed, shift_right_signed};

fn divided(a: u64, b: u64) -> u64
    ensures { result ≡ divided a b }
{
    if b == 0 { 0 } else { a / b }
}

fn divided_signed(a: u64, b: u64) -> u64
    ensures { result ≡ divided_signed a b }
{
    if b == 0 { 0 } else { divide_signed(a, b) }
}

/// Returns what a row with three registers that is plain makes of the words in two of them, whatever the flags are.
#[inline(always)]
pub fn plain_value(op: RegOp, a: u64, b: u64) -> u64
    requires { is_plain op ≡ true }
    ensures { (flags : Flags) → result ≡ reg_value op flags a b }
{
    match op {
        RegOp::Orn => a | !b,
        RegOp::Smulh => mul_high(a.cast_signed(), b.cast_signed()).cast_unsigned(),
        RegOp::Umulh => mul_high_u(a, b),
        RegOp::Udiv => divided(a, b),
        RegOp::Sdiv => divided_signed(a, b),
        RegOp::Lslv => a << (b % 64),
        RegOp::Lsrv => a >> (b % 64),
        RegOp::Asrv => shift_right_signed(a, (b % 64) as u32),
        _ => 0,
    }
}

/// Returns the number `imm` of 12 bits, or 4,096 times it where it is shifted.
#[inline(always)]
pub fn imm_number(imm: u16, shifted: bool) -> u64
    ensures { result ≡ imm_number imm shifted }
{
    if shifted {
        u64::from(imm) * 4096
    } else {
        u64::from(imm)
    }
}

// Returns the lowest bit of a quarter.
fn quarter(hw: u8) -> u64
    ensures { result ≡ quarter hw }
{
    match hw {
        0 => 1,
        1 => 0x1_0000,
        2 => 0x1_0000_0000,
        _ => 0x1_0000_0000_0000,
    }
}

// A number of 16 bits in a quarter, with zeros beside it.
fn placed(imm: u64, hw: u8) -> u64
    requires { imm < 2 ^ 16 }
    ensures { result ≡ imm * quarter hw }
{
    match hw {
        0 => imm,
        1 => imm * 0x1_0000,
        2 => imm * 0x1_0000_0000,
        _ => imm * 0x1_0000_0000_0000,
    }
}

// A number of 16 bits in a quarter of a word.
fn replaced(old: u64, imm: u64, hw: u8) -> u64
    requires { imm < 2 ^ 16 }
    ensures { result ≡ replaced old (quarter hw) imm }
{
    match hw {
        0 => imm + old / 0x1_0000 * 0x1_0000,
        1 => old % 0x1_0000 + imm * 0x1_0000 + old / 0x1_0000_0000 * 0x1_0000_0000,
        2 => old % 0x1_0000_0000
            + imm * 0x1_0000_0000
            + old / 0x1_0000_0000_0000 * 0x1_0000_0000_0000,
        _ => old % 0x1_0000_0000_0000 + imm * 0x1_0000_0000_0000,
    }
}

/// Returns what a row with a number `imm` of 16 bits makes of the word `old` in rd: `imm` in quarter `hw`, 0 to 3 from the lowest, with zeros beside it
/// (MOVZ), that with each bit turned (MOVN), or with the other quarters of `old` (MOVK).
pub fn wide_value(op: WideOp, old: u64, imm: u64, hw: u8) -> u64
    requires { imm < 2 ^ 16 }
    ensures { result ≡ wide_value op old imm hw }
{
    match op {
        WideOp::Movz => placed(imm, hw),
        WideOp::Movn => !placed(imm, hw),
        WideOp::Movk => replaced(old, imm, hw),
    }
}

/// `c + a * b` (MADD) or `c - a * b` (MSUB), modulo 2^64, of the words in rn, rm and ra.
pub fn mul_add_value(op: MulAddOp, a: u64, b: u64, c: u64) -> u64
    ensures { result ≡ mul_add_value op a b c }
{
    match op {
        MulAddOp::Madd => c.wrapping_add(a.wrapping_mul(b)),
        MulAddOp::Msub => c.wrapping_sub(a.wrapping_mul(b)),
    }
}

/// `a` where the condition holds, else `b + 1` modulo 2^64 (CSINC).
pub fn csinc_value(chosen: bool, a: u64, b: u64) -> u64
    ensures { result ≡ csinc_value chosen a b }
{
    if chosen { a } else { b.wrapping_add(1) }
}

// Returns the bytes of each half in reverse order.
fn reversed_halves(a: u64) -> u64
    ensures { result ≡ reverse_value ReverseOp.Rev32 a }
{
    swap_bytes(a, 4) + swap_bytes(a / 0x1_0000_0000, 4) * 0x1_0000_0000
}

// Returns the bytes of each quarter in reverse order.
fn reversed_quarters(a: u64) -> u64
    ensures { result ≡ reverse_value ReverseOp.Rev16 a }
{
    swap_bytes(a, 2)
        + swap_bytes(a / 0x1_0000, 2) * 0x1_0000
        + swap_bytes(a / 0x1_0000_0000, 2) * 0x1_0000_0000
        + swap_bytes(a / 0x1_0000_0000_0000, 2) * 0x1_0000_0000_0000
}

/// Returns the bytes of a word in reverse order: all 8 (REV), the 4 of each half (REV32), or the 2 of each quarter (REV16).
pub fn reverse_value(op: ReverseOp, a: u64) -> u64
    ensures { result ≡ reverse_value op a }
{
    match op {
        ReverseOp::Rev => swap_bytes(a, 8),
        ReverseOp::Rev32 => reversed_halves(a),
        ReverseOp::Rev16 => reversed_quarters(a),
    }
}
