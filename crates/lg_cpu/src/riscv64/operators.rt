// What the instructions compute.

ghost use Rattle.std.specs.Prelude.{◌≡◌, ◌<◌};
ghost use Rattle.lg_base.specs.Words.{zero_32};
ghost use Rattle.lg_cpu.specs.RvOperators.{divided, left_over, divided_signed, left_over_signed, reg_value, shift_value, is_taken};

use lg_base::wide::{mul_high, mul_high_mixed, mul_high_u};
use lg_base::word::{
    divide_signed, less_signed, remain_signed, shift_right_signed, sign_extend_32,
};
use lg_rv::{BranchOp, RegOp, ShiftOp};

// Returns the low 32 bits.
fn low_32(a: u64) -> u64
    ensures { result ≡ zero_32 a }
{
    a % 0x1_0000_0000
}

fn divided(a: u64, b: u64) -> u64
    ensures { result ≡ divided a b }
{
    if b == 0 { u64::MAX } else { a / b }
}

fn left_over(a: u64, b: u64) -> u64
    ensures { result ≡ left_over a b }
{
    if b == 0 { a } else { a % b }
}

fn divided_signed(a: u64, b: u64) -> u64
    ensures { result ≡ divided_signed a b }
{
    if b == 0 {
        u64::MAX
    } else {
        divide_signed(a, b)
    }
}

fn left_over_signed(a: u64, b: u64) -> u64
    ensures { result ≡ left_over_signed a b }
{
    if b == 0 { a } else { remain_signed(a, b) }
}

/// Returns what a row with two source registers makes of the words in them.
#[inline(always)]
pub fn reg_value(op: RegOp, a: u64, b: u64) -> u64
    ensures { result ≡ reg_value op a b }
{
    match op {
        RegOp::Add => a.wrapping_add(b),
        RegOp::Sub => a.wrapping_sub(b),
        RegOp::Sll => a << (b % 64),
        RegOp::Slt => u64::from(less_signed(a, b)),
        RegOp::Sltu => u64::from(a < b),
        RegOp::Xor => a ^ b,
        RegOp::Srl => a >> (b % 64),
        RegOp::Sra => shift_right_signed(a, (b % 64) as u32),
        RegOp::Or => a | b,
        RegOp::And => a & b,
        RegOp::Addw => sign_extend_32(a.wrapping_add(b)),
        RegOp::Subw => sign_extend_32(a.wrapping_sub(b)),
        RegOp::Sllw => sign_extend_32(a << (b % 32)),
        RegOp::Srlw => sign_extend_32(low_32(a) >> (b % 32)),
        RegOp::Sraw => shift_right_signed(sign_extend_32(a), (b % 32) as u32),
        RegOp::Mul => a.wrapping_mul(b),
        RegOp::Mulh => mul_high(a.cast_signed(), b.cast_signed()).cast_unsigned(),
        RegOp::Mulhsu => mul_high_mixed(a, b),
        RegOp::Mulhu => mul_high_u(a, b),
        RegOp::Div => divided_signed(a, b),
        RegOp::Divu => divided(a, b),
        RegOp::Rem => left_over_signed(a, b),
        RegOp::Remu => left_over(a, b),
        RegOp::Mulw => sign_extend_32(a.wrapping_mul(b)),
        RegOp::Divw => sign_extend_32(divided_signed(sign_extend_32(a), sign_extend_32(b))),
        RegOp::Divuw => sign_extend_32(divided(low_32(a), low_32(b))),
        RegOp::Remw => sign_extend_32(left_over_signed(sign_extend_32(a), sign_extend_32(b))),
        RegOp::Remuw => sign_extend_32(left_over(low_32(a), low_32(b))),
    }
}

/// Returns what a shift by a number makes of a word.
#[inline(always)]
pub fn shift_value(op: ShiftOp, a: u64, amount: u8) -> u64
    ensures { result ≡ shift_value op a amount }
{
    let n = u64::from(amount);
    match op {
        ShiftOp::Slli => reg_value(RegOp::Sll, a, n),
        ShiftOp::Srli => reg_value(RegOp::Srl, a, n),
        ShiftOp::Srai => reg_value(RegOp::Sra, a, n),
        ShiftOp::Slliw => reg_value(RegOp::Sllw, a, n),
        ShiftOp::Srliw => reg_value(RegOp::Srlw, a, n),
        ShiftOp::Sraiw => reg_value(RegOp::Sraw, a, n),
    }
}

/// Returns whether a branch is taken.
#[inline(always)]
pub fn is_taken(op: BranchOp, a: u64, b: u64) -> bool
    ensures { result ≡ is_taken op a b }
{
    match op {
        BranchOp::Beq => a == b,
        BranchOp::Bne => a != b,
        BranchOp::Blt => less_signed(a, b),
        BranchOp::Bge => !less_signed(a, b),
        BranchOp::Bltu => a < b,
        BranchOp::Bgeu => a >= b,
    }
}
