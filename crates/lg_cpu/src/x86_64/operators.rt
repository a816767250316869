// What the instructions compute.

ghost use Rattle.std.specs.Prelude.{◌≡◌, ◌<◌};
ghost use Rattle.lg_base.specs.Words.{high_product_signed};
ghost use Rattle.lg_cpu.specs.X86Operators.{bit, alu_value, alu_of, sign_word, needs_high, needs_high_signed, reg_rm_value, shift_value};

use lg_base::wide::{mul_high, mul_high_u, sign_part, zero_part};
use lg_base::word::{SIGN_BIT, shift_right_signed};
use lg_x86::{ImmOp, RegRmOp, RmRegOp, ShiftOp};

/// Returns what a row makes of the words in its register and beside it, and of the carry.
pub fn alu_value(op: RmRegOp, a: u64, b: u64, carry: bool) -> u64
    ensures { result ≡ alu_value op a b (bit carry) }
{
    match op {
        RmRegOp::Add => a.wrapping_add(b),
        RmRegOp::Or => a | b,
        RmRegOp::Adc => a.wrapping_add(b).wrapping_add(u64::from(carry)),
        RmRegOp::Sbb => a.wrapping_sub(b).wrapping_sub(u64::from(carry)),
        RmRegOp::And => a & b,
        RmRegOp::Sub => a.wrapping_sub(b),
        RmRegOp::Xor => a ^ b,
        RmRegOp::Cmp => a.wrapping_sub(b),
        RmRegOp::Test => a & b,
        RmRegOp::Mov => b,
    }
}

/// Returns the row with a register that does what one with a number does.
pub fn alu_of(op: ImmOp) -> RmRegOp
    ensures { result ≡ alu_of op }
{
    match op {
        ImmOp::Addi => RmRegOp::Add,
        ImmOp::Ori => RmRegOp::Or,
        ImmOp::Adci => RmRegOp::Adc,
        ImmOp::Sbbi => RmRegOp::Sbb,
        ImmOp::Andi => RmRegOp::And,
        ImmOp::Subi => RmRegOp::Sub,
        ImmOp::Xori => RmRegOp::Xor,
        ImmOp::Cmpi => RmRegOp::Cmp,
    }
}

/// Returns the word of all ones for a negative word, else 0.
pub fn sign_word(a: u64) -> u64
    ensures { result ≡ sign_word a }
{
    if a >= SIGN_BIT { u64::MAX } else { 0 }
}

/// Returns the high word of the signed product of two words (volume 2, IMUL).
pub fn high_signed(a: u64, b: u64) -> u64
    ensures { result ≡ high_product_signed a b }
{
    mul_high(a.cast_signed(), b.cast_signed()).cast_unsigned()
}

/// Returns whether the unsigned product of two words does not fit one: CF and OF of MUL (volume 2, MUL).
pub fn needs_high(a: u64, b: u64) -> bool
    ensures { result ≡ needs_high a b }
{
    mul_high_u(a, b) != 0
}

/// Returns whether the signed product of two words does not fit one: CF and OF of IMUL (volume 2, IMUL).
pub fn needs_high_signed(a: u64, b: u64) -> bool
    ensures { result ≡ needs_high_signed a b }
{
    high_signed(a, b) != sign_word(a.wrapping_mul(b))
}

/// Returns what a row makes of the words in `reg` and `rm`.
pub fn reg_rm_value(op: RegRmOp, a: u64, b: u64) -> u64
    ensures { result ≡ reg_rm_value op a b }
{
    match op {
        RegRmOp::Ext32u => zero_part(b, 4),
        RegRmOp::Ext32s => sign_part(b, 4),
        RegRmOp::Ext8u => zero_part(b, 1),
        RegRmOp::Ext16u => zero_part(b, 2),
        RegRmOp::Ext8s => sign_part(b, 1),
        RegRmOp::Ext16s => sign_part(b, 2),
        RegRmOp::Imul => a.wrapping_mul(b),
    }
}

/// Returns what a shift by a count below 64 makes of a word.
pub fn shift_value(op: ShiftOp, a: u64, count: u32) -> u64
    requires { count < 64 }
    ensures { result ≡ shift_value op a count }
{
    match op {
        ShiftOp::Shli => a << count,
        ShiftOp::Shri => a >> count,
        ShiftOp::Sari => shift_right_signed(a, count),
    }
}
