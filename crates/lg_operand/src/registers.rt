// The words of registers, and those of floating point.

ghost use Rattle.std.specs.Prelude.{◌≡◌};
ghost use Rattle.std.specs.Char.{is_ascii_digit};
ghost use Rattle.std.specs.List.{list_all};
ghost use Rattle.lg_operand.specs.Registers.{register_word, register_of, are_digits, is_float_register};

use lg_op::Reg;

static REGISTERS: [Reg; 7] = [
    Reg::R0,
    Reg::R1,
    Reg::R2,
    Reg::V0,
    Reg::V1,
    Reg::V2,
    Reg::Fp,
];

/// Returns the text of a register.
pub fn register_word(register: Reg) -> &'static [u8]
    ensures { result.now ≡ register_word register }
{
    match register {
        Reg::R0 => b"%r0",
        Reg::R1 => b"%r1",
        Reg::R2 => b"%r2",
        Reg::V0 => b"%v0",
        Reg::V1 => b"%v1",
        Reg::V2 => b"%v2",
        Reg::Fp => b"%fp",
    }
}

/// Returns the register of a text, or `None` if it is none of the seven.
pub fn register_of(word: &[u8]) -> Option<Reg>
    ensures { result ≡ register_of word.now }
{
    REGISTERS
        .iter()
        .copied()
        .find(|register| word == register_word(*register))
}

// Returns whether all bytes are decimal digits.
fn all_digits(bytes: &[u8]) -> bool
    ensures { result ≡ list_all is_ascii_digit bytes.now }
{
    bytes.iter().all(|byte| byte.is_ascii_digit())
}

// Returns whether there is a byte, and all are decimal digits.
fn are_digits(bytes: &[u8]) -> bool
    ensures { result ≡ are_digits bytes.now }
{
    !bytes.is_empty() && all_digits(bytes)
}

/// Returns whether the text of a register names a floating-point one: `%f` with digits.
pub fn is_float_register(word: &[u8]) -> bool
    ensures { result ≡ is_float_register word.now }
{
    match word {
        [_, b'f', digits @ ..] => are_digits(digits),
        _ => false,
    }
}
