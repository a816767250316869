// The instruction that loads a number.

ghost use Rattle.std.specs.Prelude.{◌≡◌, ◌+◌, ◌<◌, ◌++◌, [], ◌∷◌, true};
ghost use Rattle.lg_base.specs.Words.{signed_view, is_half};
ghost use Rattle.lg_selx_values.specs.Processor.Numbers.{number_row};
ghost use Rattle.lg_selx_values.specs.Items.{words_in, ones};

use crate::items::Item;
use lg_base::word::is_half;
use lg_sel::Items;
use lg_x86::Instr;

/// Appends the instruction that loads a number, a word of 64 bits, into a register. There is room for it.
pub fn put_number(reg: u8, value: u64, items: &mut Items<Item>)
    requires { words_in items.old < 64 }
    ensures { items.new ≡ items.old ++ ones (number_row reg value ∷ []) }
{
    items.one(number_row(reg, value));
}

// Returns the shortest of three moves.
fn number_row(reg: u8, value: u64) -> Instr
    ensures { result ≡ number_row reg value }
{
    if value < 1 << 32 {
        Instr::Movi32 {
            reg,
            imm: value as u32,
        }
    } else if is_half(value) {
        Instr::Movs32 {
            rm: reg,
            imm: half_number(value),
        }
    } else {
        Instr::Movi64 { reg, imm: value }
    }
}

/// Returns the signed view of a word, which has 32 bits.
pub fn half_number(value: u64) -> i32
    requires { is_half value ≡ true }
    ensures { result ≡ signed_view value }
{
    if value < 1 << 31 {
        value as i32
    } else {
        -((u64::MAX - value) as i32) - 1
    }
}
