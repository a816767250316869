// The code that loads a number.

ghost use Rattle.std.specs.Prelude.{◌≡◌, ◌+◌, ◌≤◌, ◌++◌};
ghost use Rattle.lg_sela_values.specs.Processor.Numbers.{quarter_code, first_code, second_code, upper_code, is_low, positive_code, negative_code, number_code};
ghost use Rattle.lg_sela_values.specs.Items.{words_in, ones};

use crate::items::Item;
use crate::rows::wide;
use lg_a64::WideOp;
use lg_sel::Items;

/// Appends the code that loads a number, a word of 64 bits, into a register: at most 4 instructions. There is room for them.
pub fn put_number(rd: u8, value: u64, items: &mut Items<Item>)
    requires { words_in items.old + 4 ≤ 64 }
    ensures { items.new ≡ items.old ++ ones (number_code rd value) }
{
    if u64::MAX - value < 1 << 32 {
        put_negative(rd, value, items);
    } else {
        put_positive(rd, value, items);
    }
}

// Returns whether the lowest quarter of a number is not 0, or no other is.
fn is_low(value: u64) -> bool
    ensures { result ≡ is_low value }
{
    value < 0x1_0000 || value % 0x1_0000 != 0
}

// Appends the code that loads a number by its quarters that are not 0. There is room for it.
fn put_positive(rd: u8, value: u64, items: &mut Items<Item>)
    requires { words_in items.old + 4 ≤ 64 }
    ensures { items.new ≡ items.old ++ ones (positive_code rd value) }
{
    if is_low(value) {
        put_first(rd, value, items);
    } else {
        put_upper(rd, value, items);
    }
}

// From the lowest quarter on.
fn put_first(rd: u8, value: u64, items: &mut Items<Item>)
    requires { words_in items.old + 4 ≤ 64 }
    ensures { items.new ≡ items.old ++ ones (first_code rd value) }
{
    items.one(wide(WideOp::Movz, rd, (value % 0x1_0000) as u16, 0));
    put_quarter(rd, (value / 0x1_0000 % 0x1_0000) as u16, 1, items);
    put_quarter(rd, (value / 0x1_0000_0000 % 0x1_0000) as u16, 2, items);
    put_quarter(rd, (value / 0x1_0000_0000_0000 % 0x1_0000) as u16, 3, items);
}

// From the second quarter on, or from the first after it that is not 0.
fn put_upper(rd: u8, value: u64, items: &mut Items<Item>)
    requires { words_in items.old + 4 ≤ 64 }
    ensures { items.new ≡ items.old ++ ones (upper_code rd value) }
{
    if value % 0x1_0000_0000 != 0 {
        put_second(rd, value, items);
    } else if value % 0x1_0000_0000_0000 != 0 {
        items.one(wide(
            WideOp::Movz,
            rd,
            (value / 0x1_0000_0000 % 0x1_0000) as u16,
            2,
        ));
        put_quarter(rd, (value / 0x1_0000_0000_0000 % 0x1_0000) as u16, 3, items);
    } else {
        items.one(wide(
            WideOp::Movz,
            rd,
            (value / 0x1_0000_0000_0000 % 0x1_0000) as u16,
            3,
        ));
    }
}

// From the second quarter on.
fn put_second(rd: u8, value: u64, items: &mut Items<Item>)
    requires { words_in items.old + 4 ≤ 64 }
    ensures { items.new ≡ items.old ++ ones (second_code rd value) }
{
    items.one(wide(WideOp::Movz, rd, (value / 0x1_0000 % 0x1_0000) as u16, 1));
    put_quarter(rd, (value / 0x1_0000_0000 % 0x1_0000) as u16, 2, items);
    put_quarter(rd, (value / 0x1_0000_0000_0000 % 0x1_0000) as u16, 3, items);
}

// Appends the code that puts a quarter that is not 0 in its place. There is room for it.
fn put_quarter(rd: u8, part: u16, hw: u8, items: &mut Items<Item>)
    requires { words_in items.old + 1 ≤ 64 }
    ensures { items.new ≡ items.old ++ ones (quarter_code rd part hw) }
{
    if part != 0 {
        items.one(wide(WideOp::Movk, rd, part, hw));
    }
}

// Appends the code that loads a number whose high half is all ones. There is room for it.
fn put_negative(rd: u8, value: u64, items: &mut Items<Item>)
    requires { words_in items.old + 2 ≤ 64 }
    ensures { items.new ≡ items.old ++ ones (negative_code rd value) }
{
    let part = (value / 0x1_0000 % 0x1_0000) as u16;
    items.one(wide(WideOp::Movn, rd, ((u64::MAX - value) % 0x1_0000) as u16, 0));
    if part != 0xFFFF {
        items.one(wide(WideOp::Movk, rd, part, 1));
    }
}
