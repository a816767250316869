// Loads and stores.

ghost use Rattle.std.specs.Prelude.{◌≡◌, ◌<◌, ◌≤◌, true, []};
ghost use Rattle.lg_sela_values.specs.Items.{ones, words_in};
ghost use Rattle.lg_carry.specs.Memory.Accesses.{address_of};
ghost use Rattle.lg_sela.specs.Memory.Accesses.{load_row, store_row, at_register, sum_code, indexed, place_of, is_scaled, is_close, is_counted, is_unscaled, unscaled, is_word, word_load, load_code, store_code};
ghost use Rattle.lg_base.specs.Words.{signed_view};

use crate::memory::operands::register;
use lg_a64::{ImmOp, Instr, RegOp, ScaledOp, UnscaledOp};
use lg_carry::memory::operands::{number, operand};
use lg_op::operators::{store_width, width};
use lg_op::{Addressing, Node, Operand, StoreType, ValueType};
use lg_sel::Items;
use lg_sela_values::{Item, LINK, imm, put_number, register_of, row};

// Where an access is: a register, and an offset from it in accesses, below 4,096.
#[derive(Clone, Copy)]
struct Base {
    register: u8,
    count: u16,
}

// Returns the row that loads by a type.
pub(crate) fn load_row(t: ValueType) -> ScaledOp
    ensures { result ≡ load_row t }
{
    match t {
        ValueType::Char => ScaledOp::Ldrs8,
        ValueType::UnsignedChar => ScaledOp::Ldr8,
        ValueType::Short => ScaledOp::Ldrs16,
        ValueType::UnsignedShort => ScaledOp::Ldr16,
        ValueType::Int => ScaledOp::Ldrs32,
        ValueType::UnsignedInt => ScaledOp::Ldr32,
        ValueType::Long => ScaledOp::Ldr64,
    }
}

// Returns the row that stores by a type.
fn store_row(t: StoreType) -> ScaledOp
    ensures { result ≡ store_row t }
{
    match t {
        StoreType::Char => ScaledOp::Str8,
        StoreType::Short => ScaledOp::Str16,
        StoreType::Int => ScaledOp::Str32,
        StoreType::Long => ScaledOp::Str64,
    }
}

// A row that loads or stores a register at an offset from another, counted in accesses.
pub(crate) fn scaled(op: ScaledOp, rt: u8, rn: u8, imm: u16) -> Instr
    ensures { result ≡ Instr.Scaled op rt rn imm }
{
    Instr::Scaled { op, rt, rn, imm }
}

// An address that is a register.
fn at_register(register: u8) -> Base
    ensures register { result.register ≡ (at_register register).base }
    ensures count { result.count ≡ (at_register register).count }
{
    Base { register, count: 0 }
}

// The sum of a register and a number into the link: by an instruction that holds the number or its negative where one does, at most 5.
fn put_sum(register: u8, value: u64, items: &mut Items<Item>)
    requires empty { items.old ≡ [] }
    ensures code { items.new ≡ ones (sum_code register value) }
    ensures few { words_in items.new ≤ 5 }
{
    let less = value.wrapping_neg();
    if value < 4096 {
        items.one(imm(ImmOp::Addi, LINK, register, value as u16));
    } else if less < 4096 {
        items.one(imm(ImmOp::Subi, LINK, register, less as u16));
    } else {
        put_number(LINK, value, items);
        items.one(row(RegOp::Add, LINK, register, LINK));
    }
}

// Returns whether a row holds a number as one of accesses of this many bytes.
fn is_scaled(bytes: u64, value: u64) -> bool
    requires { 0 < bytes }
    ensures { result ≡ is_scaled bytes value }
{
    value % bytes == 0 && value / bytes < 4096
}

// The sum of a register and a number, where an access has this many bytes: at most 5 instructions.
fn put_indexed(register: u8, value: u64, bytes: u64, items: &mut Items<Item>) -> Base
    requires some { 0 < bytes }
    requires empty { items.old ≡ [] }
    ensures code { items.new ≡ ones (indexed bytes register value).code }
    ensures register { result.register ≡ (indexed bytes register value).base }
    ensures count { result.count ≡ (indexed bytes register value).count }
    ensures few { words_in items.new ≤ 5 }
{
    if is_scaled(bytes, value) {
        return Base {
            register,
            count: (value / bytes) as u16,
        };
    }
    put_sum(register, value, items);
    at_register(LINK)
}

// The address that operands give, where an access has this many bytes: what computes it is appended, at most 5 instructions.
fn put_address(
    at: Addressing,
    first: Operand,
    second: Operand,
    bytes: u64,
    items: &mut Items<Item>,
) -> Base
    requires some { 0 < bytes }
    requires empty { items.old ≡ [] }
    ensures code { items.new ≡ ones (place_of bytes (address_of at first second)).code }
    ensures register { result.register ≡ (place_of bytes (address_of at first second)).base }
    ensures count { result.count ≡ (place_of bytes (address_of at first second)).count }
    ensures few { words_in items.new ≤ 5 }
{
    match at {
        Addressing::Register => at_register(register(first)),
        Addressing::Immediate => {
            put_number(LINK, number(first), items);
            at_register(LINK)
        }
        Addressing::RegisterRegister => {
            items.one(row(RegOp::Add, LINK, register(first), register(second)));
            at_register(LINK)
        }
        Addressing::RegisterImmediate => match first {
            Operand::Reg(_) => put_indexed(register(first), number(second), bytes, items),
            _ => put_indexed(register(second), number(first), bytes, items),
        },
    }
}

// Returns the instruction that loads by a type.
fn load(t: ValueType, rd: u8, base: Base) -> Instr
    ensures { result ≡ Instr.Scaled (load_row t) rd base.register base.count }
{
    scaled(load_row(t), rd, base.register, base.count)
}

// Returns the instruction that stores by a type.
fn store(t: StoreType, from: u8, base: Base) -> Instr
    ensures { result ≡ Instr.Scaled (store_row t) from base.register base.count }
{
    scaled(store_row(t), from, base.register, base.count)
}

// Returns whether the rows that count bytes hold a number: from -256 to 255.
fn is_close(value: u64) -> bool
    ensures { result ≡ is_close value }
{
    value.wrapping_add(256) < 512
}

// Returns the signed view of such a number.
fn close_number(value: u64) -> i32
    requires { is_close value ≡ true }
    ensures { result ≡ signed_view value }
{
    if value < 256 {
        value as i32
    } else {
        -((u64::MAX - value) as i32) - 1
    }
}

// Returns whether the row that counts bytes is taken for a number, where an access has this many bytes: for words alone.
fn is_counted(bytes: u64, value: u64) -> bool
    requires { 0 < bytes }
    ensures { result ≡ is_counted bytes value }
{
    bytes == 8 && !is_scaled(bytes, value) && is_close(value)
}

// Returns whether it is taken for the address that operands give.
fn is_unscaled(at: Addressing, first: Operand, second: Operand, bytes: u64) -> bool
    requires { 0 < bytes }
    ensures { result ≡ is_unscaled bytes (address_of at first second) }
{
    match at {
        Addressing::RegisterImmediate => match first {
            Operand::Reg(_) => is_counted(bytes, number(second)),
            _ => is_counted(bytes, number(first)),
        },
        _ => false,
    }
}

// Returns the row that loads or stores a word at this many bytes from a register.
fn unscaled(op: UnscaledOp, rt: u8, rn: u8, value: u64) -> Instr
    requires { is_close value ≡ true }
    ensures { result ≡ Instr.Unscaled op rt rn (signed_view value) }
{
    Instr::Unscaled {
        op,
        rt,
        rn,
        imm: close_number(value),
    }
}

// Appends it to no items for the address that operands give.
#[tactic(auto, using(crate::proofs::OfMemory::PlaceLemmas::close_of))]
fn put_unscaled(
    op: UnscaledOp,
    rt: u8,
    at: Addressing,
    first: Operand,
    second: Operand,
    bytes: u64,
    items: &mut Items<Item>,
)
    requires near { is_unscaled bytes (address_of at first second) ≡ true }
    requires empty { items.old ≡ [] }
    ensures { items.new ≡ ones (unscaled op rt (address_of at first second)) }
{
    match at {
        Addressing::RegisterImmediate => match first {
            Operand::Reg(reg) => items.one(unscaled(op, rt, register_of(reg), number(second))),
            _ => items.one(unscaled(op, rt, register(second), number(first))),
        },
        _ => {}
    }
}

// Returns whether a row of its own loads a word from the address that operands give.
fn is_word(at: Addressing, first: Operand, second: Operand, bytes: u64) -> bool
    requires { 0 < bytes }
    ensures { result ≡ is_word bytes (address_of at first second) }
{
    match at {
        Addressing::RegisterRegister => bytes == 8,
        _ => is_unscaled(at, first, second, bytes),
    }
}

// Appends such a row to no items.
fn put_word_load(
    rd: u8,
    at: Addressing,
    first: Operand,
    second: Operand,
    bytes: u64,
    items: &mut Items<Item>,
)
    requires near { is_word bytes (address_of at first second) ≡ true }
    requires empty { items.old ≡ [] }
    ensures { items.new ≡ ones (word_load rd (address_of at first second)) }
{
    match at {
        Addressing::RegisterRegister => items.one(Instr::Ldrx {
            rt: rd,
            rn: register(first),
            rm: register(second),
        }),
        _ => put_unscaled(UnscaledOp::Ldur, rd, at, first, second, bytes, items),
    }
}

/// Appends the code of a load to no items: 1 to 6 instructions. The operands are those of the load's row in the instruction table.
pub fn put_load(node: &Node, t: ValueType, at: Addressing, items: &mut Items<Item>)
    requires { items.old ≡ [] }
    ensures { items.new ≡ ones (load_code t at node.now) }
{
    let bytes = u64::from(width(t));
    let rd = register(operand(node, 0));
    let first = operand(node, 1);
    let second = operand(node, 2);
    if is_word(at, first, second, bytes) {
        put_word_load(rd, at, first, second, bytes, items);
    } else {
        let base = put_address(at, first, second, bytes, items);
        items.one(load(t, rd, base));
    }
}

/// Appends the code of a store to no items: 1 to 6 instructions. The operands are those of the store's row in the instruction table.
pub fn put_store(node: &Node, t: StoreType, at: Addressing, items: &mut Items<Item>)
    requires { items.old ≡ [] }
    ensures { items.new ≡ ones (store_code t at node.now) }
{
    let value = match at {
        Addressing::Register | Addressing::Immediate => operand(node, 1),
        _ => operand(node, 2),
    };
    let bytes = u64::from(store_width(t));
    let from = register(value);
    let first = operand(node, 0);
    let second = operand(node, 1);
    if is_unscaled(at, first, second, bytes) {
        put_unscaled(UnscaledOp::Stur, from, at, first, second, bytes, items);
    } else {
        let base = put_address(at, first, second, bytes, items);
        items.one(store(t, from, base));
    }
}
