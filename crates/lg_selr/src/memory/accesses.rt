// Loads and stores.

ghost use Rattle.std.specs.Prelude.{◌≡◌, ◌+◌, ◌-◌, ◌*◌, ◌<◌, ◌≤◌, pos, [], ◌∷◌, ◌++◌, length};
ghost use Rattle.lg_selr_values.specs.Items.{ones, words_in};
ghost use Rattle.lg_carry.specs.Memory.Accesses.{address_of};
ghost use Rattle.lg_selr.specs.Memory.Accesses.{load_row, store_row, high_row, at_register, is_frame, is_whole, near, indexed, absolute, place_of, lower_bytes, higher_bytes, tester, test_code, slow_load, halves, store_bytes, slow_store, store_skip, load_at, store_at, load_code, store_code, load_items, store_items};
ghost use Rattle.lg_carry.specs.Values.Parts.{HaveSlots};

use crate::memory::operands::register;
use lg_carry::memory::operands::{named, number, operand};
use lg_op::operators::{store_width, width};
use lg_op::{Addressing, Node, Operand, Reg, StoreType, ValueType};
use lg_rv::{BranchOp, ImmOp, Instr, RegOp, ShiftOp, StoreOp, UpperOp};
use lg_sel::Items;
use lg_selr_values::{
    Item, LINK, branch, high_part, imm, is_short, low_part, put_number, restore, row, save, shift,
    upper,
};
use lg_temp::{Choice, Choices};

// Where an access is: a register, and an offset from it of 12 bits.
#[derive(Clone, Copy)]
struct Base {
    register: u8,
    offset: i32,
}

// Returns the row that loads by a type, at a multiple of its width.
pub(crate) fn load_row(t: ValueType) -> ImmOp
    ensures { result ≡ load_row t }
{
    match t {
        ValueType::Char => ImmOp::Lb,
        ValueType::UnsignedChar => ImmOp::Lbu,
        ValueType::Short => ImmOp::Lh,
        ValueType::UnsignedShort => ImmOp::Lhu,
        ValueType::Int => ImmOp::Lw,
        ValueType::UnsignedInt => ImmOp::Lwu,
        ValueType::Long => ImmOp::Ld,
    }
}

// Returns the row that loads the highest byte by a type.
fn high_row(t: ValueType) -> ImmOp
    ensures { result ≡ high_row t }
{
    match t {
        ValueType::Char | ValueType::Short | ValueType::Int => ImmOp::Lb,
        _ => ImmOp::Lbu,
    }
}

// Returns the row that stores by a type, at a multiple of its width.
fn store_row(t: StoreType) -> StoreOp
    ensures { result ≡ store_row t }
{
    match t {
        StoreType::Char => StoreOp::Sb,
        StoreType::Short => StoreOp::Sh,
        StoreType::Int => StoreOp::Sw,
        StoreType::Long => StoreOp::Sd,
    }
}

// An instruction that stores a register.
fn store(op: StoreOp, from: u8, register: u8, offset: i32) -> Instr
    ensures { result ≡ Instr.Store op register from offset }
{
    Instr::Store {
        op,
        rs1: register,
        rs2: from,
        imm: offset,
    }
}

// Returns the instruction that stores the low byte of a register.
fn store_byte(from: u8, register: u8, offset: i32) -> Instr
    ensures { result ≡ Instr.Store (StoreOp.Sb) register from offset }
{
    Instr::Store {
        op: StoreOp::Sb,
        rs1: register,
        rs2: from,
        imm: offset,
    }
}

// An address that is a register.
fn at_register(register: u8) -> Base
    ensures register { result.register ≡ (at_register register).base }
    ensures offset { result.offset ≡ (at_register register).offset }
{
    Base {
        register,
        offset: 0,
    }
}

// Returns whether a register is FP.
fn is_frame(reg: Reg) -> bool
    ensures { result ≡ is_frame reg }
{
    match reg {
        Reg::Fp => true,
        _ => false,
    }
}

// Returns whether the address that operands give is known to be a multiple of this many bytes.
fn is_whole(width: u32, at: Addressing, first: Operand, second: Operand) -> bool
    requires { 0 < width }
    ensures { result ≡ is_whole width (address_of at first second) }
{
    match at {
        Addressing::Register => width == 1 || is_frame(named(first)),
        Addressing::Immediate => number(first) % u64::from(width) == 0,
        Addressing::RegisterRegister => width == 1,
        Addressing::RegisterImmediate => match first {
            Operand::Reg(a) => width == 1
                || (is_frame(a) && number(second) % u64::from(width) == 0),
            _ => width == 1 || (is_frame(named(second)) && number(first) % u64::from(width) == 0),
        },
    }
}

// The sum of a register and a number: what computes it is appended, at most 9 instructions, for which there is room.
#[tactic(auto, using(lg_selr_values::proofs::EmissionLemmas::ones_twice, lg_selr_values::proofs::EmissionLemmas::number_few, lg_selr_values::proofs::EmissionLemmas::number_words))]
fn put_indexed(width: u32, register: u8, value: u64, items: &mut Items<Item>) -> Base
    requires some { 0 < width }
    requires room { words_in items.old + 9 ≤ 64 }
    ensures code { items.new ≡ items.old ++ ones (indexed width register value).code }
    ensures register { result.register ≡ (indexed width register value).base }
    ensures offset { result.offset ≡ (indexed width register value).offset }
{
    if is_short(value) {
        if value % u64::from(width) == 0 {
            return Base {
                register,
                offset: low_part(value),
            };
        }
        items.one(imm(ImmOp::Addi, LINK, register, low_part(value)));
        return at_register(LINK);
    }
    put_number(LINK, value, items);
    items.one(row(RegOp::Add, LINK, register, LINK));
    at_register(LINK)
}

// A number as an address: what computes it is appended, at most 8 instructions, for which there is room.
#[tactic(auto, using(lg_selr_values::proofs::EmissionLemmas::number_few))]
fn put_absolute(width: u32, value: u64, items: &mut Items<Item>) -> Base
    requires some { 0 < width }
    requires room { words_in items.old + 9 ≤ 64 }
    ensures code { items.new ≡ items.old ++ ones (absolute width value).code }
    ensures register { result.register ≡ (absolute width value).base }
    ensures offset { result.offset ≡ (absolute width value).offset }
{
    if value < 0x7FFF_F800 && value % u64::from(width) == 0 {
        items.one(upper(UpperOp::Lui, LINK, high_part(value)));
        return Base {
            register: LINK,
            offset: low_part(value),
        };
    }
    put_number(LINK, value, items);
    at_register(LINK)
}

// The address that operands give: what computes it is appended, at most 9 instructions, for which there is room.
fn put_address(
    width: u32,
    at: Addressing,
    first: Operand,
    second: Operand,
    items: &mut Items<Item>,
) -> Base
    requires some { 0 < width }
    requires room { words_in items.old + 9 ≤ 64 }
    ensures code { items.new ≡ items.old ++ ones (place_of width (address_of at first second)).code }
    ensures register { result.register ≡ (place_of width (address_of at first second)).base }
    ensures offset { result.offset ≡ (place_of width (address_of at first second)).offset }
{
    match at {
        Addressing::Register => at_register(register(first)),
        Addressing::Immediate => put_absolute(width, number(first), items),
        Addressing::RegisterRegister => {
            items.one(row(RegOp::Add, LINK, register(first), register(second)));
            at_register(LINK)
        }
        Addressing::RegisterImmediate => match first {
            Operand::Reg(_) => put_indexed(width, register(first), number(second), items),
            _ => put_indexed(width, register(second), number(first), items),
        },
    }
}

// Appends the code that puts the `count` lowest bytes at the link's address, from the highest of them on, each after those that `d` has, where `u` is a
// temporary: 3 instructions for each, for which there is room.
fn lower_bytes(d: u8, u: u8, count: u32, items: &mut Items<Item>)
    requires few { count ≤ 7 }
    requires room { words_in items.old + 3 * count ≤ 64 }
    ensures { items.new ≡ items.old ++ ones (lower_bytes d u count) }
{
    if count > 0 {
        let place = count - 1;
        items.all(&[
            shift(ShiftOp::Slli, d, d, 8),
            imm(ImmOp::Lbu, u, LINK, place as i32),
            row(RegOp::Add, d, d, u),
        ]);
        lower_bytes(d, u, place, items);
    }
}

// Appends the code that makes those bytes of a register's word after its lowest one the `count` bytes from byte `place` on at the link's address, where `u`
// is a temporary: 2 instructions for each, for which there is room.
fn higher_bytes(from: u8, u: u8, place: u32, count: u32, items: &mut Items<Item>)
    requires few { place + count ≤ 8 }
    requires room { words_in items.old + 2 * count ≤ 64 }
    ensures { items.new ≡ items.old ++ ones (higher_bytes from u place count) }
{
    if count > 0 {
        items.all(&[
            shift(ShiftOp::Srli, u, from, 8),
            store_byte(u, LINK, place as i32),
        ]);
        higher_bytes(u, u, place + 1, count - 1, items);
    }
}

// Returns the register of a test of a base, where `u` is a temporary.
fn tester(u: u8, base: u8) -> u8
    ensures { result ≡ tester u base }
{
    if base == LINK { u } else { LINK }
}

// Appends the test of the low bits of a base, and the branch that leads this many bytes further where they are 0.
fn put_test(u: u8, base: u8, width: u32, skip: i32, items: &mut Items<Item>)
    requires some { 0 < width }
    requires few { width ≤ 8 }
    requires room { words_in items.old + 2 ≤ 64 }
    ensures { items.new ≡ items.old ++ ones (test_code u base width skip) }
{
    let test = tester(u, base);
    items.all(&[
        imm(ImmOp::Andi, test, base, (width - 1) as i32),
        branch(BranchOp::Beq, test, 0, skip),
    ]);
}

// Appends the code that loads by a type from a place, byte by byte: at most 23 instructions, for which there is room.
fn slow_load(t: ValueType, d: u8, u: u8, base: Base, items: &mut Items<Item>)
    requires { words_in items.old + 23 ≤ 64 }
    ensures { items.new ≡ items.old ++ ones (slow_load t d u base.register base.offset) }
{
    let rest = width(t) - 1;
    items.all(&[
        imm(ImmOp::Addi, LINK, base.register, base.offset),
        imm(high_row(t), d, LINK, rest as i32),
    ]);
    lower_bytes(d, u, rest, items);
}

// Appends the code that loads by a type from a place into `d`, where `u` is a temporary: at most 27 instructions, for which there is room.
fn load_at(whole: bool, t: ValueType, d: u8, u: u8, base: Base, items: &mut Items<Item>)
    requires { words_in items.old + 27 ≤ 64 }
    ensures { items.new ≡ items.old ++ ones (load_at whole t d u base.register base.offset) }
{
    let last = imm(load_row(t), d, base.register, base.offset);
    if whole {
        items.one(last);
    } else {
        let width = width(t);
        put_test(u, base.register, width, (12 * width + 4) as i32, items);
        slow_load(t, d, u, base, items);
        items.all(&[branch(BranchOp::Beq, 0, 0, 8), last]);
    }
}

// Appends the code that stores eight bytes at the link's address by six stores, where `u` is a temporary: 14 instructions.
fn halves(from: u8, u: u8, items: &mut Items<Item>)
    requires { words_in items.old + 14 ≤ 64 }
    ensures { items.new ≡ items.old ++ ones (halves from u) }
{
    items.all(&[
        store_byte(from, LINK, 0),
        shift(ShiftOp::Srli, u, from, 48),
        store_byte(u, LINK, 6),
        shift(ShiftOp::Srli, u, u, 8),
        store_byte(u, LINK, 7),
        imm(ImmOp::Andi, u, LINK, 1),
        row(RegOp::Add, LINK, LINK, u),
        shift(ShiftOp::Slli, u, u, 3),
        row(RegOp::Srl, u, from, u),
        store(StoreOp::Sh, u, LINK, 0),
        shift(ShiftOp::Srli, u, u, 16),
        store(StoreOp::Sh, u, LINK, 2),
        shift(ShiftOp::Srli, u, u, 16),
        store(StoreOp::Sh, u, LINK, 4),
    ]);
}

// Appends the code that stores a register by a type at the link's address, in parts: at most 14 instructions, for which there is room.
fn store_bytes(t: StoreType, from: u8, u: u8, items: &mut Items<Item>)
    requires { words_in items.old + 14 ≤ 64 }
    ensures { items.new ≡ items.old ++ ones (store_bytes t from u) }
{
    match t {
        StoreType::Long => halves(from, u, items),
        StoreType::Char => items.one(store_byte(from, LINK, 0)),
        StoreType::Short => {
            items.one(store_byte(from, LINK, 0));
            higher_bytes(from, u, 1, 1, items);
        }
        StoreType::Int => {
            items.one(store_byte(from, LINK, 0));
            higher_bytes(from, u, 1, 3, items);
        }
    }
}

// Returns how many bytes a branch over these leads further.
fn store_skip(t: StoreType) -> i32
    ensures { result ≡ pos (store_skip t) }
{
    match t {
        StoreType::Char => 16,
        StoreType::Short => 24,
        StoreType::Int => 40,
        StoreType::Long => 68,
    }
}

// Appends the code that stores a register by a type at a place, where `u` is a temporary: at most 19 instructions, for which there is room.
fn store_at(whole: bool, t: StoreType, from: u8, u: u8, base: Base, items: &mut Items<Item>)
    requires { words_in items.old + 19 ≤ 64 }
    ensures { items.new ≡ items.old ++ ones (store_at whole t from u base.register base.offset) }
{
    let last = store(store_row(t), from, base.register, base.offset);
    if whole {
        items.one(last);
    } else {
        put_test(u, base.register, store_width(t), store_skip(t), items);
        items.one(imm(ImmOp::Addi, LINK, base.register, base.offset));
        store_bytes(t, from, u, items);
        items.all(&[branch(BranchOp::Beq, 0, 0, 8), last]);
    }
}

// Appends the code of a load, where `u` is a temporary: at most 36 instructions, for which there is room.
fn load_code(t: ValueType, at: Addressing, node: &Node, u: u8, items: &mut Items<Item>)
    requires { words_in items.old + 36 ≤ 64 }
    ensures { items.new ≡ items.old ++ ones (load_code t at node.now u) }
{
    let first = operand(node, 1);
    let second = operand(node, 2);
    let width = width(t);
    let base = put_address(width, at, first, second, items);
    load_at(
        is_whole(width, at, first, second),
        t,
        register(operand(node, 0)),
        u,
        base,
        items,
    );
}

// Appends the code of a store, where `u` is a temporary: at most 28 instructions, for which there is room.
fn store_code(t: StoreType, at: Addressing, node: &Node, u: u8, items: &mut Items<Item>)
    requires { words_in items.old + 36 ≤ 64 }
    ensures { items.new ≡ items.old ++ ones (store_code t at node.now u) }
{
    let from = match at {
        Addressing::Register | Addressing::Immediate => operand(node, 1),
        _ => operand(node, 2),
    };
    let first = operand(node, 0);
    let second = operand(node, 1);
    let width = store_width(t);
    let base = put_address(width, at, first, second, items);
    store_at(
        is_whole(width, at, first, second),
        t,
        register(from),
        u,
        base,
        items,
    );
}

/// Appends the code of a load to no items: 1 to 38 instructions. The operands are those of the load's row in the instruction table. There is
/// a choice at most, and one where the load reads several bytes.
pub fn put_load(
    node: &Node,
    choices: &Choices,
    t: ValueType,
    at: Addressing,
    items: &mut Items<Item>,
)
    requires few { length choices.now ≤ 1 }
    requires slots { HaveSlots choices.now }
    requires empty { items.old ≡ [] }
    ensures { items.new ≡ load_items t at node.now choices.now }
{
    match choices.as_slice() {
        [] => load_code(t, at, node, 0, items),
        [Choice::Free(u) | Choice::Own(u), ..] => load_code(t, at, node, *u, items),
        [Choice::Spill { reg, slot }, ..] => {
            items.one(save(*reg, *slot));
            load_code(t, at, node, *reg, items);
            items.one(restore(*reg, *slot));
        }
    }
}

/// Appends the code of a store to no items: 1 to 30 instructions. The operands are those of the store's row in the instruction table. There is
/// a choice at most, and one where the store writes several bytes.
pub fn put_store(
    node: &Node,
    choices: &Choices,
    t: StoreType,
    at: Addressing,
    items: &mut Items<Item>,
)
    requires few { length choices.now ≤ 1 }
    requires slots { HaveSlots choices.now }
    requires empty { items.old ≡ [] }
    ensures { items.new ≡ store_items t at node.now choices.now }
{
    match choices.as_slice() {
        [] => store_code(t, at, node, 0, items),
        [Choice::Free(u) | Choice::Own(u), ..] => store_code(t, at, node, *u, items),
        [Choice::Spill { reg, slot }, ..] => {
            items.one(save(*reg, *slot));
            store_code(t, at, node, *reg, items);
            items.one(restore(*reg, *slot));
        }
    }
}
