// Loads and stores.

ghost use Rattle.std.specs.Prelude.{◌≡◌, ◌+◌, ◌<◌, ◌≤◌, [], ◌++◌, length};
ghost use Rattle.lg_selx_values.specs.Items.{ones, words_in};
ghost use Rattle.lg_meaning.specs.Steps.{operand_at, stored_operand};
ghost use Rattle.lg_carry.specs.Memory.Accesses.{address_of};
ghost use Rattle.lg_carry.specs.Values.Parts.{HaveSlots};
ghost use Rattle.lg_selx.specs.Memory.Accesses.{load_row, store_row, at_register, at_spare, indexed, place_of, remade};
ghost use Rattle.lg_selx.specs.Memory.Accesses.{indexes, load_spare, load_code, store_code, store_items};

use crate::control::pointer_again;
use crate::memory::operands::register;
use lg_base::word::is_half;
use lg_carry::memory::operands::{number, operand};
use lg_op::{Addressing, Node, Operand, StoreType, ValueType};
use lg_sel::Items;
use lg_selx_values::{FRAME_POINTER, Item, half_number, put_number, restore, save};
use lg_temp::{Choice, Choices};
use lg_x86::{Instr, LoadOp, StoreOp};

// Where an access is: a register and a number added to it, and whether the register is a spare one.
#[derive(Clone, Copy)]
struct Base {
    register: u8,
    disp: i32,
    spare: bool,
}

// Returns the row that loads by a type.
pub(crate) fn load_row(t: ValueType) -> LoadOp
    ensures { result ≡ load_row t }
{
    match t {
        ValueType::Char => LoadOp::Ld8s,
        ValueType::UnsignedChar => LoadOp::Ld8u,
        ValueType::Short => LoadOp::Ld16s,
        ValueType::UnsignedShort => LoadOp::Ld16u,
        ValueType::Int => LoadOp::Ld32s,
        ValueType::UnsignedInt => LoadOp::Ld32u,
        ValueType::Long => LoadOp::Ld64,
    }
}

// Returns the row that stores by a type.
fn store_row(t: StoreType) -> StoreOp
    ensures { result ≡ store_row t }
{
    match t {
        StoreType::Char => StoreOp::St8,
        StoreType::Short => StoreOp::St16,
        StoreType::Int => StoreOp::St32,
        StoreType::Long => StoreOp::St64,
    }
}

// An address that is a register and a number.
fn at_register(register: u8, disp: i32) -> Base
    ensures register { result.register ≡ (at_register register disp).base }
    ensures disp { result.disp ≡ (at_register register disp).disp }
    ensures spare { result.spare ≡ (at_register register disp).spare }
{
    Base {
        register,
        disp,
        spare: false,
    }
}

// An address that a spare register holds.
fn at_spare(register: u8) -> Base
    ensures register { result.register ≡ (at_spare register []).base }
    ensures disp { result.disp ≡ (at_spare register []).disp }
    ensures spare { result.spare ≡ (at_spare register []).spare }
{
    Base {
        register,
        disp: 0,
        spare: true,
    }
}

// A register gets the sum of two.
fn sum(reg: u8, base: u8, index: u8) -> Instr
    ensures { result ≡ Instr.Lea2 reg base index }
{
    Instr::Lea2 { reg, base, index }
}

// The sum of a register and a number, by a spare register: at most 2 instructions, for which there is room.
#[tactic(auto, using(lg_selx_values::proofs::EmissionLemmas::one_words, lg_selx_values::proofs::EmissionLemmas::ones_after))]
fn put_indexed(spare: u8, register: u8, value: u64, items: &mut Items<Item>) -> Base
    requires room { words_in items.old ≤ 8 }
    ensures code { items.new ≡ items.old ++ ones (indexed spare register value).code }
    ensures register { result.register ≡ (indexed spare register value).base }
    ensures disp { result.disp ≡ (indexed spare register value).disp }
    ensures spare { result.spare ≡ (indexed spare register value).spare }
    ensures few { words_in items.new ≤ words_in items.old + 2 }
{
    if is_half(value) {
        return at_register(register, half_number(value));
    }
    put_number(spare, value, items);
    items.one(sum(spare, spare, register));
    at_spare(spare)
}

// The address that operands give, by a spare register: what computes it is appended, at most 2 instructions, for which there is room.
#[tactic(auto, using(lg_selx_values::proofs::EmissionLemmas::one_words))]
fn put_address(
    spare: u8,
    at: Addressing,
    first: Operand,
    second: Operand,
    items: &mut Items<Item>,
) -> Base
    requires room { words_in items.old ≤ 8 }
    ensures code { items.new ≡ items.old ++ ones (place_of spare (address_of at first second)).code }
    ensures register { result.register ≡ (place_of spare (address_of at first second)).base }
    ensures disp { result.disp ≡ (place_of spare (address_of at first second)).disp }
    ensures spare { result.spare ≡ (place_of spare (address_of at first second)).spare }
    ensures few { words_in items.new ≤ words_in items.old + 2 }
{
    match at {
        Addressing::Register => at_register(register(first), 0),
        Addressing::Immediate => {
            put_number(spare, number(first), items);
            at_spare(spare)
        }
        Addressing::RegisterRegister => {
            items.one(sum(spare, register(first), register(second)));
            at_spare(spare)
        }
        Addressing::RegisterImmediate => match first {
            Operand::Reg(_) => put_indexed(spare, register(first), number(second), items),
            _ => put_indexed(spare, register(second), number(first), items),
        },
    }
}

// Returns whether a number is added to this register in the address that operands give.
fn indexes(reg: u8, at: Addressing, first: Operand, second: Operand) -> bool
    ensures { result ≡ indexes reg (address_of at first second) }
{
    match at {
        Addressing::RegisterImmediate => match first {
            Operand::Reg(_) => register(first) == reg,
            _ => register(second) == reg,
        },
        _ => false,
    }
}

// Returns the spare register of a load.
fn load_spare(reg: u8, at: Addressing, first: Operand, second: Operand) -> u8
    ensures { result ≡ load_spare reg (address_of at first second) }
{
    if indexes(reg, at, first, second) {
        FRAME_POINTER
    } else {
        reg
    }
}

// Makes FP again, where it is the spare register.
#[tactic(auto, using(lg_selx_values::proofs::ItemLemmas::words_append))]
fn put_remade(frame: u32, spare: u8, items: &mut Items<Item>)
    requires some { 272 ≤ frame }
    requires small { frame < 0x4000_0000 }
    requires few { words_in items.old ≤ 3 }
    ensures { items.new ≡ items.old ++ ones (remade frame spare) }
{
    if spare == FRAME_POINTER {
        items.one(pointer_again(frame));
    }
}

// Returns the instruction that loads by a type.
fn load(t: ValueType, reg: u8, base: Base) -> Instr
    ensures { result ≡ Instr.Load (load_row t) reg base.register base.disp }
{
    Instr::Load {
        op: load_row(t),
        reg,
        base: base.register,
        disp: base.disp,
    }
}

// Returns the instruction that stores by a type.
fn store(t: StoreType, reg: u8, base: Base) -> Instr
    ensures { result ≡ Instr.Store (store_row t) base.register base.disp reg }
{
    Instr::Store {
        op: store_row(t),
        base: base.register,
        disp: base.disp,
        reg,
    }
}

/// Appends the code of a load to no items: 1 to 4 instructions. The operands are those of the load's row in the instruction table, and `frame`
/// is the size of the frame of the node's function in bytes, from 272 to 0x3FFF_FFFF.
#[tactic(auto, using(lg_selx_values::proofs::ItemLemmas::words_append))]
pub fn put_load(node: &Node, frame: u32, t: ValueType, at: Addressing, items: &mut Items<Item>)
    requires empty { items.old ≡ [] }
    requires some { 272 ≤ frame }
    requires small { frame < 0x4000_0000 }
    ensures { items.new ≡ ones (load_code frame t at node.now) }
{
    let reg = register(operand(node, 0));
    let spare = load_spare(reg, at, operand(node, 1), operand(node, 2));
    let base = put_address(spare, at, operand(node, 1), operand(node, 2), items);
    items.one(load(t, reg, base));
    if base.spare {
        put_remade(frame, base.register, items);
    }
}

// Returns the operand that a node stores.
fn stored(at: Addressing, node: &Node) -> Operand
    ensures { result ≡ operand_at node.now (stored_operand at) }
{
    match at {
        Addressing::Register | Addressing::Immediate => operand(node, 1),
        _ => operand(node, 2),
    }
}

// Appends the code of a store, where `u` is a temporary: at most 3 instructions, for which there is room.
#[tactic(auto, using(lg_selx_values::proofs::EmissionLemmas::one_words, lg_selx_values::proofs::EmissionLemmas::ones_twice))]
fn store_code(t: StoreType, at: Addressing, node: &Node, u: u8, items: &mut Items<Item>)
    requires room { words_in items.old ≤ 8 }
    ensures code { items.new ≡ items.old ++ ones (store_code t at node.now u) }
    ensures few { words_in items.new ≤ words_in items.old + 3 }
{
    let base = put_address(u, at, operand(node, 0), operand(node, 1), items);
    items.one(store(t, register(stored(at, node)), base));
}

/// Appends the code of a store to no items: 1 to 5 instructions. The operands are those of the store's row in the instruction table. There is a
/// choice at most, and one where the address is no register.
pub fn put_store(
    node: &Node,
    choices: &Choices,
    t: StoreType,
    at: Addressing,
    items: &mut Items<Item>,
)
    requires few { length choices.now ≤ 1 }
    requires slots { HaveSlots choices.now }
    requires empty { items.old ≡ [] }
    ensures { items.new ≡ store_items t at node.now choices.now }
{
    match choices.as_slice() {
        [] => store_code(t, at, node, 0, items),
        [Choice::Free(u) | Choice::Own(u), ..] => store_code(t, at, node, *u, items),
        [Choice::Spill { reg, slot }, ..] => {
            items.one(save(*reg, *slot));
            store_code(t, at, node, *reg, items);
            items.one(restore(*reg, *slot));
        }
    }
}
