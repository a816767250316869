// Functions that begin and return, and places at a multiple.

ghost use Rattle.std.specs.Prelude.{◌≡◌, ◌+◌, ◌-◌, ◌*◌, ◌<◌, ◌≤◌, true, negsuc, [], ◌∷◌, ◌++◌};
ghost use Rattle.lg_base.specs.Conventions.{argument_registers};
ghost use Rattle.lg_base.specs.declared.target.Target.TheVariants.{Riscv64};
ghost use Rattle.lg_selr_values.specs.Processor.Numbers.{high_part, low_part};
ghost use Rattle.lg_op.specs.declared.form.Form.TheVariants as form;
ghost use Rattle.lg_selr.specs.Control.ControlItems.{align_items, plain_items};
ghost use Rattle.lg_selr.specs.Control.Prologs.{first_registers, home_registers, store_word, stores_below, fall_code, framed_code, prolog_code};
ghost use Rattle.lg_selr.specs.Control.Returns.{restores, near_return, far_return, leaving_code, return_code};
ghost use Rattle.lg_selr_values.specs.Items.{words_in, ones};
ghost use Rattle.lg_op.specs.Forms.{admit, plain_forms};
ghost use Rattle.lg_sel.specs.Control.Stores.{kept_registers};

use lg_op::{Operand, PlainOp};
use lg_rv::{ImmOp, Instr, RegOp, StoreOp, UpperOp};
use lg_sel::Items;
use lg_sel::control::{gap, put_idle};
use lg_selr_values::{
    FRAME_POINTER, Item, LINK, STACK_POINTER, ZERO, high_part, imm, low_part, row,
};

// The registers of V0, V1 and V2.
const V0: u8 = 9;

const V1: u8 = 18;

const V2: u8 = 19;

// A word of the frame is stored by the stack pointer, which has fallen by this many bytes.
fn store(first: u32, reg: u8, word: u32) -> Instr
    requires large { 104 ≤ first }
    requires small { first ≤ 2048 }
    requires few { word < 13 }
    ensures { result ≡ store_word first reg word }
{
    Instr::Store {
        op: StoreOp::Sd,
        rs1: STACK_POINTER,
        rs2: reg,
        imm: (first - (8 + 8 * word)) as i32,
    }
}

// What each `prolog` stores: the link and FP.
fn link_stores(first: u32) -> [Instr; 2]
    requires large { 104 ≤ first }
    requires small { first ≤ 2048 }
    ensures { result ≡ stores_below first (first_registers 0) 0 }
{
    [store(first, LINK, 0), store(first, FRAME_POINTER, 1)]
}

// The stores of V0, V1 and V2.
fn saves(first: u32) -> [Instr; 3]
    requires large { 104 ≤ first }
    requires small { first ≤ 2048 }
    ensures { result ≡ stores_below first (kept_registers Riscv64 3) 2 }
{
    [
        store(first, V0, 2),
        store(first, V1, 3),
        store(first, V2, 4),
    ]
}

// The stores of the register arguments into their homes.
fn home_stores(first: u32) -> [Instr; 8]
    requires large { 104 ≤ first }
    requires small { first ≤ 2048 }
    ensures { result ≡ stores_below first (argument_registers Riscv64) 5 }
{
    [
        store(first, 10, 5),
        store(first, 11, 6),
        store(first, 12, 7),
        store(first, 13, 8),
        store(first, 14, 9),
        store(first, 15, 10),
        store(first, 16, 11),
        store(first, 17, 12),
    ]
}

// The stack pointer falls by up to 2,048 bytes.
fn short_fall(size: u32) -> Instr
    requires some { 0 < size }
    requires short { size ≤ 2048 }
    ensures { result ≡ Instr.Imm (ImmOp.Addi) 2 2 (negsuc (size - 1)) }
{
    imm(ImmOp::Addi, STACK_POINTER, STACK_POINTER, -(size as i32))
}

// By more bytes.
fn long_fall(size: u32) -> [Instr; 3]
    requires { size < 0x4000_0000 }
    ensures { result ≡ Instr.Upper (UpperOp.Lui) 1 (high_part size) ∷ Instr.Imm (ImmOp.Addiw) 1 1 (low_part size) ∷ Instr.Reg (RegOp.Sub) 2 2 1 ∷ [] }
{
    let size = u64::from(size);
    let lui = Instr::Upper {
        op: UpperOp::Lui,
        rd: LINK,
        imm: high_part(size),
    };
    let low = imm(ImmOp::Addiw, LINK, LINK, low_part(size));
    [
        lui,
        low,
        row(RegOp::Sub, STACK_POINTER, STACK_POINTER, LINK),
    ]
}

// Appends the fall of the stack pointer.
fn put_fall(size: u32, items: &mut Items<Item>)
    requires some { 0 < size }
    requires small { size < 0x4000_0000 }
    requires room { words_in items.old ≤ 60 }
    ensures { items.new ≡ items.old ++ ones (fall_code size) }
{
    if size <= 2048 {
        items.one(short_fall(size));
    } else {
        items.all(&long_fall(size));
    }
}

// Appends the stores of a `prolog` with this many homes, which saves this many of V0 to V2.
#[tactic(auto, using(lg_selr_values::proofs::ItemLemmas::words_append))]
fn put_stores(first: u32, homes: u32, saved: u32, items: &mut Items<Item>)
    requires room { words_in items.old ≤ 50 }
    requires large { 104 ≤ first }
    requires small { first ≤ 2048 }
    ensures stored { items.new ≡ items.old ++ ones (stores_below first (first_registers saved) 0 ++ stores_below first (home_registers homes) 5) }
    ensures few { words_in items.new ≤ words_in items.old + 13 }
{
    items.all(&link_stores(first));
    items.all(&saves(first)[..saved.min(3) as usize]);
    items.all(&home_stores(first)[..homes.min(8) as usize]);
}

// Appends the fall of the stack pointer by this much of a frame, its words, with this many of V0 to V2 and this many homes, and FP to none.
#[tactic(auto, using(lg_selr_values::proofs::ItemLemmas::words_append))]
fn put_words(first: u32, homes: u32, saved: u32, items: &mut Items<Item>)
    requires empty { items.old ≡ [] }
    requires large { 104 ≤ first }
    requires small { first ≤ 2048 }
    ensures framed { items.new ≡ ones (framed_code saved first homes []) }
    ensures few { words_in items.new ≤ 15 }
{
    items.one(short_fall(first));
    put_stores(first, homes, saved, items);
    items.one(imm(
        ImmOp::Addi,
        FRAME_POINTER,
        STACK_POINTER,
        (first - 16) as i32,
    ));
}

// Appends the code of a `prolog` with this many homes, which saves this many of V0 to V2, to none.
#[tactic(auto, using(lg_selr_values::proofs::ItemLemmas::words_append))]
fn put_prolog(size: u32, homes: u32, saved: u32, items: &mut Items<Item>)
    requires empty { items.old ≡ [] }
    requires large { 272 ≤ size }
    requires small { size < 0x4000_0000 }
    ensures { items.new ≡ ones (prolog_code saved size homes) }
{
    if size <= 2048 {
        put_words(size, homes, saved, items);
    } else {
        put_words(2048, homes, saved, items);
        put_fall(size - 2048, items);
    }
}

// V0, V1 and V2 come back.
fn restores() -> [Instr; 3]
    ensures { result ≡ restores 3 }
{
    [
        imm(ImmOp::Ld, V0, FRAME_POINTER, -8),
        imm(ImmOp::Ld, V1, FRAME_POINTER, -16),
        imm(ImmOp::Ld, V2, FRAME_POINTER, -24),
    ]
}

// What a return does after them in a frame whose size is a number of 12 bits.
fn near_return(size: u32) -> [Instr; 4]
    requires { size < 2048 }
    ensures { result ≡ near_return size }
{
    [
        imm(ImmOp::Ld, LINK, FRAME_POINTER, 8),
        imm(ImmOp::Ld, FRAME_POINTER, FRAME_POINTER, 0),
        imm(ImmOp::Addi, STACK_POINTER, STACK_POINTER, size as i32),
        imm(ImmOp::Jalr, ZERO, LINK, 0),
    ]
}

// And in a larger one.
fn far_return() -> [Instr; 5]
    ensures { result ≡ far_return }
{
    [
        imm(ImmOp::Ld, LINK, FRAME_POINTER, 8),
        imm(ImmOp::Addi, STACK_POINTER, FRAME_POINTER, 0),
        imm(ImmOp::Ld, FRAME_POINTER, STACK_POINTER, 0),
        imm(ImmOp::Addi, STACK_POINTER, STACK_POINTER, 16),
        imm(ImmOp::Jalr, ZERO, LINK, 0),
    ]
}

// Appends what comes back of V0 to V2, of this many.
#[tactic(auto, using(lg_selr_values::proofs::ItemLemmas::words_append))]
fn put_restores(saved: u32, items: &mut Items<Item>)
    requires { words_in items.old ≤ 50 }
    ensures restored { items.new ≡ items.old ++ ones (restores saved) }
    ensures few { words_in items.new ≤ words_in items.old + 3 }
{
    items.all(&restores()[..saved.min(3) as usize]);
}

// Appends what leaves a frame of this many bytes.
fn put_leaving(frame: u32, items: &mut Items<Item>)
    requires { words_in items.old ≤ 53 }
    ensures { items.new ≡ items.old ++ ones (leaving_code frame) }
{
    if frame < 2048 {
        items.all(&near_return(frame));
    } else {
        items.all(&far_return());
    }
}

// Appends a return from a frame of this many bytes, which saves this many of V0 to V2.
pub(crate) fn put_return(frame: u32, saved: u32, items: &mut Items<Item>)
    requires { words_in items.old ≤ 50 }
    ensures { items.new ≡ items.old ++ ones (return_code saved frame) }
{
    put_restores(saved, items);
    put_leaving(frame, items);
}

// Appends the items of `.align` to none.
fn put_align(place: u32, operands: &[Operand], items: &mut Items<Item>)
    requires empty { items.old ≡ [] }
    requires formed { admit (form.Alignment ∷ []) operands.now ≡ true }
    ensures { items.new ≡ align_items place operands.now }
{
    match operands {
        [Operand::Number(alignment)] => put_idle(
            imm(ImmOp::Addi, ZERO, ZERO, 0),
            gap(place, *alignment as u32) / 4,
            items,
        ),
        _ => {}
    }
}

// Appends the items of an operation without a family to none.
pub(crate) fn put_plain(
    op: PlainOp,
    operands: &[Operand],
    frame: u32,
    homes: u32,
    saved: u32,
    place: u32,
    items: &mut Items<Item>,
)
    requires empty { items.old ≡ [] }
    requires formed { admit (plain_forms op) operands.now ≡ true }
    requires large { 272 ≤ frame }
    requires small { frame < 0x4000_0000 }
    ensures { items.new ≡ plain_items op operands.now frame homes saved place }
{
    match op {
        PlainOp::Prolog => put_prolog(frame, homes, saved, items),
        PlainOp::Epilog | PlainOp::Ret => put_return(frame, saved, items),
        PlainOp::Align => put_align(place, operands, items),
        _ => {}
    }
}
