// Functions that begin and return, and places at a multiple.

ghost use Rattle.std.specs.Prelude.{◌≡◌, ◌+◌, ◌-◌, ◌/◌, ◌%◌, ◌<◌, ◌≤◌, true, false, [], ◌∷◌, ◌++◌};
ghost use Rattle.lg_base.specs.Conventions.{argument_registers};
ghost use Rattle.lg_base.specs.declared.target.Target.TheVariants.{Aarch64};
ghost use Rattle.lg_sela_values.specs.Processor.A64Rows.{stack_pointer, frame_pointer, link};
ghost use Rattle.lg_op.specs.declared.form.Form.TheVariants as form;
ghost use Rattle.lg_sela.specs.Control.ControlItems.{align_items, plain_items};
ghost use Rattle.lg_sela.specs.Control.Prologs.{first_registers, home_registers, store_word, stores_below, fall_code, framed_code, is_near, prolog_code};
ghost use Rattle.lg_sela.specs.Control.Returns.{kept_loads, restores, link_load, near_return, far_return, return_code};
ghost use Rattle.lg_sela_values.specs.Items.{words_in, ones};
ghost use Rattle.lg_op.specs.Forms.{admit, plain_forms};
ghost use Rattle.lg_sel.specs.Control.Stores.{kept_registers};

use lg_a64::{BranchRegOp, ImmOp, Instr, ScaledOp, UnscaledOp};
use lg_op::{Operand, PlainOp};
use lg_sel::Items;
use lg_sel::control::{gap, put_idle};
use lg_sela_values::{FRAME_POINTER, Item, LINK, ZERO, imm};

// The stack pointer, as the base of an address and where a number is added.
const STACK_POINTER: u8 = ZERO;

// The registers of V0, V1 and V2.
const V0: u8 = 19;

const V1: u8 = 20;

const V2: u8 = 21;

// A word of the frame is stored by the stack pointer, which has fallen by this many bytes.
fn store(first: u32, reg: u8, word: u32) -> Instr
    requires large { 104 ≤ first }
    requires small { first ≤ 2048 }
    requires few { word < 13 }
    ensures { result ≡ store_word first reg word }
{
    Instr::Scaled {
        op: ScaledOp::Str64,
        rt: reg,
        rn: STACK_POINTER,
        imm: (first / 8 - (1 + word)) as u16,
    }
}

// What each `prolog` stores: the link and FP.
fn link_stores(first: u32) -> [Instr; 2]
    requires large { 104 ≤ first }
    requires small { first ≤ 2048 }
    ensures { result ≡ stores_below first (first_registers 0) 0 }
{
    [store(first, LINK, 0), store(first, FRAME_POINTER, 1)]
}

// The stores of V0, V1 and V2.
fn saves(first: u32) -> [Instr; 3]
    requires large { 104 ≤ first }
    requires small { first ≤ 2048 }
    ensures { result ≡ stores_below first (kept_registers Aarch64 3) 2 }
{
    [
        store(first, V0, 2),
        store(first, V1, 3),
        store(first, V2, 4),
    ]
}

// The stores of the register arguments into their homes.
fn home_stores(first: u32) -> [Instr; 8]
    requires large { 104 ≤ first }
    requires small { first ≤ 2048 }
    ensures { result ≡ stores_below first (argument_registers Aarch64) 5 }
{
    [
        store(first, 0, 5),
        store(first, 1, 6),
        store(first, 2, 7),
        store(first, 3, 8),
        store(first, 4, 9),
        store(first, 5, 10),
        store(first, 6, 11),
        store(first, 7, 12),
    ]
}

// The stack pointer falls by a number of 12 bits.
fn short_fall(size: u32) -> Instr
    requires { size < 4096 }
    ensures { result ≡ Instr.Imm (ImmOp.Subi) stack_pointer stack_pointer size false }
{
    imm(ImmOp::Subi, STACK_POINTER, STACK_POINTER, size as u16)
}

// By whole multiples of 4,096, and by what is left.
fn long_fall(size: u32) -> [Instr; 2]
    ensures { result ≡ Instr.Imm (ImmOp.Subi) stack_pointer stack_pointer (size / 4096 % 4096) true
        ∷ Instr.Imm (ImmOp.Subi) stack_pointer stack_pointer (size % 4096) false
        ∷ [] }
{
    let high = Instr::Imm {
        op: ImmOp::Subi,
        rd: STACK_POINTER,
        rn: STACK_POINTER,
        imm: (size / 4096 % 4096) as u16,
        shifted: true,
    };
    [high, short_fall(size % 4096)]
}

// Appends the fall of the stack pointer.
fn put_fall(size: u32, items: &mut Items<Item>)
    requires room { words_in items.old ≤ 60 }
    ensures { items.new ≡ items.old ++ ones (fall_code size) }
{
    if size < 4096 {
        items.one(short_fall(size));
    } else {
        items.all(&long_fall(size));
    }
}

// Appends the stores of a `prolog` with this many homes, which saves this many of V0 to V2.
#[tactic(auto, using(lg_sela_values::proofs::ItemLemmas::words_append))]
fn put_stores(first: u32, homes: u32, saved: u32, items: &mut Items<Item>)
    requires room { words_in items.old ≤ 50 }
    requires large { 104 ≤ first }
    requires small { first ≤ 2048 }
    ensures stored { items.new ≡ items.old ++ ones (stores_below first (first_registers saved) 0 ++ stores_below first (home_registers homes) 5) }
    ensures few { words_in items.new ≤ words_in items.old + 13 }
{
    items.all(&link_stores(first));
    items.all(&saves(first)[..saved.min(3) as usize]);
    items.all(&home_stores(first)[..homes.min(8) as usize]);
}

// Appends the fall of the stack pointer by this much of a frame, its words, with this many homes and this many of V0, V1 and V2, and FP to none.
#[tactic(auto, using(lg_sela_values::proofs::ItemLemmas::words_append))]
fn put_words(first: u32, homes: u32, saved: u32, items: &mut Items<Item>)
    requires empty { items.old ≡ [] }
    requires large { 104 ≤ first }
    requires small { first ≤ 2048 }
    ensures framed { items.new ≡ ones (framed_code saved first homes []) }
    ensures few { words_in items.new ≤ 15 }
{
    items.one(short_fall(first));
    put_stores(first, homes, saved, items);
    items.one(imm(
        ImmOp::Addi,
        FRAME_POINTER,
        STACK_POINTER,
        (first - 16) as u16,
    ));
}

// Returns whether a frame of this many bytes is made at once.
fn is_near(size: u32) -> bool
    ensures { result ≡ is_near size }
{
    size <= 2048 && size % 8 == 0
}

// Appends the code of a `prolog` with this many homes, which saves this many of V0, V1 and V2, to none.
#[tactic(auto, using(lg_sela_values::proofs::ItemLemmas::words_append))]
fn put_prolog(size: u32, homes: u32, saved: u32, items: &mut Items<Item>)
    requires empty { items.old ≡ [] }
    requires large { 272 ≤ size }
    ensures { items.new ≡ ones (prolog_code saved size homes) }
{
    if is_near(size) {
        put_words(size, homes, saved, items);
    } else {
        put_words(112, homes, saved, items);
        put_fall(size - 112, items);
    }
}

// A word of the frame is loaded by FP.
fn load(reg: u8, imm: i32) -> Instr
    ensures { result ≡ Instr.Unscaled (UnscaledOp.Ldur) reg frame_pointer imm }
{
    Instr::Unscaled {
        op: UnscaledOp::Ldur,
        rt: reg,
        rn: FRAME_POINTER,
        imm,
    }
}

// Returns the return.
fn ret() -> Instr
    ensures { result ≡ Instr.BranchReg (BranchRegOp.Ret) link }
{
    Instr::BranchReg {
        op: BranchRegOp::Ret,
        rn: LINK,
    }
}

// The loads of V0, V1 and V2.
fn kept_loads() -> [Instr; 3]
    ensures { result ≡ kept_loads }
{
    [load(V0, -8), load(V1, -16), load(V2, -24)]
}

// What a return then does in a frame whose size is a number of 12 bits.
fn near_return(size: u32) -> [Instr; 3]
    requires { size < 4096 }
    ensures { result ≡ near_return size }
{
    [
        load(FRAME_POINTER, 0),
        imm(ImmOp::Addi, STACK_POINTER, STACK_POINTER, size as u16),
        ret(),
    ]
}

// And in a larger one.
fn far_return() -> [Instr; 4]
    ensures { result ≡ far_return }
{
    [
        imm(ImmOp::Addi, STACK_POINTER, FRAME_POINTER, 0),
        Instr::Unscaled {
            op: UnscaledOp::Ldur,
            rt: FRAME_POINTER,
            rn: STACK_POINTER,
            imm: 0,
        },
        imm(ImmOp::Addi, STACK_POINTER, STACK_POINTER, 16),
        ret(),
    ]
}

// Appends the loads of this many of V0, V1 and V2, and of the return address.
fn put_restores(saved: u32, items: &mut Items<Item>)
    requires room { words_in items.old ≤ 50 }
    ensures loaded { items.new ≡ (items.old ++ ones (restores saved)) ++ ones (link_load ∷ []) }
    ensures few { words_in items.new ≤ words_in items.old + 4 }
{
    items.all(&kept_loads()[..saved.min(3) as usize]);
    items.one(load(LINK, 8));
}

// Appends a return from a frame of this many bytes, in which this many of V0, V1 and V2 are saved.
pub(crate) fn put_return(frame: u32, saved: u32, items: &mut Items<Item>)
    requires { words_in items.old ≤ 50 }
    ensures { items.new ≡ items.old ++ ones (return_code saved frame) }
{
    put_restores(saved, items);
    if frame < 4096 {
        items.all(&near_return(frame));
    } else {
        items.all(&far_return());
    }
}

// Appends the items of `.align` to none.
fn put_align(place: u32, operands: &[Operand], items: &mut Items<Item>)
    requires empty { items.old ≡ [] }
    requires formed { admit (form.Alignment ∷ []) operands.now ≡ true }
    ensures { items.new ≡ align_items place operands.now }
{
    match operands {
        [Operand::Number(alignment)] => put_idle(
            Instr::Nop,
            gap(place, *alignment as u32) / 4,
            items,
        ),
        _ => {}
    }
}

// Appends the items of an operation without a family to none.
pub(crate) fn put_plain(
    op: PlainOp,
    operands: &[Operand],
    frame: u32,
    homes: u32,
    saved: u32,
    place: u32,
    items: &mut Items<Item>,
)
    requires empty { items.old ≡ [] }
    requires formed { admit (plain_forms op) operands.now ≡ true }
    requires large { 272 ≤ frame }
    ensures { items.new ≡ plain_items op operands.now frame homes saved place }
{
    match op {
        PlainOp::Prolog => put_prolog(frame, homes, saved, items),
        PlainOp::Epilog | PlainOp::Ret => put_return(frame, saved, items),
        PlainOp::Align => put_align(place, operands, items),
        _ => {}
    }
}
