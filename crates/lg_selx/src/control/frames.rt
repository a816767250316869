// Functions that begin and return, and places at a multiple.

ghost use Rattle.std.specs.Prelude.{◌≡◌, ◌+◌, ◌<◌, ◌≤◌, true, negsuc, [], ◌∷◌, ◌++◌};
ghost use Rattle.lg_base.specs.Conventions.{argument_registers};
ghost use Rattle.lg_base.specs.declared.target.Target.TheVariants.{X86_64};
ghost use Rattle.lg_op.specs.Forms.{admit, plain_forms};
ghost use Rattle.lg_op.specs.declared.form.Form.TheVariants as form;
ghost use Rattle.lg_selx.specs.Control.ControlItems.{align_items, plain_items};
ghost use Rattle.lg_sel.specs.Control.Stores.{kept_registers};
ghost use Rattle.lg_selx.specs.Control.Prologs.{stores_below, stored_code, lower, prolog_code};
ghost use Rattle.lg_x86.specs.declared.instruction.LoadOp.TheVariants.{Lea};
ghost use Rattle.lg_selx.specs.Control.Returns.{restores, return_code};
ghost use Rattle.lg_selx_values.specs.Items.{words_in, ones};

use lg_op::{Operand, PlainOp};
use lg_sel::Items;
use lg_sel::control::{gap, put_idle};
use lg_selx_values::{FRAME_POINTER, Item, STACK_POINTER, lea};
use lg_x86::{BareOp, Instr, LoadOp, StoreOp};

// The registers of V0, V1 and V2: rbx, r13 and r14.
const V0: u8 = 3;

const V1: u8 = 13;

const V2: u8 = 14;

// A word of the frame is stored by FP or the stack pointer.
fn store(base: u8, disp: i32, reg: u8) -> Instr
    ensures { result ≡ Instr.Store (StoreOp.St64) base disp reg }
{
    Instr::Store {
        op: StoreOp::St64,
        base,
        disp,
        reg,
    }
}

// The stack pointer falls from FP to the end of a frame of this many bytes.
fn lowered(size: u32) -> Instr
    requires some { 272 ≤ size }
    requires small { size < 0x4000_0000 }
    ensures { result ≡ Instr.Load Lea 4 5 (lower size) }
{
    lea(STACK_POINTER, FRAME_POINTER, -((size - 17) as i32) - 1)
}

// What each `prolog` does first: the caller's FP goes below the return address, and FP points there.
fn pointed() -> [Instr; 2]
    ensures { result ≡ Instr.Store (StoreOp.St64) 4 (negsuc 7) 5 ∷ Instr.Load Lea 5 4 (negsuc 7) ∷ [] }
{
    [
        store(STACK_POINTER, -8, FRAME_POINTER),
        lea(FRAME_POINTER, STACK_POINTER, -8),
    ]
}

// And what it stores by FP: V0, V1 and V2.
fn saves() -> [Instr; 3]
    ensures { result ≡ stores_below (kept_registers X86_64 3) 2 }
{
    [
        store(FRAME_POINTER, -8, V0),
        store(FRAME_POINTER, -16, V1),
        store(FRAME_POINTER, -24, V2),
    ]
}

// The stores of the arguments in rdi, rsi, rdx, rcx, r8 and r9 into their homes.
fn home_stores() -> [Instr; 6]
    ensures { result ≡ stores_below (argument_registers X86_64) 5 }
{
    [
        store(FRAME_POINTER, -32, 7),
        store(FRAME_POINTER, -40, 6),
        store(FRAME_POINTER, -48, 2),
        store(FRAME_POINTER, -56, 1),
        store(FRAME_POINTER, -64, 8),
        store(FRAME_POINTER, -72, 9),
    ]
}

// Appends the stores of a `prolog` by FP: of this many of V0, V1 and V2, and of this many homes.
#[tactic(auto, using(lg_selx_values::proofs::ItemLemmas::words_append))]
fn put_stores(homes: u32, saved: u32, items: &mut Items<Item>)
    requires room { words_in items.old ≤ 50 }
    ensures stored { items.new ≡ items.old ++ ones (stored_code saved homes) }
    ensures few { words_in items.new ≤ words_in items.old + 9 }
{
    items.all(&saves()[..saved.min(3) as usize]);
    items.all(&home_stores()[..homes.min(6) as usize]);
}

// Appends the code of a `prolog` with this many homes to none, which saves this many of V0, V1 and V2.
#[tactic(auto, using(lg_selx_values::proofs::ItemLemmas::words_append))]
fn put_prolog(size: u32, homes: u32, saved: u32, items: &mut Items<Item>)
    requires empty { items.old ≡ [] }
    requires some { 272 ≤ size }
    requires small { size < 0x4000_0000 }
    ensures { items.new ≡ ones (prolog_code saved size homes) }
{
    items.all(&pointed());
    put_stores(homes, saved, items);
    items.one(lowered(size));
}

// A word of the frame is loaded by FP.
fn load(reg: u8, disp: i32) -> Instr
    ensures { result ≡ Instr.Load (LoadOp.Ld64) reg 5 disp }
{
    Instr::Load {
        op: LoadOp::Ld64,
        reg,
        base: FRAME_POINTER,
        disp,
    }
}

// What a return loads: V0, V1 and V2.
fn restores() -> [Instr; 3]
    ensures { result ≡ restores 3 }
{
    [load(V0, -8), load(V1, -16), load(V2, -24)]
}

// And what it does after that.
fn leaves() -> [Instr; 3]
    ensures { result ≡ return_code 0 }
{
    [
        lea(STACK_POINTER, FRAME_POINTER, 8),
        load(FRAME_POINTER, 0),
        Instr::Bare { op: BareOp::Ret },
    ]
}

// Appends a return that restores this many of V0, V1 and V2.
#[tactic(auto, using(lg_selx_values::proofs::ItemLemmas::words_append))]
pub(crate) fn put_return(saved: u32, items: &mut Items<Item>)
    requires { words_in items.old ≤ 50 }
    ensures { items.new ≡ items.old ++ ones (return_code saved) }
{
    items.all(&restores()[..saved.min(3) as usize]);
    items.all(&leaves());
}

// Appends the items of `.align` to none.
fn put_align(place: u32, operands: &[Operand], items: &mut Items<Item>)
    requires empty { items.old ≡ [] }
    requires formed { admit (form.Alignment ∷ []) operands.now ≡ true }
    ensures { items.new ≡ align_items place operands.now }
{
    match operands {
        [Operand::Number(alignment)] => put_idle(
            Instr::Bare { op: BareOp::Nop },
            gap(place, *alignment as u32),
            items,
        ),
        _ => {}
    }
}

// Appends the items of an operation without a family to none.
pub(crate) fn put_plain(
    op: PlainOp,
    operands: &[Operand],
    frame: u32,
    homes: u32,
    saved: u32,
    place: u32,
    items: &mut Items<Item>,
)
    requires empty { items.old ≡ [] }
    requires formed { admit (plain_forms op) operands.now ≡ true }
    requires some { 272 ≤ frame }
    requires small { frame < 0x4000_0000 }
    ensures { items.new ≡ plain_items op operands.now frame homes saved place }
{
    match op {
        PlainOp::Prolog => put_prolog(frame, homes, saved, items),
        PlainOp::Epilog | PlainOp::Ret => put_return(saved, items),
        PlainOp::Align => put_align(place, operands, items),
        _ => {}
    }
}
