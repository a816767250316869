// Moves in front of other instructions, and the instructions by their rows.

ghost use Rattle.std.specs.Prelude.{◌≡◌, ◌+◌, ◌<◌, ◌≤◌, ◌++◌, ◌∷◌, ◌-◌, pos, length, true};
ghost use Rattle.lg_base.specs.Words.{signed_view, is_half};
ghost use Rattle.lg_selx_values.specs.Processor.Numbers.{number_row};
ghost use Rattle.lg_selx_values.specs.Items.{ones, words_in};
ghost use Rattle.lg_selx_values.specs.Scratch.{moved};

use crate::{Item, half_number, mov, put_number};
use lg_sel::Items;
use lg_x86::{BareOp, ImmOp, Instr, LoadOp, RegRmOp, UnaryOp};

/// rbp, which corresponds to FP. Code may spoil it and make it again.
pub(crate) const SCRATCH: u8 = 5;

/// rax, where quotients and products come out.
pub(crate) const RAX: u8 = 0;

/// rdx, where remainders and the high words of products come out.
pub(crate) const RDX: u8 = 2;

/// rcx, where the counts of shifts stand.
pub(crate) const RCX: u8 = 1;

/// `reg` gets the result of `rm`.
pub(crate) fn ext(op: RegRmOp, reg: u8, rm: u8) -> Instr
    ensures { result ≡ Instr.RegRm op reg rm }
{
    Instr::RegRm { op, reg, rm }
}

/// An operation on `rm`.
pub(crate) fn one(op: UnaryOp, rm: u8) -> Instr
    ensures { result ≡ Instr.Unary op rm }
{
    Instr::Unary { op, rm }
}

/// `rm` is combined with a number, whose signed view has 32 bits.
pub(crate) fn imm(op: ImmOp, rm: u8, value: u64) -> Instr
    requires { is_half value ≡ true }
    ensures { result ≡ Instr.Imm op rm (signed_view value) }
{
    Instr::Imm {
        op,
        rm,
        imm: half_number(value),
    }
}

/// The sign of rax goes over rdx.
pub(crate) fn sign() -> Instr
    ensures { result ≡ Instr.Bare (BareOp.Cqo) }
{
    Instr::Bare { op: BareOp::Cqo }
}

/// FP is made again from the stack pointer, 4, in a function with such a frame.
pub(crate) fn again(frame: u32) -> Instr
    requires low { 272 ≤ frame }
    requires high { frame ≤ 65808 }
    ensures { result ≡ Instr.Load (LoadOp.Lea) 5 4 (pos (frame - 16)) }
{
    Instr::Load {
        op: LoadOp::Lea,
        reg: SCRATCH,
        base: 4,
        disp: (frame - 16) as i32,
    }
}

/// Appends a move of `a` to `d`, where they differ. There is room for it.
pub(crate) fn moved(d: u8, a: u8, items: &mut Items<Item>)
    requires { words_in items.old < 64 }
    ensures { items.new ≡ items.old ++ ones (moved d a) }
{
    if d != a {
        items.one(mov(d, a));
    }
}

/// Appends instructions after such a move. There is room for them and for the move.
#[tactic(auto, using(crate::proofs::EmissionLemmas::ones_twice, crate::proofs::EmissionLemmas::moved_words))]
pub(crate) fn after_move(d: u8, a: u8, rest: &[Instr], items: &mut Items<Item>)
    requires { words_in items.old + length rest.now + 1 ≤ 64 }
    ensures { items.new ≡ items.old ++ ones (moved d a ++ rest.now) }
{
    moved(d, a, items);
    items.all(rest);
}

/// Appends instructions after one that loads a number into `t`. There is room for them.
#[tactic(auto, using(crate::proofs::EmissionLemmas::ones_after, crate::proofs::EmissionLemmas::one_words))]
pub(crate) fn after_number(t: u8, value: u64, rest: &[Instr], items: &mut Items<Item>)
    requires { words_in items.old + length rest.now + 1 ≤ 64 }
    ensures { items.new ≡ items.old ++ ones (number_row t value ∷ rest.now) }
{
    put_number(t, value, items);
    items.all(rest);
}
