// What an item is.

ghost use Rattle.std.specs.Prelude.{◌≡◌, ℕ, ◌+◌, ◌<◌, ◌≤◌, ◌^◌, ◌++◌, length, IfSome};
ghost use Rattle.lg_sel.specs.Holes.{Holes, words_of, blank_of, fix_at, listed, IsWithin};

use crate::bytes::Bytes;
use lg_buf::Fix;
use std::default::Default;

/// What the code of nodes is made of on a target: an instruction, or some that name a label.
pub trait Item: Copy + Drop + Default {
    /// An instruction.
    type Instruction: Copy + Drop;

    /// How many instructions an item has, its bytes with 0 in the field of a label, and what it becomes.
    ghost holes: { Holes Self Self.Instruction };

    /// An instruction that names no label.
    ghost one: { Self.Instruction → Self };

    /// Its numbers are in the ranges of its instructions.
    ghost is_item: { Self → Type 0 };

    /// It names one of n labels, or none.
    ghost names_one_of: { ℕ → Self → Type 0 };

    /// An instruction that names no label.
    fn of(instr: Self::Instruction) -> Self
        ensures { result ≡ one instr };

    /// Appends its bytes, with 0 in the field of a label. There is room for them.
    fn spell(&self, bytes: &mut Bytes)
        requires item { is_item self.now }
        requires room { length bytes.old + length (blank_of holes self.now) ≤ 256 }
        ensures { bytes.new ≡ bytes.old ++ blank_of holes self.now };

    /// Returns how many bytes it has.
    fn size(&self) -> u32
        requires { is_item self.now }
        ensures { result ≡ length (blank_of holes self.now) };

    /// Returns the fix of an item whose bytes are at a place, if it names a label. It lies within the item's bytes.
    fn fix(&self, place: u32) -> Option<Fix>
        requires item { is_item self.now }
        requires small { place + length (blank_of holes self.now) < 2 ^ 32 }
        ensures fix { listed result ≡ fix_at holes place self.now }
        ensures within { IfSome result (λ f. IsWithin place (length (blank_of holes self.now)) f) }
        ensures label { (labels : ℕ) → names_one_of labels self.now → IfSome result (λ f. f.label.0 < labels) };

    /// It has an instruction.
    ghost some: { (x : Self) → 0 < words_of holes x };

    /// An instruction is one.
    ghost single: { (i : Self.Instruction) → words_of holes (one i) ≡ 1 };
}
