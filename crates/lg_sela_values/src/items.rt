// What the code of a node is made of on AArch64.

ghost use Rattle.std.specs.Prelude.{◌≡◌};

use lg_a64::{BranchOp, Cond, Instr};
use std::default::Default;

/// What the code of a node is made of. Registers are 0 to 31, and labels those of the buffer, by their numbers.
#[derive(Clone, Copy)]
pub enum Item {
    /// An instruction.
    One(Instr),
    /// `b` or `bl`: a branch to the label.
    Branch { op: BranchOp, label: u32 },
    /// `b.cond`: a branch to the label where the condition holds.
    CondBranch { cond: Cond, label: u32 },
    /// `movz` and `movk`: the address of the label, into `rd`.
    Address { rd: u8, label: u32 },
}

impl Default for Item {
    /// What is in the places that are not used: the no-op.
    fn default() -> Item
        ensures { result ≡ Item.One Instr.Nop }
    {
        Item::One(Instr::Nop)
    }
}
