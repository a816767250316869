// What the code of a node is made of on RV64.

ghost use Rattle.std.specs.Prelude.{◌≡◌, pos};

use crate::rows::imm;
use lg_rv::{BranchOp, ImmOp, Instr};
use std::default::Default;

/// What the code of a node is made of. Registers are 0 to 31, and labels those of the buffer, by their numbers.
#[derive(Clone, Copy)]
pub enum Item {
    /// An instruction.
    One(Instr),
    /// A branch to the label, over up to 4 KiB.
    Branch {
        op: BranchOp,
        rs1: u8,
        rs2: u8,
        label: u32,
    },
    /// `jal`: a jump to the label, over up to 1 MiB, which leaves the address after it in `rd`.
    Jump {
        rd: u8,
        label: u32,
    },
    /// `auipc` and `jalr`: a jump to the label, over any distance, by way of `base`, which leaves the address after it in `rd`.
    FarJump {
        rd: u8,
        base: u8,
        label: u32,
    },
    /// `lui` and `addi`: the address of the label, into `rd`.
    Address {
        rd: u8,
        label: u32,
    },
}

impl Default for Item {
    /// What is in the places that are not used: the no-op.
    fn default() -> Item
        ensures { result ≡ Item.One (Instr.Imm (ImmOp.Addi) 0 0 (pos 0)) }
    {
        Item::One(imm(ImmOp::Addi, 0, 0, 0))
    }
}
