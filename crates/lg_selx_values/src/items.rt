// What the code of a node is made of on x86-64.

ghost use Rattle.std.specs.Prelude.{◌≡◌, pos};
ghost use Rattle.lg_x86.specs.declared.instruction.BareOp.TheVariants.{Nop};
ghost use Rattle.lg_selx_values.specs.Items.{blank, jump_by, opcode_size, fix_kind, move_size};

use lg_buf::FixKind;
use lg_x86::{BareOp, Cond, Instr, JumpNearOp};
use std::default::Default;

/// How a jump or call to a label is spelled.
#[derive(Clone, Copy)]
pub enum JumpKind {
    /// A jump or call by a distance of 32 bits.
    Near(JumpNearOp),
    /// A jump by a distance of 32 bits where the condition holds.
    NearIf(Cond),
    /// A jump by -128 to 127 bytes.
    Short,
    /// A jump by -128 to 127 bytes where the condition holds.
    ShortIf(Cond),
}

/// What the code of a node is made of. Registers are 0 to 15, and labels those of the buffer, by their numbers.
#[derive(Clone, Copy)]
pub enum Item {
    /// An instruction.
    One(Instr),
    /// A jump or call to the label.
    Jump { kind: JumpKind, label: u32 },
    /// The address of the label, into `reg`.
    Address { reg: u8, label: u32 },
}

impl Default for Item {
    /// What is in the places that are not used: the no-op.
    fn default() -> Item
        ensures { result ≡ Item.One (Instr.Bare Nop) }
    {
        Item::One(Instr::Bare { op: BareOp::Nop })
    }
}

impl JumpKind {
    // Returns the instruction, with 0 in its distance.
    fn blank(self) -> Instr
        ensures { result ≡ jump_by self (pos 0) }
    {
        match self {
            JumpKind::Near(op) => Instr::JumpNear { op, distance: 0 },
            JumpKind::NearIf(cond) => Instr::JumpIfNear { cond, distance: 0 },
            JumpKind::Short => Instr::JumpShort { distance: 0 },
            JumpKind::ShortIf(cond) => Instr::JumpIfShort { cond, distance: 0 },
        }
    }

    /// Returns how many bytes are in front of the distance: 1 or 2.
    pub fn opcode_size(self) -> u32
        ensures { result ≡ opcode_size self }
    {
        match self {
            JumpKind::NearIf(_) => 2,
            _ => 1,
        }
    }

    /// Returns the kind of the fix of the distance.
    pub fn fix_kind(self) -> FixKind
        ensures { result ≡ fix_kind self }
    {
        match self {
            JumpKind::Near(_) | JumpKind::NearIf(_) => FixKind::X86Rel32,
            JumpKind::Short | JumpKind::ShortIf(_) => FixKind::X86Rel8,
        }
    }
}

impl Item {
    /// Returns the instruction, with 0 in the field of a label.
    pub fn blank(&self) -> Instr
        ensures { result ≡ blank self.now }
    {
        match *self {
            Item::One(instr) => instr,
            Item::Jump { kind, label: _ } => kind.blank(),
            Item::Address { reg, label: _ } => Instr::Movi32 { reg, imm: 0 },
        }
    }
}

/// Returns how many bytes of a move of 32 bits are in front of its number: 1 or 2.
pub fn move_size(reg: u8) -> u32
    ensures { result ≡ move_size reg }
{
    if reg < 8 { 1 } else { 2 }
}
