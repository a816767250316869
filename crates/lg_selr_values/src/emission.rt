// How the items of RV64 are spelled, and their fixes.

ghost use Rattle.std.specs.Prelude.{◌≡◌, ◌+◌, ◌≤◌, ◌++◌, length, refl};
ghost use Rattle.lg_rv.specs.Spelling.{IsInstr, spelling};
ghost use Rattle.lg_selr_values.specs.declared.items.Item.TheVariants.{One};
ghost use Rattle.lg_selr_values.specs.Items.{rv_holes, IsItem, NamesOneOf, has_word};

use crate::items::Item;
use crate::rows::{branch, imm, upper};
use lg_buf::{Fix, FixKind, Label32};
use lg_rv::{ImmOp, Instr, UpperOp, encode};
use lg_sel::Bytes;

// Appends the bytes of an instruction. There is room for them.
fn spell_one(instr: &Instr, bytes: &mut Bytes)
    requires instr { IsInstr instr.now }
    requires room { length bytes.old + 4 ≤ 256 }
    ensures { bytes.new ≡ bytes.old ++ spelling instr.now }
{
    bytes.extend(encode(instr).as_slice());
}

impl lg_sel::Item for Item {
    type Instruction = Instr;

    ghost holes = { rv_holes };

    ghost one = { One };

    ghost is_item = { IsItem };

    ghost names_one_of = { NamesOneOf };

    ghost some = { has_word };

    ghost single = { λ i. refl };

    fn of(instr: Instr) -> Item {
        Item::One(instr)
    }

    fn spell(&self, bytes: &mut Bytes) {
        match *self {
            Item::One(instr) => spell_one(&instr, bytes),
            Item::Branch {
                op,
                rs1,
                rs2,
                label: _,
            } => spell_one(&branch(op, rs1, rs2, 0), bytes),
            Item::Jump { rd, label: _ } => spell_one(&Instr::Jal { rd, offset: 0 }, bytes),
            Item::FarJump { rd, base, label: _ } => {
                spell_one(&upper(UpperOp::Auipc, base, 0), bytes);
                spell_one(&imm(ImmOp::Jalr, rd, base, 0), bytes);
            }
            Item::Address { rd, label: _ } => {
                spell_one(&upper(UpperOp::Lui, rd, 0), bytes);
                spell_one(&imm(ImmOp::Addi, rd, rd, 0), bytes);
            }
        }
    }

    fn size(&self) -> u32 {
        match self {
            Item::FarJump { .. } | Item::Address { .. } => 8,
            _ => 4,
        }
    }

    fn fix(&self, place: u32) -> Option<Fix> {
        let (kind, label) = match *self {
            Item::One(_) => return None,
            Item::Branch { label, .. } => (FixKind::RvBranch, label),
            Item::Jump { rd: _, label } => (FixKind::RvJal, label),
            Item::FarJump { label, .. } => (FixKind::RvAuipcJalr, label),
            Item::Address { rd: _, label } => (FixKind::RvLuiAddi, label),
        };
        Some(Fix {
            place,
            kind,
            label: Label32(label),
        })
    }
}
