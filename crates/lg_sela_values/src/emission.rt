// How the items of AArch64 are spelled, and their fixes.

ghost use Rattle.std.specs.Prelude.{◌≡◌, ◌+◌, ◌≤◌, ◌++◌, length, refl};
ghost use Rattle.lg_a64.specs.Spelling.{IsInstr, spelling};
ghost use Rattle.lg_sela_values.specs.declared.items.Item.TheVariants.{One};
ghost use Rattle.lg_sela_values.specs.Items.{a64_holes, IsItem, NamesOneOf, has_word};

use crate::items::Item;
use crate::rows::wide;
use lg_a64::{Instr, WideOp, encode};
use lg_buf::{Fix, FixKind, Label32};
use lg_sel::Bytes;

// Appends the bytes of an instruction. There is room for them.
fn spell_one(instr: &Instr, bytes: &mut Bytes)
    requires instr { IsInstr instr.now }
    requires room { length bytes.old + 4 ≤ 256 }
    ensures { bytes.new ≡ bytes.old ++ spelling instr.now }
{
    bytes.extend(encode(instr).as_slice());
}

impl lg_sel::Item for Item {
    type Instruction = Instr;

    ghost holes = { a64_holes };

    ghost one = { One };

    ghost is_item = { IsItem };

    ghost names_one_of = { NamesOneOf };

    ghost some = { has_word };

    ghost single = { λ i. refl };

    fn of(instr: Instr) -> Item {
        Item::One(instr)
    }

    fn spell(&self, bytes: &mut Bytes) {
        match *self {
            Item::One(instr) => spell_one(&instr, bytes),
            Item::Branch { op, label: _ } => spell_one(&Instr::Branch { op, words: 0 }, bytes),
            Item::CondBranch { cond, label: _ } => {
                spell_one(&Instr::BranchIf { cond, words: 0 }, bytes)
            }
            Item::Address { rd, label: _ } => {
                spell_one(&wide(WideOp::Movz, rd, 0, 0), bytes);
                spell_one(&wide(WideOp::Movk, rd, 0, 1), bytes);
            }
        }
    }

    fn size(&self) -> u32 {
        match self {
            Item::Address { .. } => 8,
            _ => 4,
        }
    }

    fn fix(&self, place: u32) -> Option<Fix> {
        let (kind, label) = match *self {
            Item::One(_) => return None,
            Item::Branch { op: _, label } => (FixKind::A64Branch26, label),
            Item::CondBranch { cond: _, label } => (FixKind::A64Cond19, label),
            Item::Address { rd: _, label } => (FixKind::A64MovPair, label),
        };
        Some(Fix {
            place,
            kind,
            label: Label32(label),
        })
    }
}
