// How the items of x86-64 are spelled, and their fixes.

ghost use Rattle.std.specs.Prelude.{◌≡◌, ◌+◌, ◌≤◌, ◌++◌, length, refl};
ghost use Rattle.lg_x86.specs.Spelling.{IsInstr, spelling};
ghost use Rattle.lg_selx_values.specs.declared.items.Item.TheVariants.{One};
ghost use Rattle.lg_selx_values.specs.Items.{x86_holes, IsItem, NamesOneOf, has_word};

use crate::items::{Item, move_size};
use lg_buf::{Fix, FixKind, Label32};
use lg_sel::Bytes;
use lg_x86::{Instr, encode};

// Appends the bytes of an instruction. There is room for them.
fn spell_one(instr: &Instr, bytes: &mut Bytes)
    requires instr { IsInstr instr.now }
    requires room { length bytes.old + length (spelling instr.now) ≤ 256 }
    ensures { bytes.new ≡ bytes.old ++ spelling instr.now }
{
    bytes.extend(encode(instr).as_slice());
}

// Returns how many bytes an instruction has.
fn size_of(instr: &Instr) -> u32
    requires { IsInstr instr.now }
    ensures { result ≡ length (spelling instr.now) }
{
    encode(instr).as_slice().len() as u32
}

impl lg_sel::Item for Item {
    type Instruction = Instr;

    ghost holes = { x86_holes };

    ghost one = { One };

    ghost is_item = { IsItem };

    ghost names_one_of = { NamesOneOf };

    ghost some = { has_word };

    ghost single = { λ i. refl };

    fn of(instr: Instr) -> Item {
        Item::One(instr)
    }

    fn spell(&self, bytes: &mut Bytes) {
        spell_one(&self.blank(), bytes)
    }

    fn size(&self) -> u32 {
        size_of(&self.blank())
    }

    fn fix(&self, place: u32) -> Option<Fix> {
        let (before, kind, label) = match *self {
            Item::One(_) => return None,
            Item::Jump { kind, label } => (kind.opcode_size(), kind.fix_kind(), label),
            Item::Address { reg, label } => (move_size(reg), FixKind::X86Abs32, label),
        };
        Some(Fix {
            place: place + before,
            kind,
            label: Label32(label),
        })
    }
}
