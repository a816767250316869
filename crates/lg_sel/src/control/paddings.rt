// Instructions that do nothing, up to a multiple.

ghost use Rattle.std.specs.Prelude.{◌≡◌, ◌+◌, ◌≤◌, ◌++◌, true};
ghost use Rattle.lg_op.specs.Forms.{is_alignment};
ghost use Rattle.lg_sel.specs.Control.Paddings.{gap, idle};
ghost use Rattle.lg_sel.specs.Holes.{words_in, ones};

use crate::{Item, Items};

/// Returns how many bytes lead from a place to the next multiple of an alignment.
pub fn gap(place: u32, alignment: u32) -> u32
    requires { is_alignment alignment ≡ true }
    ensures value { result ≡ gap place alignment }
    ensures few { result ≤ 63 }
{
    (alignment - place % alignment) % alignment
}

/// Appends an instruction that does nothing, or any other, this many times. There is room for it.
pub fn put_idle<L: Item>(instr: L::Instruction, count: u32, items: &mut Items<L>)
    requires { words_in L.holes items.old + count ≤ 64 }
    ensures { items.new ≡ items.old ++ ones L.one (idle instr count) }
{
    if count > 0 {
        items.one(instr);
        put_idle(instr, count - 1, items);
    }
}
