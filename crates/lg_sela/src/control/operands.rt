// Operands whose words are put into registers.

ghost use Rattle.std.specs.Prelude.{◌≡◌, ◌≤◌, []};
ghost use Rattle.lg_sela.specs.Control.ControlItems.{second_register, second_items, word_items};
ghost use Rattle.lg_carry.specs.Nodes.Immediates.{immediate};
ghost use Rattle.lg_sela_values.specs.Items.{words_in};

use lg_op::Operand;
use lg_sel::Items;
use lg_sela_values::{Item, LINK, put_number, register_of};

// Returns the register in which an operand is once `put_second` has put it there.
pub(crate) fn second_register(operand: Operand) -> u8
    ensures { result ≡ second_register operand }
{
    match operand {
        Operand::Reg(reg) => register_of(reg),
        _ => LINK,
    }
}

// Puts a word that denotes itself into a register.
#[tactic(auto, using(lg_sela_values::proofs::NumberItemLemmas::number_words))]
pub(crate) fn put_word(rd: u8, operand: Operand, items: &mut Items<Item>)
    requires empty { items.old ≡ [] }
    ensures items { items.new ≡ word_items rd (immediate operand) }
    ensures few { words_in items.new ≤ 4 }
{
    match operand {
        Operand::Number(value) => put_number(rd, value, items),
        Operand::Host(name) => put_number(rd, name.address(), items),
        _ => {}
    }
}

// Puts an operand that is no register into the link.
pub(crate) fn put_second(operand: Operand, items: &mut Items<Item>)
    requires empty { items.old ≡ [] }
    ensures items { items.new ≡ second_items operand }
    ensures few { words_in items.new ≤ 4 }
{
    match operand {
        Operand::Reg(_) => {}
        other => put_word(LINK, other, items),
    }
}
