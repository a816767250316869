// Branches on a condition.

ghost use Rattle.std.specs.Prelude.{◌≡◌, ◌≤◌, ◌||◌, true, [], ◌++◌};
ghost use Rattle.lg_base.specs.Words.{negated};
ghost use Rattle.lg_sela_values.specs.BinaryCode.{is_small};
ghost use Rattle.lg_sela.specs.Control.Branches.{comparison, is_held, number_comparison, taken, turned};
ghost use Rattle.lg_sela.specs.Control.ControlItems.{compared_items, comparing, leads_items, branch_if_items, branch_items};
ghost use Rattle.lg_sela_values.specs.Items.{words_in};

use crate::control::operands::{put_second, second_register};
use lg_a64::{BranchOp, Cond, ImmOp, Instr, RegOp};
use lg_op::{Condition, Label, Operand};
use lg_sel::{Items, Reach};
use lg_sela_values::{Item, LINK, ZERO, imm, put_number, register_of, row};

// What sets the flags: the difference of two registers, and for bits their conjunction.
fn comparison(condition: Condition, a: u8, b: u8) -> Instr
    ensures { result ≡ comparison condition a b }
{
    match condition {
        Condition::Ms | Condition::Mc => row(RegOp::Ands, ZERO, a, b),
        _ => row(RegOp::Subs, ZERO, a, b),
    }
}

// Returns whether an instruction that compares holds a number, or its negative, of 12 bits.
fn is_held(condition: Condition, value: u64) -> bool
    ensures { result ≡ is_held condition value }
{
    match condition {
        Condition::Ms | Condition::Mc => false,
        _ => value < 4096 || value.wrapping_neg() < 4096,
    }
}

// What sets the flags of the difference of a register and such a number.
fn number_comparison(a: u8, value: u64) -> Instr
    requires { is_small value || is_small (negated value) ≡ true }
    ensures { result ≡ number_comparison a value }
{
    if value < 4096 {
        imm(ImmOp::Subsi, ZERO, a, value as u16)
    } else {
        imm(ImmOp::Addsi, ZERO, a, value.wrapping_neg() as u16)
    }
}

// What sets the flags of a comparison with an operand, once `put_compared` has put it into its register.
fn comparing(condition: Condition, a: u8, operand: Operand) -> Instr
    ensures { result ≡ comparing condition a operand }
{
    match operand {
        Operand::Number(value) => {
            if is_held(condition, value) {
                number_comparison(a, value)
            } else {
                comparison(condition, a, LINK)
            }
        }
        other => comparison(condition, a, second_register(other)),
    }
}

// Puts an operand that is no register into the link, where no instruction that compares holds it.
#[tactic(auto, using(lg_sela_values::proofs::NumberItemLemmas::number_words))]
fn put_compared(condition: Condition, operand: Operand, items: &mut Items<Item>)
    requires empty { items.old ≡ [] }
    ensures items { items.new ≡ compared_items condition operand }
    ensures few { words_in items.new ≤ 4 }
{
    match operand {
        Operand::Number(value) => {
            if !is_held(condition, value) {
                put_number(LINK, value, items);
            }
        }
        other => put_second(other, items),
    }
}

// What then holds of the flags where the condition holds.
fn taken(condition: Condition) -> Cond
    ensures { result ≡ taken condition }
{
    match condition {
        Condition::Lt => Cond::Lt,
        Condition::LtU => Cond::Cc,
        Condition::Le => Cond::Le,
        Condition::LeU => Cond::Ls,
        Condition::Ge => Cond::Ge,
        Condition::GeU => Cond::Cs,
        Condition::Gt => Cond::Gt,
        Condition::GtU => Cond::Hi,
        Condition::Eq | Condition::Mc => Cond::Eq,
        Condition::Ne | Condition::Ms => Cond::Ne,
    }
}

// Returns the condition that holds where another one does not.
fn turned(cond: Cond) -> Cond
    ensures { result ≡ turned cond }
{
    match cond {
        Cond::Eq => Cond::Ne,
        Cond::Ne => Cond::Eq,
        Cond::Cs => Cond::Cc,
        Cond::Cc => Cond::Cs,
        Cond::Mi => Cond::Pl,
        Cond::Pl => Cond::Mi,
        Cond::Vs => Cond::Vc,
        Cond::Vc => Cond::Vs,
        Cond::Hi => Cond::Ls,
        Cond::Ls => Cond::Hi,
        Cond::Ge => Cond::Lt,
        Cond::Lt => Cond::Ge,
        Cond::Gt => Cond::Le,
        Cond::Le => Cond::Gt,
    }
}

// Appends what leads to a label where the condition holds: a branch, or where it is far the turned branch over one without a condition.
#[tactic(auto, using(lg_sela_values::proofs::ItemLemmas::words_append))]
fn put_leads(reach: Reach, cond: Cond, label: Label, items: &mut Items<Item>)
    requires { words_in items.old ≤ 61 }
    ensures { items.new ≡ items.old ++ leads_items reach cond label }
{
    let label = label.0;
    match reach {
        Reach::Short | Reach::Near => items.push(Item::CondBranch { cond, label }),
        Reach::Far => {
            items.one(Instr::BranchIf {
                cond: turned(cond),
                words: 2,
            });
            items.push(Item::Branch {
                op: BranchOp::B,
                label,
            });
        }
    }
}

// Appends an instruction that sets the flags, and what leads to a label where the condition then holds.
#[tactic(auto, using(lg_sela_values::proofs::ItemLemmas::words_append))]
pub(crate) fn put_branch_if(
    reach: Reach,
    sets: Instr,
    cond: Cond,
    label: Label,
    items: &mut Items<Item>,
)
    requires { words_in items.old ≤ 60 }
    ensures { items.new ≡ items.old ++ branch_if_items reach sets cond label }
{
    items.one(sets);
    put_leads(reach, cond, label, items);
}

// Appends the items of a branch to none.
pub(crate) fn put_branch(
    reach: Reach,
    condition: Condition,
    operands: &[Operand],
    items: &mut Items<Item>,
)
    requires { items.old ≡ [] }
    ensures { items.new ≡ branch_items reach condition operands.now }
{
    match operands {
        [Operand::Label(label), Operand::Reg(first), second] => {
            let sets = comparing(condition, register_of(*first), *second);
            put_compared(condition, *second, items);
            put_branch_if(reach, sets, taken(condition), *label, items);
        }
        _ => {}
    }
}
