// Branches on a condition.

ghost use Rattle.std.specs.Prelude.{◌≡◌, ◌+◌, ◌<◌, ◌≤◌, [], ◌++◌};
ghost use Rattle.lg_selr.specs.Control.Branches.{turned, failing, left_of, right_of, bits_code};
ghost use Rattle.lg_selr.specs.Control.ControlItems.{jump_unless_items, branch_items};
ghost use Rattle.lg_selr_values.specs.Items.{words_in, ones};

use crate::control::operands::{put_second, second_register};
use lg_op::{Condition, Label, Operand};
use lg_rv::{BranchOp, RegOp};
use lg_sel::{Items, Reach};
use lg_selr_values::{CARRY, Item, LINK, ZERO, branch, register_of, row};

// Returns the branch that is taken where a condition fails.
fn failing(condition: Condition) -> BranchOp
    ensures { result ≡ failing condition }
{
    match condition {
        Condition::Lt | Condition::Gt => BranchOp::Bge,
        Condition::LtU | Condition::GtU => BranchOp::Bgeu,
        Condition::Le | Condition::Ge => BranchOp::Blt,
        Condition::LeU | Condition::GeU => BranchOp::Bltu,
        Condition::Eq | Condition::Mc => BranchOp::Bne,
        Condition::Ne | Condition::Ms => BranchOp::Beq,
    }
}

// Returns the first register that it compares.
fn left_of(condition: Condition, a: u8, b: u8) -> u8
    ensures { result ≡ left_of condition a b }
{
    match condition {
        Condition::Le | Condition::LeU | Condition::Gt | Condition::GtU => b,
        Condition::Ms | Condition::Mc => LINK,
        _ => a,
    }
}

// Returns the second one.
fn right_of(condition: Condition, a: u8, b: u8) -> u8
    ensures { result ≡ right_of condition a b }
{
    match condition {
        Condition::Le | Condition::LeU | Condition::Gt | Condition::GtU => a,
        Condition::Ms | Condition::Mc => ZERO,
        _ => b,
    }
}

// Appends the conjunction of two registers, into x1, where the condition asks for it.
#[tactic(auto, using(lg_selr_values::proofs::ItemLemmas::words_append))]
fn put_bits(condition: Condition, a: u8, b: u8, items: &mut Items<Item>)
    requires { words_in items.old < 60 }
    ensures items { items.new ≡ items.old ++ ones (bits_code condition a b) }
    ensures few { words_in items.new ≤ words_in items.old + 1 }
{
    match condition {
        Condition::Ms | Condition::Mc => items.one(row(RegOp::And, LINK, a, b)),
        _ => {}
    }
}

// Returns the branch that is taken where another one is not.
fn turned(op: BranchOp) -> BranchOp
    ensures { result ≡ turned op }
{
    match op {
        BranchOp::Beq => BranchOp::Bne,
        BranchOp::Bne => BranchOp::Beq,
        BranchOp::Blt => BranchOp::Bge,
        BranchOp::Bge => BranchOp::Blt,
        BranchOp::Bltu => BranchOp::Bgeu,
        BranchOp::Bgeu => BranchOp::Bltu,
    }
}

// Appends what leads to a label unless a branch is taken: the turned branch, or the branch over a jump.
#[tactic(auto, using(lg_selr_values::proofs::ItemLemmas::words_append))]
pub(crate) fn put_jump_unless(
    reach: Reach,
    op: BranchOp,
    rs1: u8,
    rs2: u8,
    label: Label,
    items: &mut Items<Item>,
)
    requires { words_in items.old ≤ 60 }
    ensures { items.new ≡ items.old ++ jump_unless_items reach op rs1 rs2 label }
{
    let label = label.0;
    match reach {
        Reach::Short => items.push(Item::Branch {
            op: turned(op),
            rs1,
            rs2,
            label,
        }),
        Reach::Near => {
            items.one(branch(op, rs1, rs2, 8));
            items.push(Item::Jump { rd: ZERO, label });
        }
        Reach::Far => {
            items.one(branch(op, rs1, rs2, 12));
            items.push(Item::FarJump {
                rd: ZERO,
                base: CARRY,
                label,
            });
        }
    }
}

// Appends the items of a branch to none.
pub(crate) fn put_branch(
    reach: Reach,
    condition: Condition,
    operands: &[Operand],
    items: &mut Items<Item>,
)
    requires { items.old ≡ [] }
    ensures { items.new ≡ branch_items reach condition operands.now }
{
    match operands {
        [Operand::Label(label), Operand::Reg(first), second] => {
            let a = register_of(*first);
            let b = second_register(*second);
            put_second(*second, items);
            put_bits(condition, a, b, items);
            let left = left_of(condition, a, b);
            let right = right_of(condition, a, b);
            put_jump_unless(reach, failing(condition), left, right, *label, items);
        }
        _ => {}
    }
}
