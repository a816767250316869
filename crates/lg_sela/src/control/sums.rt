// Branches that add and subtract.

ghost use Rattle.std.specs.Prelude.{◌≡◌, []};
ghost use Rattle.lg_sela.specs.Control.SumBranches.{sum_instruction, sum_taken};
ghost use Rattle.lg_sela.specs.Control.ControlItems.{sum_items};

use crate::control::branches::put_branch_if;
use crate::control::operands::{put_second, second_register};
use lg_a64::{Cond, Instr, RegOp};
use lg_op::{BranchSumOp, Operand};
use lg_sel::{Items, Reach};
use lg_sela_values::{Item, register_of, row};

// The sum or the difference of a branch, into its first operand.
fn sum_instruction(op: BranchSumOp, a: u8, b: u8) -> Instr
    ensures { result ≡ sum_instruction op a b }
{
    match op {
        BranchSumOp::OverflowAdd | BranchSumOp::OverflowAddU => row(RegOp::Adds, a, a, b),
        BranchSumOp::FitAdd | BranchSumOp::FitAddU => row(RegOp::Adds, a, a, b),
        BranchSumOp::OverflowSub | BranchSumOp::OverflowSubU => row(RegOp::Subs, a, a, b),
        BranchSumOp::FitSub | BranchSumOp::FitSubU => row(RegOp::Subs, a, a, b),
    }
}

// What then holds of the flags where the node goes to its label: of a difference C is the borrow turned.
fn sum_taken(op: BranchSumOp) -> Cond
    ensures { result ≡ sum_taken op }
{
    match op {
        BranchSumOp::OverflowAdd | BranchSumOp::OverflowSub => Cond::Vs,
        BranchSumOp::FitAdd | BranchSumOp::FitSub => Cond::Vc,
        BranchSumOp::OverflowAddU | BranchSumOp::FitSubU => Cond::Cs,
        BranchSumOp::OverflowSubU | BranchSumOp::FitAddU => Cond::Cc,
    }
}

// Appends the items of such a branch to none.
pub(crate) fn put_sum_branch(
    reach: Reach,
    op: BranchSumOp,
    operands: &[Operand],
    items: &mut Items<Item>,
)
    requires { items.old ≡ [] }
    ensures { items.new ≡ sum_items reach op operands.now }
{
    match operands {
        [Operand::Label(label), Operand::Reg(first), second] => {
            let sets = sum_instruction(op, register_of(*first), second_register(*second));
            put_second(*second, items);
            put_branch_if(reach, sets, sum_taken(op), *label, items);
        }
        _ => {}
    }
}
