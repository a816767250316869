// Branches that add and subtract.

ghost use Rattle.std.specs.Prelude.{◌≡◌, ◌+◌, ◌<◌, ◌≤◌, [], ◌++◌};
ghost use Rattle.lg_selr.specs.Control.SumBranches.{signed_sum_code, signed_difference_code, unsigned_sum_code, unsigned_difference_code, sum_code, staying};
ghost use Rattle.lg_selr.specs.Control.ControlItems.{sum_items};
ghost use Rattle.lg_selr_values.specs.Items.{words_in, ones};

use crate::control::branches::put_jump_unless;
use crate::control::operands::{put_second, second_register};
use lg_op::{BranchSumOp, Operand};
use lg_rv::{BranchOp, ImmOp, Instr, RegOp};
use lg_sel::{Items, Reach};
use lg_selr_values::{CARRY, Item, LINK, ZERO, imm, register_of, row};

// Adds, and x31 says whether the signed sum does not fit.
fn signed_sum(a: u8, b: u8) -> [Instr; 5]
    ensures { result ≡ signed_sum_code a b }
{
    [
        imm(ImmOp::Slti, CARRY, b, 0),
        row(RegOp::Add, LINK, a, b),
        row(RegOp::Slt, a, LINK, a),
        row(RegOp::Xor, CARRY, CARRY, a),
        imm(ImmOp::Addi, a, LINK, 0),
    ]
}

// Subtracts, and x31 says whether the signed difference does not fit.
fn signed_difference(a: u8, b: u8) -> [Instr; 5]
    ensures { result ≡ signed_difference_code a b }
{
    [
        row(RegOp::Slt, CARRY, a, b),
        row(RegOp::Sub, LINK, a, b),
        imm(ImmOp::Slti, a, LINK, 0),
        row(RegOp::Xor, CARRY, CARRY, a),
        imm(ImmOp::Addi, a, LINK, 0),
    ]
}

// Adds, and x31 says whether the unsigned sum does not fit.
fn unsigned_sum(a: u8, b: u8) -> [Instr; 3]
    ensures { result ≡ unsigned_sum_code a b }
{
    [
        row(RegOp::Add, LINK, a, b),
        row(RegOp::Sltu, CARRY, LINK, a),
        imm(ImmOp::Addi, a, LINK, 0),
    ]
}

// Subtracts, and x31 says whether the unsigned difference does not fit.
fn unsigned_difference(a: u8, b: u8) -> [Instr; 2]
    ensures { result ≡ unsigned_difference_code a b }
{
    [row(RegOp::Sltu, CARRY, a, b), row(RegOp::Sub, a, a, b)]
}

// Appends the sum or the difference of a branch.
#[tactic(auto, using(lg_selr_values::proofs::ItemLemmas::words_append))]
fn put_sum(op: BranchSumOp, a: u8, b: u8, items: &mut Items<Item>)
    requires { words_in items.old < 50 }
    ensures items { items.new ≡ items.old ++ ones (sum_code op a b) }
    ensures few { words_in items.new ≤ words_in items.old + 5 }
{
    match op {
        BranchSumOp::OverflowAdd | BranchSumOp::FitAdd => items.all(&signed_sum(a, b)),
        BranchSumOp::OverflowAddU | BranchSumOp::FitAddU => items.all(&unsigned_sum(a, b)),
        BranchSumOp::OverflowSub | BranchSumOp::FitSub => items.all(&signed_difference(a, b)),
        BranchSumOp::OverflowSubU | BranchSumOp::FitSubU => items.all(&unsigned_difference(a, b)),
    }
}

// Returns the branch on x31 and x0 that is taken where the node does not go to its label.
fn staying(op: BranchSumOp) -> BranchOp
    ensures { result ≡ staying op }
{
    match op {
        BranchSumOp::OverflowAdd
        | BranchSumOp::OverflowAddU
        | BranchSumOp::OverflowSub
        | BranchSumOp::OverflowSubU => BranchOp::Beq,
        BranchSumOp::FitAdd | BranchSumOp::FitAddU | BranchSumOp::FitSub | BranchSumOp::FitSubU =>
            BranchOp::Bne,
    }
}

// Appends the items of such a branch to none.
pub(crate) fn put_sum_branch(
    reach: Reach,
    op: BranchSumOp,
    operands: &[Operand],
    items: &mut Items<Item>,
)
    requires { items.old ≡ [] }
    ensures { items.new ≡ sum_items reach op operands.now }
{
    match operands {
        [Operand::Label(label), Operand::Reg(first), second] => {
            let a = register_of(*first);
            let b = second_register(*second);
            put_second(*second, items);
            put_sum(op, a, b, items);
            put_jump_unless(reach, staying(op), CARRY, ZERO, *label, items);
        }
        _ => {}
    }
}
