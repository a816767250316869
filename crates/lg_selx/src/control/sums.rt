// Branches that add and subtract.

ghost use Rattle.std.specs.Prelude.{◌≡◌, ◌≤◌, ◌<◌, []};
ghost use Rattle.lg_selx.specs.Control.SumBranches.{sum_row, sum_number, sum_taken, number_sum, before_sum_branch};
ghost use Rattle.lg_selx.specs.Control.ControlItems.{sum_items};
ghost use Rattle.lg_selx_values.specs.Items.{words_in, ones};

use crate::control::branches::put_jump_if;
use crate::control::pointers::pointer_again;
use lg_base::word::is_half;
use lg_op::{BranchSumOp, Operand, Reg};
use lg_sel::{Items, Reach};
use lg_selx_values::{FRAME_POINTER, Item, half_number, put_number, register_of, row};
use lg_x86::{Cond, ImmOp, Instr, RmRegOp};

// The sum or the difference of a branch with a register, into its first operand.
fn sum_row(op: BranchSumOp) -> RmRegOp
    ensures { result ≡ sum_row op }
{
    match op {
        BranchSumOp::OverflowAdd | BranchSumOp::OverflowAddU => RmRegOp::Add,
        BranchSumOp::FitAdd | BranchSumOp::FitAddU => RmRegOp::Add,
        BranchSumOp::OverflowSub | BranchSumOp::OverflowSubU => RmRegOp::Sub,
        BranchSumOp::FitSub | BranchSumOp::FitSubU => RmRegOp::Sub,
    }
}

// And with a number.
fn sum_number(op: BranchSumOp) -> ImmOp
    ensures { result ≡ sum_number op }
{
    match op {
        BranchSumOp::OverflowAdd | BranchSumOp::OverflowAddU => ImmOp::Addi,
        BranchSumOp::FitAdd | BranchSumOp::FitAddU => ImmOp::Addi,
        BranchSumOp::OverflowSub | BranchSumOp::OverflowSubU => ImmOp::Subi,
        BranchSumOp::FitSub | BranchSumOp::FitSubU => ImmOp::Subi,
    }
}

// What then holds of the flags where the node goes to its label.
fn sum_taken(op: BranchSumOp) -> Cond
    ensures { result ≡ sum_taken op }
{
    match op {
        BranchSumOp::OverflowAdd | BranchSumOp::OverflowSub => Cond::Overflow,
        BranchSumOp::FitAdd | BranchSumOp::FitSub => Cond::NoOverflow,
        BranchSumOp::OverflowAddU | BranchSumOp::OverflowSubU => Cond::Below,
        BranchSumOp::FitAddU | BranchSumOp::FitSubU => Cond::AboveOrEqual,
    }
}

// Puts the sum or the difference with a number, which is loaded into FP where it has more than 32 bits.
#[tactic(auto, using(lg_selx_values::proofs::ItemLemmas::words_append))]
fn put_number_sum(op: BranchSumOp, frame: u32, a: u8, value: u64, items: &mut Items<Item>)
    requires empty { items.old ≡ [] }
    requires some { 272 ≤ frame }
    requires small { frame < 0x4000_0000 }
    ensures items { items.new ≡ ones (number_sum op frame a value) }
    ensures few { words_in items.new ≤ 3 }
{
    if is_half(value) {
        items.one(Instr::Imm {
            op: sum_number(op),
            rm: a,
            imm: half_number(value),
        });
    } else {
        put_number(FRAME_POINTER, value, items);
        items.one(row(sum_row(op), a, FRAME_POINTER));
        items.one(pointer_again(frame));
    }
}

// Puts what is before the jump of such a branch.
fn put_before_sum(op: BranchSumOp, frame: u32, first: Reg, second: Operand, items: &mut Items<Item>)
    requires empty { items.old ≡ [] }
    requires some { 272 ≤ frame }
    requires small { frame < 0x4000_0000 }
    ensures items { items.new ≡ ones (before_sum_branch frame op first second) }
    ensures few { words_in items.new ≤ 3 }
{
    let a = register_of(first);
    match second {
        Operand::Reg(b) => items.one(row(sum_row(op), a, register_of(b))),
        Operand::Number(value) => put_number_sum(op, frame, a, value, items),
        Operand::Host(name) => put_number_sum(op, frame, a, name.address(), items),
        _ => {}
    }
}

// Appends the items of such a branch to none.
pub(crate) fn put_sum_branch(
    reach: Reach,
    op: BranchSumOp,
    frame: u32,
    operands: &[Operand],
    items: &mut Items<Item>,
)
    requires empty { items.old ≡ [] }
    requires some { 272 ≤ frame }
    requires small { frame < 0x4000_0000 }
    ensures { items.new ≡ sum_items reach frame op operands.now }
{
    match operands {
        [Operand::Label(label), Operand::Reg(first), second] => {
            put_before_sum(op, frame, *first, *second, items);
            put_jump_if(reach, sum_taken(op), *label, items);
        }
        _ => {}
    }
}
