//! What a target's code asks of a node's operands and of the arguments that are staged.

ghost use Rattle.std.specs.Prelude.{◌≡◌, ◌≢◌, ℕ, ◌≤◌, Some, None, length, slice_get};
ghost use Rattle.lg_base.specs.Layout.{most_code};
ghost use Rattle.lg_buf.specs.Buffers.{place_of};
ghost use Rattle.lg_op.specs.declared.operand.Label.{Label};
ghost use Rattle.lg_carry.specs.Nodes.Operands.{NameBelow, HasWord, HaveWords};
ghost use Rattle.lg_sel.specs.Reaches.{reach_ahead};
ghost use Rattle.lg_sel.specs.Families.{staged_count};

use crate::{NEAR_SIZE, Reach, SMALL_SIZE};
use lg_buf::{CodeBuf, Label32};
use lg_op::Operand;
use lg_temp::Staged;

// The most bytes of code.
const MOST_CODE: u32 = 0x400_0000;

// Returns the reach with which code that leads ahead begins in a buffer of this size.
fn reach_ahead(size: u32) -> Reach
    ensures { result ≡ reach_ahead size }
{
    if size <= SMALL_SIZE {
        Reach::Short
    } else if size <= NEAR_SIZE {
        Reach::Near
    } else {
        Reach::Far
    }
}

/// Returns the reach with which to begin for a node with these operands: the shortest, but where it leads to a label that is not bound yet the one that a
/// buffer of this size asks for. After the last place of code, and where the first operand is no label, so that all reaches are one, it is the longest.
pub fn first_reach(operands: &[Operand], buf: &CodeBuf) -> Reach
    requires { NameBelow (length buf.now.labels) operands.now }
    ensures low { result ≢ Reach.Far → length buf.now.bytes ≤ most_code }
    ensures bound { (l : Label) (goal : ℕ) → slice_get operands.now 0 ≡ Some (Operand.Label l) → place_of buf.now.labels l.0 ≡ Some goal
        → length buf.now.bytes ≤ most_code → result ≡ Reach.Short }
    ensures ahead { (l : Label) → slice_get operands.now 0 ≡ Some (Operand.Label l) → place_of buf.now.labels l.0 ≡ None
        → length buf.now.bytes ≤ most_code → result ≡ reach_ahead buf.now.size }
{
    if buf.here() > MOST_CODE {
        return Reach::Far;
    }
    match operands {
        [Operand::Label(label), ..] => match buf.bound(Label32(label.0)) {
            Some(_) => Reach::Short,
            None => reach_ahead(buf.size()),
        },
        _ => Reach::Far,
    }
}

/// Returns how many arguments are staged.
pub fn staged_count(staged: &Staged) -> u32
    ensures { result ≡ staged_count staged.now.arguments }
{
    staged
        .arguments
        .iter()
        .filter(|argument| **argument)
        .count() as u32
}

// The number of an operand is a word.
fn see_number(operand: Operand)
    ensures { HasWord operand }
{
    if let Operand::Number(value) = operand {
        let _value = value;
    }
}

/// The numbers of operands are words.
pub fn see_numbers(operands: &[Operand])
    ensures { HaveWords operands.now }
{
    match operands {
        [] => {}
        [operand, rest @ ..] => {
            see_number(*operand);
            see_numbers(rest);
        }
    }
}
