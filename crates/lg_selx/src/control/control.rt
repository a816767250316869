// The items of a node.

ghost use Rattle.std.specs.Prelude.{◌≡◌, ◌<◌, ◌≤◌, []};
ghost use Rattle.lg_op.specs.Nodes.{InForm};
ghost use Rattle.lg_selx.specs.Control.ControlItems.{control_items};

use crate::control::branches::put_branch;
use crate::control::frames::put_plain;
use crate::control::leaps::put_leap;
use crate::control::sums::put_sum_branch;
use lg_op::{Node, Op};
use lg_sel::{Items, Reach};
use lg_selx_values::Item;

/// Appends the items of a node that branches, jumps, calls or returns, of a `prolog`, an `.align` or a node without code, to none.
///
/// `frame` is the size of the frame of the node's function in bytes, from 272 to 0x3FFF_FFFF, `homes` how many homes a `prolog` stores, `saved` how many of
/// V0, V1 and V2 it saves, `place` the place in the buffer at which the node's code begins, and `reach` how far it leads to a label. The node has the operands
/// of its operation.
pub fn put_control(
    node: &Node,
    frame: u32,
    homes: u32,
    saved: u32,
    place: u32,
    reach: Reach,
    items: &mut Items<Item>,
)
    requires empty { items.old ≡ [] }
    requires formed { InForm node.now }
    requires some { 272 ≤ frame }
    requires small { frame < 0x4000_0000 }
    ensures { items.new ≡ control_items reach node.now.op node.now.operands frame homes saved place }
{
    let operands = node.operands.as_slice();
    match node.op {
        Op::Branch(condition, _) => put_branch(reach, condition, frame, operands, items),
        Op::BranchSum(op, _) => put_sum_branch(reach, op, frame, operands, items),
        Op::Control(op, last) => put_leap(reach, saved, op, last, operands, items),
        Op::Plain(op) => put_plain(op, operands, frame, homes, saved, place, items),
        _ => {}
    }
}
