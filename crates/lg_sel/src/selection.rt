// The code of a node into a buffer, on every target.

ghost use Rattle.std.specs.Prelude.{◌≡◌, ◌+◌, ◌%◌, ◌<◌, ◌≤◌, true, false, length, IsTrue};
ghost use Rattle.lg_carry.specs.Nodes.Operands.{NameBelow};
ghost use Rattle.lg_live.specs.RegSets.{has};
ghost use Rattle.lg_op.specs.Nodes.{InForm};
ghost use Rattle.lg_sel.specs.Promises.{IsAppended};
ghost use Rattle.lg_sel.specs.Selected.{AreChosen, AreFirst, is_pusharg, TakesLabelsWell};
ghost use Rattle.lg_sel.specs.Targets.{alignment_of};

use crate::operands::see_numbers;
use crate::{Backend, ItemList, Site, shortest_items};
use lg_buf::CodeBuf;
use lg_live::RegSet;
use lg_op::Node;

/// Appends the code of a node at a site to a buffer, or returns false and changes nothing, which it does only where fewer than 256 bytes are free.
///
/// The choices are those of `choose` for the target's `needs` of the node, `live_after`, and a set of arguments that holds the staged ones. At a `pushargr` or
/// `pushargi` these are the arguments that were pushed before it (fewer than 16). The homes of the frame are at least those that its function reads, and its
/// number of saved registers is one number for all nodes of a function. The node has the operands of its operation; it names code labels of the buffer, and
/// one in the place of an immediate only at `movi`, `pushargi` and `reti`. There is room for a fix. The buffer holds whole instructions of the target, and
/// does so after the node. What the list holds before does not matter.
///
/// After an `.align` the place is a multiple of its number, and a `prolog` has bytes. Each new fix is after what the buffer held, names a label of the node,
/// and reaches the place of a label that is bound, and else every place that is fewer bytes away than the buffer's size. The code that leads back to a label
/// that is bound has the shortest form that reaches it, and code that leads ahead to one that is not the shortest that reaches every place of a buffer of
/// that size. Once the fixes of the buffer are patched, the code is whole instructions, and carries the node where the registers of `live_after` are live
/// after it: no step of it but one of a host function changes a register that is outside of the conventions. It has one store for each choice that saves a
/// register, and at most `own_stores` (specs/Stores.antt) more. Which forms a target has, and how often it stores, its own `select` says.
#[must_use]
pub fn select<B: Backend>(
    node: &Node,
    site: &Site,
    live_after: RegSet,
    items: &mut B::List,
    buf: &mut CodeBuf,
) -> bool
    requires formed { InForm node.now }
    requires choices { AreChosen B.code.target (B.needed node.now.op) node.now (has live_after) site.now.staged.arguments site.now.choices }
    requires staged { is_pusharg node.now.op ≡ true → AreFirst site.now.staged.arguments }
    requires labels { NameBelow (length buf.old.labels) node.now.operands }
    requires immediates { TakesLabelsWell node.now }
    requires room { 0 < buf.old.room }
    requires whole { length buf.old.bytes % alignment_of B.code.target ≡ 0 }
    ensures refused { result ≡ false → (buf.new ≡ buf.old) × (buf.old.capacity < length buf.old.bytes + 256) }
    ensures one_fix { buf.old.room ≤ buf.new.room + 1 }
    ensures others { buf.new ≡ record buf.old { bytes = buf.new.bytes; fixes = buf.new.fixes; room = buf.new.room } }
    ensures appended { IsTrue result → IsAppended B.code node.now site.now.frame.size site.now.frame.homes site.now.frame.saved (has live_after)
        site.now.staged.arguments site.now.choices buf.old buf.new }
{
    B::what_holds();
    let operands = node.operands.as_slice();
    see_numbers(operands);
    items.clear();
    let _reach = shortest_items::<B>(node, site, buf, items);
    items.append(buf)
}
