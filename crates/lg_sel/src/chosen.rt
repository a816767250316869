// The code of a node with the choices for its needs.

ghost use Rattle.std.specs.Prelude.{◌≡◌, ◌+◌, ◌%◌, ◌<◌, ◌≤◌, true, false, Some, length, IsTrue};
ghost use Rattle.lg_base.specs.declared.target.Target.{Target};
ghost use Rattle.lg_carry.specs.Nodes.Operands.{NameBelow};
ghost use Rattle.lg_live.specs.RegSets.{has};
ghost use Rattle.lg_op.specs.Nodes.{InForm};
ghost use Rattle.lg_sel.specs.Chosen.{HasCode};
ghost use Rattle.lg_sel.specs.Selected.{AreFirst, is_pusharg, TakesLabelsWell};
ghost use Rattle.lg_sel.specs.Targets.{alignment_of};
ghost use Rattle.lg_temp.specs.Chosen.{around, choices_of};

use crate::{Backend, Frame, Site, select};
use lg_base::Target;
use lg_buf::CodeBuf;
use lg_live::RegSet;
use lg_op::Node;
use lg_temp::{Choices, Needs, Staged, choose};

/// Returns the choices for the needs of a node: none where it needs none, as most nodes, and else those of `choose`.
pub fn choices_for(
    target: Target,
    needs: &Needs,
    node: &Node,
    live_after: RegSet,
    staged: Staged,
) -> Choices
    ensures { choices_of (around target node.now (has live_after) staged.arguments) needs.now ≡ Some result }
{
    if needs.as_slice().is_empty() {
        Choices::new()
    } else {
        choose(target, needs, node, live_after, staged)
    }
}

/// Appends the code of a node with the choices for its needs, or returns false and changes nothing, which it does only where fewer than 256 bytes are free.
/// What it asks and promises is as at `select`.
#[must_use]
pub fn append_node<B: Backend>(
    node: &Node,
    frame: Frame,
    live_after: RegSet,
    staged: Staged,
    items: &mut B::List,
    buf: &mut CodeBuf,
) -> bool
    requires formed { InForm node.now }
    requires staged { is_pusharg node.now.op ≡ true → AreFirst staged.arguments }
    requires labels { NameBelow (length buf.old.labels) node.now.operands }
    requires immediates { TakesLabelsWell node.now }
    requires room { 0 < buf.old.room }
    requires whole { length buf.old.bytes % alignment_of B.code.target ≡ 0 }
    ensures refused { result ≡ false → (buf.new ≡ buf.old) × (buf.old.capacity < length buf.old.bytes + 256) }
    ensures room { buf.old.room ≤ buf.new.room + 1 }
    ensures others { buf.new ≡ record buf.old { bytes = buf.new.bytes; fixes = buf.new.fixes; room = buf.new.room } }
    ensures appended { IsTrue result → HasCode B.code (B.needed node.now.op) node.now frame.size frame.homes frame.saved (has live_after) staged.arguments
        buf.old buf.new }
{
    // the fixes end within the bytes
    let _place = buf.here();
    let needs = B::needs(node);
    let site = Site {
        frame,
        choices: choices_for(B::target(), &needs, node, live_after, staged),
        staged,
    };
    select::<B>(node, &site, live_after, items, buf)
}
