// The code of a node into a buffer, with a frame that serves every function.

ghost use Rattle.std.specs.Prelude.{◌≡◌, ◌+◌, ◌%◌, ◌<◌, ◌≤◌, true, false, length, IsTrue};
ghost use Rattle.lg_carry.specs.Nodes.Operands.{NameBelow};
ghost use Rattle.lg_op.specs.Nodes.{InForm};
ghost use Rattle.lg_live.specs.RegSets.{has};
ghost use Rattle.lg_sel.specs.Selected.{IsFrame, AreFirst, is_pusharg, TakesLabelsWell};
ghost use Rattle.lg_sel.specs.Promises.{IsAppended};
ghost use Rattle.lg_sela.specs.Code.{a64_code};
ghost use Rattle.lg_sela.specs.Selected.{AreChosen};

use crate::items::Aarch64;
use lg_buf::CodeBuf;
use lg_live::RegSet;
use lg_op::Node;
use lg_sel::{Frame, Items, Site};
use lg_temp::{Choices, Staged};

/// Appends the code of a node on AArch64 to a buffer, or returns false and changes nothing, which it does only where fewer than 256 bytes are free.
///
/// `frame` is the size of the frame of the node's function in bytes, a multiple of 16 from 272 to 65,808. A `prolog` stores the homes of all register arguments
/// and saves V0, V1 and V2, so it serves every function, where all nodes of a text are made by this call; `append_node` of lg_sel takes a frame that stores
/// what the text asks for. The choices are those of `choose` for `needs` of the node, `live_after`, and a set of arguments that holds `staged`. At a `pushargr`
/// or `pushargi` `staged` holds the arguments that were pushed before it (fewer than 16). The node has the operands of its operation; it names code labels of
/// the buffer, and one in the place of an immediate only at `movi`, `pushargi` and `reti`. There is room for a fix. The buffer holds whole instructions, and
/// does so after the node. The list of the node's instructions is made with the buffer's allocator.
///
/// After an `.align` the place is a multiple of its number, and a `prolog` has bytes. Each new fix is after what the buffer held, names a label of the node,
/// and reaches the place of a label that is bound, and else every place that is fewer bytes away than the buffer's size. The code that leads back to a label
/// that is bound has the shortest form that reaches it, and code that leads ahead to one that is not the near form, or in a buffer of more than 1 MiB the far
/// one. Once the fixes of the buffer are patched, the code is whole instructions, and carries the node where the registers of `live_after` are live after it:
/// no step of it but one of a host function changes a register that is outside of the conventions. It has one store for each choice that saves a register, one
/// more at stores, `pushargr` and `pushargi`, and at a `prolog` at most 13.
#[must_use]
pub fn select(
    node: &Node,
    frame: u32,
    choices: &Choices,
    live_after: RegSet,
    staged: Staged,
    buf: &mut CodeBuf,
) -> bool
    requires formed { InForm node.now }
    requires frame { IsFrame frame }
    requires choices { AreChosen node.now (has live_after) staged.arguments choices.now }
    requires staged { is_pusharg node.now.op ≡ true → AreFirst staged.arguments }
    requires labels { NameBelow (length buf.old.labels) node.now.operands }
    requires immediates { TakesLabelsWell node.now }
    requires room { 0 < buf.old.room }
    requires whole { length buf.old.bytes % 4 ≡ 0 }
    ensures refused { result ≡ false → (buf.new ≡ buf.old) × (buf.old.capacity < length buf.old.bytes + 256) }
    ensures one_fix { buf.old.room ≤ buf.new.room + 1 }
    ensures others { buf.new ≡ record buf.old { bytes = buf.new.bytes; fixes = buf.new.fixes; room = buf.new.room } }
    ensures appended { IsTrue result → IsAppended a64_code node.now frame 16 3 (has live_after) staged.arguments choices.now buf.old buf.new }
{
    let site = Site {
        frame: Frame {
            size: frame,
            homes: 16,
            saved: 3,
        },
        choices: Choices::of(choices.as_slice()),
        staged,
    };
    let mut items = Items::new(buf.allocator());
    lg_sel::select::<Aarch64>(node, &site, live_after, &mut items, buf)
}
