// The items of a node with the shortest reach.

ghost use Rattle.std.specs.Prelude.{◌≡◌, ℕ, ◌≤◌, [], None, Some, length, slice_get};
ghost use Rattle.lg_base.specs.Layout.{most_code};
ghost use Rattle.lg_buf.specs.Buffers.{place_of};
ghost use Rattle.lg_op.specs.declared.operand.Label.{Label};
ghost use Rattle.lg_op.specs.declared.operand.Operand.{Operand};
ghost use Rattle.lg_sel.specs.Emittable.{AreEmittable};
ghost use Rattle.lg_sel.specs.Holes.{words_in, fixes_of, Each};
ghost use Rattle.lg_sel.specs.Reaches.{reach_ahead, Leads, IsChecked, IsLeast, IsLeastAhead};
ghost use Rattle.lg_carry.specs.Nodes.Operands.{NameBelow};

use crate::operands::first_reach;
use crate::{Backend, ItemList, Reach, Site, lead};
use lg_buf::CodeBuf;
use lg_op::Node;

/// Appends to none the items of a node with the shortest reach with which they lead to the labels that are bound, and may wait for the others, and returns
/// that reach. Ahead, to a label that is not bound yet, it is the shortest of those from the one on that the buffer's size asks for. Only the longest is
/// taken without a trial.
///
/// The operands name labels of the buffer, and the items of each reach, where they have at most 64 instructions, can be appended to it.
pub fn shortest_items<B: Backend>(
    node: &Node,
    site: &Site,
    buf: &CodeBuf,
    items: &mut B::List,
) -> Reach
    requires given { B.is_given node.now site.now }
    requires empty { B.List.items items.old ≡ [] }
    requires labels { NameBelow (length buf.now.labels) node.now.operands }
    requires emittable { (r : Reach)
        → words_in B.Item.holes (B.items_of r node.now site.now (length buf.now.bytes)) ≤ 64
        → AreEmittable B.Item.holes B.Item.is_item B.Item.names_one_of (length buf.now.labels)
        (B.items_of r node.now site.now (length buf.now.bytes)) }
    ensures made { B.List.items items.new ≡ B.items_of result node.now site.now (length buf.now.bytes) }
    ensures few { words_in B.Item.holes (B.List.items items.new) ≤ 64 }
    ensures emittable { AreEmittable B.Item.holes B.Item.is_item B.Item.names_one_of (length buf.now.labels) (B.List.items items.new) }
    ensures checked { Each (IsChecked result buf.now) (fixes_of B.Item.holes (length buf.now.bytes) (B.List.items items.new)) }
    ensures least { (l : Label) (goal : ℕ) → slice_get node.now.operands 0 ≡ Some (Operand.Label l) → place_of buf.now.labels l.0 ≡ Some goal
        → length buf.now.bytes ≤ most_code → IsLeast (λ r. Each (Leads buf.now) (fixes_of B.Item.holes (length buf.now.bytes)
        (B.items_of r node.now site.now (length buf.now.bytes)))) result }
    ensures ahead { (l : Label) → slice_get node.now.operands 0 ≡ Some (Operand.Label l) → place_of buf.now.labels l.0 ≡ None
        → length buf.now.bytes ≤ most_code
        → IsLeastAhead (reach_ahead buf.now.size) (λ r. Each (Leads buf.now) (fixes_of B.Item.holes (length buf.now.bytes)
        (B.items_of r node.now site.now (length buf.now.bytes)))) result }
{
    let place = buf.here();
    let first = first_reach(node.operands.as_slice(), buf);
    if let Reach::Short = first {
        B::put(Reach::Short, node, site, place, items);
        if lead(items.items(), place, buf) {
            return Reach::Short;
        }
        items.clear();
    }
    if let Reach::Short | Reach::Near = first {
        B::put(Reach::Near, node, site, place, items);
        if lead(items.items(), place, buf) {
            return Reach::Near;
        }
        items.clear();
    }
    B::put(Reach::Far, node, site, place, items);
    Reach::Far
}
