// A target as a type: its items, what they are in the definitions, and what is proved of them.

ghost use Rattle.std.specs.Prelude.{◌≡◌, ℕ, ◌+◌, ◌<◌, ◌≤◌, ◌++◌, ◌↔◌, List, Bool, [], length, false, IsTrue};
ghost use Rattle.lg_op.specs.declared.node.Node.{Node};
ghost use Rattle.lg_op.specs.declared.op.Op.{Op};
ghost use Rattle.lg_sel.specs.Holes.{words_in, blanks, fixes_of, Each};
ghost use Rattle.lg_sel.specs.Backends.{IsBackend};
ghost use Rattle.lg_sel.specs.TargetCodes.{TargetCode};
ghost use Rattle.lg_sel.specs.declared.reach.Reach.{Reach};
ghost use Rattle.lg_sel.specs.declared.site.Site.{Site};
ghost use Rattle.lg_temp.specs.declared.choice.Need.{Need};

use crate::{Item, Items, Reach, Site, emission};
use lg_base::Target;
use lg_buf::CodeBuf;
use lg_op::Node;
use lg_temp::Needs;

/// A list of items. `Items` itself can be in no bound, since its model depends on its items.
pub trait ItemList<L: Item>: Drop {
    /// The list.
    ghost items: { Self → List L };

    /// Returns the items.
    fn items(&self) -> &[L]
        ensures { result.now ≡ items self.now };

    /// Drops all items.
    fn clear(&mut self)
        ensures { items self.new ≡ [] };

    /// Appends the code of the items to a buffer, with 0 in the fields of labels and a fix for each, or returns false and changes nothing exactly where too
    /// few bytes are free.
    #[must_use]
    fn append(&mut self, buf: &mut CodeBuf) -> bool
        requires instrs { Each L.is_item (items self.old) }
        requires labels { Each (L.names_one_of (length buf.old.labels)) (items self.old) }
        requires short { length (blanks L.holes (items self.old)) ≤ 256 }
        requires room { length (fixes_of L.holes (length buf.old.bytes) (items self.old)) ≤ buf.old.room }
        ensures kept { items self.new ≡ items self.old }
        ensures fits { IsTrue result ↔ (length buf.old.bytes + length (blanks L.holes (items self.old)) ≤ buf.old.capacity) }
        ensures refused { result ≡ false → buf.new ≡ buf.old }
        ensures bytes { IsTrue result → buf.new.bytes ≡ buf.old.bytes ++ blanks L.holes (items self.old) }
        ensures fixes { IsTrue result → buf.new.fixes ≡ buf.old.fixes ++ fixes_of L.holes (length buf.old.bytes) (items self.old) }
        ensures room { IsTrue result → buf.new.room + length (fixes_of L.holes (length buf.old.bytes) (items self.old)) ≡ buf.old.room }
        ensures others { buf.new ≡ record buf.old { bytes = buf.new.bytes; fixes = buf.new.fixes; room = buf.new.room } };
}

impl<L: Item> ItemList<L> for Items<L> {
    ghost items = { λ xs. xs };

    fn items(&self) -> &[L] {
        self.as_slice()
    }

    fn clear(&mut self) {
        Items::clear(self)
    }

    fn append(&mut self, buf: &mut CodeBuf) -> bool {
        emission::append(self, buf)
    }
}

/// A target: its items, what they are in the definitions, and what appends those of a node.
///
/// What a target has to prove of its items is `IsBackend` (specs/Backends.antt), which `what_holds` promises. By it `select` and `append_node`, and the loop
/// over the nodes of a text in lg_asm, are there once for all targets.
pub trait Backend {
    /// An item: an instruction, or one with a hole for a label.
    type Item: Item;

    /// A list of items.
    type List: ItemList<Self::Item>;

    /// Which target it is, its processor, and its words in the promises of its code.
    ghost code: { TargetCode };

    /// What the temporaries of an operation's code need, as `choose` of lg_temp takes it.
    ghost needed: { Op → List Need };

    /// The bytes of an instruction.
    ghost spelling: { Self.Item.Instruction → List ℕ };

    /// The instructions that the processor has, with fields within their ranges.
    ghost fits: { Self.Item.Instruction → Type 0 };

    /// The instructions that store.
    ghost is_store: { Self.Item.Instruction → Bool };

    /// What `put` asks of a node and its site.
    ghost is_given: { Node → Site → Type 0 };

    /// The items of a node with a reach, at a site, where its code begins at a place: the number of bytes before it in the buffer.
    ghost items_of: { Reach → Node → Site → ℕ → List Self.Item };

    /// Which target it is.
    fn target() -> Target
        ensures { result ≡ code.target };

    /// What holds of its items (`IsBackend`): they can be appended, lead to the node's labels, store no more than they may, have the shortest form that
    /// reaches, and carry the node once the buffer is finished. The function does nothing.
    fn what_holds()
        ensures { IsBackend code needed spelling fits is_store Self.Item.holes Self.Item.is_item Self.Item.names_one_of is_given items_of };

    /// What the temporaries of a node's code need.
    fn needs(node: &Node) -> Needs
        ensures { result ≡ needed node.now.op };

    /// Appends the items of a node with a reach to none. Its code begins at a place of the buffer, and has at most 64 instructions.
    fn put(reach: Reach, node: &Node, site: &Site, place: u32, items: &mut Self::List)
        requires given { is_given node.now site.now }
        requires empty { Self.List.items items.old ≡ [] }
        ensures made { Self.List.items items.new ≡ items_of reach node.now site.now place }
        ensures few { words_in Self.Item.holes (Self.List.items items.new) ≤ 64 };
}
