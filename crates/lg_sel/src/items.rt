// Lists of items.

ghost use Rattle.std.specs.Prelude.{◌≡◌, ◌+◌, ◌<◌, ◌≤◌, ◌↔◌, [], ◌∷◌, ◌++◌, length, if◌then◌else◌, IsTrue};
ghost use Rattle.lg_sel.specs.Holes.{words_of, words_in, ones, blanks, Each};

use crate::bytes::Bytes;
use crate::emission::spell_all;
use crate::item::Item;
use lg_buf::CodeBuf;
use smallvec::SmallVec;
use std::alloc::Global;
use std::marker::Model;

/// The code of a node: a list of items, of at most 64 instructions, and room for their bytes, held inline. It takes no memory. One serves for all nodes
/// of a text, one after the other.
///
/// In a contract it is the list. `words_in` of a list is the number of its instructions.
#[derive(Drop)]
pub struct Items<L: Item> {
    list: SmallVec<L, 64>,
    bytes: Bytes,
}

impl<L: Item> Model for Items<L> {
    ghost use Rattle.std.specs.Prelude.{◌≡◌, ◌≤◌, List};
    ghost use Rattle.lg_sel.specs.Holes.{words_in};

    ghost Value = { List L };

    ghost view = { λ i. i.list.items };

    ghost invariant = { λ i. (i.list.capacity ≡ 64) × (words_in L.holes i.list.items ≤ 64) };
}

impl<L: Item> Items<L> {
    /// No items. The allocator is that of the buffer; nothing is taken from it.
    pub fn new(alloc: Global) -> Items<L>
        ensures { result ≡ [] }
    {
        Items {
            list: SmallVec::new(alloc),
            bytes: Bytes::new(),
        }
    }

    /// Appends an item. There is room for its instructions.
    pub fn push(&mut self, item: L)
        requires { words_in L.holes self.old + words_of L.holes item ≤ 64 }
        ensures { self.new ≡ self.old ++ item ∷ [] }
    {
        self.list.push_reserved(item);
    }

    /// Appends an instruction. There is room for it.
    pub fn one(&mut self, instr: L::Instruction)
        requires { words_in L.holes self.old < 64 }
        ensures { self.new ≡ self.old ++ L.one instr ∷ [] }
    {
        self.push(L::of(instr));
    }

    /// Appends instructions. There is room for them.
    pub fn all(&mut self, instrs: &[L::Instruction])
        requires { words_in L.holes self.old + length instrs.now ≤ 64 }
        ensures { self.new ≡ self.old ++ ones L.one instrs.now }
    {
        match instrs {
            [] => {}
            [instr, rest @ ..] => {
                self.one(*instr);
                self.all(rest);
            }
        }
    }

    /// Lets all items go.
    pub fn clear(&mut self)
        ensures { self.new ≡ [] }
    {
        self.list.clear();
    }

    /// Returns the items.
    pub fn as_slice(&self) -> &[L]
        ensures value { result.now ≡ self.now }
        ensures few { words_in L.holes result.now ≤ 64 }
    {
        self.list.as_slice()
    }

    /// Appends the bytes of the items to a buffer, with 0 in the fields of labels, or returns false and changes nothing exactly where too few bytes are free.
    #[must_use]
    pub(crate) fn emit(&mut self, buf: &mut CodeBuf) -> bool
        requires items { Each L.is_item self.old }
        requires short { length (blanks L.holes self.old) ≤ 256 }
        ensures kept { self.new ≡ self.old }
        ensures fits { IsTrue result ↔ (length buf.old.bytes + length (blanks L.holes self.old) ≤ buf.old.capacity) }
        ensures appended { buf.new ≡ (if result then record buf.old { bytes = buf.old.bytes ++ blanks L.holes self.old } else buf.old) }
    {
        self.bytes.clear();
        spell_all(self.list.as_slice(), &mut self.bytes);
        buf.emit(self.bytes.as_slice())
    }
}
