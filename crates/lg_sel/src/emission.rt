// Items into a buffer.

ghost use Rattle.std.specs.Prelude.{◌≡◌, ◌+◌, ◌<◌, ◌≤◌, ◌^◌, ◌++◌, ◌↔◌, length, false, IsTrue};
ghost use Rattle.std.specs.List.{All};
ghost use Rattle.lg_buf.specs.Buffers.{EndsWithin};
ghost use Rattle.lg_sel.specs.Holes.{blank_of, blanks, fix_at, fixes_of, Each};

use crate::bytes::Bytes;
use crate::item::Item;
use crate::items::Items;
use lg_buf::CodeBuf;

/// Appends the code of items to a buffer, with 0 in the fields of labels and a fix for each, or returns false and changes nothing
/// exactly where too few bytes are free. The items are in the ranges of their instructions, have at most 256 bytes and name labels of the buffer, and
/// there is room for their fixes.
#[must_use]
pub fn append<L: Item>(items: &mut Items<L>, buf: &mut CodeBuf) -> bool
    requires instrs { Each L.is_item items.old }
    requires labels { Each (L.names_one_of (length buf.old.labels)) items.old }
    requires short { length (blanks L.holes items.old) ≤ 256 }
    requires room { length (fixes_of L.holes (length buf.old.bytes) items.old) ≤ buf.old.room }
    ensures kept { items.new ≡ items.old }
    ensures fits { IsTrue result ↔ (length buf.old.bytes + length (blanks L.holes items.old) ≤ buf.old.capacity) }
    ensures refused { result ≡ false → buf.new ≡ buf.old }
    ensures bytes { IsTrue result → buf.new.bytes ≡ buf.old.bytes ++ blanks L.holes items.old }
    ensures fixes { IsTrue result → buf.new.fixes ≡ buf.old.fixes ++ fixes_of L.holes (length buf.old.bytes) items.old }
    ensures room { IsTrue result → buf.new.room + length (fixes_of L.holes (length buf.old.bytes) items.old) ≡ buf.old.room }
    ensures others { buf.new ≡ record buf.old { bytes = buf.new.bytes; fixes = buf.new.fixes; room = buf.new.room } }
{
    let place = buf.here();
    if !items.emit(buf) {
        return false;
    }
    fix_all(items.as_slice(), place, buf);
    true
}

/// Appends the bytes of all items. There is room for them.
pub(crate) fn spell_all<L: Item>(items: &[L], bytes: &mut Bytes)
    requires items { Each L.is_item items.now }
    requires room { length bytes.old + length (blanks L.holes items.now) ≤ 256 }
    ensures { bytes.new ≡ bytes.old ++ blanks L.holes items.now }
{
    match items {
        [] => {}
        [item, rest @ ..] => {
            item.spell(bytes);
            spell_all(rest, bytes);
        }
    }
}

// Makes the fix of an item whose bytes are at a place, after those of all fixes.
fn fix_one<L: Item>(item: &L, place: u32, buf: &mut CodeBuf)
    requires item { L.is_item item.now }
    requires emitted { place + length (blank_of L.holes item.now) ≤ length buf.old.bytes }
    requires small { length buf.old.bytes < 2 ^ 32 }
    requires apart { All (EndsWithin place) buf.old.fixes }
    requires label { L.names_one_of (length buf.old.labels) item.now }
    requires room { length (fix_at L.holes place item.now) ≤ buf.old.room }
    ensures fixes { buf.new.fixes ≡ buf.old.fixes ++ fix_at L.holes place item.now }
    ensures ends { All (EndsWithin (place + length (blank_of L.holes item.now))) (fix_at L.holes place item.now) }
    ensures room { buf.new.room + length (fix_at L.holes place item.now) ≡ buf.old.room }
    ensures others { buf.new ≡ record buf.old { fixes = buf.new.fixes; room = buf.new.room } }
{
    if let Some(fix) = item.fix(place) {
        buf.fix(fix.place, fix.kind, fix.label);
    }
}

// Makes the fixes of all items, whose bytes begin at a place, after those of all fixes.
fn fix_all<L: Item>(items: &[L], place: u32, buf: &mut CodeBuf)
    requires items { Each L.is_item items.now }
    requires emitted { place + length (blanks L.holes items.now) ≤ length buf.old.bytes }
    requires small { length buf.old.bytes < 2 ^ 32 }
    requires apart { All (EndsWithin place) buf.old.fixes }
    requires labels { Each (L.names_one_of (length buf.old.labels)) items.now }
    requires room { length (fixes_of L.holes place items.now) ≤ buf.old.room }
    ensures fixes { buf.new.fixes ≡ buf.old.fixes ++ fixes_of L.holes place items.now }
    ensures room { buf.new.room + length (fixes_of L.holes place items.now) ≡ buf.old.room }
    ensures others { buf.new ≡ record buf.old { fixes = buf.new.fixes; room = buf.new.room } }
{
    match items {
        [] => {}
        [item] => fix_one(item, place, buf),
        [item, rest @ ..] => {
            fix_one(item, place, buf);
            fix_all(rest, place + item.size(), buf);
        }
    }
}
