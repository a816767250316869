// The code buffer.

ghost use Rattle.std.specs.Prelude.{◌≡◌, ℕ, ◌+◌, ◌<◌, ◌≤◌, ◌^◌, ◌++◌, [], ◌∷◌, ◌↔◌, length, IfOk, IsTrue, false, replicate, slice_set, map, if◌then◌else◌};
ghost use Rattle.std.specs.List.{All};
ghost use Rattle.lg_buf.specs.FixFields.{fix_len};
ghost use Rattle.lg_buf.specs.Fixing.{Fits, Patched};
ghost use Rattle.lg_buf.specs.Buffers.{AreApart, AreDone, AreSound, EndsWithin, IsReady, place_of, place_or_zero};

use crate::fixes::{Fix, FixKind, Label32};
use crate::patches;
use crate::store::Store;
use lg_base::{CodeBytes, OutOfMemory, Places};
use std::alloc::Global;
use std::marker::Model;

/// Bytes that are only appended to, with labels, and with fixes, whose fields are patched at the end. No call but
/// `new` and `with_capacity` takes memory.
///
/// In a contract a `CodeBuf` is a `Buffer`: the bytes, the size that code may have, how many bytes there is room for, the
/// place of each label, the fixes that are still to be patched, how many more fixes there can be, and the allocator.
#[derive(Drop)]
pub struct CodeBuf {
    allocator: Global,
    size: u32,
    store: Store,
    labels: Vec<Option<u32>>,
    fixes: Vec<Fix>,
    room: u32,
    places: Places,
}

impl Model for CodeBuf {
    ghost use Rattle.std.specs.Prelude.{◌+◌, ◌≤◌, length, vec_len, vec_capacity};
    ghost use Rattle.lg_buf.specs.Buffers.{Buffer, AreSound};
    ghost use Rattle.lg_buf.specs.Stores.{IsRoomFor};

    ghost Value = { Buffer };

    ghost view = { λ b. record {
      bytes = b.store.items;
      size = b.size;
      capacity = b.store.size;
      labels = b.labels.items;
      fixes = b.fixes.items;
      room = b.room;
      allocator = b.allocator;
    } };

    ghost invariant = { λ b.
        (vec_len b.fixes + b.room ≤ vec_capacity b.fixes)
        × AreSound (length b.store.items) (length b.labels.items) b.fixes.items
        × IsRoomFor (length b.labels.items) b.places
        × (b.store.size ≤ b.size) };
}

/// What a buffer becomes.
#[derive(Drop)]
pub struct Finished {
    /// The code.
    pub bytes: CodeBytes,
    /// The place of each label by its number, and 0 for a label that isn't bound.
    pub places: Places,
}

impl CodeBuf {
    /// Returns an empty buffer for `size` bytes, `labels` labels, none of which is bound, and `fixes` fixes. It also takes the
    /// room of what `finish` allocates.
    pub fn new(alloc: Global, size: u32, labels: u32, fixes: u32) -> Result<CodeBuf, OutOfMemory>
        ensures bytes { IfOk result (λ b. (b.bytes ≡ []) × (b.size ≡ size) × (b.capacity ≡ size)) }
        ensures labels { IfOk result (λ b. b.labels ≡ replicate labels None) }
        ensures fixes { IfOk result (λ b. (b.fixes ≡ []) × (b.room ≡ fixes)) }
        ensures allocator { IfOk result (λ b. b.allocator ≡ alloc) }
    {
        CodeBuf::with_capacity(alloc, size, size, labels, fixes)
    }

    /// The same for code that may have `size` bytes, with room for `capacity` of them, which is no more: for code that is known to have few
    /// bytes, so that a large size takes no more memory or time than they do.
    pub fn with_capacity(
        alloc: Global,
        size: u32,
        capacity: u32,
        labels: u32,
        fixes: u32,
    ) -> Result<CodeBuf, OutOfMemory>
        requires { capacity ≤ size }
        ensures bytes { IfOk result (λ b. (b.bytes ≡ []) × (b.size ≡ size) × (b.capacity ≡ capacity)) }
        ensures labels { IfOk result (λ b. b.labels ≡ replicate labels None) }
        ensures fixes { IfOk result (λ b. (b.fixes ≡ []) × (b.room ≡ fixes)) }
        ensures allocator { IfOk result (λ b. b.allocator ≡ alloc) }
    {
        let store = Store::new(alloc, capacity)?;
        let unbound = Vec::from_elem(alloc, None, labels as usize)?;
        let no_fixes = Vec::with_capacity(alloc, fixes as usize)?;
        let places = Places::with_room(alloc, labels)?;
        Ok(CodeBuf {
            allocator: alloc,
            size,
            store,
            labels: unbound,
            fixes: no_fixes,
            room: fixes,
            places,
        })
    }

    /// Returns the allocator that the buffer was made with.
    pub fn allocator(&self) -> Global
        ensures { result ≡ self.now.allocator }
    {
        self.allocator
    }

    /// Returns how many bytes the code may have: the size that the buffer was made with.
    pub fn size(&self) -> u32
        ensures { result ≡ self.now.size }
    {
        self.size
    }

    /// Returns the place after the last byte, which is the number of bytes.
    pub fn here(&self) -> u32
        ensures value { result ≡ length self.now.bytes }
        ensures within { length self.now.bytes ≤ self.now.capacity }
        ensures capacity { self.now.capacity ≤ self.now.size }
        ensures small { self.now.size < 2 ^ 32 }
        ensures fixes { All (EndsWithin (length self.now.bytes)) self.now.fixes }
        ensures are_bytes { All (λ b. b < 256) self.now.bytes }
        ensures sound { AreSound (length self.now.bytes) (length self.now.labels) self.now.fixes }
    {
        // the size fits 32 bits
        let _size = self.size;
        self.store.len()
    }

    /// Appends bytes, or returns false and changes nothing exactly where fewer bytes are free.
    #[must_use]
    pub fn emit(&mut self, piece: &[u8]) -> bool
        ensures fits { IsTrue result ↔ (length self.old.bytes + length piece.now ≤ self.old.capacity) }
        ensures appended { self.new ≡ (if result then record self.old { bytes = self.old.bytes ++ piece.now } else self.old) }
    {
        if piece.len() > self.store.free() as usize {
            return false;
        }
        self.store.write(piece);
        true
    }

    /// Binds a label to the place after the last byte. It is one of the buffer's labels, and it isn't bound.
    pub fn bind(&mut self, label: Label32)
        requires label { label.0 < length self.old.labels }
        requires unbound { place_of self.old.labels label.0 ≡ None }
        ensures { self.new ≡ record self.old { labels = slice_set self.old.labels label.0 (Some (length self.old.bytes)) } }
    {
        let here = self.store.len();
        self.labels[label.0 as usize] = Some(here);
    }

    /// Binds a label to a place of the code, which is at most that after the last byte. It is one of the buffer's labels, and it isn't bound.
    pub fn bind_at(&mut self, label: Label32, place: u32)
        requires label { label.0 < length self.old.labels }
        requires unbound { place_of self.old.labels label.0 ≡ None }
        requires place { place ≤ length self.old.bytes }
        ensures { self.new ≡ record self.old { labels = slice_set self.old.labels label.0 (Some place) } }
    {
        self.labels[label.0 as usize] = Some(place);
    }

    /// Returns the place of a label, or `None` if it isn't bound. It is one of the buffer's labels.
    pub fn bound(&self, label: Label32) -> Option<u32>
        requires { label.0 < length self.now.labels }
        ensures { result ≡ place_of self.now.labels label.0 }
    {
        self.labels[label.0 as usize]
    }

    /// Makes a fix: at the end its field is to lead to the place of the label, which is one of the buffer's. The fix's
    /// bytes were appended, none of them belongs to another fix, and fewer fixes were made than the buffer has room for.
    pub fn fix(&mut self, place: u32, kind: FixKind, label: Label32)
        requires emitted { place + fix_len kind ≤ length self.old.bytes }
        requires apart { All (λ f. AreApart f (record { place = place; kind = kind; label = label })) self.old.fixes }
        requires label { label.0 < length self.old.labels }
        requires room { 0 < self.old.room }
        ensures fixes { self.new.fixes ≡ self.old.fixes ++ record { place = place; kind = kind; label = label } ∷ [] }
        ensures room { self.new.room + 1 ≡ self.old.room }
        ensures others { self.new ≡ record self.old { fixes = self.new.fixes; room = self.new.room } }
    {
        self.fixes.push_reserved(Fix { place, kind, label });
        self.room -= 1;
    }

    /// Makes the field of a kind at a place lead to a target, which is a place in the code. The field's bytes were
    /// appended. False exactly where the field can't hold the distance or the address, and then nothing changes;
    /// else nothing but the field's own bits changes.
    #[must_use]
    pub fn patch(&mut self, place: u32, kind: FixKind, target: u32) -> bool
        requires { place + fix_len kind ≤ length self.old.bytes }
        ensures fits { IsTrue result ↔ Fits kind place target }
        ensures patched { IsTrue result → Patched kind place target self.old.bytes self.new.bytes }
        ensures unchanged { result ≡ false → self.new ≡ self.old }
        ensures others { self.new ≡ record self.old { bytes = self.new.bytes } }
    {
        patches::patch(&mut self.store, place, kind, target)
    }

    /// Returns whether the label of each fix is bound, and each fix can lead to its place: whether the buffer can be finished.
    pub fn is_ready(&self) -> bool
        ensures { IsTrue result ↔ All (IsReady self.now.labels) self.now.fixes }
    {
        patches::are_ready(self.labels.as_slice(), self.fixes.as_slice())
    }

    /// Patches each fix with the place of its label, and allocates the bytes and the places of the labels. The label
    /// of each fix is bound, and the fix can lead to its place.
    pub fn finish(self) -> Finished
        requires { All (IsReady self.labels) self.fixes }
        ensures bytes { AreDone self.labels self.fixes (length self.fixes) self.bytes result.bytes.items }
        ensures places { result.places.items ≡ map place_or_zero self.labels }
    {
        let CodeBuf {
            allocator: _,
            size: _,
            mut store,
            labels,
            fixes,
            room: _,
            mut places,
        } = self;
        patches::patch_all(&mut store, labels.as_slice(), fixes.as_slice());
        add_places(&mut places, labels.as_slice());
        Finished {
            bytes: store.into_bytes(),
            places,
        }
    }
}

// appends the place of each label
fn add_places(places: &mut Places, labels: &[Option<u32>])
    requires { length labels.now ≤ places.old.room }
    ensures { places.new.items ≡ places.old.items ++ map place_or_zero labels.now }
{
    'labels: for label in labels {
        places.push(label.unwrap_or(0));
    }
}
