// Bytes in room that is taken once. Only the model, the drop and the calls of the first block know what the room is.

ghost use Rattle.std.specs.Prelude.{◌≡◌, ◌+◌, ◌<◌, ◌≤◌, ◌^◌, [], ◌∷◌, ◌++◌, length, slice_index, slice_set, IfOk};
ghost use Rattle.std.specs.List.{All};
ghost use Rattle.lg_base.specs.WordFronts.{word_at};
ghost use Rattle.lg_buf.specs.Stores.{ChangesOnly};

use crate::region::{Lease, Region};
use lg_base::{CodeBytes, Field, OutOfMemory};
use std::alloc::Global;
use std::marker::Model;

/// Bytes, up to a certain number. In a contract it is a `StoredBytes`.
pub(crate) struct Store {
    alloc: Global,
    region: Region,
    lease: Lease<Global>,
    len: u32,
    size: u32,
    out: CodeBytes,
}

impl Model for Store {
    ghost use Rattle.std.specs.Prelude.{◌≡◌, ◌<◌, length};
    ghost use Rattle.std.specs.List.{All};
    ghost use Rattle.lg_buf.specs.Stores.{StoredBytes, IsRoomFor};

    ghost Value = { StoredBytes };

    ghost view = { λ s. record { items = s.region.bytes; size = s.size } };

    ghost invariant = { λ s.
        (s.len ≡ length s.region.bytes)
        × (s.region.size ≡ s.size)
        × (s.lease.alloc ≡ s.alloc)
        × (s.lease.ptr ≡ s.region.ptr)
        × (s.lease.size ≡ s.region.size)
        × All (λ b. b < 256) s.region.bytes
        × IsRoomFor s.size s.out };
}

impl Drop for Store {
    fn drop(self) {
        let Store {
            alloc,
            region,
            lease,
            len: _,
            size: _,
            out: _,
        } = self;
        region.free(lease, &alloc);
    }
}

impl Store {
    /// No bytes, with room for `size` of them. It also takes the room of what `into_bytes` allocates.
    pub(crate) fn new(alloc: Global, size: u32) -> Result<Store, OutOfMemory>
        ensures items { IfOk result (λ s. s.items ≡ []) }
        ensures size { IfOk result (λ s. s.size ≡ size) }
    {
        let out = CodeBytes::with_room(alloc, size)?;
        let Some((region, lease)) = Region::new(&alloc, size as usize) else {
            return Err(OutOfMemory);
        };
        Ok(Store {
            alloc,
            region,
            lease,
            len: 0,
            size,
            out,
        })
    }

    /// Returns how many bytes there can be.
    pub(crate) fn size(&self) -> u32
        ensures { result ≡ self.now.size }
    {
        self.size
    }

    /// Returns how many bytes there are.
    pub(crate) fn len(&self) -> u32
        ensures length { result ≡ length self.now.items }
        ensures within { length self.now.items ≤ self.now.size }
        ensures small { self.now.size < 2 ^ 32 }
        ensures are_bytes { All (λ b. b < 256) self.now.items }
    {
        // the size fits 32 bits
        let _size = self.size;
        self.len
    }

    /// Appends bytes. There is room left for them.
    pub(crate) fn write(&mut self, piece: &[u8])
        requires { length self.old.items + length piece.now ≤ self.old.size }
        ensures items { self.new.items ≡ self.old.items ++ piece.now }
        ensures size { self.new.size ≡ self.old.size }
    {
        // the size fits 32 bits
        let _size = self.size;
        self.region.write(self.len as usize, piece);
        self.len += piece.len() as u32;
    }

    /// Rereads the byte of a place, which is below `len`.
    pub(crate) fn get(&mut self, place: u32) -> u8
        requires { place < length self.old.items }
        ensures byte { result ≡ slice_index self.old.items place }
        ensures same { self.new ≡ self.old }
    {
        self.region.get(place as usize)
    }

    /// Rewrites the byte of a place, which is below `len`.
    pub(crate) fn set(&mut self, place: u32, byte: u8)
        requires { place < length self.old.items }
        ensures items { self.new.items ≡ slice_set self.old.items place byte }
        ensures size { self.new.size ≡ self.old.size }
    {
        self.region.set(place as usize, byte);
    }

    /// Allocates the bytes, and gives their region back.
    pub(crate) fn into_bytes(self) -> CodeBytes
        ensures { result.items ≡ self.items }
    {
        let Store {
            alloc,
            mut region,
            lease,
            len,
            size: _,
            mut out,
        } = self;
        copy_out(&mut region, len, &mut out);
        region.free(lease, &alloc);
        out
    }
}

impl Store {
    /// Returns how many more bytes there can be.
    pub(crate) fn free(&self) -> u32
        ensures { length self.now.items + result ≡ self.now.size }
    {
        self.size - self.len()
    }

    /// Rereads the word of 32 bits at a place, the lowest byte first. Its bytes are below `len`.
    pub(crate) fn reread(&mut self, place: u32) -> u32
        requires { place + 4 ≤ length self.old.items }
        ensures word { result ≡ word_at self.old.items place }
        ensures same { self.new ≡ self.old }
    {
        // places fit 32 bits
        let _len = self.len();
        let first = self.get(place) as u32;
        let second = self.get(place + 1) as u32;
        let third = self.get(place + 2) as u32;
        let last = self.get(place + 3) as u32;
        first + 0x100 * second + 0x1_0000 * third + 0x100_0000 * last
    }

    /// Rewrites the word of 32 bits at a place, the lowest byte first. Its bytes are below `len`.
    pub(crate) fn rewrite(&mut self, place: u32, word: u32)
        requires { place + 4 ≤ length self.old.items }
        ensures word { word_at self.new.items place ≡ word }
        ensures others { ChangesOnly place 4 self.old self.new }
    {
        // places fit 32 bits
        let _len = self.len();
        self.set(place, Field::<0, 8>::get(word) as u8);
        self.set(place + 1, Field::<8, 8>::get(word) as u8);
        self.set(place + 2, Field::<16, 8>::get(word) as u8);
        self.set(place + 3, Field::<24, 8>::get(word) as u8);
    }
}

// Appends the bytes of a region to a list that has room for them.
fn copy_out(region: &mut Region, len: u32, out: &mut CodeBytes)
    requires len { len ≡ length region.old.bytes }
    requires room { len ≤ out.old.room }
    ensures items { out.new.items ≡ out.old.items ++ region.old.bytes }
    ensures region { region.new ≡ region.old }
{
    'bytes: for place in 0..len {
        out.push(region.get(place as usize));
    }
}
