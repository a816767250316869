// A region of bytes that is taken once from an allocator and written through a raw pointer. What touches the
// pointer is proved by hand; nothing else does.

ghost use Rattle.std.specs.Prelude.{◌≡◌, ℕ, ◌+◌, ◌^◌, ◌<◌, ◌≤◌, List, [], ◌∷◌, ◌++◌, length, slice_index, slice_set, IfSome};
ghost use denote.RawPtr.{Ptr};
ghost use types.Logic.{sem};
ghost use base.Fml.{Share, fsep};
ghost use Rattle.lg_buf.specs.Ownership.{lie_before_room, bytes_of, lie_at, is_room};

use std::alloc::Allocator;
use std::marker::{Model, PhantomData};

/// Bytes, and after them room for more.
pub(crate) struct Region {
    ptr: *mut u8,
    size: usize,
    pub ghost bytes: { List ℕ },
    pub ghost spare: { ℕ },
    pub ghost fits: { (size ≡ length bytes + spare) × (size < 2 ^ 63) },
}

impl Model for Region {
    ghost also_owns = { λ r. lie_before_room r.ptr r.bytes r.spare };
}

/// The right to give a region back, which is used up by it.
pub(crate) struct Lease<A: Allocator> {
    marker: PhantomData<A>,
    ghost alloc: { A },
    ghost ptr: { Ptr },
    ghost size: { ℕ },
}

impl<A: Allocator> Model for Lease<A> {
    ghost also_owns = { λ l. A.dealloc_token l.alloc (bytes_of l.size) l.ptr };
}

impl Region {
    /// Takes room for `size` bytes.
    pub(crate) fn new<A: Allocator>(alloc: &A, size: usize) -> Option<(Region, Lease<A>)>
        requires { size < 2 ^ 63 }
        ensures { IfSome result (λ m.
            (m.0.size ≡ size) × (m.0.bytes ≡ []) × (m.0.spare ≡ size)
            × (m.1.alloc ≡ alloc.now) × (m.1.ptr ≡ m.0.ptr) × (m.1.size ≡ size)) }
    {
        match alloc.allocate(size, 1) {
            Ok(ptr) => {
                let marker = PhantomData;
                Some((Region { ptr, size }, Lease { marker }))
            }
            Err(_) => None,
        }
    }

    /// Gives the region back.
    pub(crate) fn free<A: Allocator>(self, lease: Lease<A>, alloc: &A)
        requires { (lease.alloc ≡ alloc.now) × (lease.ptr ≡ self.ptr) × (lease.size ≡ self.size) }
    {
        let Region { ptr, size } = self;
        let Lease { marker: _ } = lease;
        unsafe { alloc.deallocate(ptr, size, 1) }
    }

    /// Writes a piece after the bytes.
    pub(crate) fn write(&mut self, end: usize, piece: &[u8])
        requires { (end ≡ length self.old.bytes) × (length piece.now ≤ self.old.spare) }
        ensures { (self.new.bytes ≡ self.old.bytes ++ piece.now) × (self.new.spare + length piece.now ≡ self.old.spare)
            × (self.new.ptr ≡ self.old.ptr) × (self.new.size ≡ self.old.size) }
    {
        unsafe { copy_bytes(piece.as_ptr(), self.ptr.add(end), piece.len()) }
    }

    /// Rereads a byte.
    pub(crate) fn get(&mut self, index: usize) -> u8
        requires { index < length self.old.bytes }
        ensures { (result ≡ slice_index self.old.bytes index) × (self.new ≡ self.old) }
    {
        unsafe { *self.ptr.add(index) }
    }

    /// Rewrites a byte.
    pub(crate) fn set(&mut self, index: usize, byte: u8)
        requires { index < length self.old.bytes }
        ensures { (self.new.bytes ≡ slice_set self.old.bytes index byte) × (self.new.spare ≡ self.old.spare)
            × (self.new.ptr ≡ self.old.ptr) × (self.new.size ≡ self.old.size) }
    {
        unsafe { *self.ptr.add(index) = byte };
    }
}

// Copies bytes into room, after which is more of it. A share of them is enough.
unsafe fn copy_bytes(from: *const u8, to: *mut u8, count: usize)
    ghost g: { Share × List ℕ × ℕ }
    requires count { length g.1 ≡ count }
    requires* places { sem 𝓛 (fsep (lie_at g.0 from g.1) (is_room to (count + g.2))) }
    ensures* { sem 𝓛 (fsep (lie_at g.0 from g.1) (lie_before_room to g.1 g.2)) }
{
    let mut i = 0;
    while i < count {
        unsafe { *to.add(i) = *from.add(i) };
        i += 1;
    }
}
