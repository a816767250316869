// Code: its bytes, and what is where.

ghost use Rattle.std.specs.Prelude.{◌≡◌, ◌<◌, ◌≤◌, ◌+◌, ◌^◌, ◌↔◌, ℕ, List, [], ◌∷◌, ◌++◌, length, slice_index, vec_len, IfOk, IsTrue};

use crate::refusal::OutOfMemory;
use std::alloc::Global;
use std::marker::Model;

/// The bytes of code, with room for more.
#[derive(Drop)]
pub struct CodeBytes {
    bytes: Vec<u8>,
    room: u32,
}

impl Model for CodeBytes {
    ghost use Rattle.std.specs.Prelude.{◌+◌, ◌≤◌, ◌<◌, ◌^◌, vec_len, vec_capacity};
    ghost use Rattle.lg_base.specs.Rooms.{Roomy};

    ghost Value = { Roomy };

    ghost view = { λ l. record { items = l.bytes.items; room = l.room } };

    ghost invariant = { λ l. (vec_len l.bytes + l.room ≤ vec_capacity l.bytes) × (vec_len l.bytes + l.room < 2 ^ 32) };
}

impl CodeBytes {
    /// Returns the list of these bytes (at most 4,294,967,295), with room for no more.
    pub fn of(alloc: Global, list: &[u8]) -> Result<CodeBytes, OutOfMemory>
        requires { length list.now < 2 ^ 32 }
        ensures items { IfOk result (λ l. l.items ≡ list.now) }
        ensures room { IfOk result (λ l. l.room ≡ 0) }
    {
        let bytes = Vec::from_slice(alloc, list)?;
        Ok(CodeBytes { bytes, room: 0 })
    }

    /// Returns the list that a vector holds (at most 4,294,967,295 bytes), with room for no more.
    pub fn from_vec(bytes: Vec<u8>) -> CodeBytes
        requires { length bytes.items < 2 ^ 32 }
        ensures items { result.items ≡ bytes.items }
        ensures room { result.room ≡ 0 }
    {
        CodeBytes { bytes, room: 0 }
    }

    /// No bytes, with room for this many.
    pub fn with_room(alloc: Global, room: u32) -> Result<CodeBytes, OutOfMemory>
        ensures items { IfOk result (λ l. l.items ≡ []) }
        ensures room { IfOk result (λ l. l.room ≡ room) }
    {
        let bytes = Vec::with_capacity(alloc, room as usize)?;
        Ok(CodeBytes { bytes, room })
    }

    /// Appends a byte. There is room left.
    pub fn push(&mut self, byte: u8)
        requires { 0 < self.old.room }
        ensures items { self.new.items ≡ self.old.items ++ byte ∷ [] }
        ensures room { self.new.room + 1 ≡ self.old.room }
    {
        self.bytes.push_reserved(byte);
        self.room -= 1;
    }

    /// Returns how many bytes there are.
    pub fn len(&self) -> u32
        ensures { result ≡ length self.now.items }
    {
        self.bytes.len() as u32
    }

    /// Returns whether there is none.
    pub fn is_empty(&self) -> bool
        ensures { IsTrue result ↔ (length self.now.items ≡ 0) }
    {
        self.bytes.len() == 0
    }

    /// Returns the byte of an index, which is below `len`.
    pub fn get(&self, index: u32) -> u8
        requires { index < length self.now.items }
        ensures { result ≡ slice_index self.now.items index }
    {
        self.bytes[index as usize]
    }

    /// Returns the bytes.
    pub fn as_slice(&self) -> &[u8]
        ensures value { result.now ≡ self.now.items }
        ensures small { length self.now.items < 2 ^ 32 }
    {
        &self.bytes
    }
}

/// Places in code, counted in bytes from its first, with room for more.
#[derive(Drop)]
pub struct Places {
    places: Vec<u32>,
    room: u32,
}

impl Model for Places {
    ghost use Rattle.std.specs.Prelude.{◌+◌, ◌≤◌, ◌<◌, ◌^◌, vec_len, vec_capacity};
    ghost use Rattle.lg_base.specs.Rooms.{Roomy};

    ghost Value = { Roomy };

    ghost view = { λ l. record { items = l.places.items; room = l.room } };

    ghost invariant = { λ l. (vec_len l.places + l.room ≤ vec_capacity l.places) × (vec_len l.places + l.room < 2 ^ 32) };
}

impl Places {
    /// Returns the list of these places (at most 4,294,967,295), with room for no more.
    pub fn of(alloc: Global, list: &[u32]) -> Result<Places, OutOfMemory>
        requires { length list.now < 2 ^ 32 }
        ensures items { IfOk result (λ l. l.items ≡ list.now) }
        ensures room { IfOk result (λ l. l.room ≡ 0) }
    {
        let places = Vec::from_slice(alloc, list)?;
        Ok(Places { places, room: 0 })
    }

    /// No places, with room for this many.
    pub fn with_room(alloc: Global, room: u32) -> Result<Places, OutOfMemory>
        ensures items { IfOk result (λ l. l.items ≡ []) }
        ensures room { IfOk result (λ l. l.room ≡ room) }
    {
        let places = Vec::with_capacity(alloc, room as usize)?;
        Ok(Places { places, room })
    }

    /// Appends a place. There is room left.
    pub fn push(&mut self, place: u32)
        requires { 0 < self.old.room }
        ensures items { self.new.items ≡ self.old.items ++ place ∷ [] }
        ensures room { self.new.room + 1 ≡ self.old.room }
    {
        self.places.push_reserved(place);
        self.room -= 1;
    }

    /// Returns how many places there are.
    pub fn len(&self) -> u32
        ensures { result ≡ length self.now.items }
    {
        self.places.len() as u32
    }

    /// Returns whether there is none.
    pub fn is_empty(&self) -> bool
        ensures { IsTrue result ↔ (length self.now.items ≡ 0) }
    {
        self.places.len() == 0
    }

    /// Returns the place of an index, which is below `len`.
    pub fn get(&self, index: u32) -> u32
        requires { index < length self.now.items }
        ensures { result ≡ slice_index self.now.items index }
    {
        self.places[index as usize]
    }

    /// Returns the places.
    pub fn as_slice(&self) -> &[u32]
        ensures value { result.now ≡ self.now.items }
        ensures small { length self.now.items < 2 ^ 32 }
    {
        &self.places
    }
}

/// For each node of a text that was rewritten, the index of the node that it comes from, with room for more.
#[derive(Drop)]
pub struct Origin {
    indices: Vec<u32>,
    room: u32,
}

impl Model for Origin {
    ghost use Rattle.std.specs.Prelude.{◌+◌, ◌≤◌, ◌<◌, ◌^◌, vec_len, vec_capacity};
    ghost use Rattle.lg_base.specs.Rooms.{Roomy};

    ghost Value = { Roomy };

    ghost view = { λ l. record { items = l.indices.items; room = l.room } };

    ghost invariant = { λ l. (vec_len l.indices + l.room ≤ vec_capacity l.indices) × (vec_len l.indices + l.room < 2 ^ 32) };
}

impl Origin {
    /// Returns the list of these indices (at most 4,294,967,295), with room for no more.
    pub fn of(alloc: Global, list: &[u32]) -> Result<Origin, OutOfMemory>
        requires { length list.now < 2 ^ 32 }
        ensures items { IfOk result (λ l. l.items ≡ list.now) }
        ensures room { IfOk result (λ l. l.room ≡ 0) }
    {
        let indices = Vec::from_slice(alloc, list)?;
        Ok(Origin { indices, room: 0 })
    }

    /// No indices, with room for this many.
    pub fn with_room(alloc: Global, room: u32) -> Result<Origin, OutOfMemory>
        ensures items { IfOk result (λ l. l.items ≡ []) }
        ensures room { IfOk result (λ l. l.room ≡ room) }
    {
        let indices = Vec::with_capacity(alloc, room as usize)?;
        Ok(Origin { indices, room })
    }

    /// Appends an index. There is room left.
    pub fn push(&mut self, index: u32)
        requires { 0 < self.old.room }
        ensures items { self.new.items ≡ self.old.items ++ index ∷ [] }
        ensures room { self.new.room + 1 ≡ self.old.room }
    {
        self.indices.push_reserved(index);
        self.room -= 1;
    }

    /// Returns how many nodes there are.
    pub fn len(&self) -> u32
        ensures { result ≡ length self.now.items }
    {
        self.indices.len() as u32
    }

    /// Returns whether there is none.
    pub fn is_empty(&self) -> bool
        ensures { IsTrue result ↔ (length self.now.items ≡ 0) }
    {
        self.indices.len() == 0
    }

    /// Returns the index that a node comes from, whose own is below `len`.
    pub fn get(&self, index: u32) -> u32
        requires { index < length self.now.items }
        ensures { result ≡ slice_index self.now.items index }
    {
        self.indices[index as usize]
    }

    /// Returns the indices.
    pub fn as_slice(&self) -> &[u32]
        ensures value { result.now ≡ self.now.items }
        ensures small { length self.now.items < 2 ^ 32 }
    {
        &self.indices
    }
}
