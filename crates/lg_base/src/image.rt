// The parts of the memory that a run begins with.

ghost use Rattle.std.specs.Prelude.{◌≡◌, ◌<◌, ◌≤◌, ◌+◌, ◌^◌, ◌↔◌, ℕ, List, [], ◌∷◌, ◌++◌, length, slice_index, vec_len, IfOk, IsTrue};

use crate::refusal::OutOfMemory;
use std::alloc::Global;
use std::marker::Model;

/// The bytes of the data part.
#[derive(Drop)]
pub struct DataImage {
    bytes: Vec<u8>,
}

impl Model for DataImage {
    ghost Value = { List ℕ };

    ghost view = { λ l. l.bytes.items };

    ghost invariant = { λ l. vec_len l.bytes < 2 ^ 32 };
}

impl DataImage {
    /// Returns the list of these bytes (at most 4,294,967,295).
    pub fn of(alloc: Global, list: &[u8]) -> Result<DataImage, OutOfMemory>
        requires { length list.now < 2 ^ 32 }
        ensures { IfOk result (λ l. l ≡ list.now) }
    {
        let bytes = Vec::from_slice(alloc, list)?;
        Ok(DataImage { bytes })
    }

    /// Returns the list that a vector holds (at most 4,294,967,295 bytes). No memory is taken.
    pub fn from_vec(bytes: Vec<u8>) -> DataImage
        requires { length bytes.items < 2 ^ 32 }
        ensures { result ≡ bytes.items }
    {
        DataImage { bytes }
    }

    /// Returns how many bytes there are.
    pub fn len(&self) -> u32
        ensures { result ≡ length self.now }
    {
        self.bytes.len() as u32
    }

    /// Returns whether there is none.
    pub fn is_empty(&self) -> bool
        ensures { IsTrue result ↔ (length self.now ≡ 0) }
    {
        self.bytes.len() == 0
    }

    /// Returns the byte of an index, which is below `len`.
    pub fn get(&self, index: u32) -> u8
        requires { index < length self.now }
        ensures { result ≡ slice_index self.now index }
    {
        self.bytes[index as usize]
    }

    /// Returns the bytes.
    pub fn as_slice(&self) -> &[u8]
        ensures value { result.now ≡ self.now }
        ensures small { length self.now < 2 ^ 32 }
    {
        &self.bytes
    }
}

/// The bytes of the argument part.
#[derive(Drop)]
pub struct ArgImage {
    bytes: Vec<u8>,
}

impl Model for ArgImage {
    ghost Value = { List ℕ };

    ghost view = { λ l. l.bytes.items };

    ghost invariant = { λ l. vec_len l.bytes < 2 ^ 32 };
}

impl ArgImage {
    // Returns the list that a vector holds (at most 4,294,967,295 bytes).
    pub(crate) fn from_vec(bytes: Vec<u8>) -> ArgImage
        requires { length bytes.items < 2 ^ 32 }
        ensures { result ≡ bytes.items }
    {
        ArgImage { bytes }
    }

    /// Returns the list of these bytes (at most 4,294,967,295).
    pub fn of(alloc: Global, list: &[u8]) -> Result<ArgImage, OutOfMemory>
        requires { length list.now < 2 ^ 32 }
        ensures { IfOk result (λ l. l ≡ list.now) }
    {
        let bytes = Vec::from_slice(alloc, list)?;
        Ok(ArgImage { bytes })
    }

    /// Returns how many bytes there are.
    pub fn len(&self) -> u32
        ensures { result ≡ length self.now }
    {
        self.bytes.len() as u32
    }

    /// Returns whether there is none.
    pub fn is_empty(&self) -> bool
        ensures { IsTrue result ↔ (length self.now ≡ 0) }
    {
        self.bytes.len() == 0
    }

    /// Returns the byte of an index, which is below `len`.
    pub fn get(&self, index: u32) -> u8
        requires { index < length self.now }
        ensures { result ≡ slice_index self.now index }
    {
        self.bytes[index as usize]
    }

    /// Returns the bytes.
    pub fn as_slice(&self) -> &[u8]
        ensures value { result.now ≡ self.now }
        ensures small { length self.now < 2 ^ 32 }
    {
        &self.bytes
    }
}
