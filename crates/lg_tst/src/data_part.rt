// The data part of a text as it is read.

ghost use Rattle.std.specs.Prelude.{◌≡◌, ◌≤◌, ◌+◌, length, if◌then◌else◌, Some, IfOk, OnOk, OnErr, is_some, false};
ghost use Rattle.lg_tst.specs.DataParts.{no_data, fits, with_bytes, zeros, image_of, limit_of};

use lg_base::{DataImage, OutOfMemory};
use std::alloc::Global;
use std::marker::Model;

/// The most bytes of a data part.
pub const MOST_DATA: u64 = 16_777_216;

/// The data part of a text: its size, where `.data` has come, and the bytes of the items and skips so far.
#[derive(Drop)]
pub struct DataPart {
    size: Option<u32>,
    bytes: Vec<u8>,
}

impl Model for DataPart {
    ghost use Rattle.lg_tst.specs.DataParts.{DataBytes};
    ghost use Rattle.lg_tst.specs.DataHolds.{view_of, IsDataPart};

    ghost Value = { DataBytes };

    ghost view = { view_of };

    ghost invariant = { IsDataPart };
}

impl DataPart {
    /// No data part. No memory is taken.
    pub fn new(alloc: Global) -> DataPart
        ensures { result ≡ no_data }
    {
        DataPart {
            size: None,
            bytes: Vec::new(alloc),
        }
    }

    /// Returns whether the part has its size.
    pub fn has_size(&self) -> bool
        ensures { result ≡ is_some self.now.size }
    {
        self.size.is_some()
    }

    /// Returns how many bytes the items and skips so far have, at most 16,777,216.
    pub fn len(&self) -> u32
        ensures len { result ≡ length self.now.bytes }
        ensures most { result ≤ 16777216 }
    {
        self.bytes.len() as u32
    }

    // Returns how many bytes may still come.
    fn room(&self) -> usize
        ensures { length self.now.bytes + result ≡ limit_of self.now }
    {
        self.size.unwrap_or(0) as usize - self.bytes.len()
    }

    /// Gives the part its size, which it has not yet, of at most 16,777,216 bytes, and takes the memory for all of it.
    pub fn open(&mut self, size: u32) -> Result<(), OutOfMemory>
        requires most { size ≤ 16777216 }
        requires new { is_some self.old.size ≡ false }
        ensures ok { OnOk result (self.new ≡ record self.old { size = Some size }) }
        ensures err { OnErr result (self.new ≡ self.old) }
    {
        self.bytes.try_reserve_exact(size as usize)?;
        self.size = Some(size);
        Ok(())
    }

    /// Appends bytes. False exactly where they pass the size, and then nothing changes.
    pub fn append(&mut self, more: &[u8]) -> Result<bool, OutOfMemory>
        ensures fits { IfOk result (λ done. done ≡ fits self.old (length more.now)) }
        ensures ok { OnOk result (self.new ≡ (if fits self.old (length more.now) then with_bytes self.old more.now else self.old)) }
        ensures err { OnErr result (self.new ≡ self.old) }
    {
        if more.len() > self.room() {
            return Ok(false);
        }
        self.bytes.extend_from_slice(more)?;
        Ok(true)
    }

    /// Appends this many zeros. False exactly where they pass the size, and then nothing changes.
    pub fn skip(&mut self, count: u64) -> Result<bool, OutOfMemory>
        ensures fits { IfOk result (λ done. done ≡ fits self.old count) }
        ensures ok { OnOk result (self.new ≡ (if fits self.old count then with_bytes self.old (zeros count) else self.old)) }
        ensures err { OnErr result (self.new ≡ self.old) }
    {
        if count > self.room() as u64 {
            return Ok(false);
        }
        let len = self.bytes.len() + count as usize;
        self.bytes.resize(len, 0)?;
        Ok(true)
    }

    /// Returns the bytes of the whole part: after the items and skips come zeros.
    pub fn into_image(self) -> Result<DataImage, OutOfMemory>
        ensures image { IfOk result (λ image. image ≡ image_of self) }
        ensures most { IfOk result (λ image. length image ≤ 16777216) }
    {
        let DataPart { size, mut bytes } = self;
        bytes.resize(size.unwrap_or(0) as usize, 0)?;
        Ok(DataImage::from_vec(bytes))
    }
}
