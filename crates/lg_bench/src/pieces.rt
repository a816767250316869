// Bytes that are emitted into the buffer for code, piece by piece.

use lg_base::Stop;
use lg_buf::CodeBuf;
use std::alloc::Global;

/// Emits pieces of this many bytes into a buffer for `size` bytes until it is full, and returns how many they are.
pub fn fill(alloc: Global, size: u32, length: u32) -> Result<u64, Stop> {
    let Ok(piece) = Vec::from_elem(alloc, 0x90u8, length as usize) else {
        return Err(Stop::OutOfMemory);
    };
    let mut buf = CodeBuf::new(alloc, size, 0, 0)?;
    let mut pieces = 0u64;
    for _ in 0..size {
        if !buf.emit(&piece) {
            break;
        }
        pieces = pieces.wrapping_add(1);
    }
    Ok(pieces)
}
