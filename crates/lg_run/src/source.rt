// Reading a text whole.

ghost use Rattle.std.specs.Prelude.{◌≡◌, ◌≤◌, ◌<◌, false, true, length, IfOk, IfSome, Err};
ghost use Rattle.std.specs.Io.KnownBytes.{Consumes, IsAtEnd};
ghost use Rattle.lg_io.specs.NamedTexts.{IsHeld};
ghost use Rattle.lg_io.specs.Readings.{IsReadOn, IsReadOnce};
ghost use Rattle.lg_run.specs.Reads.{IsLongText, ReadTells, ReadsFew, ReadsFewOf, most_piece};
ghost use Rattle.lg_run.specs.Refused.{IsTextUnder, most_text};

use lg_base::OutOfMemory;
use lg_base::layout::MOST_TEXT;
use lg_io::Texts;
use std::alloc::Global;

// How many bytes are read at a time.
const PIECE: usize = 65_536;

/// Why there is no text.
#[derive(Clone, Copy, PartialEq, Eq)]
pub enum ReadStop {
    /// A call of the source failed.
    ReadFault,
    /// The text has more than 16,777,216 bytes.
    TooLong,
    /// Memory could not be had.
    OutOfMemory,
}

// Room for what is read at a time.
fn piece(alloc: Global) -> Result<Vec<u8>, OutOfMemory>
    ensures { IfOk result (λ v. length v.items ≡ 65536) }
{
    Ok(vec![in alloc; 0u8; PIECE]?)
}

// Reads what is left of the selected text, through a piece of memory.
fn read_rest<T: Texts>(alloc: Global, piece: &mut [u8], texts: &mut T) -> Result<Vec<u8>, ReadStop>
    requires some { 0 < length piece.old }
    requires few { length piece.old ≤ most_piece }
    ensures bytes { IfOk result (λ v. Consumes (T.left texts.old) (T.left texts.new) v.items × IsAtEnd (T.left texts.new)) }
    ensures small { IfOk result (λ v. length v.items ≤ most_text) }
    ensures long { result ≡ Err ReadStop.TooLong → IfSome (T.left texts.old) (λ left. most_text < length left) }
    ensures faults { ReadTells (T.faults texts.old) (T.faults texts.new) result }
    ensures sure { T.sure texts.old ≡ true → T.faults texts.new ≡ T.faults texts.old }
    ensures few { ReadsFew (T.left texts.old) (T.left texts.new) }
    ensures on { (T.reading texts.old).is_over ≡ false → IsReadOn (T.reading texts.old) (T.reading texts.new) }
{
    let mut text = Vec::new(alloc);
    while text.len() <= MOST_TEXT {
        let count = match texts.read(piece) {
            Ok(count) => count,
            Err(_) => return Err(ReadStop::ReadFault),
        };
        if count == 0 {
            return Ok(text);
        }
        if text.extend_from_slice(&piece[..count]).is_err() {
            return Err(ReadStop::OutOfMemory);
        }
    }
    Err(ReadStop::TooLong)
}

/// The whole text of a name. A read fault comes exactly where a call of the source failed, and never of a sure source that holds the name; no other call is
/// made after it. The text is selected once and read from its start, and not again where a read found its end or failed: at most 16,777,216 bytes and a piece of
/// 65,536 are taken.
pub fn read_text<T: Texts>(alloc: Global, name: &str, texts: &mut T) -> Result<Vec<u8>, ReadStop>
    ensures text { IfOk result (λ v. IsTextUnder (T.held texts.old) name.now v.items) }
    ensures small { IfOk result (λ v. length v.items ≤ most_text) }
    ensures long { result ≡ Err ReadStop.TooLong → IsLongText (T.held texts.old) name.now }
    ensures faults { ReadTells (T.faults texts.old) (T.faults texts.new) result }
    ensures sure { T.sure texts.old ≡ true → IsHeld (T.held texts.old) name.now → T.faults texts.new ≡ T.faults texts.old }
    ensures few { ReadsFewOf (T.held texts.old) name.now (T.left texts.old) (T.left texts.new) }
    ensures once { IsReadOnce (T.reading texts.old) (T.reading texts.new) }
{
    let mut piece = match piece(alloc) {
        Ok(piece) => piece,
        Err(_) => return Err(ReadStop::OutOfMemory),
    };
    match texts.select(name) {
        Ok(()) => read_rest(alloc, &mut piece, texts),
        Err(_) => Err(ReadStop::ReadFault),
    }
}
