// Sinks, and writing all of some bytes.

ghost use Rattle.std.specs.Prelude.{ℕ, ◌<◌, ◌≤◌, List, Option, length, IfOk};
ghost use Rattle.std.specs.Io.KnownBytes.{WriteAppends};
ghost use Rattle.lg_io.specs.Counts.{HasCause};
ghost use Rattle.lg_io.specs.Wrote.{Wrote, joined};

use thiserror::Error;

/// Why a sink did not take bytes.
#[derive(Clone, Copy, Debug, PartialEq, Eq, Error)]
pub enum SinkFault {
    /// The write failed, and the sink's count of faults rose.
    #[error("a write failed")]
    Failed,
}

/// Takes bytes one piece after another.
pub trait Sink {
    /// The bytes taken so far, where the sink shows them.
    ghost taken: { Self → Option (List ℕ) };

    /// How often a write failed.
    ghost faults: { Self → ℕ };

    /// Takes bytes from the front of a piece, and says how many: at least one, where the piece is not empty. After a fault
    /// none were taken.
    fn write(&mut self, bytes: &[u8]) -> Result<usize, SinkFault>
        ensures bound { IfOk result (λ n. n ≤ length bytes.now) }
        ensures some { IfOk result (λ n. 0 < length bytes.now → 0 < n) }
        ensures bytes { WriteAppends (taken self.old) (taken self.new) result bytes.now }
        ensures cause { HasCause (faults self.old) (faults self.new) result };
}

/// Writes all of the bytes. After a fault some of them were written, from the first one on, and not all: no bytes are written without a fault.
pub fn write_all<O: Sink>(out: &mut O, bytes: &[u8]) -> Result<(), SinkFault>
    ensures { Wrote (O.taken out.old) (O.taken out.new) (O.faults out.old) (O.faults out.new) result bytes.now }
{
    let mut done = 0;
    while done < bytes.len() {
        done += out.write(&bytes[done..])?;
    }
    Ok(())
}

/// Writes pieces one after another. After a fault some of their bytes were written, from the first one on, and not all.
pub fn write_parts<O: Sink>(out: &mut O, parts: &[&[u8]]) -> Result<(), SinkFault>
    ensures { Wrote (O.taken out.old) (O.taken out.new) (O.faults out.old) (O.faults out.new) result (joined parts.now) }
{
    for part in parts {
        match write_all(out, part) {
            Ok(()) => {}
            Err(fault) => return Err(fault),
        }
    }
    Ok(())
}
