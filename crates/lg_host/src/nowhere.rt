// A sink that takes all bytes and keeps none.

ghost use Rattle.std.specs.Prelude.{ℕ, None};

use lg_io::{Sink, SinkFault};

/// Nothing is written, and no write fails.
#[derive(Clone, Copy)]
pub struct Nowhere;

impl Sink for Nowhere {
    ghost taken = { λ s. None };

    ghost faults = { λ s. 0 };

    fn write(&mut self, bytes: &[u8]) -> Result<usize, SinkFault> {
        Ok(bytes.len())
    }
}
