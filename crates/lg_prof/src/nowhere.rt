// A sink that keeps nothing.

ghost use Rattle.std.specs.Prelude.{◌≡◌, ◌<◌, ◌≤◌, None, length, IfOk};
ghost use Rattle.std.specs.Io.KnownBytes.{WriteAppends};
ghost use Rattle.lg_io.specs.Counts.{HasCause};

use lg_io::{Sink, SinkFault};

/// Takes every byte, never fails and keeps nothing.
#[derive(Clone, Copy, PartialEq, Eq)]
pub struct Nowhere;

impl Sink for Nowhere {
    ghost taken = { λ sink. None };

    ghost faults = { λ sink. 0 };

    fn write(&mut self, bytes: &[u8]) -> Result<usize, SinkFault> {
        Ok(bytes.len())
    }
}
