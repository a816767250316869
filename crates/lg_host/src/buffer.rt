// Bytes that wait to be written.

ghost use Rattle.std.specs.Prelude.{◌≡◌, ◌<◌, ◌≤◌, ◌==◌, ℕ, [], ◌∷◌, ◌++◌, length, OnOk};
ghost use Rattle.lg_io.specs.Wrote.{Wrote};
ghost use Rattle.lg_host.specs.Output.{Passed, output};

use lg_io::{Sink, SinkFault, write_all};
use std::marker::Model;

/// A few bytes on their way to a sink, so that it is not written to byte by byte.
#[derive(Drop)]
pub struct Buffer {
    bytes: [u8; 64],
    len: usize,
}

impl Model for Buffer {
    ghost use Rattle.std.specs.Prelude.{ℕ, List, take, ◌≤◌};

    ghost Value = { List ℕ };

    ghost view = { λ buffer. take buffer.len buffer.bytes };

    ghost invariant = { λ buffer. buffer.len ≤ 64 };
}

impl Buffer {
    /// No byte waits.
    pub fn new() -> Buffer
        ensures { result ≡ [] }
    {
        Buffer {
            bytes: [0; 64],
            len: 0,
        }
    }

    // Returns whether no further byte can wait.
    fn is_full(&self) -> bool
        ensures value { result ≡ (length self.now == 64) }
        ensures within { length self.now ≤ 64 }
    {
        self.len == 64
    }

    // Lets one byte more wait.
    fn store(&mut self, byte: u8)
        requires { length self.old < 64 }
        ensures { self.new ≡ self.old ++ byte ∷ [] }
    {
        self.bytes[self.len] = byte;
        self.len += 1;
    }

    /// Writes the bytes that wait.
    pub fn flush<O: Sink>(&mut self, out: &mut O) -> Result<(), SinkFault>
        ensures empty { self.new ≡ [] }
        ensures wrote { Wrote (O.taken out.old) (O.taken out.new) (O.faults out.old) (O.faults out.new) result self.old }
    {
        let len = self.len;
        self.len = 0;
        write_all(out, &self.bytes[..len])
    }

    // Writes the bytes that wait, and lets another one wait.
    fn flush_and_store<O: Sink>(&mut self, byte: u8, out: &mut O) -> Result<(), SinkFault>
        ensures { Passed (output (O.taken out.old) self.old (O.faults out.old))
            (output (O.taken out.new) self.new (O.faults out.new)) result (byte ∷ []) }
    {
        match self.flush(out) {
            Ok(()) => {
                self.store(byte);
                Ok(())
            }
            Err(fault) => Err(fault),
        }
    }

    /// Passes on one byte.
    pub fn push<O: Sink>(&mut self, byte: u8, out: &mut O) -> Result<(), SinkFault>
        ensures { Passed (output (O.taken out.old) self.old (O.faults out.old))
            (output (O.taken out.new) self.new (O.faults out.new)) result (byte ∷ []) }
    {
        if self.is_full() {
            return self.flush_and_store(byte, out);
        }
        self.store(byte);
        Ok(())
    }

    // Passes on bytes one by one.
    fn push_each<O: Sink>(&mut self, bytes: &[u8], out: &mut O) -> Result<(), SinkFault>
        ensures { Passed (output (O.taken out.old) self.old (O.faults out.old))
            (output (O.taken out.new) self.new (O.faults out.new)) result bytes.now }
    {
        for byte in bytes {
            match self.push(*byte, out) {
                Ok(()) => {}
                Err(fault) => return Err(fault),
            }
        }
        Ok(())
    }

    // Writes the bytes that wait, and then others at once.
    fn write_through<O: Sink>(&mut self, bytes: &[u8], out: &mut O) -> Result<(), SinkFault>
        ensures { Passed (output (O.taken out.old) self.old (O.faults out.old))
            (output (O.taken out.new) self.new (O.faults out.new)) result bytes.now }
    {
        match self.flush(out) {
            Ok(()) => write_all(out, bytes),
            Err(fault) => Err(fault),
        }
    }

    /// Passes on bytes: more than 64 by one write of them all.
    pub fn put<O: Sink>(&mut self, bytes: &[u8], out: &mut O) -> Result<(), SinkFault>
        ensures { Passed (output (O.taken out.old) self.old (O.faults out.old))
            (output (O.taken out.new) self.new (O.faults out.new)) result bytes.now }
    {
        if bytes.len() > 64 {
            return self.write_through(bytes, out);
        }
        self.push_each(bytes, out)
    }
}
