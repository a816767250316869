// Bytes by their addresses, whatever holds them.

ghost use Rattle.std.specs.Prelude.{◌≡◌, ℕ, ◌≤◌, Bool, Option, IfSome, if◌then◌else◌};
ghost use Rattle.lg_base.specs.Spaces.{HasBytes, put_some, raised};

/// Bytes that can be read and written by their addresses.
pub trait Space {
    /// The byte at an address, where one can be read.
    ghost byte_of: { Self → ℕ → Option ℕ };

    /// Whether an address can be written.
    ghost room: { Self → ℕ → Bool };

    /// Returns the byte at an address, or `None` exactly when none can be read.
    fn get(&self, address: u64) -> Option<u8>
        ensures { result ≡ byte_of self.now address };

    /// Returns the bytes of `len` addresses from one on as a slice, where the space holds them so. It may return None for every range.
    fn slice(&self, address: u64, len: u64) -> Option<&[u8]>
        ensures { IfSome result (λ bytes. HasBytes (byte_of self.now) address len bytes.now) };

    /// Returns whether an address can be written.
    fn can_put(&self, address: u64) -> bool
        ensures { result ≡ room self.now address };

    /// Writes a byte. False exactly where the address can't be written, and then nothing changes.
    fn put(&mut self, address: u64, byte: u8) -> bool
        ensures done { result ≡ room self.old address }
        ensures bytes { Self.byte_of self.new ≡ (if result then put_some (Self.byte_of self.old) address byte else Self.byte_of self.old) }
        ensures rooms { room self.new ≡ room self.old };

    /// Makes each heap address below the mark one that can be written. The mark is from 0x30000000 to
    /// 0x30400000. No byte changes.
    fn raise(&mut self, mark: u64)
        requires low { 0x30000000 ≤ mark }
        requires high { mark ≤ 0x30400000 }
        ensures bytes { byte_of self.new ≡ byte_of self.old }
        ensures rooms { Self.room self.new ≡ raised (Self.room self.old) mark };
}
