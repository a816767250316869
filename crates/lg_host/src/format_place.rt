// The place in a format up to which it was read.

use crate::format::Reading;

/// A place in a format: where the reading stands, how many arguments were used, and how many bytes were written, modulo 2^64.
#[derive(Clone, Copy)]
pub struct FormatPlace {
    /// Where the reading stands.
    pub reading: Reading,
    /// How many arguments were used.
    pub used: usize,
    /// How many bytes were written, modulo 2^64.
    pub count: u64,
}
