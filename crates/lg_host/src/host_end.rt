// How a host call ends.

/// How a host call ends.
#[derive(Clone, Copy, Debug, PartialEq, Eq)]
pub enum HostEnd {
    /// The function answers this word.
    Value(u64),
    /// The program ends with this status.
    Exit(u8),
    /// The call is undefined. Nothing was written or changed.
    Undefined,
    /// A write to the sink failed. Memory and heap mark are as before.
    WriteFault,
}
