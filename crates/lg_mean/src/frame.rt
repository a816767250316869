// Frames of the portable machine.

/// A frame of a function that runs.
#[derive(Clone, Copy)]
pub(crate) struct KeptFrame {
    // The stack pointer at the call.
    pub sp: u64,
    // The node of return.
    pub back: u32,
    // The arguments, this many of which were passed.
    pub args: [u64; 16],
    pub count: u32,
    // The registers of the caller.
    pub saved: [Option<u64>; 7],
    // The bytes of the frame and of its locals; 0 before the `prolog`.
    pub size: u32,
    pub locals: u32,
}
