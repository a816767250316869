// A function of a text.

/// A function of a text, as a range of its nodes.
#[derive(Clone, Copy, Debug, PartialEq, Eq)]
pub struct Function {
    /// Its first node, which is a `prolog`.
    pub entry: u32,
    /// Its last node, which is an `epilog`.
    pub last: u32,
    /// The bytes of its locals, a multiple of 8.
    pub locals: u32,
}
