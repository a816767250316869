// The places of labels.

/// Where a label is bound.
#[derive(Clone, Copy, Debug, PartialEq, Eq)]
pub enum Place {
    /// At a node, by its number, or after the last node.
    Node(u32),
    /// At a byte of the data part, by its number, or after the last byte.
    Image(u32),
}
