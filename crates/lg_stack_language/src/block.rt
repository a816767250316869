// Blocks that are open.

use lg_node::Label;

/// A block whose end is not read yet, with the labels that are bound or named there.
#[derive(Clone, Copy)]
pub(crate) enum Block {
    /// After `if`, or after its `else`: where the run continues after the block.
    If { behind: Label },
    /// After `else`.
    Else { behind: Label },
    /// After `while`: where the condition begins.
    While { again: Label },
    /// After `do`: where the condition begins, and where the run continues after the block.
    Do { again: Label, behind: Label },
}
