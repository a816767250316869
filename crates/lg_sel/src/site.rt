// What the code of a node is made for: its function's frame, and its site.

ghost use Rattle.lg_sel.specs.Selected.{IsFrame};

use lg_temp::{Choices, Staged};

/// The frame of a node's function. That its size is a multiple of 16 from 272 to 65,808 is a fact of the type, so no function that takes a frame asks for it.
#[derive(Clone, Copy)]
pub struct Frame {
    /// Its size in bytes.
    pub size: u32,
    /// How many homes of register arguments a `prolog` stores: at least those that its function reads. With 16 it stores all.
    pub homes: u32,
    /// How many of V0, V1 and V2 a `prolog` saves and a return restores: one number for all frames but that of the entry's function.
    pub saved: u32,
    ghost is_frame: { IsFrame size },
}

/// What the code of a node is made for, beside the node.
#[derive(Drop)]
pub struct Site {
    /// The frame of its function.
    pub frame: Frame,
    /// The choices for its temporaries.
    pub choices: Choices,
    /// The arguments that are staged.
    pub staged: Staged,
}
