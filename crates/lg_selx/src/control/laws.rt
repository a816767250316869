// The code of the nodes that branch, jump, call and return carries them. The functions do nothing: their contracts are the laws.

ghost use Rattle.lg_selx.specs.Control.Alignments.{AlignmentsAlign};
ghost use Rattle.lg_selx.specs.Control.ControlFits.{ControlItemsStay, ControlItemsFit};
ghost use Rattle.lg_selx.specs.Control.ControlLaws.{ControlNodesCarry};
ghost use Rattle.lg_selx.specs.Control.Targets.{IsTarget};

/// Branches, jumps, calls, returns, `prolog` and `.align` of x86-64 do what the laws of every target ask of them.
pub fn is_target()
    ensures { IsTarget }
{}

/// Branches, jumps, calls, returns, `prolog`, `.align`, and nodes without code (`prepare`, `ellipsis`, `arg`, `allocai`, `va_end`) are carried by their
/// items, once the labels have their addresses.
pub fn control_nodes_are_carried()
    ensures { ControlNodesCarry }
{}

/// The items are in the ranges of their instructions, name only labels of the operands, and have at most one fix.
pub fn control_items_fit()
    ensures { ControlItemsFit }
{}

/// After the code of `.align` is a multiple of its alignment.
pub fn alignments_align()
    ensures { AlignmentsAlign }
{}

/// The items of these nodes write no register that is outside of the conventions.
pub fn control_items_stay()
    ensures { ControlItemsStay }
{}
