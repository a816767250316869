// What holds of the code of the nodes that compute values. The functions do nothing: their contracts are the laws.

ghost use Rattle.lg_selx_values.specs.ValueFits.{ValueItemsFit, ValueItemsName, ValueItemsStay};
ghost use Rattle.lg_selx_values.specs.ValueLaws.{ValueNodesCarry};
ghost use Rattle.lg_selx_values.specs.WordLaws.{BinariesAreMade};

/// The code of an operation on two registers that sets no carry gives a register its word, whichever of the registers are equal.
pub fn binaries_are_made()
    ensures { BinariesAreMade }
{}

/// Each node that computes a value, or two, is carried by its items, for all choices for its needs, whatever is live after it and whatever is staged.
pub fn value_nodes_are_carried()
    ensures { ValueNodesCarry }
{}

/// The items of a node with choices for its needs are in the ranges of their instructions (at most 12), with at most 128 bytes, and each is followed by the
/// next.
pub fn value_items_fit()
    ensures { ValueItemsFit }
{}

/// They name no labels but those of the operands.
pub fn value_items_name_labels()
    ensures { ValueItemsName }
{}

/// They write no register that is outside of the conventions.
pub fn value_items_stay()
    ensures { ValueItemsStay }
{}
