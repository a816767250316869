// What holds of the code of the nodes that compute values. The functions do nothing: their contracts are the laws.

ghost use Rattle.lg_selr_values.specs.ValueFits.{ValueItemsStay, ValueItemsFit, ValueItemsName};
ghost use Rattle.lg_selr_values.specs.ValueLaws.{ValueNodesCarry};

/// Each node that computes a value, or two, is carried by its items, for all choices for its needs, whatever is live after it and whatever is staged.
pub fn value_nodes_are_carried()
    ensures { ValueNodesCarry }
{}

/// The items of a node with choices for its needs are in the ranges of their instructions (at most 32), and each is followed by the next.
pub fn value_items_fit()
    ensures { ValueItemsFit }
{}

/// They name no labels but those of the operands.
pub fn value_items_name_labels()
    ensures { ValueItemsName }
{}

/// They write no register that is outside of the conventions.
pub fn value_items_stay()
    ensures { ValueItemsStay }
{}
