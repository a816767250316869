// What holds of the items of a node. The functions do nothing: their contracts are the laws.

ghost use Rattle.lg_selx_values.specs.GoodItems.{GoodItemsAreAppendable};
ghost use Rattle.lg_selx_values.specs.Items.{X86Holes, WordsAppend};
ghost use Rattle.lg_selx_values.specs.OfNodes.{ItemsAreInCode, ItemsAreNodeCode};

/// The instructions of two lists of items in a row are those of the one and then those of the other.
pub fn words_append()
    ensures { WordsAppend }
{}

/// Where its fixes are patched, an item becomes its instructions with the addresses of the labels.
pub fn items_have_holes()
    ensures { X86Holes }
{}

/// The items of a node are its code.
pub fn items_are_node_code()
    ensures { ItemsAreNodeCode }
{}

/// Where the items of a node follow one another, they are a block of the node.
pub fn items_are_in_code()
    ensures { ItemsAreInCode }
{}

/// Good items are in range, write no register outside of the conventions, and are a block.
pub fn good_items_are_appendable()
    ensures { GoodItemsAreAppendable }
{}
