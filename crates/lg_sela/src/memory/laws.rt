// The nodes of this crate are carried by their code. The functions do nothing: their contracts are the laws.

ghost use Rattle.lg_sela.specs.Memory.MemoryNodes.{MemoryIsCarried};
ghost use Rattle.lg_sela.specs.Memory.MemoryFits.{MemoryItemsFit, MemoryItemsName, MemoryItemsStay};

/// Loads, stores and nodes that read and pass arguments, the variable ones too, are carried, whatever is live after them.
pub fn memory_nodes_are_carried()
    ensures { MemoryIsCarried }
{}

/// The items are in the ranges of their instructions (at most 7), and each is followed by the next.
pub fn memory_items_fit()
    ensures { MemoryItemsFit }
{}

/// They name no label but that of the operand which is passed.
pub fn memory_items_name_labels()
    ensures { MemoryItemsName }
{}

/// They write no register that is outside of the conventions.
pub fn memory_items_stay()
    ensures { MemoryItemsStay }
{}
