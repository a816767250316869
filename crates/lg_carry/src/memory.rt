// When code of any target carries a node that reads or writes memory, or passes or reads an argument; and the operands of such nodes.

pub mod operands;
