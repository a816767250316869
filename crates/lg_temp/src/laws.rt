// What holds of choices, for the code that takes them. The functions do nothing: their contracts are the laws.

ghost use Rattle.lg_temp.specs.Choices.{ChoicesAreFirst, ChoicesAreForNeeds};

/// Each need has its choice: a free register is neither read nor written by the node, and nothing after it needs it; a saved one is not written, and has the
/// next slot.
pub fn choices_are_for_needs()
    ensures { ChoicesAreForNeeds }
{}

/// Each need that names no register takes the first register of the order that the node neither reads nor writes, that no need names, that is not chosen
/// already, and that nothing after the node needs; only where there is none, the first that the last alone keeps from it is saved.
pub fn choices_are_first()
    ensures { ChoicesAreFirst }
{}
