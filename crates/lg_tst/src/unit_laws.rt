// Laws of the reading of texts. The functions do nothing: their contracts are the laws.

ghost use Rattle.lg_tst.specs.Laws.{StatementsJoin, FirstFaultsAreFirst, ReadingsDecide};

/// A text that has a unit is read to its end, statement by statement: each begins at the first token that is left and takes a slice of them,
/// and the slices join to the tokens of the text.
pub fn statements_join()
    ensures { StatementsJoin }
{}

/// A text that is refused is refused for its first fault: that of the first statement that has one, or of the tokens where every statement
/// before is good.
pub fn first_faults_are_first()
    ensures { FirstFaultsAreFirst }
{}

/// Statements that are read to the end of a text decide its unit, and those that are read up to a fault its refusal: there is no other.
pub fn readings_decide()
    ensures { ReadingsDecide }
{}
