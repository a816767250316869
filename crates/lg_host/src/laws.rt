// What holds of every host function, for the crates that call them. The functions do nothing: their contracts are the laws.

ghost use Rattle.lg_host.specs.HostLaws.{IsKept, AnswersAllowed};
ghost use Rattle.lg_host.specs.NumberLaws.{ReadsItsDigits, ReadsWhatIsPrinted};
ghost use Rattle.lg_host.specs.Pieces.{PrintsItsPieces, IsSpelledByPieces};

/// A call that is defined answers, changes and writes the same over a memory that holds more, with further arguments, and
/// where it may be variadic.
pub fn larger_memory_changes_nothing()
    ensures { IsKept }
{}

/// An answer is a word, a call writes bytes only where bytes may be written or in the heap that it allocates, and the heap
/// mark never falls and stays in the heap.
pub fn answers_are_allowed()
    ensures { AnswersAllowed }
{}

/// A format of `printf` that is spelled by pieces prints what they give.
pub fn formats_print_their_pieces()
    ensures { PrintsItsPieces }
{}

/// A format of `printf` that prints anything is spelled by pieces.
pub fn formats_are_spelled_by_pieces()
    ensures { IsSpelledByPieces }
{}

/// `atoi` reads the value of the digits after white space and a sign.
pub fn atoi_reads_its_digits()
    ensures { ReadsItsDigits }
{}

/// `atoi` reads back what `printf` writes of an int that is not negative.
pub fn atoi_reads_what_is_printed()
    ensures { ReadsWhatIsPrinted }
{}
