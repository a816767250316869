// What holds of the tokens of every text. The functions do nothing: their contracts are the laws.

ghost use Rattle.lg_lex.specs.Gaps.{TokensStandApart};
ghost use Rattle.lg_lex.specs.Words.{WordsAreWhole};

/// Between the tokens of a text, before the first one and after the last one, up to the text's end or its first fault, are only white space, comments and
/// line markers.
pub fn tokens_stand_apart()
    ensures { TokensStandApart }
{}

/// A word, a label definition, a directive, a register, a name and a host function have their form, and take all the word bytes that are there.
pub fn words_are_whole()
    ensures { WordsAreWhole }
{}
