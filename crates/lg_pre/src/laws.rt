// What holds of every expansion. The functions do nothing: their contracts are the laws.

ghost use Rattle.lg_pre.specs.Lines.{GivenBytesStay, LineFeedsAreKept, PiecesAreTheText, TokensKeepTheirLines};
ghost use Rattle.lg_pre.specs.PlainTexts.{PlainTextsStay};

/// A text without directives and without names of macros is its own expansion, byte for byte.
pub fn plain_texts_stay()
    ensures { PlainTextsStay }
{}

/// The pieces of a text joined are the text, and each has the line on which it begins.
pub fn pieces_are_the_text()
    ensures { PiecesAreTheText }
{}

/// What an expansion has given stays, and more comes after it.
pub fn given_bytes_stay()
    ensures { GivenBytesStay }
{}

/// An expansion has as many line feeds as the text.
pub fn line_feeds_are_kept()
    ensures { LineFeedsAreKept }
{}

/// A token outside what is replaced keeps its line: at each piece outside of calls to which an expansion comes, as many line feeds
/// are given as are before it in the text. A piece that names no macro is given as it is, and what comes of a name is on its line.
pub fn tokens_keep_their_lines()
    ensures { TokensKeepTheirLines }
{}
