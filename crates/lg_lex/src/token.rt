// Tokens and their kinds.

/// The kinds of tokens, by the form of their text.
#[derive(Clone, Copy, Debug, PartialEq, Eq)]
pub enum TokenKind {
    /// A letter or `_`, then letters, digits and `_`.
    Word,
    /// `.` and a word.
    Directive,
    /// A word with `:` directly after it, which defines a label.
    LabelMark,
    /// `%` and a word.
    Register,
    /// An optional sign, decimal, hexadecimal or octal digits, and up to three letters of `u U l L`.
    Number,
    /// A byte or an escape between `'` and `'`.
    Character,
    /// `$(`, a constant expression and `)`.
    Expression,
    /// `$` and a word.
    Name,
    /// `@` and a word.
    Host,
    /// Bytes and escapes between `"` and `"`.
    Str,
}

/// A token of a text.
#[derive(Clone, Copy, PartialEq, Eq)]
pub struct Token {
    /// The form of the token.
    pub kind: TokenKind,
    /// The line of its first byte: 1, and 1 more for each line feed before it.
    pub line: u32,
    /// The place of its first byte in the text.
    pub start: u32,
    /// The place after its last byte.
    pub end: u32,
    /// The value of a number, character or expression as a word of 64 bits, negative ones in two's complement; 0 for the others.
    pub value: u64,
}
