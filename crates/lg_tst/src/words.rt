// What the words of a text name: directives, operations, and floating point.

ghost use Rattle.std.specs.Prelude.{◌≡◌};
ghost use Rattle.lg_tst.specs.Streams.{without_last};
ghost use Rattle.lg_tst.specs.Words.{begins_float_part, is_float_word, directive_word, directive_of, op_of};

use lg_lex::bytes::behind;
use lg_op::Op;

/// The directives of a text, and those of floating point.
#[derive(Clone, Copy)]
pub enum Directive {
    /// `.data`, the data section and its size.
    Data,
    /// `.code`, the code section.
    Code,
    /// `.c`, bytes and strings.
    Char,
    /// `.s`, numbers of 2 bytes.
    Short,
    /// `.i`, numbers of 4 bytes.
    Int,
    /// `.l`, numbers of 8 bytes.
    Long,
    /// `.size`, bytes to skip.
    Size,
    /// `.align`, a skip to a multiple.
    Align,
    /// `.f`, floating-point numbers of 4 bytes.
    Float,
    /// `.d`, floating-point numbers of 8 bytes.
    Double,
}

static DIRECTIVES: [Directive; 10] = [
    Directive::Data,
    Directive::Code,
    Directive::Char,
    Directive::Short,
    Directive::Int,
    Directive::Long,
    Directive::Size,
    Directive::Align,
    Directive::Float,
    Directive::Double,
];

// Returns whether `_` comes, and then f or d is all that comes before the end or the next `_`.
fn begins_float_part(word: &[u8]) -> bool
    ensures { result ≡ begins_float_part word.now }
{
    match word {
        [b'_', b'f' | b'd'] | [b'_', b'f' | b'd', b'_', ..] => true,
        _ => false,
    }
}

/// Returns whether a word has f or d as a part after some `_`, as the names of floating-point instructions have.
pub fn is_float_word(word: &[u8]) -> bool
    ensures { result ≡ is_float_word word.now }
{
    for i in 0..word.len() {
        if begins_float_part(behind(word, i)) {
            return true;
        }
    }
    false
}

impl Directive {
    // Returns the text of the directive.
    fn word(self) -> &'static [u8]
        ensures { result.now ≡ directive_word self }
    {
        match self {
            Directive::Data => b".data",
            Directive::Code => b".code",
            Directive::Char => b".c",
            Directive::Short => b".s",
            Directive::Int => b".i",
            Directive::Long => b".l",
            Directive::Size => b".size",
            Directive::Align => b".align",
            Directive::Float => b".f",
            Directive::Double => b".d",
        }
    }

    /// Returns the directive of a text, or `None` if it is none of these.
    pub fn by_word(word: &[u8]) -> Option<Directive>
        ensures { result ≡ directive_of word.now }
    {
        DIRECTIVES
            .iter()
            .copied()
            .find(|directive| word == directive.word())
    }
}

/// Returns the operation that a word names.
pub fn op_of(word: &[u8]) -> Option<Op>
    ensures { result ≡ op_of word.now }
{
    Op::by_name(word)
}

/// Returns a text without its last byte.
pub fn without_last(text: &[u8]) -> &[u8]
    ensures { result.now ≡ without_last text.now }
{
    match text {
        [rest @ .., _] => rest,
        [] => text,
    }
}
