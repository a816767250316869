// The bytes that the words of a text are made of.

ghost use Rattle.std.specs.Prelude.{◌≡◌};
ghost use Rattle.lg_base.specs.WordBytes.{is_word_start, is_word_byte};

/// Returns whether a word may begin with a byte: a letter of ASCII or `_`.
pub fn is_word_start(b: u8) -> bool
    ensures { result ≡ is_word_start b }
{
    b.is_ascii_alphabetic() || b == b'_'
}

/// Returns whether a word may go on with a byte: a letter or digit of ASCII or `_`.
pub fn is_word_byte(b: u8) -> bool
    ensures { result ≡ is_word_byte b }
{
    b.is_ascii_alphanumeric() || b == b'_'
}
