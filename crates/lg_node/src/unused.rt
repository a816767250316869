// Words for labels that no text mentions.

ghost use Rattle.std.specs.Prelude.{◌≡◌, ◌<◌, IsTrue};
ghost use Rattle.lg_node.specs.Nodes.{is_word};
ghost use Rattle.lg_base.specs.WordBytes.{is_word_byte};
ghost use Rattle.lg_node.specs.Unused.{numbered, digit_of};

// Returns the decimal digit of a number at a power of ten.
fn digit_of(number: u32, power: u32) -> u8
    requires { 0 < power }
    ensures value { result ≡ digit_of number power }
    ensures word { IsTrue (is_word_byte result) }
{
    b'0' + (number / power % 10) as u8
}

/// Returns the word of a number: `_` and ten decimal digits. It has the form of a word of a text.
pub fn numbered(number: u32) -> [u8; 11]
    ensures value { result ≡ numbered number }
    ensures word { IsTrue (is_word result) }
{
    [
        b'_',
        digit_of(number, 1_000_000_000),
        digit_of(number, 100_000_000),
        digit_of(number, 10_000_000),
        digit_of(number, 1_000_000),
        digit_of(number, 100_000),
        digit_of(number, 10_000),
        digit_of(number, 1_000),
        digit_of(number, 100),
        digit_of(number, 10),
        digit_of(number, 1),
    ]
}
