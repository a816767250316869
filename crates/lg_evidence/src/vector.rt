// The lines of the evidence: columns with tabs between them, bytes as hexadecimal digits.

ghost use Rattle.std.specs.Prelude.{◌≡◌, ◌<◌, IfSome};
ghost use Rattle.lg_evidence.specs.Hex.{hex_digit, hex_text};

use lg_base::Piece;

/// A line of a file on encodings: TEXT, HEX, HOW, OPS.
#[derive(Drop)]
pub struct Spelled<'a> {
    /// HEX, the bytes of the instruction.
    pub hex: &'a str,
    /// OPS, the row's name and the operands as numbers.
    pub operation: &'a str,
}

/// Returns the columns of a line on an encoding.
pub fn parse_spelled(line: &str) -> Option<Spelled<'_>> {
    let (_text, rest) = line.split_once('\t')?;
    let (hex, rest) = rest.split_once('\t')?;
    let (_how, operation) = rest.split_once('\t')?;
    Some(Spelled { hex, operation })
}

/// Returns the bytes of HEX, which are no instruction: the first column of a line HEX, REASON, DISASM.
pub fn parse_refused(line: &str) -> Option<Piece> {
    let (hex, _rest) = line.split_once('\t')?;
    bytes_of(hex)
}

/// Returns the bytes of lower hexadecimal digits, two a byte; `-` is the empty list. `None` for another text,
/// and for more than 16 bytes.
pub fn bytes_of(hex: &str) -> Option<Piece>
    ensures { IfSome result (λ bytes. hex.now ≡ hex_text bytes) }
{
    if hex == "-" {
        return Some(Piece::new());
    }
    let digits = hex.as_bytes();
    let count = digits.len() / 2;
    if count == 0 || count > 16 || count * 2 != digits.len() {
        return None;
    }
    let mut bytes = Piece::new();
    for k in 0..count {
        bytes.push(digit(digits[2 * k])? * 16 + digit(digits[2 * k + 1])?);
    }
    Some(bytes)
}

/// Returns the value of a hexadecimal digit.
pub fn digit(code: u8) -> Option<u8>
    ensures { IfSome result (λ value. (value < 16) × (hex_digit value ≡ code)) }
{
    match code {
        b'0'..=b'9' => Some(code - b'0'),
        b'a'..=b'f' => Some(code - b'a' + 10),
        _ => None,
    }
}
