// What a type makes of a word, as an operation on one word.

ghost use Rattle.std.specs.Prelude.{◌≡◌};
ghost use Rattle.lg_carry.specs.Values.ValueNodes.{extension};

use lg_op::{UnaryOp, ValueType};

/// Returns the operation that extends the low bytes of a word as a type does; of a whole word it is the move.
pub fn extension(value: ValueType) -> UnaryOp
    ensures { result ≡ extension value }
{
    match value {
        ValueType::Char => UnaryOp::ExtrC,
        ValueType::UnsignedChar => UnaryOp::ExtrUc,
        ValueType::Short => UnaryOp::ExtrS,
        ValueType::UnsignedShort => UnaryOp::ExtrUs,
        ValueType::Int => UnaryOp::ExtrI,
        ValueType::UnsignedInt => UnaryOp::ExtrUi,
        ValueType::Long => UnaryOp::Mov,
    }
}
