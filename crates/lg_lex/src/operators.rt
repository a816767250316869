// The operators of expressions: their symbols, their levels and what they compute.

ghost use Rattle.std.specs.Prelude.{◌≡◌, ◌+ℤ◌, ◌-ℤ◌, ◌*ℤ◌, neg_ℤ, int_rem, if◌then◌else◌, Some, None};
ghost use Rattle.std.specs.Int.{w64, int_wrap, int_wrapping_div};
ghost use Rattle.lg_lex.specs.Operators.{level_of, double_symbol, single_symbol, sign_symbol, truth, is_zero, shift_count, binary_value, unary_value};

/// An operator between two operands.
#[derive(Clone, Copy)]
pub(crate) enum Operator {
    Multiply,
    Divide,
    Remainder,
    Add,
    Subtract,
    ShiftLeft,
    ShiftRight,
    Less,
    LessEqual,
    Greater,
    GreaterEqual,
    Equal,
    NotEqual,
    BitAnd,
    BitXor,
    BitOr,
    And,
    Or,
}

/// An operator before one operand.
#[derive(Clone, Copy)]
pub(crate) enum Sign {
    Plus,
    Minus,
    Complement,
    Not,
}

impl Operator {
    /// How loosely the operator binds: 1 the tightest, 10 the loosest.
    pub(crate) fn level(self) -> u32
        ensures { result ≡ level_of self }
    {
        match self {
            Operator::Multiply | Operator::Divide | Operator::Remainder => 1,
            Operator::Add | Operator::Subtract => 2,
            Operator::ShiftLeft | Operator::ShiftRight => 3,
            Operator::Less | Operator::LessEqual | Operator::Greater | Operator::GreaterEqual => 4,
            Operator::Equal | Operator::NotEqual => 5,
            Operator::BitAnd => 6,
            Operator::BitXor => 7,
            Operator::BitOr => 8,
            Operator::And => 9,
            Operator::Or => 10,
        }
    }

    /// Returns the operator of two bytes, or `None` if they are none.
    pub(crate) fn double(first: u8, second: u8) -> Option<Operator>
        ensures { result ≡ double_symbol first second }
    {
        match (first, second) {
            (b'|', b'|') => Some(Operator::Or),
            (b'&', b'&') => Some(Operator::And),
            (b'=', b'=') => Some(Operator::Equal),
            (b'!', b'=') => Some(Operator::NotEqual),
            (b'<', b'<') => Some(Operator::ShiftLeft),
            (b'>', b'>') => Some(Operator::ShiftRight),
            (b'<', b'=') => Some(Operator::LessEqual),
            (b'>', b'=') => Some(Operator::GreaterEqual),
            _ => None,
        }
    }

    /// Returns the operator of one byte, or `None` if it is none.
    pub(crate) fn single(byte: u8) -> Option<Operator>
        ensures { result ≡ single_symbol byte }
    {
        match byte {
            b'*' => Some(Operator::Multiply),
            b'/' => Some(Operator::Divide),
            b'%' => Some(Operator::Remainder),
            b'+' => Some(Operator::Add),
            b'-' => Some(Operator::Subtract),
            b'<' => Some(Operator::Less),
            b'>' => Some(Operator::Greater),
            b'&' => Some(Operator::BitAnd),
            b'^' => Some(Operator::BitXor),
            b'|' => Some(Operator::BitOr),
            _ => None,
        }
    }

    /// What the operator makes of two values, and None at a zero divisor or a shift count outside 0 to 63.
    pub(crate) fn value(self, a: i64, b: i64) -> Option<i64>
        ensures { result ≡ binary_value self a b }
    {
        match self {
            Operator::Multiply => Some(product(a, b)),
            Operator::Divide => quotient(a, b),
            Operator::Remainder => remainder(a, b),
            Operator::Add => Some(sum(a, b)),
            Operator::Subtract => Some(difference(a, b)),
            Operator::ShiftLeft => Some(a.wrapping_shl(shift_count(b)?)),
            Operator::ShiftRight => Some(a.wrapping_shr(shift_count(b)?)),
            Operator::Less => Some(truth(a < b)),
            Operator::LessEqual => Some(truth(a <= b)),
            Operator::Greater => Some(truth(a > b)),
            Operator::GreaterEqual => Some(truth(a >= b)),
            Operator::Equal => Some(truth(a == b)),
            Operator::NotEqual => Some(truth(a != b)),
            Operator::BitAnd => Some(a & b),
            Operator::BitXor => Some(a ^ b),
            Operator::BitOr => Some(a | b),
            Operator::And => Some(truth(!is_zero(a) && !is_zero(b))),
            Operator::Or => Some(truth(!is_zero(a) || !is_zero(b))),
        }
    }
}

impl Sign {
    /// Returns the sign of a byte, or `None` if it is none.
    pub(crate) fn by_symbol(byte: u8) -> Option<Sign>
        ensures { result ≡ sign_symbol byte }
    {
        match byte {
            b'+' => Some(Sign::Plus),
            b'-' => Some(Sign::Minus),
            b'~' => Some(Sign::Complement),
            b'!' => Some(Sign::Not),
            _ => None,
        }
    }

    /// What the sign makes of a value.
    pub(crate) fn value(self, a: i64) -> i64
        ensures { result ≡ unary_value self a }
    {
        match self {
            Sign::Plus => a,
            Sign::Minus => negative(a),
            Sign::Complement => !a,
            Sign::Not => truth(is_zero(a)),
        }
    }
}

/// Returns whether a value is 0, which is false in a condition.
pub(crate) fn is_zero(a: i64) -> bool
    ensures { result ≡ is_zero a }
{
    a.cast_unsigned() == 0
}

// 1 for true, 0 for false.
fn truth(b: bool) -> i64
    ensures { result ≡ truth b }
{
    i64::from(b)
}

// A number of bits to shift by, where it is 0 to 63.
fn shift_count(a: i64) -> Option<u32>
    ensures { result ≡ shift_count a }
{
    let n = a.cast_unsigned();
    if n < 64 { Some(n as u32) } else { None }
}

fn sum(a: i64, b: i64) -> i64
    ensures { result ≡ int_wrap w64 (a +ℤ b) }
{
    a.wrapping_add(b)
}

fn difference(a: i64, b: i64) -> i64
    ensures { result ≡ int_wrap w64 (a -ℤ b) }
{
    a.wrapping_sub(b)
}

fn product(a: i64, b: i64) -> i64
    ensures { result ≡ int_wrap w64 (a *ℤ b) }
{
    a.wrapping_mul(b)
}

fn negative(a: i64) -> i64
    ensures { result ≡ int_wrap w64 (neg_ℤ a) }
{
    a.wrapping_neg()
}

// Returns the quotient towards zero; the least number by -1 is itself.
fn quotient(a: i64, b: i64) -> Option<i64>
    ensures { result ≡ (if is_zero b then None else Some (int_wrapping_div w64 a b)) }
{
    if is_zero(b) {
        None
    } else {
        Some(a.wrapping_div(b))
    }
}

// Returns the remainder of the quotient towards zero; that of the least number by -1 is 0.
fn remainder(a: i64, b: i64) -> Option<i64>
    ensures { result ≡ (if is_zero b then None else Some (int_rem a b)) }
{
    if is_zero(b) {
        None
    } else {
        Some(a.wrapping_rem(b))
    }
}
