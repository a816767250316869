// Constant expressions: C's operators with C's precedence, on signed values of 64 bits that wrap.

ghost use Rattle.std.specs.Prelude.{◌≡◌, ◌+◌, ◌<◌, ◌≤◌, ◌^◌, max, length, Some, IfSome};
ghost use Rattle.lg_lex.specs.Expressions.{after_byte, symbol_at, operator_at, sign_at, literal_at, constant_at, signed, closed, combined, chosen, inner_unary, inner_whole, unary_at, binary_of, chosen_by, whole_at, expression_at};

use crate::blanks::after_blanks;
use crate::bytes::{behind, byte_at};
use crate::escapes::character;
use crate::numbers::{Literal, unsigned};
use crate::operators::{Operator, Sign, is_zero};

// The levels that an expression may have: parentheses, signs and conditionals around one another.
const MOST_LEVELS: u32 = 64;

/// What was read of an expression: its value, its levels, and the place where it ends, after the blanks that follow it.
#[derive(Clone, Copy)]
pub(crate) struct Reading {
    pub(crate) value: i64,
    pub(crate) levels: u32,
    pub(crate) end: usize,
}

// Returns the place after one byte and the blanks that follow it.
#[tactic(auto, unfolding(crate::specs::Expressions::after_byte))]
fn after_byte(bytes: &[u8], b: u8, place: usize) -> Option<usize>
    requires mark { 0 < b }
    ensures value { result ≡ after_byte bytes.now b place }
    ensures inside { IfSome result (λ next. (place < next) × (next ≤ length bytes.now)) }
{
    if byte_at(bytes, place) == b {
        Some(after_blanks(bytes, place + 1))
    } else {
        None
    }
}

// Returns the longest operator at a place, with its length.
#[tactic(auto, unfolding(crate::specs::Expressions::symbol_at))]
fn symbol(bytes: &[u8], place: usize) -> Option<(Operator, usize)>
    requires { place ≤ length bytes.now }
    ensures value { result ≡ symbol_at bytes.now place }
    ensures inside { IfSome result (λ found. (0 < found.1) × (place + found.1 ≤ length bytes.now)) }
{
    match Operator::double(byte_at(bytes, place), byte_at(bytes, place + 1)) {
        Some(operator) => Some((operator, 2)),
        None => {
            let operator = Operator::single(byte_at(bytes, place))?;
            Some((operator, 1))
        }
    }
}

// Returns the operator at a place, where it is one of a level, with the place after it.
#[tactic(auto, unfolding(crate::specs::Expressions::operator_at))]
fn operator(bytes: &[u8], level: u32, place: usize) -> Option<(Operator, usize)>
    requires { place ≤ length bytes.now }
    ensures value { result ≡ operator_at bytes.now level place }
    ensures inside { IfSome result (λ found. (place < found.1) × (found.1 ≤ length bytes.now)) }
{
    let (operator, len) = symbol(bytes, place)?;
    if operator.level() == level {
        Some((operator, after_blanks(bytes, place + len)))
    } else {
        None
    }
}

// Returns the sign at a place, with the place after it.
#[tactic(auto, unfolding(crate::specs::Expressions::sign_at))]
fn sign(bytes: &[u8], place: usize) -> Option<(Sign, usize)>
    requires { place ≤ length bytes.now }
    ensures value { result ≡ sign_at bytes.now place }
    ensures inside { IfSome result (λ found. (place < found.1) × (found.1 ≤ length bytes.now)) }
{
    let sign = Sign::by_symbol(byte_at(bytes, place))?;
    Some((sign, after_blanks(bytes, place + 1)))
}

// A number without a sign, or a character.
#[tactic(auto, unfolding(crate::specs::Expressions::literal_at))]
fn literal(bytes: &[u8]) -> Option<Literal>
    ensures value { result ≡ literal_at bytes.now }
    ensures inside { IfSome result (λ found. (0 < found.len) × (found.len ≤ length bytes.now)) }
{
    if byte_at(bytes, 0) == b'\'' {
        character(bytes)
    } else {
        unsigned(bytes)
    }
}

// Returns the constant at a place.
#[tactic(auto, unfolding(crate::specs::Expressions::constant_at))]
fn constant(bytes: &[u8], place: usize) -> Option<Reading>
    requires { place ≤ length bytes.now }
    ensures value { result ≡ constant_at bytes.now place }
    ensures inside { IfSome result (λ read. (place < read.end) × (read.end ≤ length bytes.now)) }
    ensures low { IfSome result (λ read. read.levels ≡ 0) }
{
    let found = literal(behind(bytes, place))?;
    Some(Reading {
        value: found.value.cast_signed(),
        levels: 0,
        end: after_blanks(bytes, place + found.len),
    })
}

// A sign before an operand.
fn signed(sign: Sign, operand: Reading) -> Reading
    requires { operand.levels < 2 ^ 31 }
    ensures { result ≡ signed sign operand }
{
    Reading {
        value: sign.value(operand.value),
        levels: 1 + operand.levels,
        end: operand.end,
    }
}

// An expression in parentheses, from its `)` on.
#[tactic(auto, unfolding(crate::specs::Expressions::closed))]
fn closed(bytes: &[u8], inner: Reading) -> Option<Reading>
    requires { inner.levels < 2 ^ 31 }
    ensures value { result ≡ closed bytes.now inner }
    ensures later { IfSome result (λ read. (inner.end < read.end) × (read.end ≤ length bytes.now)) }
    ensures low { IfSome result (λ read. read.levels ≡ 1 + inner.levels) }
{
    let end = after_byte(bytes, b')', inner.end)?;
    Some(Reading {
        value: inner.value,
        levels: 1 + inner.levels,
        end,
    })
}

// Two operands and the operator between them.
#[tactic(auto, unfolding(crate::specs::Expressions::combined))]
fn combined(operator: Operator, left: Reading, right: Reading) -> Option<Reading>
    ensures value { result ≡ combined operator left right }
    ensures end { IfSome result (λ read. read.end ≡ right.end) }
    ensures low { IfSome result (λ read. read.levels ≡ max left.levels right.levels) }
{
    let value = operator.value(left.value, right.value)?;
    Some(Reading {
        value,
        levels: left.levels.max(right.levels),
        end: right.end,
    })
}

// A conditional of three operands, where it has at most this many levels.
#[tactic(auto, unfolding(crate::specs::Expressions::chosen))]
fn chosen(most: u32, test: Reading, first: Reading, second: Reading) -> Option<Reading>
    requires tests { test.levels < 2 ^ 31 }
    requires firsts { first.levels < 2 ^ 31 }
    requires seconds { second.levels < 2 ^ 31 }
    ensures value { result ≡ chosen most test first second }
    ensures end { IfSome result (λ read. read.end ≡ second.end) }
    ensures low { IfSome result (λ read. read.levels ≤ most) }
{
    let levels = 1 + test.levels.max(first.levels.max(second.levels));
    if levels > most {
        return None;
    }
    let value = if is_zero(test.value) {
        second.value
    } else {
        first.value
    };
    Some(Reading {
        value,
        levels,
        end: second.end,
    })
}

// A sign and its operand, an expression in parentheses, a number or a character, of at most this many levels.
//
// These six functions call one another at most 16 deep for each level, so at most 16 * 64 + 15 deep in all, whatever the text is:
// operators of one level are a loop, and what is in parentheses, after a sign or in a conditional has a level less.
#[tactic(auto, unfolding(crate::specs::Expressions::unary_at, crate::specs::Expressions::unary_of, crate::specs::Expressions::unary_by))]
#[cycle(expression)]
fn unary(bytes: &[u8], place: usize, levels: u32) -> Option<Reading>
    requires inside { place ≤ length bytes.now }
    requires few { levels < 2 ^ 27 }
    ensures value { result ≡ unary_at bytes.now levels place }
    ensures later { IfSome result (λ read. (place < read.end) × (read.end ≤ length bytes.now)) }
    ensures low { IfSome result (λ read. read.levels ≤ levels) }
{
    match sign(bytes, place) {
        Some((sign, next)) => {
            let operand = inner_unary(bytes, next, levels)?;
            Some(signed(sign, operand))
        }
        None if byte_at(bytes, place) == b'(' => {
            let inner = inner_whole(bytes, after_blanks(bytes, place + 1), levels)?;
            closed(bytes, inner)
        }
        None => constant(bytes, place),
    }
}

// What may be after a sign where this many levels are left.
#[tactic(auto, unfolding(crate::specs::Expressions::inner_unary, crate::specs::Expressions::readers_in))]
#[cycle(expression)]
fn inner_unary(bytes: &[u8], place: usize, levels: u32) -> Option<Reading>
    requires inside { place ≤ length bytes.now }
    requires few { levels < 2 ^ 27 }
    ensures value { result ≡ inner_unary bytes.now levels place }
    ensures later { IfSome result (λ read. (place < read.end) × (read.end ≤ length bytes.now)) }
    ensures low { IfSome result (λ read. read.levels < levels) }
{
    if levels == 0 {
        return None;
    }
    unary(bytes, place, levels - 1)
}

// What may be in parentheses or in a conditional where this many levels are left.
#[tactic(auto, unfolding(crate::specs::Expressions::inner_whole, crate::specs::Expressions::readers_in))]
#[cycle(expression)]
fn inner_whole(bytes: &[u8], place: usize, levels: u32) -> Option<Reading>
    requires inside { place ≤ length bytes.now }
    requires few { levels < 2 ^ 27 }
    ensures value { result ≡ inner_whole bytes.now levels place }
    ensures later { IfSome result (λ read. (place < read.end) × (read.end ≤ length bytes.now)) }
    ensures low { IfSome result (λ read. read.levels < levels) }
{
    if levels == 0 {
        return None;
    }
    whole(bytes, place, levels - 1)
}

// Operators up to a level and their operands.
#[cycle(expression)]
fn binary(bytes: &[u8], place: usize, levels: u32, level: u32) -> Option<Reading>
    requires inside { place ≤ length bytes.now }
    requires few { levels < 2 ^ 27 }
    requires operators { level ≤ 10 }
    ensures value { result ≡ binary_of bytes.now (unary_at bytes.now levels) level place }
    ensures later { IfSome result (λ read. (place < read.end) × (read.end ≤ length bytes.now)) }
    ensures low { IfSome result (λ read. read.levels ≤ levels) }
{
    if level == 0 {
        return unary(bytes, place, levels);
    }
    let mut left = binary(bytes, place, levels, level - 1)?;
    'operators: while let Some((operator, next)) = operator(bytes, level, left.end) {
        let right = binary(bytes, next, levels, level - 1)?;
        left = combined(operator, left, right)?;
    }
    Some(left)
}

// A conditional after its `?`.
#[tactic(auto, unfolding(crate::specs::Expressions::chosen_by))]
#[cycle(expression)]
fn conditional(bytes: &[u8], test: Reading, next: usize, levels: u32) -> Option<Reading>
    requires inside { next ≤ length bytes.now }
    requires few { levels < 2 ^ 27 }
    requires tests { test.levels ≤ levels }
    ensures value { result ≡ chosen_by bytes.now (inner_whole bytes.now levels) levels test (Some next) }
    ensures later { IfSome result (λ read. (next < read.end) × (read.end ≤ length bytes.now)) }
    ensures low { IfSome result (λ read. read.levels ≤ levels) }
{
    let first = inner_whole(bytes, next, levels)?;
    let after = after_byte(bytes, b':', first.end)?;
    let second = inner_whole(bytes, after, levels)?;
    chosen(levels, test, first, second)
}

// An expression of at most this many levels.
#[tactic(auto, unfolding(crate::specs::Expressions::whole_at, crate::specs::Expressions::whole_of))]
#[cycle(expression)]
fn whole(bytes: &[u8], place: usize, levels: u32) -> Option<Reading>
    requires inside { place ≤ length bytes.now }
    requires few { levels < 2 ^ 27 }
    ensures value { result ≡ whole_at bytes.now levels place }
    ensures later { IfSome result (λ read. (place < read.end) × (read.end ≤ length bytes.now)) }
    ensures low { IfSome result (λ read. read.levels ≤ levels) }
{
    let test = binary(bytes, place, levels, 10)?;
    match after_byte(bytes, b'?', test.end) {
        Some(next) => conditional(bytes, test, next, levels),
        None => Some(test),
    }
}

/// An expression, from the `$(` of its token on, and None where it is malformed or has no value.
#[tactic(auto, unfolding(crate::specs::Expressions::expression_at, crate::specs::Expressions::ended))]
pub(crate) fn expression(bytes: &[u8]) -> Option<Reading>
    requires { 2 ≤ length bytes.now }
    ensures value { result ≡ expression_at bytes.now }
    ensures inside { IfSome result (λ read. (2 < read.end) × (read.end < length bytes.now)) }
{
    let read = whole(bytes, after_blanks(bytes, 2), MOST_LEVELS)?;
    if byte_at(bytes, read.end) == b')' {
        Some(read)
    } else {
        None
    }
}
