// Reading expressions: an operator waits until one comes that binds no closer.

ghost use Rattle.std.specs.Prelude.{◌≡◌, ◌∷◌, [], ◌++◌, IfErr, IfOk};
ghost use Rattle.lg_expression.specs.Grammar.{HasWideNumber, IsLarge, IsNone, Spells, closeness, comparison, operation_at};
ghost use Rattle.lg_expression.specs.declared.reading.ReadError.TheVariants as error;
ghost use Rattle.lg_expression.specs.Reading.{Fails, Gives, Goes, argument_from, after_first, closed_from, digit_from, ended, first, first_step, longer, opened_from, operator_from, read_on, released, shown, step_before, steps_read, taken, taken_behind, whole, whole_of};

use crate::expression::Expression;
use crate::step::Step;
use lg_op::BinaryOp;
use std::alloc::Global;
use thiserror::Error;

/// Why a text is no expression.
#[derive(Clone, Copy, Debug, PartialEq, Eq, Error)]
pub enum ReadError {
    /// The text is none by the grammar.
    #[error("no expression")]
    NoExpression,
    /// A number is above 2^64 - 1.
    #[error("a number is too wide")]
    NumberTooWide,
    /// More than 32 values would wait at once, or there are more than 4,096 steps.
    #[error("the expression is too large")]
    TooLarge,
    /// Memory could not be had.
    #[error("out of memory")]
    OutOfMemory,
}

// What stands next: an operand, more digits of a number or what may be after it, or what may be after an operand.
#[derive(Clone, Copy)]
enum Next {
    Operand,
    Digits(u64),
    Operator,
}

// What waits for operands.
#[derive(Clone, Copy)]
enum Waiting {
    Open,
    Negate,
    Operation(BinaryOp),
}

#[derive(Drop)]
struct Reader {
    steps: Vec<Step>,
    waiting: Vec<Waiting>,
    next: Next,
}

// How close an operation binds.
fn closeness(operation: BinaryOp) -> u8
    ensures { result ≡ closeness operation }
{
    match operation {
        BinaryOp::Mul | BinaryOp::Div => 3,
        BinaryOp::Add | BinaryOp::Sub => 2,
        _ => 1,
    }
}

// Returns the operation that a byte is the sign of.
fn operation_at(byte: u8) -> Option<BinaryOp>
    ensures { result ≡ operation_at byte }
{
    match byte {
        b'*' => Some(BinaryOp::Mul),
        b'/' => Some(BinaryOp::Div),
        b'+' => Some(BinaryOp::Add),
        b'-' => Some(BinaryOp::Sub),
        b'<' => Some(BinaryOp::Lt),
        b'>' => Some(BinaryOp::Gt),
        b'=' => Some(BinaryOp::Eq),
        _ => None,
    }
}

// A number with a digit more.
fn longer(number: u64, digit: u8) -> Result<u64, ReadError>
    ensures { Gives result (longer number digit) }
{
    let tens = number.checked_mul(10).ok_or(ReadError::NumberTooWide)?;
    tens.checked_add(u64::from(digit))
        .ok_or(ReadError::NumberTooWide)
}

impl Waiting {
    // Its step where it binds at least as close as this, and none at a parenthesis.
    fn step_before(self, least: u8) -> Option<Step>
        ensures { result ≡ step_before least self }
    {
        match self {
            Waiting::Open => None,
            Waiting::Negate => Some(Step::Negate),
            Waiting::Operation(operation) if closeness(operation) >= least => {
                Some(Step::Operation(operation))
            }
            Waiting::Operation(_) => None,
        }
    }
}

impl Reader {
    // One more step.
    fn give(&mut self, step: Step) -> Result<(), ReadError>
        ensures { Goes result (shown self.new) (Ok (record (shown self.old) { steps = (shown self.old).steps ++ step ∷ [] })) }
    {
        match self.steps.push(step) {
            Ok(()) => Ok(()),
            Err(_) => Err(ReadError::OutOfMemory),
        }
    }

    // One more that waits.
    fn wait(&mut self, latest: Waiting) -> Result<(), ReadError>
        ensures { Goes result (shown self.new) (Ok (record (shown self.old) { waiting = latest ∷ (shown self.old).waiting })) }
    {
        match self.waiting.push(latest) {
            Ok(()) => Ok(()),
            Err(_) => Err(ReadError::OutOfMemory),
        }
    }

    // The latest that waits, which waits no more.
    fn latest(&mut self) -> Option<Waiting>
        ensures latest { result ≡ first (shown self.old).waiting }
        ensures rest { shown self.new ≡ record (shown self.old) { waiting = after_first (shown self.old).waiting } }
    {
        self.waiting.pop()
    }

    // A number ends here, if one stood here.
    fn end_number(&mut self) -> Result<(), ReadError>
        ensures { Goes result (shown self.new) (Ok (ended (shown self.old))) }
    {
        if let Next::Digits(number) = self.next {
            self.give(Step::Number(number))?;
            self.next = Next::Operator;
        }
        Ok(())
    }

    fn digit(&mut self, digit: u8) -> Result<(), ReadError>
        ensures { Goes result (shown self.new) (digit_from self.old.next digit (shown self.old)) }
    {
        let number = match self.next {
            Next::Operand => 0,
            Next::Digits(number) => number,
            Next::Operator => return Err(ReadError::NoExpression),
        };
        self.next = Next::Digits(longer(number, digit)?);
        Ok(())
    }

    fn argument(&mut self) -> Result<(), ReadError>
        ensures { Goes result (shown self.new) (argument_from self.old.next (shown self.old)) }
    {
        if !matches!(self.next, Next::Operand) {
            return Err(ReadError::NoExpression);
        }
        self.give(Step::Argument)?;
        self.next = Next::Operator;
        Ok(())
    }

    fn open(&mut self) -> Result<(), ReadError>
        ensures { Goes result (shown self.new) (opened_from self.old.next (shown self.old)) }
    {
        if !matches!(self.next, Next::Operand) {
            return Err(ReadError::NoExpression);
        }
        self.wait(Waiting::Open)
    }

    // Returns the step of the latest that waits, where it binds at least as close as this.
    fn next_step(&self, least: u8) -> Option<Step>
        ensures { result ≡ first_step least (shown self.now).waiting }
    {
        match self.waiting.last() {
            Some(latest) => latest.step_before(least),
            None => None,
        }
    }

    // What waits on top goes to the steps, as long as it binds at least as close as this.
    fn release(&mut self, least: u8) -> Result<(), ReadError>
        ensures { Goes result (shown self.new) (Ok (released least (shown self.old))) }
    {
        'waiting: while let Some(step) = self.next_step(least) {
            let _ = self.latest();
            self.give(step)?;
        }
        Ok(())
    }

    // A parenthesis closes after an operand.
    fn close(&mut self) -> Result<(), ReadError>
        ensures { Goes result (shown self.new) (closed_from self.old.next (shown self.old)) }
    {
        if !matches!(self.next, Next::Operator) {
            return Err(ReadError::NoExpression);
        }
        self.release(1)?;
        match self.latest() {
            Some(Waiting::Open) => Ok(()),
            _ => Err(ReadError::NoExpression),
        }
    }

    // An operator; a minus sign where an operand is expected negates it.
    fn operator(&mut self, operation: BinaryOp) -> Result<(), ReadError>
        ensures { Goes result (shown self.new) (operator_from self.old.next operation (shown self.old)) }
    {
        if matches!(self.next, Next::Operator) {
            self.release(closeness(operation))?;
            self.wait(Waiting::Operation(operation))?;
            self.next = Next::Operand;
            return Ok(());
        }
        match operation {
            BinaryOp::Sub => self.wait(Waiting::Negate),
            _ => Err(ReadError::NoExpression),
        }
    }

    // What ends a number: a space, a parenthesis that closes or an operator.
    fn take_after(&mut self, byte: u8) -> Result<(), ReadError>
        ensures { Goes result (shown self.new) (taken_behind byte (ended (shown self.old))) }
    {
        self.end_number()?;
        match byte {
            b' ' => Ok(()),
            b')' => self.close(),
            _ => match operation_at(byte) {
                Some(operation) => self.operator(operation),
                None => Err(ReadError::NoExpression),
            },
        }
    }

    fn take(&mut self, byte: u8) -> Result<(), ReadError>
        ensures { Goes result (shown self.new) (taken byte (shown self.old)) }
    {
        match byte {
            b'0'..=b'9' => self.digit(byte - b'0'),
            b'x' => self.argument(),
            b'(' => self.open(),
            _ => self.take_after(byte),
        }
    }

    // The text ends: nothing may be left open.
    fn finish(&mut self) -> Result<(), ReadError>
        ensures { Goes result (shown self.new).steps (whole (shown self.old)) }
    {
        self.end_number()?;
        if !matches!(self.next, Next::Operator) {
            return Err(ReadError::NoExpression);
        }
        self.release(1)?;
        if self.waiting.is_empty() {
            Ok(())
        } else {
            Err(ReadError::NoExpression)
        }
    }

    // The bytes of a text.
    #[tactic(auto, unfolding(crate::specs::Reading::read_on))]
    fn take_all(&mut self, text: &[u8]) -> Result<(), ReadError>
        ensures { Goes result (shown self.new) (read_on (shown self.old) text.now) }
    {
        'bytes: for byte in text {
            self.take(*byte)?;
        }
        Ok(())
    }

    // A whole text.
    fn text(&mut self, text: &[u8]) -> Result<(), ReadError>
        ensures { Goes result (shown self.new).steps (whole_of (read_on (shown self.old) text.now)) }
    {
        self.take_all(text)?;
        self.finish()
    }
}

// Returns the steps that a text spells.
fn steps_of(alloc: Global, text: &[u8]) -> Result<Vec<Step>, ReadError>
    ensures ok { IfOk result (λ steps. steps_read text.now ≡ Ok steps.items) }
    ensures err { IfErr result (Fails (steps_read text.now)) }
{
    let mut reader = Reader {
        steps: Vec::new(alloc),
        waiting: Vec::new(alloc),
        next: Next::Operand,
    };
    match reader.text(text) {
        Ok(()) => Ok(reader.steps),
        Err(error) => Err(error),
    }
}

/// Reads an expression: numbers in decimal digits, the argument `x`, `+ - * /`, comparisons `< > =`, parentheses, and a minus sign before an operand. `*` and
/// `/` bind closest, comparisons least, and what binds alike goes from the left; spaces may be anywhere but in a number. The expression has the steps that
/// the text spells; `NoExpression` and `NumberTooWide` come only where it spells none, and `TooLarge` where its steps are too many, or want too many values
/// at once.
pub fn read(alloc: Global, text: &[u8]) -> Result<Expression, ReadError>
    ensures spelled { IfOk result (λ e. Spells comparison text.now e) }
    ensures none { result ≡ Err error.NoExpression → IsNone text.now }
    ensures wide { result ≡ Err error.NumberTooWide → IsNone text.now × HasWideNumber text.now }
    ensures large { result ≡ Err error.TooLarge → IsLarge text.now }
{
    match steps_of(alloc, text) {
        Ok(steps) => match Expression::of(steps) {
            Some(expression) => Ok(expression),
            None => Err(ReadError::TooLarge),
        },
        Err(error) => Err(error),
    }
}
