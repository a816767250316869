// The lines of the generator that do not hang on its draws, and those of a piece.

ghost use Rattle.std.specs.Prelude.{◌≡◌, ◌++◌, OnOk, IfOk};
ghost use Rattle.lg_run.specs.Made.{call_of, drawn, end_of, next, one_piece, piece_by, start_of, sum_of, turned};

use crate::code_text::CodeText;
use lg_base::OutOfMemory;
use lg_io::{Digits, Radix};

/// Returns the state after a draw.
pub fn next(state: u64) -> u64
    ensures { result ≡ next state }
{
    state
        .wrapping_mul(6_364_136_223_846_793_005)
        .wrapping_add(1_442_695_040_888_963_407)
}

/// Returns what a draw gives that leaves this state.
pub fn drawn(state: u64) -> u64
    ensures { result ≡ drawn state }
{
    state / 8_589_934_592
}

/// The head of the function of this number, which begins with the number that was drawn.
pub fn push_start(text: &mut CodeText, function: u64, first: u64) -> Result<(), OutOfMemory>
    ensures { OnOk result (text.new ≡ text.old ++ start_of function first) }
{
    let function = Digits::of(function, Radix::Decimal);
    let first = Digits::of(first, Radix::Decimal);
    text.push_row(&[
        b"f",
        function.as_slice(),
        b":\nprolog\narg $a\ngetarg %v0 $a\nmovi %v1 ",
        first.as_slice(),
        b"\nmovi %v2 8\nl",
        function.as_slice(),
        b":\n",
    ])?;
    Ok(())
}

/// The end of the function of this number.
pub fn push_end(text: &mut CodeText, function: u64) -> Result<(), OutOfMemory>
    ensures { OnOk result (text.new ≡ text.old ++ end_of function) }
{
    let function = Digits::of(function, Radix::Decimal);
    text.push_row(&[
        b"subi %v2 %v2 1\nbgti l",
        function.as_slice(),
        b" %v2 0\nretr %v0\nepilog\n",
    ])?;
    Ok(())
}

/// The call of the function of this number.
pub fn push_call(text: &mut CodeText, function: u64) -> Result<(), OutOfMemory>
    ensures { OnOk result (text.new ≡ text.old ++ call_of function) }
{
    let function = Digits::of(function, Radix::Decimal);
    text.push_row(&[
        b"prepare pushargr %v0 finishi f",
        function.as_slice(),
        b" retval %v0\n",
    ])?;
    Ok(())
}

// A shift by a number that is drawn: the state after it.
fn push_turned(text: &mut CodeText, state: u64) -> Result<u64, OutOfMemory>
    ensures { IfOk result (λ s. (text.new ≡ text.old ++ (turned state).0) × (s ≡ (turned state).1)) }
{
    let state = next(state);
    let count = Digits::of(drawn(state) % 63 + 1, Radix::Decimal);
    text.push_row(&[b"rshi_u %r0 %v0 ", count.as_slice(), b" xorr %v0 %v0 %r0\n"])?;
    Ok(state)
}

// A sum with a number that is drawn: the state after it.
fn push_sum(text: &mut CodeText, state: u64) -> Result<u64, OutOfMemory>
    ensures { IfOk result (λ s. (text.new ≡ text.old ++ (sum_of state).0) × (s ≡ (sum_of state).1)) }
{
    let state = next(state);
    let number = Digits::of(drawn(state), Radix::Decimal);
    text.push_row(&[b"addi %v1 %v1 ", number.as_slice(), b"\n"])?;
    Ok(state)
}

// A line, and the state as it is.
fn push_line(text: &mut CodeText, line: &[u8], state: u64) -> Result<u64, OutOfMemory>
    ensures { IfOk result (λ s. (text.new ≡ text.old ++ line.now) × (s ≡ state)) }
{
    text.push_row(&[line])?;
    Ok(state)
}

// The line of a piece: the state after it.
fn push_by(text: &mut CodeText, which: u64, state: u64) -> Result<u64, OutOfMemory>
    ensures { IfOk result (λ s. (text.new ≡ text.old ++ (piece_by which state).0) × (s ≡ (piece_by which state).1)) }
{
    match which {
        0 => push_line(text, b"addr %v0 %v0 %v1\n", state),
        1 => push_line(text, b"subr %v1 %v0 %v1\n", state),
        2 => push_line(text, b"xorr %v0 %v1 %v0\n", state),
        3 => push_line(text, b"mulr %v1 %v1 %v0\n", state),
        4 => push_turned(text, state),
        5 => push_sum(text, state),
        6 => push_line(
            text,
            b"ori %r1 %v1 1 remr_u %r2 %v0 %r1 addr %v0 %v0 %r2\n",
            state,
        ),
        _ => push_line(text, b"ltr_u %r0 %v0 %v1 addr %v1 %v1 %r0\n", state),
    }
}

/// A piece, which is drawn: the state after it.
#[tactic(auto, unfolding(crate::specs::Made::one_piece))]
pub fn push_piece(text: &mut CodeText, state: u64) -> Result<u64, OutOfMemory>
    ensures { IfOk result (λ s. (text.new ≡ text.old ++ (one_piece state).0) × (s ≡ (one_piece state).1)) }
{
    let state = next(state);
    push_by(text, drawn(state) % 8, state)
}
