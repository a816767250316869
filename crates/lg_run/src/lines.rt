// The lines on err.

ghost use Rattle.std.specs.Prelude.{◌≡◌, [], ◌++◌, Some};
ghost use Rattle.lg_io.specs.SinkChanges.{WroteTo, on_sink};
ghost use Rattle.lg_run.specs.Lines.{code_stats, is_write_fault, line_of, refusal_line, stats_line, stats_of};

use crate::answer::Answer;
use lg_asm::Code;
use lg_base::{FaultKind, Refusal};
use lg_io::{Digits, Radix, Sink, SinkFault, write_parts};

fn write_undefined<E: Sink>(line: u32, steps: u64, err: &mut E) -> Result<(), SinkFault>
    ensures { WroteTo (on_sink E.taken E.faults err.old err.new) result (line_of [] steps (Answer.Undefined line)) }
{
    let line = Digits::of(u64::from(line), Radix::Decimal);
    let steps = Digits::of(steps, Radix::Decimal);
    write_parts(
        err,
        &[
            b"lightning: undefined at line ",
            line.as_slice(),
            b" after ",
            steps.as_slice(),
            b"\n",
        ],
    )
}

// Writes the line of a refusal, whose parts are these.
fn write_refusal<'a, E: Sink>(
    file: &'a [u8],
    line: &'a [u8],
    number: &'a [u8],
    name: &'a [u8],
    err: &mut E,
) -> Result<(), SinkFault>
    ensures { WroteTo (on_sink E.taken E.faults err.old err.new) result (refusal_line file.entry.now line.entry.now number.entry.now name.entry.now) }
{
    write_parts(
        err,
        &[
            b"lightning: ",
            file,
            b":",
            line,
            b": refused ",
            number,
            b" ",
            name,
            b"\n",
        ],
    )
}

fn write_refused<E: Sink>(file: &str, refusal: Refusal, err: &mut E) -> Result<(), SinkFault>
    ensures { WroteTo (on_sink E.taken E.faults err.old err.new) result (line_of file.now 0 (Answer.Refused refusal)) }
{
    let line = Digits::of(u64::from(refusal.line), Radix::Decimal);
    let number = Digits::of(u64::from(refusal.kind.number()), Radix::Decimal);
    write_refusal(
        file.as_bytes(),
        line.as_slice(),
        number.as_slice(),
        refusal.kind.name().as_bytes(),
        err,
    )
}

fn write_steps_out<E: Sink>(steps: u64, err: &mut E) -> Result<(), SinkFault>
    ensures { WroteTo (on_sink E.taken E.faults err.old err.new) result (line_of [] steps Answer.StepsOut) }
{
    let steps = Digits::of(steps, Radix::Decimal);
    write_parts(
        err,
        &[b"lightning: steps out after ", steps.as_slice(), b"\n"],
    )
}

fn write_fault<E: Sink>(kind: FaultKind, pc: u64, steps: u64, err: &mut E) -> Result<(), SinkFault>
    ensures { WroteTo (on_sink E.taken E.faults err.old err.new) result (line_of [] steps (Answer.Fault kind pc)) }
{
    let pc = Digits::of(pc, Radix::Hexadecimal);
    let steps = Digits::of(steps, Radix::Decimal);
    write_parts(
        err,
        &[
            b"lightning: fault ",
            kind.name().as_bytes(),
            b" at 0x",
            pc.as_slice(),
            b" after ",
            steps.as_slice(),
            b"\n",
        ],
    )
}

/// Writes the line of an answer, where it has one.
pub fn write_line<E: Sink>(
    file: &str,
    answer: Answer,
    steps: u64,
    err: &mut E,
) -> Result<(), SinkFault>
    ensures { WroteTo (on_sink E.taken E.faults err.old err.new) result (line_of file.now steps answer) }
{
    match answer {
        Answer::Ended(_) => write_parts(err, &[]),
        Answer::Listed => write_parts(err, &[]),
        Answer::Undefined { line } => write_undefined(line, steps, err),
        Answer::Refused(refusal) => write_refused(file, refusal, err),
        Answer::Usage => write_parts(
            err,
            &[
                b"lightning: usage: lightning [--mode M] [--target T] [--steps N] [--code N] [--seed N] [--stats] [FILE [ARG]...]\n",
            ],
        ),
        Answer::ReadFault => write_parts(err, &[b"lightning: read fault\n"]),
        Answer::WriteFault => write_parts(err, &[b"lightning: write fault\n"]),
        Answer::StepsOut => write_steps_out(steps, err),
        Answer::Fault { kind, pc } => write_fault(kind, pc, steps, err),
        Answer::OutOfMemory => write_parts(err, &[b"lightning: out of memory\n"]),
    }
}

// Writes the line of the statistics, by their digits.
fn write_numbers<E: Sink>(
    bytes: u64,
    nodes: u64,
    spills: u64,
    steps: u64,
    err: &mut E,
) -> Result<(), SinkFault>
    ensures { WroteTo (on_sink E.taken E.faults err.old err.new) result (stats_line bytes nodes spills steps) }
{
    let bytes = Digits::of(bytes, Radix::Decimal);
    let nodes = Digits::of(nodes, Radix::Decimal);
    let spills = Digits::of(spills, Radix::Decimal);
    let steps = Digits::of(steps, Radix::Decimal);
    write_parts(
        err,
        &[
            b"bytes ",
            bytes.as_slice(),
            b" nodes ",
            nodes.as_slice(),
            b" spills ",
            spills.as_slice(),
            b" steps ",
            steps.as_slice(),
            b"\n",
        ],
    )
}

// Writes the statistics of code and of a run of this many steps.
fn write_code_stats<E: Sink>(code: &Code, steps: u64, err: &mut E) -> Result<(), SinkFault>
    ensures { WroteTo (on_sink E.taken E.faults err.old err.new) result (code_stats (Some code.now) steps) }
{
    write_numbers(
        u64::from(code.bytes().len()),
        u64::from(code.nodes().len()),
        u64::from(code.spills()),
        steps,
        err,
    )
}

// Returns whether an answer is a write fault.
fn is_write_fault(answer: Answer) -> bool
    ensures { result ≡ is_write_fault answer }
{
    matches!(answer, Answer::WriteFault)
}

// Writes the statistics where they are asked for, there is code, and out did not fail.
fn write_stats<E: Sink>(
    told: bool,
    code: &Option<Code>,
    answer: Answer,
    steps: u64,
    err: &mut E,
) -> Result<(), SinkFault>
    ensures { WroteTo (on_sink E.taken E.faults err.old err.new) result (stats_of told code.now steps answer) }
{
    if !told || is_write_fault(answer) {
        return Ok(());
    }
    match code {
        Some(code) => write_code_stats(code, steps, err),
        None => Ok(()),
    }
}

/// Writes the lines of an answer to a command: the statistics, where they are asked for, and the line of the answer.
pub fn write_lines<E: Sink>(
    told: bool,
    file: &str,
    code: &Option<Code>,
    answer: Answer,
    steps: u64,
    err: &mut E,
) -> Result<(), SinkFault>
    ensures { WroteTo (on_sink E.taken E.faults err.old err.new) result (stats_of told code.now steps answer ++ line_of file.now steps answer) }
{
    match write_stats(told, code, answer, steps, err) {
        Ok(()) => write_line(file, answer, steps, err),
        Err(fault) => Err(fault),
    }
}
