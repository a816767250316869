// What is said of a line.

ghost use Rattle.std.specs.Prelude.{◌≡◌, ◌++◌};
ghost use Rattle.lg_explain.specs.Sentences.{blamed_line, is_detailed, item_words, reason_line, refusal_lines, register_part, register_parts, registers_line, said_line, sentence_line, sentence_of, step_lines, stuck_lines, text_line, where_words, which_are_allowed, word_line, words_of, words_of_two};
ghost use Rattle.lg_io.specs.Radixes.{digits_in};
ghost use Rattle.lg_io.specs.SinkChanges.{WroteTo, on_sink};
ghost use Rattle.lg_operand.specs.Registers.{register_word};

use crate::line::{Shown, line_in};
use crate::stop::StuckAt;
use lg_base::{HostName, Refusal, RefusalKind};
use lg_io::{Digits, Radix, Sink, SinkFault, write_parts};
use lg_meaning::reason::Reason;
use lg_node::Reg;

// Writes the line of a text.
fn write_text<E: Sink>(file: &[u8], line: u32, text: &[u8], err: &mut E) -> Result<(), SinkFault>
    ensures { WroteTo (on_sink E.taken E.faults err.old err.new) result (text_line file.now line text.now) }
{
    let number = Digits::of(u64::from(line), Radix::Decimal);
    let shown = Shown::of(line_in(text, line));
    write_parts(
        err,
        &[
            file,
            b":",
            number.as_slice(),
            b":     ",
            shown.as_slice(),
            b"\n",
        ],
    )
}

// Writes a sentence, whose parts are these.
fn write_said<'a, E: Sink>(
    file: &'a [u8],
    line: &'a [u8],
    sentence: &'a [u8],
    err: &mut E,
) -> Result<(), SinkFault>
    ensures { WroteTo (on_sink E.taken E.faults err.old err.new) result (said_line file.entry.now line.entry.now sentence.entry.now) }
{
    write_parts(err, &[file, b":", line, b": ", sentence, b"\n"])
}

// Writes a sentence with a word after it, whose parts are these.
fn write_word<'a, E: Sink>(
    file: &'a [u8],
    line: &'a [u8],
    sentence: &'a [u8],
    word: &'a [u8],
    err: &mut E,
) -> Result<(), SinkFault>
    ensures { let words = word_line file.entry.now line.entry.now sentence.entry.now word.entry.now in
        WroteTo (on_sink E.taken E.faults err.old err.new) result words }
{
    write_parts(
        err,
        &[file, b":", line, b": ", sentence, b": ", word, b"\n"],
    )
}

// Returns whether what is blamed is a sentence of its own.
fn is_detailed(kind: RefusalKind) -> bool
    ensures { result ≡ is_detailed kind }
{
    matches!(kind, RefusalKind::BadToken | RefusalKind::BadOperand)
}

// Writes two sentences, each in a line.
fn write_both<E: Sink>(
    file: &[u8],
    line: &[u8],
    first: &[u8],
    second: &[u8],
    err: &mut E,
) -> Result<(), SinkFault>
    ensures { let lines = said_line file.now line.now first.now ++ said_line file.now line.now second.now in
        WroteTo (on_sink E.taken E.faults err.old err.new) result lines }
{
    match write_said(file, line, first, err) {
        Ok(()) => write_said(file, line, second, err),
        Err(fault) => Err(fault),
    }
}

// Writes the sentence of a kind, and what it blames: a word after it, or a sentence of its own.
fn write_blamed<E: Sink>(
    kind: RefusalKind,
    file: &[u8],
    line: &[u8],
    word: &[u8],
    err: &mut E,
) -> Result<(), SinkFault>
    ensures { WroteTo (on_sink E.taken E.faults err.old err.new) result (blamed_line kind file.now line.now word.now) }
{
    let sentence = kind.sentence().as_bytes();
    if is_detailed(kind) {
        write_both(file, line, sentence, word, err)
    } else {
        write_word(file, line, sentence, word, err)
    }
}

// Writes the sentence of a refusal's kind, and the word that it blames.
fn write_sentence<E: Sink>(
    file: &[u8],
    word: &Option<Shown>,
    refusal: Refusal,
    err: &mut E,
) -> Result<(), SinkFault>
    ensures { WroteTo (on_sink E.taken E.faults err.old err.new) result (sentence_line file.now word.now refusal) }
{
    let number = Digits::of(u64::from(refusal.line), Radix::Decimal);
    match word {
        Some(word) => write_blamed(refusal.kind, file, number.as_slice(), word.as_slice(), err),
        None => write_said(
            file,
            number.as_slice(),
            refusal.kind.sentence().as_bytes(),
            err,
        ),
    }
}

/// Writes the line of a text that a refusal names, and the sentence of its kind with the word that it blames. After a fault some of the bytes were
/// written, from the first one on, and not all.
pub fn write_refused<E: Sink>(
    file: &[u8],
    text: &[u8],
    word: &Option<Shown>,
    refusal: Refusal,
    err: &mut E,
) -> Result<(), SinkFault>
    ensures { WroteTo (on_sink E.taken E.faults err.old err.new) result (refusal_lines file.now text.now word.now refusal) }
{
    match write_text(file, refusal.line, text, err) {
        Ok(()) => write_sentence(file, word, refusal, err),
        Err(fault) => Err(fault),
    }
}

// Returns the text of a register.
fn register_word(register: Reg) -> &'static [u8]
    ensures { result.now ≡ register_word register }
{
    match register {
        Reg::R0 => b"%r0",
        Reg::R1 => b"%r1",
        Reg::R2 => b"%r2",
        Reg::V0 => b"%v0",
        Reg::V1 => b"%v1",
        Reg::V2 => b"%v2",
        Reg::Fp => b"%fp",
    }
}

// Writes a number between words.
fn write_words<E: Sink>(
    before: &[u8],
    number: u64,
    radix: Radix,
    behind: &[u8],
    err: &mut E,
) -> Result<(), SinkFault>
    ensures { WroteTo (on_sink E.taken E.faults err.old err.new) result (words_of before.now (digits_in radix number) behind.now) }
{
    let digits = Digits::of(number, radix);
    write_parts(err, &[before, digits.as_slice(), behind])
}

// Writes two numbers between words.
fn write_two<'a, E: Sink>(
    before: &'a [u8],
    first: &'a [u8],
    between: &'a [u8],
    second: &'a [u8],
    behind: &'a [u8],
    err: &mut E,
) -> Result<(), SinkFault>
    ensures { let words = words_of_two before.entry.now first.entry.now between.entry.now second.entry.now behind.entry.now in
        WroteTo (on_sink E.taken E.faults err.old err.new) result words }
{
    write_parts(err, &[before, first, between, second, behind])
}

// Writes what is said of a division.
fn write_quotient<E: Sink>(first: u64, second: u64, err: &mut E) -> Result<(), SinkFault>
    ensures { WroteTo (on_sink E.taken E.faults err.old err.new) result (sentence_of (Reason.NoQuotient first second)) }
{
    let first = Digits::of(first, Radix::Hexadecimal);
    let second = Digits::of(second, Radix::Hexadecimal);
    write_two(
        b"0x",
        first.as_slice(),
        b" cannot be divided by 0x",
        second.as_slice(),
        b"\n",
        err,
    )
}

// Writes what is said of an access.
fn write_outside<E: Sink>(width: u32, address: u64, err: &mut E) -> Result<(), SinkFault>
    ensures { WroteTo (on_sink E.taken E.faults err.old err.new) result (sentence_of (Reason.Outside width address)) }
{
    let width = Digits::of(u64::from(width), Radix::Decimal);
    let address = Digits::of(address, Radix::Hexadecimal);
    write_two(
        b"",
        width.as_slice(),
        b" bytes at 0x",
        address.as_slice(),
        b" do not lie in one part\n",
        err,
    )
}

// Writes what is said of a load.
fn write_unwritten<E: Sink>(width: u32, address: u64, err: &mut E) -> Result<(), SinkFault>
    ensures { WroteTo (on_sink E.taken E.faults err.old err.new) result (sentence_of (Reason.Unwritten width address)) }
{
    let width = Digits::of(u64::from(width), Radix::Decimal);
    let address = Digits::of(address, Radix::Hexadecimal);
    write_two(
        b"of ",
        width.as_slice(),
        b" bytes at 0x",
        address.as_slice(),
        b" one was never written\n",
        err,
    )
}

// Writes what is said of an argument.
fn write_argument<E: Sink>(number: u64, err: &mut E) -> Result<(), SinkFault>
    ensures { WroteTo (on_sink E.taken E.faults err.old err.new) result (sentence_of (Reason.NoVariable number)) }
{
    write_words(
        b"argument ",
        number,
        Radix::Decimal,
        b", counted from 0, was not pushed\n",
        err,
    )
}

// Which arguments a host function allows, to the end of the line: of `printf`, whose arguments after the format are easily passed without an ellipsis.
fn which_are_allowed(name: HostName) -> &'static [u8]
    ensures { result.now ≡ which_are_allowed name }
{
    match name {
        HostName::Printf => {
            b": those after the format come after an ellipsis, one for each conversion\n"
        }
        _ => b"\n",
    }
}

// Writes what is said of a reason.
fn write_sentence_of<E: Sink>(reason: Reason, err: &mut E) -> Result<(), SinkFault>
    ensures { WroteTo (on_sink E.taken E.faults err.old err.new) result (sentence_of reason) }
{
    match reason {
        Reason::Unset(register) => write_parts(err, &[register_word(register), b" is undefined\n"]),
        Reason::NoCarry => write_parts(
            err,
            &[
                b"no carry of this kind is left: addc makes one for addx, subc for subx, and all but moves, loads and stores end it\n",
            ],
        ),
        Reason::NoQuotient { first, second } => write_quotient(first, second, err),
        Reason::Outside { width, address } => write_outside(width, address, err),
        Reason::Unwritten { width, address } => write_unwritten(width, address, err),
        Reason::NoLabel(word) => write_words(
            b"0x",
            word,
            Radix::Hexadecimal,
            b" is the address of no label of this function that movi, pushargi or reti takes\n",
            err,
        ),
        Reason::NoFunction(word) => write_words(
            b"0x",
            word,
            Radix::Hexadecimal,
            b" is the address of no function\n",
            err,
        ),
        Reason::NoRoom(size) => write_words(
            b"the stack has no room for a frame of ",
            u64::from(size),
            Radix::Decimal,
            b" bytes\n",
            err,
        ),
        Reason::NoResult => write_parts(err, &[b"no call with a result has just returned\n"]),
        Reason::NoArgument(number) => write_argument(u64::from(number), err),
        Reason::NotAllowed(name) => write_parts(
            err,
            &[
                b"@",
                name.word(),
                b" does not allow its arguments",
                which_are_allowed(name),
            ],
        ),
        Reason::NoVariable(number) => write_argument(number, err),
    }
}

// Writes what is before that.
fn write_item<E: Sink>(file: &[u8], line: u32, reason: Reason, err: &mut E) -> Result<(), SinkFault>
    ensures { WroteTo (on_sink E.taken E.faults err.old err.new) result (item_words file.now line reason) }
{
    let number = Digits::of(u64::from(line), Radix::Decimal);
    let item = Digits::of(u64::from(reason.item()), Radix::Decimal);
    write_parts(
        err,
        &[
            file,
            b":",
            number.as_slice(),
            b": item ",
            item.as_slice(),
            b": ",
        ],
    )
}

// Writes the number of a row of the table of undefined steps, and what is said of it.
fn write_reason<E: Sink>(
    file: &[u8],
    line: u32,
    reason: Reason,
    err: &mut E,
) -> Result<(), SinkFault>
    ensures { WroteTo (on_sink E.taken E.faults err.old err.new) result (reason_line file.now line reason) }
{
    match write_item(file, line, reason, err) {
        Ok(()) => write_sentence_of(reason, err),
        Err(fault) => Err(fault),
    }
}

// Writes a register and what it holds.
fn write_register<E: Sink>(register: Reg, held: Option<u64>, err: &mut E) -> Result<(), SinkFault>
    ensures { WroteTo (on_sink E.taken E.faults err.old err.new) result (register_part register held) }
{
    match held {
        None => write_parts(err, &[b" ", register_word(register), b" undefined"]),
        Some(word) => {
            let digits = Digits::of(word, Radix::Hexadecimal);
            write_parts(
                err,
                &[b" ", register_word(register), b" 0x", digits.as_slice()],
            )
        }
    }
}

// Writes registers and what they hold, to the end of the line.
fn write_parts_of<E: Sink>(registers: &[(Reg, Option<u64>)], err: &mut E) -> Result<(), SinkFault>
    ensures { WroteTo (on_sink E.taken E.faults err.old err.new) result (register_parts registers.now) }
{
    match registers {
        [] => write_parts(err, &[b"\n"]),
        [(register, held), others @ ..] => match write_register(*register, *held, err) {
            Ok(()) => write_parts_of(others, err),
            Err(fault) => Err(fault),
        },
    }
}

// Writes where the registers are reported.
fn write_where<E: Sink>(file: &[u8], line: u32, err: &mut E) -> Result<(), SinkFault>
    ensures { WroteTo (on_sink E.taken E.faults err.old err.new) result (where_words file.now line) }
{
    let number = Digits::of(u64::from(line), Radix::Decimal);
    write_parts(err, &[file, b":", number.as_slice(), b":"])
}

// Writes the line of the registers.
fn write_registers<E: Sink>(
    file: &[u8],
    line: u32,
    registers: &[(Reg, Option<u64>)],
    err: &mut E,
) -> Result<(), SinkFault>
    ensures { WroteTo (on_sink E.taken E.faults err.old err.new) result (registers_line file.now line registers.now) }
{
    match write_where(file, line, err) {
        Ok(()) => write_parts_of(registers, err),
        Err(fault) => Err(fault),
    }
}

// Writes why a step is undefined, and what the registers hold.
fn write_stuck<E: Sink>(
    file: &[u8],
    line: u32,
    stuck: &StuckAt,
    err: &mut E,
) -> Result<(), SinkFault>
    ensures { WroteTo (on_sink E.taken E.faults err.old err.new) result (stuck_lines file.now line stuck.now) }
{
    match write_reason(file, line, stuck.reason, err) {
        Ok(()) => write_registers(file, line, &stuck.registers, err),
        Err(fault) => Err(fault),
    }
}

/// Writes the line of a text at which a step is undefined, why it is, and what the registers hold. After a fault some of the bytes were written, from the
/// first one on, and not all.
pub fn write_undefined<E: Sink>(
    file: &[u8],
    text: &[u8],
    line: u32,
    stuck: &StuckAt,
    err: &mut E,
) -> Result<(), SinkFault>
    ensures { WroteTo (on_sink E.taken E.faults err.old err.new) result (step_lines file.now text.now line stuck.now) }
{
    match write_text(file, line, text, err) {
        Ok(()) => write_stuck(file, line, stuck, err),
        Err(fault) => Err(fault),
    }
}
