// What is done with a listing that is read back.

ghost use Rattle.std.specs.Prelude.{◌≡◌, ◌≤◌, length, None};
ghost use Rattle.lg_command.specs.Commands.{shown};
ghost use Rattle.lg_command.specs.Plans.{source_of};
ghost use Rattle.lg_command.specs.declared.plan.Source.TheVariants as sources;
ghost use Rattle.lg_io.specs.Readings.{IsReadOnce};
ghost use Rattle.lg_io.specs.SinkChanges.{on_sink};
ghost use Rattle.lg_run.specs.Changes.{TellsWrites, on_texts};
ghost use Rattle.lg_run.specs.Reads.{ReadsFewOf};
ghost use Rattle.lg_run.specs.Refused.{ArgumentsFit, most_text};
ghost use Rattle.lg_run.specs.Says.{BytesSay};
ghost use Rattle.lg_run.specs.Work.{ReadDone, TellsNoRead, WorkDone};

use crate::answer::{Answer, Done};
use crate::source::{ReadStop, read_text};
use crate::work::{refusal, stopped, without_code};
use lg_back::read_back;
use lg_base::RefusalKind;
use lg_command::Command;
use lg_io::{Sink, Texts, write_all};
use std::alloc::Global;

// Writes the bytes that a listing is of.
fn write_bytes<O: Sink>(bytes: &[u8], out: &mut O) -> Done
    ensures says { BytesSay bytes.now (on_sink O.taken O.faults out.old out.new) result.answer }
    ensures none { (result.code ≡ None) × (result.steps ≡ 0) }
    ensures writes { TellsWrites result.answer (on_sink O.taken O.faults out.old out.new) }
{
    match write_all(out, bytes) {
        Ok(()) => without_code(Answer::Listed),
        Err(_) => without_code(Answer::WriteFault),
    }
}

// Reads a text as a listing, and writes the bytes that it is of.
fn do_listing<O: Sink>(alloc: Global, command: &Command<'_>, read: &[u8], out: &mut O) -> Done
    requires listing { source_of command.now.mode ≡ sources.Listing }
    requires fits { ArgumentsFit (shown command.now) }
    requires short { length read.now ≤ most_text }
    ensures says { ReadDone (shown command.now) read.now (on_sink O.taken O.faults out.old out.new) result }
    ensures writes { TellsWrites result.answer (on_sink O.taken O.faults out.old out.new) }
    ensures reads { TellsNoRead result.answer }
{
    match read_back(alloc, read) {
        Ok(back) => write_bytes(back.bytes().as_slice(), out),
        Err(stop) => without_code(stopped(stop)),
    }
}

/// Reads what is under the name of a command's file as a listing, and writes the bytes that it is of. Nothing is assembled, and nothing runs.
pub fn do_back<T: Texts, O: Sink>(
    alloc: Global,
    command: &Command<'_>,
    texts: &mut T,
    out: &mut O,
) -> Done
    requires listing { source_of command.now.mode ≡ sources.Listing }
    requires fits { ArgumentsFit (shown command.now) }
    ensures says { WorkDone (shown command.now) (on_texts T.held T.faults T.sure texts.old texts.new) (on_sink O.taken O.faults out.old out.new) result }
    ensures once { IsReadOnce (T.reading texts.old) (T.reading texts.new) }
    ensures few { ReadsFewOf (T.held texts.old) command.now.file.now (T.left texts.old) (T.left texts.new) }
{
    match read_text(alloc, command.file, texts) {
        Ok(read) => do_listing(alloc, command, &read, out),
        Err(ReadStop::ReadFault) => without_code(Answer::ReadFault),
        Err(ReadStop::TooLong) => without_code(Answer::Refused(refusal(RefusalKind::TextTooLong))),
        Err(ReadStop::OutOfMemory) => without_code(Answer::OutOfMemory),
    }
}
