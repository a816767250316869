// The top call.

ghost use Rattle.std.specs.Prelude.{◌≡◌, [], ◌++◌, Some};
ghost use Rattle.lg_base.specs.Arguments.{texts_of};
ghost use Rattle.lg_command.specs.Commands.{shown};
ghost use Rattle.lg_command.specs.Plans.{report_of, source_of};
ghost use Rattle.lg_run.specs.Causes.{Causes};
ghost use Rattle.lg_io.specs.Readings.{IsReadOnce};
ghost use Rattle.lg_io.specs.SinkChanges.{WroteTo, on_sink};
ghost use Rattle.lg_run.specs.Changes.{on_texts};
ghost use Rattle.lg_run.specs.Explanations.{explained_of};
ghost use Rattle.lg_run.specs.Lines.{line_of};
ghost use Rattle.lg_run.specs.Profiles.{table_of};
ghost use Rattle.lg_run.specs.Calls.{Says};
ghost use Rattle.lg_run.specs.Reads.{ReadsFewAsked};
ghost use Rattle.lg_run.specs.Says.{AskForNoFile, ReportSays, lines_of, name_in};

use crate::answer::{Answer, Done};
use crate::explain::write_explained;
use crate::lines::{write_line, write_lines};
use crate::profile::{Worked, write_table};
use crate::work::{without_code, work};
use lg_command::{Command, Source, WordsStop, read_words};
use lg_io::{Sink, SinkFault, Texts};
use std::alloc::Global;

// Returns the name of a command's text in the line of a refusal.
fn name_in<'a>(command: &Command<'a>) -> &'a str
    ensures { result.now ≡ name_in (source_of command.now.mode) (shown command.now) }
{
    match command.mode.plan().source {
        Source::Generator => "gen",
        Source::File | Source::Listing => command.file,
    }
}

/// Writes the line of an answer to words that ask for no command. Where that fails, the answer is a write fault.
pub fn report_words<E: Sink>(answer: Answer, err: &mut E) -> Answer
    ensures { ReportSays (line_of [] 0 answer) (on_sink E.taken E.faults err.old err.new) answer result }
{
    match write_line("", answer, 0, err) {
        Ok(()) => answer,
        Err(_) => Answer::WriteFault,
    }
}

// Writes the lines of an answer to a command: the statistics, where they are asked for, and the line of the answer.
fn write_answer<E: Sink>(command: &Command<'_>, done: &Done, err: &mut E) -> Result<(), SinkFault>
    ensures { let lines = lines_of (Some (shown command.now)) done.now.code done.now.steps done.now.answer in
        WroteTo (on_sink E.taken E.faults err.old err.new) result lines }
{
    write_lines(
        command.stats,
        name_in(command),
        &done.code,
        done.answer,
        done.steps,
        err,
    )
}

// Writes them, and after them what explains the answer.
fn write_told<E: Sink>(command: &Command<'_>, worked: &Worked, err: &mut E) -> Result<(), SinkFault>
    ensures { let lines = lines_of (Some (shown command.now)) worked.now.done.code worked.now.done.steps worked.now.done.answer in
        let explained = explained_of (report_of command.now.mode) command.now.file.now worked.now in
        WroteTo (on_sink E.taken E.faults err.old err.new) result (lines ++ explained) }
{
    match write_answer(command, &worked.done, err) {
        Ok(()) => write_explained(command.mode.plan().report, command.file, worked, err),
        Err(fault) => Err(fault),
    }
}

// Writes the lines of what was done for a command: the table of a profile, the lines of the answer, and what explains it.
fn write_report<E: Sink>(
    command: &Command<'_>,
    worked: &Worked,
    err: &mut E,
) -> Result<(), SinkFault>
    ensures { let lines = lines_of (Some (shown command.now)) worked.now.done.code worked.now.done.steps worked.now.done.answer in
        let explained = explained_of (report_of command.now.mode) command.now.file.now worked.now in
        WroteTo (on_sink E.taken E.faults err.old err.new) result (table_of worked.now.tally ++ (lines ++ explained)) }
{
    match write_table(&worked.tally, err) {
        Ok(()) => write_told(command, worked, err),
        Err(fault) => Err(fault),
    }
}

/// Writes the lines of what was done for a command, but a run that ended without statistics and without a profile writes none. Where that fails, the answer
/// is a write fault.
pub fn report<E: Sink>(command: &Command<'_>, worked: &Worked, err: &mut E) -> Answer
    ensures { let lines = lines_of (Some (shown command.now)) worked.now.done.code worked.now.done.steps worked.now.done.answer in
        let explained = explained_of (report_of command.now.mode) command.now.file.now worked.now in
        ReportSays (table_of worked.now.tally ++ (lines ++ explained)) (on_sink E.taken E.faults err.old err.new) worked.now.done.answer result }
{
    match write_report(command, worked, err) {
        Ok(()) => worked.done.answer,
        Err(_) => Answer::WriteFault,
    }
}

// The top call, with what its answer says.
fn answer<T: Texts, O: Sink, E: Sink>(
    alloc: Global,
    words: &Vec<String>,
    texts: &mut T,
    out: &mut O,
    err: &mut E,
) -> Done
    ensures says { let texts_change = on_texts T.held T.faults T.sure texts.old texts.new in
        let out_change = on_sink O.taken O.faults out.old out.new in
        let err_change = on_sink E.taken E.faults err.old err.new in
        Says (texts_of words.now.items) texts_change out_change err_change result }
    ensures once { IsReadOnce (T.reading texts.old) (T.reading texts.new) }
    ensures unread { AskForNoFile (texts_of words.now.items) → T.reading texts.new ≡ T.reading texts.old }
    ensures few { ReadsFewAsked (texts_of words.now.items) (T.held texts.old) (T.left texts.old) (T.left texts.new) }
{
    match read_words(alloc, words) {
        Ok(command) => {
            let worked = work(alloc, &command, texts, out);
            let answer = report(&command, &worked, err);
            Done {
                answer,
                code: worked.done.code,
                steps: worked.done.steps,
            }
        }
        Err(WordsStop::Usage) => without_code(report_words(Answer::Usage, err)),
        Err(WordsStop::OutOfMemory) => without_code(report_words(Answer::OutOfMemory, err)),
    }
}

/// Reads the words of the command, and the text of its file, which it expands, or makes the generator's text (`--mode gen`); makes code of the text's unit
/// for the command's target, and runs the code on a model of the processor, or, with `--mode mean`, the unit's portable meaning over the addresses of the
/// code's labels, for at most as many steps as the command says; or, with `--mode list`, writes the code's listing; or, with `--mode back`, reads the file's
/// text as a listing, and writes the bytes that it is of; or, with `--mode profile`, runs the code, and then the meaning, and returns how many steps of both
/// belong to each line; or, with `--mode explain`, runs the meaning as with `mean`, and reports why the text is refused or a step is undefined. What the run
/// writes, the listing and these bytes go to `out`, and the table of a profile, the statistics, the line of every answer but an end and what explains it to
/// `err`. All memory is taken before the first step and before the first line. At most one text is selected, once, that of the command's file, and it is read
/// from its start on, not again where a read found its end or failed, and at most 16,777,216 bytes and a piece of 65,536 of it.
pub fn lightning<T: Texts, O: Sink, E: Sink>(
    alloc: Global,
    words: &Vec<String>,
    texts: &mut T,
    out: &mut O,
    err: &mut E,
) -> Done
    ensures says { let texts_change = on_texts T.held T.faults T.sure texts.old texts.new in
        let out_change = on_sink O.taken O.faults out.old out.new in
        let err_change = on_sink E.taken E.faults err.old err.new in
        Says (texts_of words.now.items) texts_change out_change err_change result }
    ensures causes { let texts_change = on_texts T.held T.faults T.sure texts.old texts.new in
        let out_change = on_sink O.taken O.faults out.old out.new in
        let err_change = on_sink E.taken E.faults err.old err.new in
        Causes (texts_of words.now.items) texts_change out_change err_change result }
    ensures once { IsReadOnce (T.reading texts.old) (T.reading texts.new) }
    ensures unread { AskForNoFile (texts_of words.now.items) → T.reading texts.new ≡ T.reading texts.old }
    ensures few { ReadsFewAsked (texts_of words.now.items) (T.held texts.old) (T.left texts.old) (T.left texts.new) }
{
    answer(alloc, words, texts, out, err)
}
